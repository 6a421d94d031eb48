// What is found of one interface: the values of its variables, which show its constraints, or the first reason why there are none.

mod forms;

pub use forms::{InterfaceForm, Unshown, interface_form};
