// The demands of each node of a derivation.

mod dispatch;
mod nodes;
mod opening;
mod terms;

pub use dispatch::term;
pub use nodes::demands;
pub use opening::signatures;
pub use terms::first;
