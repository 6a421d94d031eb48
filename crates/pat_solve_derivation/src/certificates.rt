// Certificates of the inclusions that a node needs, where the values of variables show the constraints of a program.

mod adding;
mod apart;
mod closed;
mod context;
mod covers;
mod sides;

pub use adding::certificates;
pub use apart::is_let_apart;
pub use closed::unmade_forms;
pub use context::Solved;
pub use pat_certificate_checks::plain_values;
