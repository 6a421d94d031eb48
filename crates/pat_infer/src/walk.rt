// The walk of backward typing, of a function from its body down: what it needs, its variables, constraints and types of nodes, or
// the first broken rule.

mod function;
mod walk;

pub use function::walk_function;
pub use walk::Signed;
