// What the parser does where a term or a clause begins, and behind a term: a phrase at a time.

mod clauses;
mod terms;

pub use terms::within;
