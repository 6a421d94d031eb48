// Patterns as core programs have them, as text.

mod numbered_pattern;

pub use numbered_pattern::{pattern_text, pattern_text_law, push_pattern};
