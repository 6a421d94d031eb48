// What a call of `pat` answers: a text, and a status.

mod answer;
mod status;

pub use answer::{Answer, accepted_answer, refused, verdict_answer, verdict_answer_with};
pub use status::Status;
