//! Wrong answers.
use crate::plain::Plain;
use thiserror::Error;

/// What was answered wrongly, and the code that did.
#[derive(Clone, Copy, Debug, Drop, Error)]
pub enum Wrong {
    #[error("{plain}: wrong answer to the word {word:x}")]
    Answer { plain: Plain, word: u64 },
    #[error("{plain}: wrong codeword of the message {message:x}")]
    Codeword { plain: Plain, message: u64 },
}
