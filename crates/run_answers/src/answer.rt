//! What a run has to write.
ghost use Rattle.std.specs.Prelude.{◌≡◌};
ghost use Rattle.run_answers.specs.Texts.{no_memory_text};
ghost use Rattle.run_answers.specs.Written.{bytes_in};

use crate::status::Status;

/// A text that is always the same, or one that was made.
#[derive(Drop)]
pub enum Text {
    Fixed(&'static [u8]),
    Made(Vec<u8>),
}

impl Text {
    /// Its bytes.
    pub fn as_slice(&self) -> &[u8]
        ensures { result.now ≡ bytes_in self.now }
    {
        match self {
            Text::Fixed(bytes) => bytes,
            Text::Made(bytes) => bytes.as_slice(),
        }
    }
}

/// A status, and the text that goes with it.
#[derive(Drop)]
pub struct Answer {
    pub status: Status,
    pub text: Text,
}

/// A status with a text that is always the same.
pub fn fixed(status: Status, text: &'static [u8]) -> Answer
    ensures status { result.status ≡ status }
    ensures text { bytes_in result.text ≡ text.now }
{
    Answer {
        status,
        text: Text::Fixed(text),
    }
}

/// A status with a text that was made.
pub fn made(status: Status, text: Vec<u8>) -> Answer
    ensures status { result.status ≡ status }
    ensures text { bytes_in result.text ≡ text.items }
{
    Answer {
        status,
        text: Text::Made(text),
    }
}

/// Want of memory, written without memory.
pub fn no_memory() -> Answer
    ensures status { result.status ≡ Status.NoMemory }
    ensures text { bytes_in result.text ≡ no_memory_text }
{
    fixed(Status::NoMemory, b"no memory\n")
}
