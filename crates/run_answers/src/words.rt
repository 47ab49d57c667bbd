//! The words of a command line.
use std::{env, io};

/// Why the system gave no words.
#[derive(Clone, Copy)]
pub enum NoWords {
    NoMemory,
    Other,
}

/// The words after the program's name. That they are the right ones is trusted.
pub fn given_words(rt: &HostRuntime) -> Result<Vec<String>, NoWords> {
    let given = env::args(rt).map_err(|error| match error.kind() {
        io::ErrorKind::OutOfMemory => NoWords::NoMemory,
        _ => NoWords::Other,
    })?;
    let mut words = Vec::new(rt.alloc());
    for word in given.skip(1) {
        words.push(word).map_err(|_| NoWords::NoMemory)?;
    }
    Ok(words)
}
