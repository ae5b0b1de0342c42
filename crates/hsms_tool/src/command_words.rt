//! The words of the command line.

use crate::presentation::{Presentation, asks_for_words};
use cli_advice::Failure;
use cli_options::{ToolFault, no_request};
use std::alloc::{AllocError, Global};
use std::env::FillError;
use std::io::ErrorKind;
use std::rt::Env;
use std::{env, str};

// The maximum number of bytes of a word that an error shows.
const ROOM: usize = 4096;

/// Returns the words of the command line without the options of every command, which are followed.
///
/// # Errors
///
/// Returns the error of an invalid command line if a word is not UTF-8, with the word.
pub fn words<R: AllocGlobal + Env>(
    alloc: Global,
    rt: &R,
    presentation: &mut Presentation,
) -> Result<Vec<String>, Failure> {
    match env::args(rt) {
        Ok(words) => presentation.follow(alloc, words.collect(alloc)?),
        Err(error) if error.kind() == ErrorKind::OutOfMemory => {
            Err(Failure::from(ToolFault::Memory))
        }
        Err(_) => {
            let read = lossy_words(alloc, rt)?;
            presentation.is_verbose = presentation.is_verbose || asks_for_words(&read.words);
            Err(Failure::said(no_request(alloc), read.explained(alloc)))
        }
    }
}

// The words of a command line of which one is not UTF-8. There each byte outside UTF-8 is replaced by U+FFFD.
#[derive(Drop)]
struct LossyWords {
    words: Vec<String>,
    // The first word that is not UTF-8, from 0.
    unreadable: Option<usize>,
}

impl LossyWords {
    // Appends a word.
    fn push(&mut self, alloc: Global, word: &[u8]) -> Result<(), AllocError> {
        if self.unreadable.is_none() && str::from_utf8(word).is_err() {
            self.unreadable = Some(self.words.len());
        }
        Ok(self.words.push(String::from_utf8_lossy(alloc, word)?)?)
    }

    // Returns which word is not UTF-8.
    fn explained(&self, alloc: Global) -> Result<String, AllocError> {
        let word = self
            .words
            .get(self.unreadable.unwrap_or(0))
            .map_or("", |word| word.as_str());
        format!(in alloc;
            "{word}: this word is not UTF-8: rename the file, or read it from standard input"
        )
    }
}

// Returns the words of the command line. A longer one than can be shown is empty.
fn lossy_words<R: Env>(alloc: Global, rt: &R) -> Result<LossyWords, AllocError> {
    let mut read = LossyWords {
        words: Vec::new(alloc),
        unreadable: None,
    };
    let mut room = [0u8; ROOM];
    for at in 0..usize::MAX {
        match rt.arg(at, &mut room) {
            Ok(length) => read.push(alloc, room.get(..length).unwrap_or(&[]))?,
            Err(FillError::TooLong) => read.push(alloc, &[])?,
            Err(FillError::NotPresent) => break,
        }
    }
    Ok(read)
}
