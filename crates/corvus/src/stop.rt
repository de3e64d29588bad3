// Why a command ends early: one line for the person who asked.
use crate::words::OneLine;
use std::alloc::AllocError;
use std::io;
use thiserror::Error;

// An error of its own, since anyhow's keeps 120 bytes of a message and a refusal can be longer.
#[derive(Debug, Drop, Error)]
pub(crate) enum Stop {
    #[error("{}", OneLine(.0.as_str()))]
    Said(String),
    #[error("there is not enough memory")]
    Memory(#[from(alloc)] AllocError),
    // What reads and writes files puts the path into words itself: here it is standard output.
    #[error("standard output: {0}")]
    Output(#[from] io::Error),
}

impl Stop {
    // A refusal in these words, or the want of memory for them. Named, since by a `From` any text would become a refusal unseen.
    pub(crate) fn said(words: Result<String, AllocError>) -> Stop {
        match words {
            Ok(text) => Stop::Said(text),
            Err(e) => Stop::Memory(e),
        }
    }
}

// A refusal in words is kept as a value; any other end goes on.
pub(crate) fn settled<T: Drop>(r: Result<T, Stop>) -> Result<Result<T, String>, Stop> {
    match r {
        Ok(x) => Ok(Ok(x)),
        Err(Stop::Said(text)) => Ok(Err(text)),
        Err(e) => Err(e),
    }
}
