// Why no packet is built.
ghost use Rattle.std.specs.Prelude.{◌≡◌, Some};
ghost use Rattle.build.specs.Refusals.{refusal_number, refusal_question};

use std::error::Error;
use std::fmt;

// Each refusal with its number.
#[derive(Clone, Copy, PartialEq, Eq, Debug)]
pub enum BuildRefusal {
    Room = 5,
    Field = 6,
}

impl BuildRefusal {
    // A method of each refusal's own: no crate lies below them all to hold a trait for it.
    pub fn number(self) -> u8
        ensures { result ≡ refusal_number self }
    {
        self as u8
    }
}

// The question that the command fails. By hand, since the library thiserror promises no words.
impl fmt::Display for BuildRefusal {
    ghost output = { λ refusal. Some (refusal_question refusal) };

    fn fmt<W: fmt::Write>(&self, f: &mut fmt::Formatter<W>) -> fmt::Result {
        f.write_str(match self {
            BuildRefusal::Room => "does the buffer hold the packet?",
            BuildRefusal::Field => {
                "are sector, drive and Status selector at most 1,048,575, 15 and 3, and has the data the command's length?"
            }
        })
    }
}

impl Error for BuildRefusal {}
