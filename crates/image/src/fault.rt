// Which question of the check an image fails.
ghost use Rattle.std.specs.Prelude.{◌≡◌, Some};
ghost use Rattle.image.specs.Faults.{fault_number, question_of};

use std::error::Error;
use std::fmt;

#[derive(Clone, Copy, PartialEq, Eq, Debug)]
pub enum Fault {
    Short = 11,
    Length = 12,
    Count = 13,
    Map = 14,
    Blocks = 15,
    Overlap = 16,
}

impl Fault {
    // A method of each refusal's own: no crate lies below them all to hold a trait for it.
    pub fn number(self) -> u8
        ensures { result ≡ fault_number self }
    {
        self as u8
    }
}

// By hand, since the library thiserror promises no words.
impl fmt::Display for Fault {
    ghost output = { λ fault. Some (question_of fault) };

    fn fmt<W: fmt::Write>(&self, f: &mut fmt::Formatter<W>) -> fmt::Result {
        f.write_str(match self {
            Fault::Short => "are there 16 bytes?",
            Fault::Length => "is the length in the header that of the file?",
            Fault::Count => "is the block count 1 to 1,048,576?",
            Fault::Map => "do the map bytes lie behind the header and within the file?",
            Fault::Blocks => "do the block bytes lie behind the header and within the file?",
            Fault::Overlap => "do map and blocks share no byte?",
        })
    }
}

impl Error for Fault {}
