// Why a packet says no command.
ghost use Rattle.std.specs.Prelude.{◌≡◌, Some};
ghost use Rattle.packet.specs.Faults.{fault_number, fault_question};

use std::error::Error;
use std::fmt;

// Each fault with its number as a refusal; Illegal's is the result byte 8Fh.
#[derive(Clone, Copy, PartialEq, Eq, Debug)]
pub enum PacketFault {
    Empty = 2,
    NoModifier = 3,
    Length = 4,
    Illegal = 0x8F,
}

impl PacketFault {
    // A method of each refusal's own: no crate lies below them all to hold a trait for it.
    pub fn number(self) -> u8
        ensures { result ≡ fault_number self }
    {
        self as u8
    }
}

// The question that the packet fails. By hand, since the library thiserror promises no words.
impl fmt::Display for PacketFault {
    ghost output = { λ fault. Some (fault_question fault) };

    fn fmt<W: fmt::Write>(&self, f: &mut fmt::Formatter<W>) -> fmt::Result {
        f.write_str(match self {
            PacketFault::Empty => "has the packet a byte?",
            PacketFault::NoModifier => "have the codes 0Bh, 1Ah and 1Bh a second byte?",
            PacketFault::Length => "is the length that of the command?",
            PacketFault::Illegal => "are the code, its modifier and a Status selector known?",
        })
    }
}

impl Error for PacketFault {}
