// Why a record is not read.
ghost use Rattle.std.specs.Prelude.{◌≡◌};
ghost use Rattle.sheet.specs.declared.fault.Fault.TheVariants.{Memory};

use std::alloc::{AllocError, AllocFailed};
use std::fmt;

#[derive(Clone, Copy, PartialEq, Eq, Debug)]
pub enum Fault {
    Memory,
    // The text ends inside a quote; the line is the one that the quote stands on.
    Unclosed { line: usize },
    // A byte that parts no fields stands behind a closing quote.
    Behind { line: usize },
}

// By hand: what the library thiserror derives promises neither which fault a `?` gives nor its words.
impl From<AllocError> for Fault {
    ghost from_gives = { λ _ r. r ≡ Memory };

    fn from(_e: AllocError) -> Fault {
        Fault::Memory
    }
}

impl<T: Drop> From<AllocFailed<T>> for Fault {
    ghost from_gives = { λ _ r. r ≡ Memory };

    fn from(_e: AllocFailed<T>) -> Fault {
        Fault::from(AllocError)
    }
}

// The words without the line, which the caller has beside them.
impl fmt::Display for Fault {
    ghost use Rattle.std.specs.Prelude.{Some};
    ghost use Rattle.sheet.specs.Faults.{words_of};

    ghost output = { λ fault. Some (words_of fault) };

    fn fmt<W: fmt::Write>(&self, f: &mut fmt::Formatter<W>) -> fmt::Result {
        f.write_str(match self {
            Self::Memory => "there is not enough memory",
            Self::Unclosed { .. } => {
                "a quoted field is opened here and never closed; the rest of the table is not read"
            }
            Self::Behind { .. } => {
                "something stands between a closing quote and the next comma; the rest of the table is not read"
            }
        })
    }
}

impl std::error::Error for Fault {}
