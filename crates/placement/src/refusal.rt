// Why a placement is not set up: which question it fails.
ghost use Rattle.std.specs.Prelude.{◌≡◌, Some};
ghost use Rattle.placement.specs.Refusals.{refusal_number, question_of};

use std::error::Error;
use std::fmt;

#[derive(Clone, Copy, PartialEq, Eq, Debug)]
pub enum Refusal {
    Shape = 21,
    Room = 22,
    Order = 23,
    Many = 24,
    Window = 25,
}

impl Refusal {
    // A method of each refusal's own: no crate lies below them all to hold a trait for it.
    pub fn number(self) -> u8
        ensures { result ≡ refusal_number self }
    {
        self as u8
    }
}

// By hand, since the library thiserror promises no words.
impl fmt::Display for Refusal {
    ghost output = { λ refusal. Some (question_of refusal) };

    fn fmt<W: fmt::Write>(&self, f: &mut fmt::Formatter<W>) -> fmt::Result {
        f.write_str(match self {
            Refusal::Shape => {
                "are the tracks 1 to 65,535, the sectors 1 to 64 and the spares at most 16?"
            }
            Refusal::Room => {
                "do firmware tracks and spares leave a track (their sum is below the tracks)?"
            }
            Refusal::Order => {
                "is the list of spared tracks strictly rising, each from the first track behind the firmware to the last?"
            }
            Refusal::Many => "are there at most as many spared tracks as spares?",
            Refusal::Window => {
                "are offset, length and total at most 16,777,215, and does the window end within what it lies on?"
            }
        })
    }
}

impl Error for Refusal {}
