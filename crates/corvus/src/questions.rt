// The numbered questions that an image, a placement and a packet have to pass.
use crate::stop::Stop;
use build::refusal::BuildRefusal;
use image::fault::Fault;
use packet::fault::PacketFault;
use placement::refusal::Refusal;
use std::alloc::Global;
use std::fmt;

// A question that was not passed, in the words of what refuses it.
// The number stands beside it, and each kind has a From of its own: each refusal is another crate's type, and nothing
// below them all holds a trait that tells the number.
#[derive(Clone, Copy)]
pub(crate) struct Failed<Q> {
    number: u8,
    question: Q,
}

impl<Q: fmt::Display + Copy> Failed<Q> {
    pub(crate) fn stop(self, heap: Global) -> Stop {
        Stop::said(format!(in heap; "{self}"))
    }
}

impl<Q: fmt::Display> fmt::Display for Failed<Q> {
    fn fmt<W: fmt::Write>(&self, f: &mut fmt::Formatter<W>) -> fmt::Result {
        write!(f, "refused, question {}: {}", self.number, self.question)
    }
}

impl From<Fault> for Failed<Fault> {
    fn from(fault: Fault) -> Self {
        Failed {
            number: fault.number(),
            question: fault,
        }
    }
}

impl From<Refusal> for Failed<Refusal> {
    fn from(refusal: Refusal) -> Self {
        Failed {
            number: refusal.number(),
            question: refusal,
        }
    }
}

impl From<PacketFault> for Failed<PacketFault> {
    fn from(fault: PacketFault) -> Self {
        Failed {
            number: fault.number(),
            question: fault,
        }
    }
}

impl From<BuildRefusal> for Failed<BuildRefusal> {
    fn from(refusal: BuildRefusal) -> Self {
        Failed {
            number: refusal.number(),
            question: refusal,
        }
    }
}
