#![tactic(auto)]
// The controller on paper: what its tables hold, what it answers to every request and what it then does, and the laws that
// hold after every list of requests.
ghost use Rattle.model.specs.Laws.{LawsHold, EveryList, PartsKept};

pub mod names;
pub mod pipe;

// The laws of locks, pipes and blocks hold of every run from a making, and every list of requests has such a run. Data laid on a
// part of a block leaves the rest of it.
pub fn laws_hold()
    ensures runs { LawsHold }
    ensures lists { EveryList }
    ensures parts { PartsKept }
{}
