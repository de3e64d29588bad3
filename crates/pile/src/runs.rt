// Runs of places that follow one another.
ghost use Rattle.std.specs.Prelude.{◌≡◌, ◌+◌, ◌<◌, map, length, IfOk, OnOk, ◌==◌};
ghost use Rattle.std.specs.List.{range_with_len, Contains};
ghost use Rattle.pile.specs.Runs.{spelled, InRun, InBoth, Longest, Placed};

use std::alloc::{AllocError, Global};
use volume::Placement;

#[derive(Clone, Copy, PartialEq, Eq, Debug)]
pub struct Run {
    pub first: u32,
    pub count: u32,
}

impl Run {
    // The place after its last, which may be more than any place.
    fn end(self) -> u64
        ensures { result ≡ self.first + self.count }
    {
        u64::from(self.first) + u64::from(self.count)
    }

    fn ends_at(self, place: u32) -> bool
        ensures { result ≡ (self.first + self.count == place) }
    {
        self.end() == u64::from(place)
    }

    // A place that both have.
    fn shared_with(self, other: Run) -> Option<u32>
        ensures { InBoth (InRun self) (InRun other) result }
    {
        let first = self.first.max(other.first);
        (u64::from(first) < self.end().min(other.end())).then_some(first)
    }

    // A place of the run that one of the others has.
    fn shared_among(self, others: &[Run]) -> Option<u32>
        ensures { InBoth (InRun self) (Contains (spelled others.now)) result }
    {
        others.iter().find_map(|&other| self.shared_with(other))
    }
}

// The places of blocks 0, 1, 2 and so on, joined where they follow one another.
pub fn runs_of<P: Placement>(heap: Global, placement: &P) -> Result<Vec<Run>, AllocError>
    ensures places { IfOk result (λ v. spelled v.items ≡ map (P.layout placement.now).place (range_with_len 0 (P.layout placement.now).count)) }
    ensures longest { IfOk result (λ v. Longest v.items) }
{
    let mut runs = Vec::new(heap);
    // n is the number of a block, and indexes nothing.
    for n in 0..placement.count() {
        if let Some(place) = placement.place(n) {
            put_place(&mut runs, place)?;
        }
    }
    Ok(runs)
}

// One more place: the last run goes on to it, or a new one begins there. There are fewer so far than a u32 can count.
fn put_place(runs: &mut Vec<Run>, place: u32) -> Result<(), AllocError>
    requires { length (spelled runs.old.items) < 4294967295 }
    ensures { OnOk result (Placed runs.old.items runs.new.items place) }
{
    match runs.last_mut() {
        Some(last) if last.ends_at(place) => last.count += 1,
        _ => runs.push(Run {
            first: place,
            count: 1,
        })?,
    }
    Ok(())
}

// A place that both have.
pub fn shared_place(a: &[Run], b: &[Run]) -> Option<u32>
    ensures { InBoth (Contains (spelled a.now)) (Contains (spelled b.now)) result }
{
    a.iter().find_map(|run| run.shared_among(b))
}
