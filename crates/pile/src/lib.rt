#![tactic(auto)]
// A pile of placements, as many as are put on it at run time, and the runs of places that a placement takes.
ghost use Rattle.std.specs.Prelude.{◌≡◌, MatchResult};
ghost use Rattle.volume.specs.Layouts.{layered};
ghost use Rattle.pile.specs.Piles.{layout_of, pile_lawful};

use std::alloc::{AllocFailed, Global};
use volume::Placement;

pub mod layer;
pub mod runs;

// The first placement lies lowest, and each later one stands on what is there. Where one does not fit, the pile has no block.
#[derive(Drop)]
pub struct Pile<P> {
    bottom: P,
    above: Vec<P>,
}

impl<P: Placement> Pile<P> {
    pub fn new(heap: Global, bottom: P) -> Pile<P>
        ensures { layout_of P.Placement.layout result ≡ P.Placement.layout bottom }
    {
        Pile {
            bottom,
            above: Vec::new(heap),
        }
    }

    // One more on the top. Where there is no memory for it, it comes back, and the pile is as it was.
    pub fn put_on(&mut self, upper: P) -> Result<(), AllocFailed<P>>
        ensures { MatchResult result
            (λ _. layout_of P.Placement.layout self.new ≡ layered (P.Placement.layout upper) (layout_of P.Placement.layout self.old))
            (λ e. (e.value ≡ upper) × (layout_of P.Placement.layout self.new ≡ layout_of P.Placement.layout self.old)) }
    {
        self.above.push(upper)
    }
}

impl<P: Placement> Placement for Pile<P> {
    ghost layout = { layout_of P.Placement.layout };

    ghost lawful = { λ s. pile_lawful P.Placement.layout P.Placement.lawful s.bottom s.above.items };

    fn count(&self) -> u32 {
        self.above
            .iter()
            .fold(self.bottom.count(), |there, upper| upper.count_on(there))
    }

    fn total(&self) -> u32 {
        self.bottom.total()
    }

    // From the top down: the place of a block is a block of what lies below.
    fn place(&self, n: u32) -> Option<u32> {
        if n >= self.count() {
            return None;
        }
        // A loop for its `?`: `try_fold` would put the same step in a closure.
        let mut block = n;
        for upper in self.above.iter().rev() {
            block = upper.place(block)?;
        }
        self.bottom.place(block)
    }

    // From the bottom up: the block at a place is a place of what lies above.
    fn block_at(&self, place: u32) -> Option<u32> {
        // Two values go along: a fold over the pair would be no plainer.
        let mut there = self.bottom.count();
        let mut block = self.bottom.block_at(place);
        for upper in &self.above {
            block = upper.block_on(there, block);
            there = upper.count_on(there);
        }
        block
    }
}
