// A placement on a placement.
ghost use Rattle.std.specs.Prelude.{◌≡◌};
ghost use Rattle.volume.specs.Layouts.{layered};
ghost use Rattle.volume.specs.Fits.{layered_lawful};

use crate::Placement;

// The upper's places are blocks of the lower. Where the upper's total is more than the lower's count, it has no block.
#[derive(Drop)]
pub struct On<U, L> {
    pub upper: U,
    pub lower: L,
}

impl<U: Placement, L: Placement> Placement for On<U, L> {
    ghost layout = { λ s. layered (U.Placement.layout s.upper) (L.Placement.layout s.lower) };

    ghost lawful = { λ s. layered_lawful (U.Placement.layout s.upper) (L.Placement.layout s.lower) (U.Placement.lawful s.upper) (L.Placement.lawful s.lower) };

    fn count(&self) -> u32 {
        self.upper.count_on(self.lower.count())
    }

    fn total(&self) -> u32 {
        self.lower.total()
    }

    fn place(&self, n: u32) -> Option<u32> {
        let middle = self.upper.place_on(self.lower.count(), n)?;
        self.lower.place(middle)
    }

    fn block_at(&self, place: u32) -> Option<u32> {
        // Not by `block_on`, whose caller asks the lower before the fit is known, nor with `?`, which is slower over windows.
        if self.upper.total() > self.lower.count() {
            return None;
        }
        self.lower
            .block_at(place)
            .and_then(|middle| self.upper.block_at(middle))
    }
}
