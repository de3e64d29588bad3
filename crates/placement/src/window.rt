// A window adds its offset to the block number.
ghost use Rattle.std.specs.Prelude.{◌≡◌, ◌+◌, ◌≤◌, is_ok, if◌then◌else◌};
ghost use Rattle.placement.specs.Windows.{window, window_check, window_lawful};

use crate::refusal::Refusal;
use volume::Placement;

// The largest offset, length and total.
const MOST: u32 = 16_777_215;

#[derive(Drop)]
pub struct Window {
    offset: u32,
    length: u32,
    total: u32,
    ghost within: { offset + length ≤ total },
}

impl Window {
    ghost use Rattle.placement.specs.Owned.{window_layout};

    pub fn fresh() -> Window
        ensures { window_layout result ≡ window 0 0 0 }
    {
        Window {
            offset: 0,
            length: 0,
            total: 0,
        }
    }

    // Sets the window up anew, or refuses and leaves it as it was. Three numbers and no struct of them: the window is
    // that struct, and they may not fit it.
    pub fn set(&mut self, offset: u32, length: u32, total: u32) -> Result<(), Refusal>
        ensures answer { result ≡ window_check offset length total }
        ensures after { window_layout self.new ≡ (if is_ok result then window offset length total else window_layout self.old) }
    {
        if offset > MOST || length > MOST || total > MOST || offset + length > total {
            return Err(Refusal::Window);
        }
        *self = Window {
            offset,
            length,
            total,
        };
        Ok(())
    }
}

impl Placement for Window {
    ghost use Rattle.placement.specs.Owned.{window_layout};

    ghost layout = { window_layout };

    ghost lawful = { λ w. window_lawful w.offset w.length w.total w.within };

    fn count(&self) -> u32 {
        self.length
    }

    fn total(&self) -> u32 {
        self.total
    }

    // Not by `then`: the closure's proof does not know that the sum is in range.
    fn place(&self, n: u32) -> Option<u32> {
        if n < self.length {
            Some(self.offset + n)
        } else {
            None
        }
    }

    fn block_at(&self, place: u32) -> Option<u32> {
        place.checked_sub(self.offset).filter(|&n| n < self.length)
    }
}
