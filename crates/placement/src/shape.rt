// A drive's tracks, the sectors of a track, the firmware tracks at its front, and how many tracks it may spare.
ghost use Rattle.std.specs.Prelude.{◌≡◌, OnOk};
ghost use Rattle.placement.specs.Tracks.{rising, track_check, ShapeFits, ListFits};

use crate::refusal::Refusal;

#[derive(Clone, Copy, PartialEq, Eq, Default, Debug)]
pub struct Shape {
    pub tracks: u32,
    pub sectors: u32,
    pub firmware: u32,
    pub spares: u32,
}

impl Shape {
    // Whether tracks can be laid out so, with these spared.
    pub(crate) fn check(self, spared: &[u32]) -> Result<(), Refusal>
        ensures answer { result ≡ track_check self spared.now }
        ensures fit { OnOk result (ShapeFits self × ListFits self spared.now) }
    {
        let Shape {
            tracks,
            sectors,
            firmware,
            spares,
        } = self;
        if !(1..=65_535).contains(&tracks) || !(1..=64).contains(&sectors) || spares > 16 {
            return Err(Refusal::Shape);
        }
        if firmware >= tracks || spares >= tracks - firmware {
            return Err(Refusal::Room);
        }
        if !is_rising(spared, firmware, tracks) {
            return Err(Refusal::Order);
        }
        if spared.len() > spares as usize {
            return Err(Refusal::Many);
        }
        Ok(())
    }
}

// Is the list strictly rising, from lo up and below hi?
fn is_rising(list: &[u32], lo: u32, hi: u32) -> bool
    ensures { result ≡ rising lo hi list.now }
{
    // Of a longer list not each element has to be looked at.
    if list.len() > hi.saturating_sub(lo) as usize {
        return false;
    }
    list.is_sorted_by(|a, b| a < b) && list.iter().all(|s| (lo..hi).contains(s))
}
