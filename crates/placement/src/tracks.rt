// Spared tracks: logical track k is the k-th, from 0, of the tracks behind the firmware that are not spared.
ghost use Rattle.std.specs.Prelude.{◌≡◌, ◌+◌, ◌-◌, ◌<◌, [], is_ok, if◌then◌else◌};
ghost use Rattle.placement.specs.Tracks.{track_layout, track_check, ShapeFits, ListFits};
ghost use Rattle.placement.specs.Shifts.{shift, rank, spared_lawful};
ghost use Rattle.placement.specs.Uses.{UseOf, place_use};

use self::uses::PlaceUse;
use crate::refusal::Refusal;
use crate::shape::Shape;
use std::alloc::Global;
use volume::Placement;

pub mod uses;

#[derive(Drop)]
pub struct SparedTracks {
    shape: Shape,
    spared: Vec<u32>,
    ghost sized: { ShapeFits shape },
    ghost listed: { ListFits shape spared.items },
}

impl SparedTracks {
    ghost use Rattle.placement.specs.Owned.{set_up, spared_layout, no_tracks};

    pub fn fresh(heap: Global) -> SparedTracks
        ensures after { set_up result ≡ (no_tracks, []) }
        ensures empty { ((spared_layout result).count ≡ 0) × ((spared_layout result).total ≡ 0) }
    {
        SparedTracks {
            shape: Shape::default(),
            spared: Vec::new(heap),
        }
    }

    // Sets the placement up anew, or refuses and leaves it as it was.
    pub fn set(&mut self, shape: Shape, spared: Vec<u32>) -> Result<(), Refusal>
        ensures answer { result ≡ track_check shape spared.items }
        ensures after { set_up self.new ≡ (if is_ok result then (shape, spared.items) else set_up self.old) }
        ensures layout { spared_layout self.new ≡ (if is_ok result then track_layout shape spared.items else spared_layout self.old) }
    {
        shape.check(&spared)?;
        *self = SparedTracks { shape, spared };
        Ok(())
    }

    pub fn shape(&self) -> Shape
        ensures { result ≡ self.now.shape }
    {
        self.shape
    }

    pub fn spared(&self) -> &[u32]
        ensures { result.now ≡ self.now.spared.items }
    {
        &self.spared
    }

    // What the place serves: a block, or why it has none.
    pub fn use_of(&self, place: u32) -> PlaceUse
        ensures { UseOf self.now.shape self.now.spared.items place result }
    {
        // Asked for first: what is promised of each answer names the block at the place, or none.
        let block = self.block_at(place);
        if place >= self.total() {
            return PlaceUse::Outside;
        }
        let track = place / self.shape.sectors;
        if track < self.shape.firmware {
            PlaceUse::Firmware
        } else if self.spared.contains(&track) {
            PlaceUse::Spared
        } else {
            block.map_or(PlaceUse::Reserve, PlaceUse::Block)
        }
    }

    // How many logical tracks there are: as many as may be spared are kept back.
    fn logical_tracks(&self) -> u32
        ensures { result ≡ self.now.shape.tracks - self.now.shape.firmware - self.now.shape.spares }
    {
        let Shape {
            tracks,
            firmware,
            spares,
            ..
        } = self.shape;
        tracks - firmware - spares
    }

    // Where logical track k lies: it moves on past each spared track at or below it.
    fn track_of(&self, k: u32) -> u32
        requires { k < self.now.shape.tracks - self.now.shape.firmware - self.now.shape.spares }
        ensures { result ≡ shift (self.now.shape.firmware + k) self.now.spared.items }
    {
        let track = self.shape.firmware + k;
        self.spared
            .iter()
            .fold(track, |moved, &spare| moved + u32::from(spare <= moved))
    }

    // How many spared tracks lie below the track, or None where it is spared itself.
    fn spared_below(&self, track: u32) -> Option<u32>
        ensures { result ≡ rank track 0 self.now.spared.items }
    {
        let below = self.spared.binary_search(&track).err()?;
        Some(below as u32)
    }
}

impl Placement for SparedTracks {
    ghost use Rattle.placement.specs.Owned.{spared_layout};

    ghost layout = { spared_layout };

    ghost lawful = { λ p. spared_lawful p.shape p.spared.items p.sized p.listed };

    fn count(&self) -> u32 {
        self.logical_tracks() * self.shape.sectors
    }

    fn total(&self) -> u32 {
        let Shape {
            tracks,
            sectors,
            ..
        } = self.shape;
        tracks * sectors
    }

    fn place(&self, n: u32) -> Option<u32> {
        if n >= self.count() {
            return None;
        }
        let sectors = self.shape.sectors;
        Some(self.track_of(n / sectors) * sectors + n % sectors)
    }

    // A sector of a track behind the firmware that is not spared; those kept back have no block.
    fn block_at(&self, place: u32) -> Option<u32> {
        let track = place.checked_div(self.shape.sectors)?;
        let behind = track.checked_sub(self.shape.firmware)?;
        let k = behind - self.spared_below(track)?;
        (k < self.logical_tracks()).then_some(k * self.shape.sectors + place % self.shape.sectors)
    }
}
