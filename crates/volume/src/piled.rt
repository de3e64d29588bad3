// A pile on a volume is a volume.
ghost use Rattle.std.specs.Prelude.{◌≡◌};
ghost use Rattle.volume.specs.Layouts.{piled};
ghost use Rattle.volume.specs.Fits.{piled_sound};

use crate::answers::{ReadRefusal, WriteRefusal};
use crate::{Placement, Volume};

// Block n is the volume's block at n's place. Where the pile's total is more than the volume's count, there is none.
#[derive(Drop)]
pub struct Piled<P, V> {
    pub pile: P,
    pub volume: V,
}

impl<P: Placement, V: Volume> Volume for Piled<P, V> {
    ghost meaning = { λ s. piled (P.Placement.layout s.pile) (V.Volume.meaning s.volume) };

    ghost sound = { λ s. piled_sound (P.Placement.layout s.pile) (V.Volume.meaning s.volume) (P.Placement.lawful s.pile) (V.Volume.sound s.volume) };

    fn count(&self) -> u32 {
        self.pile.count_on(self.volume.count())
    }

    fn writable(&self) -> bool {
        self.volume.writable()
    }

    // Reads and writes ask for the place alike: one function for both would have to turn its answer into refusals of two types.
    fn read(&self, n: u32, buffer: &mut [u8; 512]) -> Result<(), ReadRefusal> {
        let place = self
            .pile
            .place_on(self.volume.count(), n)
            .ok_or(ReadRefusal::Beyond)?;
        self.volume.read(place, buffer)
    }

    fn write(&mut self, n: u32, bytes: &[u8; 512]) -> Result<(), WriteRefusal> {
        let place = self
            .pile
            .place_on(self.volume.count(), n)
            .ok_or(WriteRefusal::Beyond)?;
        self.volume.write(place, bytes)
    }
}
