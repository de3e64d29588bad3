#![tactic(auto)]
// What a volume and a placement promise. Everything above is proved against these two traits alone.
ghost use Rattle.std.specs.Prelude.{◌≡◌};
ghost use Rattle.volume.specs.Meanings.{Meaning, Sound, read_answer, read_buffer, write_answer, written};
ghost use Rattle.volume.specs.Layouts.{Layout, Lawful, place_of, fitting, place_on, BlockAt, BlockOn};

use answers::{ReadRefusal, WriteRefusal};

pub mod answers;
pub mod on;
pub mod piled;

// A count of blocks, whether it takes writes, and for each block 512 bytes or "lost".
pub trait Volume {
    ghost meaning: { Self → Meaning };

    fn count(&self) -> u32
        ensures { result ≡ (meaning self.now).count };

    fn writable(&self) -> bool
        ensures { result ≡ (meaning self.now).writable };

    // Block n into the buffer; a refused read leaves the buffer alone.
    fn read(&self, n: u32, buffer: &mut [u8; 512]) -> Result<(), ReadRefusal>
        ensures answer { result ≡ read_answer (meaning self.now) n }
        ensures buffer { buffer.new ≡ read_buffer (meaning self.now) n buffer.old };

    // The bytes as block n; a refused write changes nothing.
    fn write(&mut self, n: u32, bytes: &[u8; 512]) -> Result<(), WriteRefusal>
        ensures answer { result ≡ write_answer (meaning self.old) n }
        ensures after { meaning self.new ≡ written (meaning self.old) n bytes.now };

    // What each implementation shows of its meaning.
    ghost sound: { (v : Self) → Sound (meaning v) };
}

// A place below the total for each block below the count, no place twice.
pub trait Placement {
    ghost layout: { Self → Layout };

    fn count(&self) -> u32
        ensures { result ≡ (layout self.now).count };

    fn total(&self) -> u32
        ensures { result ≡ (layout self.now).total };

    // Where block n lies; none from the count up.
    fn place(&self, n: u32) -> Option<u32>
        ensures { result ≡ place_of (layout self.now) n };

    // Which block lies at a place; none exactly where no block does.
    fn block_at(&self, place: u32) -> Option<u32>
        ensures { BlockAt (layout self.now) place result };

    // What each implementation shows of its layout.
    ghost lawful: { (p : Self) → Lawful (layout p) };

    // How many blocks it has on something with so many: none where it needs more than are there.
    final fn count_on(&self, there: u32) -> u32
        ensures { result ≡ fitting (layout self.now).total there (layout self.now).count }
    {
        if self.total() > there {
            return 0;
        }
        self.count()
    }

    // Where its block n lies on something with so many; none from the count there up.
    final fn place_on(&self, there: u32, n: u32) -> Option<u32>
        ensures { result ≡ place_on (layout self.now) there n }
    {
        if self.total() <= there {
            self.place(n)
        } else {
            None
        }
    }

    // Which of its blocks lies at a block of something with so many.
    final fn block_on(&self, there: u32, lower: Option<u32>) -> Option<u32>
        ensures { BlockOn (layout self.now) there lower result }
    {
        match lower {
            Some(place) if self.total() <= there => self.block_at(place),
            _ => None,
        }
    }
}
