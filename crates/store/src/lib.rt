#![tactic(auto)]
// The volumes that a program chooses among at run time: a store, with a pile on it or none, and a note of what was written.
ghost use Rattle.std.specs.Prelude.{◌≡◌};
ghost use Rattle.volume.specs.Meanings.{write_answer, written};
ghost use Rattle.store.specs.Stores.{store_meaning, store_sound, store_bytes, block_byte_in, map_byte_in, store_with, SameOffsets};

use bank::Bank;
use image::shelf::ShelfImage;
use image::work::WorkImage;
use volume::Volume;
use volume::answers::{ReadRefusal, WriteRefusal};

pub mod drive;
pub mod noted;

// The kinds are closed: a boxed `dyn` would be no plainer, and hide from clauses where each kind has its blocks.
// Letting a Bank go would lose its held sector, so a store is not `Drop`: `into_bytes` ends it.
pub enum Store {
    Work(WorkImage),
    Shelf(ShelfImage<Vec<u8>>),
    Bank(Bank),
}

impl Store {
    // The bytes, those of a Bank with the held sector put back.
    pub fn into_bytes(self) -> Vec<u8>
        ensures { result.items ≡ store_bytes self }
    {
        match self {
            Store::Work(image) => image.into_bytes(),
            Store::Shelf(image) => image.into_bytes(),
            Store::Bank(bank) => bank.into_bytes(),
        }
    }

    // Where in the bytes a write of block n puts the block: none where the write is refused.
    pub fn block_byte(&self, n: u32) -> Option<u64>
        ensures { result ≡ block_byte_in self.now n }
    {
        match self {
            Store::Work(image) => image.block_byte(n),
            Store::Shelf(_) => None,
            Store::Bank(bank) => bank.block_byte(n),
        }
    }

    // The map byte that a write of block n sets to 0: none where there is no map, or the write is refused.
    pub fn map_byte(&self, n: u32) -> Option<u64>
        ensures { result ≡ map_byte_in self.now n }
    {
        match self {
            Store::Work(image) => image.map_byte(n),
            Store::Shelf(_) | Store::Bank(_) => None,
        }
    }
}

impl Volume for Store {
    ghost meaning = { store_meaning };

    ghost sound = { store_sound };

    fn count(&self) -> u32 {
        match self {
            Store::Work(image) => image.count(),
            Store::Shelf(image) => image.count(),
            Store::Bank(bank) => bank.count(),
        }
    }

    fn writable(&self) -> bool {
        match self {
            Store::Work(image) => image.writable(),
            Store::Shelf(image) => image.writable(),
            Store::Bank(bank) => bank.writable(),
        }
    }

    fn read(&self, n: u32, buffer: &mut [u8; 512]) -> Result<(), ReadRefusal> {
        match self {
            Store::Work(image) => image.read(n, buffer),
            Store::Shelf(image) => image.read(n, buffer),
            Store::Bank(bank) => bank.read(n, buffer),
        }
    }

    // Of the bytes it changes the block's and its map byte, where `block_byte` and `map_byte` say, before it and after it.
    fn write(&mut self, n: u32, bytes: &[u8; 512]) -> Result<(), WriteRefusal>
        ensures answer { result ≡ write_answer (store_meaning self.old) n }
        ensures after { store_meaning self.new ≡ written (store_meaning self.old) n bytes.now }
        ensures bytes { store_bytes self.new ≡ store_with self.old n bytes.now }
        ensures offsets { SameOffsets self.old self.new }
    {
        match self {
            Store::Work(image) => image.write(n, bytes),
            Store::Shelf(image) => image.write(n, bytes),
            Store::Bank(bank) => bank.write(n, bytes),
        }
    }
}
