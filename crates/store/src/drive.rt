// A store with a pile of placements on it, or with none.
ghost use Rattle.std.specs.Prelude.{◌≡◌, None};
ghost use Rattle.store.specs.Drives.{drive_meaning, drive_sound, store_of, bottom_block, bottom_noted};

use crate::Store;
use crate::noted::Noted;
use pile::Pile;
use pile::layer::Layer;
use volume::answers::{ReadRefusal, WriteRefusal};
use volume::piled::Piled;
use volume::{Placement, Volume};

// Of the pile's placements the first lies lowest. The kinds are closed, and a boxed `dyn` would hide them from clauses, as a store's.
// As the store, it is not `Drop`: `into_store` ends it.
pub enum Drive {
    Plain(Store),
    Piled(Piled<Pile<Layer>, Store>),
}

impl Drive {
    pub fn store(&self) -> &Store
        ensures { result.now ≡ store_of self.now }
    {
        match self {
            Drive::Plain(store) => store,
            Drive::Piled(piled) => &piled.volume,
        }
    }

    pub fn into_store(self) -> Store
        ensures { result ≡ store_of self }
    {
        match self {
            Drive::Plain(store) => store,
            Drive::Piled(Piled { pile: _, volume }) => volume,
        }
    }

    // The store's block that is block n; none from the count up.
    pub fn bottom_block(&self, n: u32) -> Option<u32>
        ensures { result ≡ bottom_block (drive_meaning self.now) n }
    {
        match self {
            Drive::Plain(store) => (n < store.count()).then_some(n),
            Drive::Piled(piled) => piled.pile.place_on(piled.volume.count(), n),
        }
    }
}

// Here and not beside Noted, which is of any volume.
impl Noted<Drive> {
    // Tells which of the store's blocks was written last since `take_bottom` forgot one, and forgets nothing.
    pub fn bottom(&self) -> Option<u32>
        ensures { result ≡ bottom_noted (drive_meaning self.now.volume) self.now.last }
    {
        self.written().and_then(|n| self.volume().bottom_block(n))
    }

    // Tells which of the store's blocks was written last since it was asked before, and forgets it.
    pub fn take_bottom(&mut self) -> Option<u32>
        ensures bottom { result ≡ bottom_noted (drive_meaning self.old.volume) self.old.last }
        ensures none { self.new.last ≡ None }
        ensures volume { self.new.volume ≡ self.old.volume }
    {
        let bottom = self.bottom();
        let _ = self.take_written();
        bottom
    }
}

impl Volume for Drive {
    ghost meaning = { drive_meaning };

    ghost sound = { drive_sound };

    fn count(&self) -> u32 {
        match self {
            Drive::Plain(store) => store.count(),
            Drive::Piled(piled) => piled.count(),
        }
    }

    fn writable(&self) -> bool {
        match self {
            Drive::Plain(store) => store.writable(),
            Drive::Piled(piled) => piled.writable(),
        }
    }

    fn read(&self, n: u32, buffer: &mut [u8; 512]) -> Result<(), ReadRefusal> {
        match self {
            Drive::Plain(store) => store.read(n, buffer),
            Drive::Piled(piled) => piled.read(n, buffer),
        }
    }

    fn write(&mut self, n: u32, bytes: &[u8; 512]) -> Result<(), WriteRefusal> {
        match self {
            Drive::Plain(store) => store.write(n, bytes),
            Drive::Piled(piled) => piled.write(n, bytes),
        }
    }
}
