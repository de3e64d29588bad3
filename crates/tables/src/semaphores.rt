// The semaphore table: 32 names.
ghost use Rattle.std.specs.Prelude.{◌≡◌, eqb, length};
ghost use Rattle.model.specs.Semaphores.{no_names};
ghost use Rattle.tables.specs.Locks.{lock_outcome, unlock_outcome};
ghost use Rattle.tables.specs.Places.{place, PlaceWithin};

use crate::answers::{LockRefusal, UnlockRefusal};
use crate::search::place_of;
use model::names::BLANK;

// No heap while serving, so an array that is searched, and no map.
#[derive(Drop)]
pub struct Semaphores {
    names: [u64; 32],
    ghost full: { length names ≡ 32 },
}

impl Semaphores {
    ghost use Rattle.tables.specs.Names.{names_of};

    pub fn new() -> Self
        ensures { names_of result ≡ no_names }
    {
        Semaphores { names: [BLANK; 32] }
    }

    pub fn initialize(&mut self)
        ensures { names_of self.new ≡ no_names }
    {
        self.names = [BLANK; 32];
    }

    pub fn names(&self) -> &[u64]
        ensures { result.now ≡ names_of self.now }
    {
        &self.names
    }

    // Where the name stands; of the blank name, the first free entry.
    fn place(&self, name: u64) -> Option<usize>
        ensures found { result ≡ place (eqb name) (names_of self.now) }
        ensures inside { PlaceWithin result (length (names_of self.now)) }
    {
        place_of(&self.names, |&entry| name == entry)
    }

    #[tactic(auto, using(crate::proofs::Locks::lock_present, crate::proofs::Locks::lock_full, crate::proofs::Locks::lock_taken))]
    pub fn lock(&mut self, name: u64) -> Result<(), LockRefusal>
        ensures { (result, names_of self.new) ≡ lock_outcome (names_of self.old) name }
    {
        if name == BLANK {
            return Err(LockRefusal::Blank);
        }
        if self.place(name).is_some() {
            return Err(LockRefusal::Present);
        }
        let Some(i) = self.place(BLANK) else {
            return Err(LockRefusal::Full);
        };
        self.names[i] = name;
        Ok(())
    }

    #[tactic(auto, using(crate::proofs::Locks::unlock_absent, crate::proofs::Locks::unlock_removed))]
    pub fn unlock(&mut self, name: u64) -> Result<(), UnlockRefusal>
        ensures { (result, names_of self.new) ≡ unlock_outcome (names_of self.old) name }
    {
        if name == BLANK {
            return Err(UnlockRefusal::Blank);
        }
        let Some(i) = self.place(name) else {
            return Err(UnlockRefusal::Absent);
        };
        self.names[i] = BLANK;
        Ok(())
    }
}
