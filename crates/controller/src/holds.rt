// Semaphores. An accepted Lock by call gives a hold, which must be released.
ghost use Rattle.std.specs.Prelude.{◌≡◌};
ghost use Rattle.packet.specs.Commands.{lock, unlock, initialize_semaphores};
ghost use Rattle.model.specs.Answers.{bare};
ghost use Rattle.model.specs.Steps.{call, obey};
ghost use Rattle.model.specs.Laws.{Does};
ghost use Rattle.controller.specs.Answers.{lock_answer, unlock_answer};
ghost use Rattle.controller.specs.Holds.{locked_answer, HoldsName};
ghost use Rattle.controller.specs.Worlds.{world_of};

use crate::controller::Controller;
use tables::answers::{LockRefusal, UnlockRefusal};
use volume::Volume;

// The right to a locked name. It is not Drop: `release` spends it.
pub struct Hold {
    name: u64,
}

impl<V: Volume> Controller<V> {
    pub(crate) fn obey_lock(&mut self, name: u64) -> Result<(), LockRefusal>
        ensures { obey (world_of V.Volume.meaning self.old) (lock name) ≡ (lock_answer result, world_of V.Volume.meaning self.new) }
    {
        self.tables.semaphores.lock(name)
    }

    // A hold exactly where the Lock is answered 00h.
    pub fn lock(&mut self, name: u64) -> Result<Hold, LockRefusal>
        ensures does { Does (world_of V.Volume.meaning self.old) (call (lock name)) (locked_answer result) (world_of V.Volume.meaning self.new) }
        ensures holds { HoldsName name result }
    {
        self.obey_lock(name)?;
        Ok(Hold { name })
    }

    pub fn unlock(&mut self, name: u64) -> Result<(), UnlockRefusal>
        ensures { Does (world_of V.Volume.meaning self.old) (call (unlock name)) (unlock_answer result) (world_of V.Volume.meaning self.new) }
    {
        self.tables.semaphores.unlock(name)
    }

    pub fn initialize_semaphores(&mut self)
        ensures { Does (world_of V.Volume.meaning self.old) (call initialize_semaphores) (bare 0x00) (world_of V.Volume.meaning self.new) }
    {
        self.tables.semaphores.initialize();
    }
}

impl Hold {
    // Answers as an Unlock of the name, and spends the hold whichever answer that is.
    pub fn release<V: Volume>(self, controller: &mut Controller<V>) -> Result<(), UnlockRefusal>
        ensures { Does (world_of V.Volume.meaning controller.old) (call (unlock self.name)) (unlock_answer result) (world_of V.Volume.meaning controller.new) }
    {
        let Hold { name } = self;
        controller.unlock(name)
    }
}
