// Why the semaphore table refuses a lock or an unlock, and the result byte of each answer.
ghost use Rattle.std.specs.Prelude.{◌≡◌};
ghost use Rattle.tables.specs.Locks.{lock_byte, unlock_byte};

use volume::answers::Refusal;

#[derive(Clone, Copy, PartialEq, Eq, Debug)]
pub enum LockRefusal {
    Present = 0x80,
    Full = 0xFD,
    Blank = 0x8F,
}

#[derive(Clone, Copy, PartialEq, Eq, Debug)]
pub enum UnlockRefusal {
    Absent = 0x00,
    Blank = 0x8F,
}

impl Refusal for LockRefusal {
    ghost told = { lock_byte };

    fn byte_of(answer: Result<(), Self>) -> u8
        ensures { result ≡ lock_byte answer }
    {
        match answer {
            Ok(()) => 0x00,
            Err(refusal) => refusal as u8,
        }
    }
}

// An accepted Unlock is 80h.
impl Refusal for UnlockRefusal {
    ghost told = { unlock_byte };

    fn byte_of(answer: Result<(), Self>) -> u8
        ensures { result ≡ unlock_byte answer }
    {
        match answer {
            Ok(()) => 0x80,
            Err(refusal) => refusal as u8,
        }
    }
}
