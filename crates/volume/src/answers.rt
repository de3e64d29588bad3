// Why a volume refuses a read or a write, each refusal with its result byte, and the byte that tells an answer.
ghost use Rattle.std.specs.Prelude.{◌≡◌, ℕ, Result};
ghost use Rattle.volume.specs.Answers.{read_byte, write_byte};

#[derive(Clone, Copy, PartialEq, Eq, Debug)]
pub enum ReadRefusal {
    Beyond = 0x8E,
    Lost = 0x8B,
}

#[derive(Clone, Copy, PartialEq, Eq, Debug)]
pub enum WriteRefusal {
    Beyond = 0x8E,
    Protected = 0x8D,
}

// Why a request is refused. Its answers are std's Result, so each crate says of its own refusals how they are told. One body for all would
// need the byte of the accepted answer, 80h of an Unlock, as a member of its own, and is no shorter than two arms.
pub trait Refusal: Sized {
    ghost told: { Result (Unit {0}) Self → ℕ };

    fn byte_of(answer: Result<(), Self>) -> u8
        ensures { result ≡ told answer };
}

// An answer that a result byte tells.
pub trait ResultByte {
    ghost told: { Self → ℕ };

    fn byte(self) -> u8
        ensures { result ≡ told self };
}

impl<E: Refusal> ResultByte for Result<(), E> {
    ghost told = { E.Refusal.told };

    fn byte(self) -> u8 {
        E::byte_of(self)
    }
}

impl Refusal for ReadRefusal {
    ghost told = { read_byte };

    fn byte_of(answer: Result<(), Self>) -> u8
        ensures { result ≡ read_byte answer }
    {
        match answer {
            Ok(()) => 0x00,
            Err(unread) => unread as u8,
        }
    }
}

impl Refusal for WriteRefusal {
    ghost told = { write_byte };

    fn byte_of(answer: Result<(), Self>) -> u8
        ensures { result ≡ write_byte answer }
    {
        match answer {
            Ok(()) => 0x00,
            Err(unwritten) => unwritten as u8,
        }
    }
}
