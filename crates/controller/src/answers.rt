// Why the controller refuses, each refusal with its number, and the byte that tells each answer.
ghost use Rattle.std.specs.Prelude.{◌≡◌};
ghost use Rattle.controller.specs.Answers.{sector_number, sector_unread, sector_unwritten, pipe_number, pipe_unread, pipe_unwritten, by_volume};

use volume::answers::{ReadRefusal, Refusal, WriteRefusal};

// Field is of a call alone: its number is no result byte.
#[derive(Clone, Copy, PartialEq, Eq, Debug)]
pub enum SectorRefusal {
    Field = 6,
    NoDrive = 0x87,
    Lost = 0x8B,
    Protected = 0x8D,
    Beyond = 0x8E,
}

// A pipe result, or the result byte of a volume that refuses.
#[derive(Clone, Copy, PartialEq, Eq, Debug)]
pub enum PipeRefusal {
    Empty = 0x08,
    NotOpen = 0x09,
    NoRoom = 0x0A,
    AlreadyOpen = 0x0B,
    NoPipe = 0x0C,
    NoSpace = 0x0D,
    Illegal = 0x0E,
    NoArea = 0x0F,
    Lost = 0x8B,
    Protected = 0x8D,
    Beyond = 0x8E,
}

impl PipeRefusal {
    // Did the volume refuse a block?
    pub fn by_volume(self) -> bool
        ensures { result ≡ by_volume self }
    {
        matches!(
            self,
            PipeRefusal::Lost | PipeRefusal::Protected | PipeRefusal::Beyond
        )
    }
}

impl Refusal for SectorRefusal {
    ghost told = { sector_number };

    fn byte_of(answer: Result<(), Self>) -> u8
        ensures { result ≡ sector_number answer }
    {
        match answer {
            Ok(()) => 0x00,
            Err(refusal) => refusal as u8,
        }
    }
}

impl Refusal for PipeRefusal {
    ghost told = { pipe_number };

    fn byte_of(answer: Result<(), Self>) -> u8
        ensures { result ≡ pipe_number answer }
    {
        match answer {
            Ok(()) => 0x00,
            Err(refusal) => refusal as u8,
        }
    }
}

// What the volume refuses keeps its name. The refusals of reads and writes, and of sectors and pipes, are types of their own, so that these are four.
impl From<ReadRefusal> for SectorRefusal {
    ghost from_gives = { λ e r. r ≡ sector_unread e };

    fn from(refusal: ReadRefusal) -> Self {
        match refusal {
            ReadRefusal::Beyond => SectorRefusal::Beyond,
            ReadRefusal::Lost => SectorRefusal::Lost,
        }
    }
}

impl From<WriteRefusal> for SectorRefusal {
    ghost from_gives = { λ e r. r ≡ sector_unwritten e };

    fn from(refusal: WriteRefusal) -> Self {
        match refusal {
            WriteRefusal::Beyond => SectorRefusal::Beyond,
            WriteRefusal::Protected => SectorRefusal::Protected,
        }
    }
}

impl From<ReadRefusal> for PipeRefusal {
    ghost from_gives = { λ e r. r ≡ pipe_unread e };

    fn from(refusal: ReadRefusal) -> Self {
        match refusal {
            ReadRefusal::Beyond => PipeRefusal::Beyond,
            ReadRefusal::Lost => PipeRefusal::Lost,
        }
    }
}

impl From<WriteRefusal> for PipeRefusal {
    ghost from_gives = { λ e r. r ≡ pipe_unwritten e };

    fn from(refusal: WriteRefusal) -> Self {
        match refusal {
            WriteRefusal::Beyond => PipeRefusal::Beyond,
            WriteRefusal::Protected => PipeRefusal::Protected,
        }
    }
}
