// A pipe and the area that pipes stand in, as the tables hold them.
ghost use Rattle.std.specs.Prelude.{◌≡◌};

// How a pipe is open. No pipe is open both ways.
#[derive(Clone, Copy, PartialEq, Eq, Debug, Default)]
pub enum Access {
    #[default]
    Closed,
    Reading,
    Writing,
}

impl Access {
    ghost use Rattle.model.specs.Pipes.{is_writing};

    pub fn is_writing(self) -> bool
        ensures { result ≡ is_writing self }
    {
        self == Access::Writing
    }
}

// Its blocks run from start up to, not including, end.
#[derive(Clone, Copy, PartialEq, Eq, Debug, Default)]
pub struct Pipe {
    pub number: u8,
    pub name: u64,
    pub start: u32,
    pub end: u32,
    pub access: Access,
}

// The blocks that pipes stand in: so many from the first on.
#[derive(Clone, Copy, PartialEq, Eq, Debug)]
pub struct Area {
    pub first: u16,
    pub blocks: u16,
}

impl Area {
    ghost use Rattle.std.specs.Prelude.{Some};
    ghost use Rattle.model.specs.Sectors.{area_end, within};

    // One past its last block.
    pub fn end(self) -> u32
        ensures { result ≡ area_end self }
    {
        u32::from(self.first) + u32::from(self.blocks)
    }

    pub fn has(self, n: u32) -> bool
        ensures { result ≡ within n (Some self) }
    {
        (u32::from(self.first)..self.end()).contains(&n)
    }
}

// Room between two entries: how many pipes stand below it, which is where `ArrayVec::insert` puts a new one, where that one would
// start, and how many blocks it gives.
#[derive(Clone, Copy, PartialEq, Eq, Debug, Default)]
pub struct Gap {
    pub below: usize,
    pub from: u32,
    pub gives: u32,
}
