// The commands. A Write's bytes are that very part of the packet.
ghost use Rattle.std.specs.Prelude.{◌≡◌, ◌*◌, ◌/◌, ◌%◌, ◌<◌, ◌&&◌, nat_le};
ghost use Rattle.packet.specs.Commands.{size_bytes, per_block, block_of, first_byte};
ghost use Rattle.packet.specs.Packets.{read_code, write_code};

// How much a sector command moves, each with the code of its Read. Two codes move 256 bytes, and a command keeps its code.
#[derive(Clone, Copy, PartialEq, Eq, Debug)]
pub enum Size {
    Bytes128 = 0x12,
    Bytes256 = 0x02,
    Bytes256Again = 0x22,
    Bytes512 = 0x32,
}

impl Size {
    // A match: two codes share a size, so that it cannot be the variant's number.
    pub fn bytes(self) -> usize
        ensures { result ≡ size_bytes self }
    {
        match self {
            Size::Bytes128 => 128,
            Size::Bytes256 | Size::Bytes256Again => 256,
            Size::Bytes512 => 512,
        }
    }

    // How many sectors of this size a block has.
    fn per_block(self) -> u32
        ensures count { result ≡ per_block self }
        ensures some { 0 < result }
    {
        512 / self.bytes() as u32
    }

    // The block that the sector is a part of.
    pub fn block_of(self, sector: u32) -> u32
        ensures { result ≡ block_of self sector }
    {
        sector / self.per_block()
    }

    // The sector's first byte within its block.
    pub fn first_byte(self, sector: u32) -> usize
        ensures { result ≡ first_byte self sector }
    {
        (sector % self.per_block()) as usize * self.bytes()
    }

    pub fn read_code(self) -> u8
        ensures { result ≡ read_code self }
    {
        self as u8
    }

    // A Write's code is the one behind its Read's.
    pub fn write_code(self) -> u8
        ensures { result ≡ write_code self }
    {
        self as u8 + 1
    }
}

// The sector of a sector command.
#[derive(Clone, Copy, PartialEq, Eq, Debug)]
pub struct SectorAddress {
    pub size: Size,
    pub drive: u8,
    pub sector: u32,
}

impl SectorAddress {
    // Has a packet room for the drive and the sector?
    pub fn is_in_range(self) -> bool
        ensures { result ≡ (nat_le self.sector 1048575 && nat_le self.drive 15) }
    {
        self.sector <= 1_048_575 && self.drive <= 15
    }

    // The block that the sector is a part of.
    pub fn block(self) -> u32
        ensures { result ≡ block_of self.size self.sector }
    {
        self.size.block_of(self.sector)
    }

    // The sector's first byte within its block.
    pub fn first_byte(self) -> usize
        ensures { result ≡ first_byte self.size self.sector }
    {
        self.size.first_byte(self.sector)
    }
}

// A name is its eight bytes as one number, the first byte the most significant. A selector is any byte, and data of any length,
// since building a packet of another answers with a refusal.
#[derive(Clone, Copy, Debug)]
pub enum Command<'p> {
    Read(SectorAddress),
    Write {
        at: SectorAddress,
        bytes: &'p [u8],
    },
    Lock {
        name: u64,
    },
    Unlock {
        name: u64,
    },
    InitializeSemaphores,
    Status {
        selector: u8,
    },
    InitializeArea {
        first: u16,
        blocks: u16,
    },
    OpenWrite {
        name: u64,
    },
    OpenRead {
        name: u64,
    },
    PipeRead {
        number: u8,
        length: u16,
    },
    PipeWrite {
        number: u8,
        length: u16,
        bytes: &'p [u8],
    },
    Close {
        number: u8,
    },
}
