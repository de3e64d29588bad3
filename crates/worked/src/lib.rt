#![tactic(auto)]
// Worked numbers, each a row of one table. The places are those of a drive of 120 tracks of 20 sectors, 4 of them firmware
// and 16 kept back, with tracks 34 and 67 spared.
ghost use Rattle.std.specs.Prelude.{◌≡◌};
ghost use Rattle.std.specs.List.{AllByRecursion};
ghost use Rattle.worked.specs.Rows.{rows, Holds};

pub mod session;

#[derive(Clone, Copy, PartialEq, Eq, Debug)]
pub enum Row {
    Place {
        block: u32,
        place: Option<u32>,
    },
    Block {
        place: u32,
        block: Option<u32>,
    },
    // Bytes 1 to 3 of a sector command, and the drive and the sector that they say.
    Address {
        high: u8,
        low: u8,
        middle: u8,
        drive: u8,
        sector: u32,
    },
    // The packet of a read, and the block and the first of its bytes that it reads.
    Read {
        code: u8,
        high: u8,
        low: u8,
        middle: u8,
        block: u32,
        first: u32,
    },
}

// These rows, each of which holds.
pub fn table() -> [Row; 16]
    ensures listed { result ≡ rows }
    ensures hold { AllByRecursion Holds result }
{
    [
        Row::Place {
            block: 1308,
            place: Some(1428),
        },
        Row::Place {
            block: 599,
            place: Some(679),
        },
        Row::Place {
            block: 600,
            place: Some(700),
        },
        Row::Place {
            block: 1240,
            place: Some(1360),
        },
        Row::Place {
            block: 1999,
            place: Some(2119),
        },
        Row::Place {
            block: 2000,
            place: None,
        },
        Row::Block {
            place: 79,
            block: None,
        },
        Row::Block {
            place: 1340,
            block: None,
        },
        Row::Block {
            place: 1000,
            block: Some(900),
        },
        Row::Address {
            high: 0xF1,
            low: 0xFF,
            middle: 0xFF,
            drive: 1,
            sector: 1_048_575,
        },
        Row::Address {
            high: 0x21,
            low: 0x48,
            middle: 0xD3,
            drive: 1,
            sector: 185_160,
        },
        Row::Read {
            code: 0x12,
            high: 0x01,
            low: 0x07,
            middle: 0x00,
            block: 1,
            first: 384,
        },
        Row::Read {
            code: 0x02,
            high: 0x01,
            low: 0x10,
            middle: 0x00,
            block: 8,
            first: 0,
        },
        Row::Read {
            code: 0x12,
            high: 0x01,
            low: 0x20,
            middle: 0x00,
            block: 8,
            first: 0,
        },
        Row::Read {
            code: 0x22,
            high: 0x01,
            low: 0x10,
            middle: 0x00,
            block: 8,
            first: 0,
        },
        Row::Read {
            code: 0x32,
            high: 0x01,
            low: 0x08,
            middle: 0x00,
            block: 8,
            first: 0,
        },
    ]
}
