// The example sessions, and a table of what they answer and leave. Each starts at a making, on a volume of 400 blocks of
// which block 7 is lost.
ghost use Rattle.std.specs.Prelude.{◌≡◌};
ghost use Rattle.std.specs.List.{AllByRecursion};
ghost use Rattle.worked.specs.SessionRows.{session_rows, Tells};

#[derive(Clone, Copy, PartialEq, Eq, Debug)]
pub enum Session {
    // A pipe area of 10 blocks from block 100 on.
    Area10,
    // A pipe area of 9 blocks from block 300 on.
    Area9,
    // Two pipes of one name, and an area that ends beyond the volume.
    TwoOfAName,
    // A name that stands behind an unused entry.
    Locks,
    // As many names as the table holds.
    FullTable,
    // Sectors of a lost block, and of the pipe area.
    Blocks,
}

#[derive(Clone, Copy, PartialEq, Eq, Debug)]
pub enum SessionRow {
    // The result of one request of a session, counted from 0.
    Answer {
        session: Session,
        request: u8,
        result: u8,
    },
    // One byte of the reply to one request of a session.
    Byte {
        session: Session,
        request: u8,
        at: u16,
        value: u8,
    },
    // After so many requests of a session, one entry of the table of pipe pointers, counted from 0.
    Pointer {
        session: Session,
        requests: u8,
        entry: u8,
        bytes: [u8; 8],
    },
}

// These rows, each of which holds.
pub fn session_table() -> [SessionRow; 29]
    ensures listed { result ≡ session_rows }
    ensures hold { AllByRecursion Tells result }
{
    [
        SessionRow::Pointer {
            session: Session::Area10,
            requests: 3,
            entry: 1,
            bytes: [0x01, 0x00, 0xC8, 0x00, 0x00, 0xC8, 0x00, 0x01],
        },
        SessionRow::Pointer {
            session: Session::Area10,
            requests: 3,
            entry: 2,
            bytes: [0x02, 0x00, 0xD2, 0x00, 0x00, 0xD2, 0x00, 0x01],
        },
        SessionRow::Answer {
            session: Session::Area10,
            request: 7,
            result: 0x00,
        },
        SessionRow::Answer {
            session: Session::Area10,
            request: 8,
            result: 0x0A,
        },
        SessionRow::Answer {
            session: Session::Area10,
            request: 9,
            result: 0x00,
        },
        SessionRow::Answer {
            session: Session::Area10,
            request: 10,
            result: 0x00,
        },
        SessionRow::Pointer {
            session: Session::Area10,
            requests: 11,
            entry: 1,
            bytes: [0x01, 0x00, 0xC8, 0x00, 0x00, 0xD4, 0x00, 0x81],
        },
        SessionRow::Pointer {
            session: Session::Area10,
            requests: 11,
            entry: 2,
            bytes: [0x3F, 0x00, 0xDC, 0x00, 0x00, 0xDC, 0x00, 0x80],
        },
        SessionRow::Pointer {
            session: Session::Area10,
            requests: 12,
            entry: 2,
            bytes: [0x02, 0x00, 0xD8, 0x00, 0x00, 0xD8, 0x00, 0x01],
        },
        SessionRow::Pointer {
            session: Session::Area10,
            requests: 15,
            entry: 1,
            bytes: [0x01, 0x00, 0xCA, 0x00, 0x00, 0xD4, 0x00, 0x82],
        },
        SessionRow::Pointer {
            session: Session::Area9,
            requests: 3,
            entry: 2,
            bytes: [0x02, 0x02, 0x62, 0x00, 0x02, 0x62, 0x00, 0x01],
        },
        SessionRow::Pointer {
            session: Session::Area9,
            requests: 4,
            entry: 2,
            bytes: [0x03, 0x02, 0x5E, 0x00, 0x02, 0x5E, 0x00, 0x01],
        },
        SessionRow::Byte {
            session: Session::TwoOfAName,
            request: 7,
            at: 2,
            value: 1,
        },
        SessionRow::Byte {
            session: Session::TwoOfAName,
            request: 7,
            at: 3,
            value: 0x82,
        },
        SessionRow::Answer {
            session: Session::TwoOfAName,
            request: 8,
            result: 0x8E,
        },
        SessionRow::Answer {
            session: Session::Locks,
            request: 3,
            result: 0x80,
        },
        SessionRow::Answer {
            session: Session::Locks,
            request: 4,
            result: 0x00,
        },
        SessionRow::Answer {
            session: Session::Locks,
            request: 5,
            result: 0x8F,
        },
        SessionRow::Answer {
            session: Session::FullTable,
            request: 31,
            result: 0x00,
        },
        SessionRow::Answer {
            session: Session::FullTable,
            request: 32,
            result: 0x80,
        },
        SessionRow::Answer {
            session: Session::FullTable,
            request: 33,
            result: 0xFD,
        },
        SessionRow::Answer {
            session: Session::Blocks,
            request: 0,
            result: 0x8B,
        },
        SessionRow::Answer {
            session: Session::Blocks,
            request: 1,
            result: 0x00,
        },
        SessionRow::Answer {
            session: Session::Blocks,
            request: 2,
            result: 0x00,
        },
        SessionRow::Answer {
            session: Session::Blocks,
            request: 4,
            result: 0x8D,
        },
        SessionRow::Answer {
            session: Session::Blocks,
            request: 5,
            result: 0x87,
        },
        SessionRow::Answer {
            session: Session::Blocks,
            request: 6,
            result: 0x8E,
        },
        SessionRow::Byte {
            session: Session::Blocks,
            request: 7,
            at: 128,
            value: 2,
        },
        SessionRow::Byte {
            session: Session::Blocks,
            request: 7,
            at: 129,
            value: 1,
        },
    ]
}
