// A packet from words.
use crate::digits::bytes_in;
use crate::questions::Failed;
use crate::stop::Stop;
use crate::words::number_word;
use build::build;
use packet::command::{Command, SectorAddress, Size};
use std::alloc::Global;
use std::num::TryFromIntError;

// The longest packet, a Pipe Write's.
const MOST: usize = 517;

// A function, since the size is another crate's.
fn size_word(heap: Global, word: &str) -> Result<Size, Stop> {
    match word {
        "128" => Ok(Size::Bytes128),
        "256" => Ok(Size::Bytes256),
        "256b" => Ok(Size::Bytes256Again),
        "512" => Ok(Size::Bytes512),
        _ => Err(Stop::said(format!(in heap; "size: '{word}' is none of 128, 256, 256b and 512"))),
    }
}

// A number of a field's type, and the most that the type holds, in words.
trait Narrow: TryFrom<u32, Error = TryFromIntError> {
    const MOST: &'static str;
}

impl Narrow for u8 {
    const MOST: &'static str = "255";
}

impl Narrow for u16 {
    const MOST: &'static str = "65,535";
}

fn narrow_word<T: Narrow>(heap: Global, what: &str, word: &str) -> Result<T, Stop> {
    T::try_from(number_word(heap, what, word)?).map_err(|_| {
        let most = T::MOST;
        Stop::said(format!(in heap; "{what}: {word} is more than {most}"))
    })
}

// A name of at most eight bytes, filled up with blanks. `Name` prints one; only this command reads one.
fn name_word(heap: Global, word: &str) -> Result<u64, Stop> {
    let bytes = word.as_bytes();
    let mut name = [b' '; 8];
    match name.get_mut(..bytes.len()) {
        Some(front) => front.copy_from_slice(bytes),
        None => {
            return Err(Stop::said(format!(in heap; "name: '{word}' has more than 8 bytes")));
        }
    }
    Ok(u64::from_be_bytes(name))
}

// How a command is built, where it is one. A text for each word, as a list to search would have, and no search.
fn usage(command: &str) -> Option<&'static str> {
    match command {
        "read" => Some("read SIZE DRIVE SECTOR"),
        "write" => Some("write SIZE DRIVE SECTOR HEX..."),
        "lock" => Some("lock NAME"),
        "unlock" => Some("unlock NAME"),
        "initialize-semaphores" => Some("initialize-semaphores"),
        "status" => Some("status SELECTOR"),
        "initialize-area" => Some("initialize-area FIRST LENGTH"),
        "open-write" => Some("open-write NAME"),
        "open-read" => Some("open-read NAME"),
        "pipe-read" => Some("pipe-read NUMBER LENGTH"),
        "pipe-write" => Some("pipe-write NUMBER LENGTH HEX..."),
        "close" => Some("close NUMBER"),
        _ => None,
    }
}

// Not `help::refused`: the words say that the command is a drive's, and one page tells of all.
fn no_command(heap: Global, words: &[&str]) -> Stop {
    let command = words.first().copied().unwrap_or("");
    Stop::said(match usage(command) {
        Some(usage) => format!(in heap;
            "wrong number of words: it is 'corvus build {usage}'; try 'corvus help'"
        ),
        None => format!(in heap; "'{command}' is no command of a drive; try 'corvus help'"),
    })
}

// Apart from `command_in`, since a command only borrows its data.
// The words of data, in hexadecimal, behind the fields of a command that has them.
fn data_in(heap: Global, words: &[&str]) -> Result<Vec<u8>, Stop> {
    match words {
        ["write", _, _, _, hex @ ..] => bytes_in(heap, hex),
        ["pipe-write", _, _, hex @ ..] => bytes_in(heap, hex),
        _ => Ok(Vec::new(heap)),
    }
}

fn address_in(heap: Global, size: &str, drive: &str, sector: &str) -> Result<SectorAddress, Stop> {
    Ok(SectorAddress {
        size: size_word(heap, size)?,
        drive: narrow_word(heap, "drive", drive)?,
        sector: number_word(heap, "sector", sector)?,
    })
}

// The command that the words say, with its data.
fn command_in<'a>(heap: Global, words: &[&str], bytes: &'a [u8]) -> Result<Command<'a>, Stop> {
    Ok(match words {
        ["read", size, drive, sector] => Command::Read(address_in(heap, size, drive, sector)?),
        ["write", size, drive, sector, ..] => Command::Write {
            at: address_in(heap, size, drive, sector)?,
            bytes,
        },
        ["lock", name] => Command::Lock {
            name: name_word(heap, name)?,
        },
        ["unlock", name] => Command::Unlock {
            name: name_word(heap, name)?,
        },
        ["initialize-semaphores"] => Command::InitializeSemaphores,
        ["status", selector] => Command::Status {
            selector: narrow_word(heap, "number", selector)?,
        },
        ["initialize-area", first, length] => Command::InitializeArea {
            first: narrow_word(heap, "first", first)?,
            blocks: narrow_word(heap, "length", length)?,
        },
        ["open-write", name] => Command::OpenWrite {
            name: name_word(heap, name)?,
        },
        ["open-read", name] => Command::OpenRead {
            name: name_word(heap, name)?,
        },
        ["pipe-read", number, length] => Command::PipeRead {
            number: narrow_word(heap, "number", number)?,
            length: narrow_word(heap, "length", length)?,
        },
        ["pipe-write", number, length, ..] => Command::PipeWrite {
            number: narrow_word(heap, "number", number)?,
            length: narrow_word(heap, "length", length)?,
            bytes,
        },
        ["close", number] => Command::Close {
            number: narrow_word(heap, "number", number)?,
        },
        _ => return Err(no_command(heap, words)),
    })
}

// The packet of the words, built in a buffer of so many bytes.
fn built(heap: Global, room: usize, words: &[&str]) -> Result<String, Stop> {
    let data = data_in(heap, words)?;
    let command = command_in(heap, words, data.as_slice())?;
    let mut buffer = vec![in heap; 0u8; room]?;
    let length = build(&command, buffer.as_mut_slice()).map_err(|refusal| Failed::from(
        refusal,
    ).stop(heap))?;
    buffer.truncate(length);
    Ok(hex::encode(heap, buffer.as_slice())?)
}

// The length of the buffer, of which no packet needs more than the longest.
fn room_word(heap: Global, word: &str) -> Result<usize, Stop> {
    Ok((number_word(heap, "room", word)? as usize).min(MOST))
}

pub(crate) fn build_words(rt: &HostRuntime, words: &[&str]) -> Result<(), Stop> {
    let heap = rt.alloc();
    let text = match words {
        ["--room", rest @ ..] => {
            // A missing number is refused as an empty one.
            let (room, words) = rest.split_first().unwrap_or((&"", rest));
            built(heap, room_word(heap, room)?, words)?
        }
        _ => built(heap, MOST, words)?,
    };
    rt.println(text)?;
    Ok(())
}
