// The lines of a scenario.
ghost use Rattle.scenario.specs.Kinds.{Names};

use crate::numbers::number;
use crate::words::{first_number, first_word};
use placement::shape::Shape;
use std::str::FromStr;

// What a volume is made of: a house image for reading and writing, one for reading, or a Bank.
#[derive(Clone, Copy, PartialEq, Eq, Debug)]
pub enum Kind {
    Work,
    Shelf,
    Bank,
}

// A word that names no kind.
#[derive(Clone, Copy, PartialEq, Eq, Debug)]
pub struct UnknownKind;

impl FromStr for Kind {
    type Err = UnknownKind;

    ghost from_str_gives = { Names };

    fn from_str(word: &str) -> Result<Kind, UnknownKind> {
        match word {
            "work" => Ok(Kind::Work),
            "shelf" => Ok(Kind::Shelf),
            "bank" => Ok(Kind::Bank),
            _ => Err(UnknownKind),
        }
    }
}

// The list is that of the spared tracks, without its brackets; the room is that of the reply buffer, in bytes.
#[derive(Clone, Copy)]
pub enum Line<'a> {
    Blank,
    Volume { kind: Kind, path: &'a str },
    Spared { shape: Shape, list: &'a str },
    // As `Window::set` takes them: a placement that is refused has no type to hold them.
    Window { offset: u32, count: u32, total: u32 },
    Packet { room: u32, hex: &'a str },
}

// The reply buffer where a line names none.
pub const ROOM: u32 = 1025;

fn volume_of(text: &str) -> Option<Line<'_>> {
    let (word, path) = first_word(text);
    let kind = word.parse().ok()?;
    (!path.is_empty()).then_some(Line::Volume { kind, path })
}

// What stands in the brackets, or the whole text where there are none.
fn in_brackets(text: &str) -> Option<&str> {
    match text.strip_prefix('[') {
        Some(rest) => rest.strip_suffix(']'),
        None => Some(text),
    }
}

fn spared_of(text: &str) -> Option<Line<'_>> {
    let (tracks, text) = first_number(text)?;
    let (sectors, text) = first_number(text)?;
    let (firmware, text) = first_number(text)?;
    let (spares, text) = first_number(text)?;
    let list = in_brackets(text)?;
    let shape = Shape {
        tracks,
        sectors,
        firmware,
        spares,
    };
    Some(Line::Spared { shape, list })
}

fn window_of(text: &str) -> Option<Line<'_>> {
    let (offset, text) = first_number(text)?;
    let (count, text) = first_number(text)?;
    let (total, text) = first_number(text)?;
    text.is_empty().then_some(Line::Window {
        offset,
        count,
        total,
    })
}

// A lone word is the packet; in front of it may stand the reply buffer's length.
fn packet_of(text: &str) -> Option<Line<'_>> {
    let (first, rest) = first_word(text);
    if rest.is_empty() {
        return Some(Line::Packet {
            room: ROOM,
            hex: first,
        });
    }
    let room = number(first)?;
    let (hex, rest) = first_word(rest);
    rest.is_empty().then_some(Line::Packet { room, hex })
}

// What the line says; None where it is not one of a scenario's. A function and no FromStr: a line borrows its text.
pub fn line_of(text: &str) -> Option<Line<'_>> {
    let said = text.split_once('#').map_or(text, |(before, _)| before);
    let (word, rest) = first_word(said);
    match word {
        "" => Some(Line::Blank),
        "volume" => volume_of(rest),
        "spared" => spared_of(rest),
        "window" => window_of(rest),
        "packet" => packet_of(rest),
        _ => None,
    }
}
