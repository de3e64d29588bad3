// From blocks to places, and from places to blocks.
use crate::columns::{Row, Side, laid_out, title};
use crate::drive::Drive;
use crate::opened::{Opened, Room};
use crate::stop::Stop;
use crate::words::number_word;
use itertools::Itertools;
use placement::tracks::uses::PlaceUse;
use std::alloc::{AllocError, Global};
use std::fmt::Display;
use volume::Placement;

// A block or a place that a person asks for, and the word that says it.
#[derive(Clone, Copy)]
struct Asked<'a> {
    word: &'a str,
    number: u32,
}

fn asked_words<'a>(heap: Global, what: &str, words: &[&'a str]) -> Result<Vec<Asked<'a>>, Stop> {
    words
        .iter()
        .map(|&word| number_word(heap, what, word).map(|number| Asked { word, number }))
        .try_collect(heap)
}

// The number, or a dash where there is none.
fn or_dash<T: Display + Drop>(heap: Global, n: Option<T>) -> Result<String, AllocError> {
    match n {
        Some(n) => n.to_string(heap),
        None => String::from_str(heap, "-"),
    }
}

// Why no byte offset can be said.
fn no_byte(heap: Global, room: &Opened) -> Result<Option<String>, AllocError> {
    match &room.image {
        None => Ok(Some(String::from_str(heap, "the table names no image for the room")?)),
        Some(Err(why)) => Ok(Some(why.clone()?)),
        Some(Ok(facts)) => {
            let total = room.pile.total();
            let count = facts.head.count;
            if total <= count {
                return Ok(None);
            }
            Ok(Some(format!(in heap; "the image has {count} blocks, and the drive needs {total}")?))
        }
    }
}

// The byte of the image at which the place begins, where the drive fits the image.
fn byte_of(room: &Opened, place: u32) -> Option<u64> {
    let head = room.facts()?.head;
    if room.pile.total() > head.count {
        return None;
    }
    head.block_byte(place)
}

fn found_row(heap: Global, room: &Opened, word: &str, place: u32) -> Result<Row, AllocError> {
    let sectors = room.drive.sectors();
    Ok(Row {
        cells: vec![in heap;
            String::from_str(heap, word)?,
            place.to_string(heap)?,
            or_dash(heap, sectors.map(|sectors| place / sectors))?,
            or_dash(heap, sectors.map(|sectors| place % sectors))?,
            or_dash(heap, byte_of(room, place))?,
        ]?,
        tail: String::new(heap),
    })
}

fn place_row(heap: Global, room: &Opened, block: Asked<'_>) -> Result<Row, AllocError> {
    if let Some(place) = room.pile.place(block.number) {
        return found_row(heap, room, block.word, place);
    }
    let count = room.pile.count();
    Ok(Row {
        cells: vec![in heap; String::from_str(heap, block.word)?]?,
        tail: format!(in heap; "none: the room has {count} blocks")?,
    })
}

// Why no block of the room lies at the place. A function, since the use is another crate's.
fn why_none(drive: &Drive, place: u32) -> &'static str {
    match &drive.tracks {
        Some(tracks) => match tracks.use_of(place) {
            PlaceUse::Block(_) => "outside the window",
            PlaceUse::Firmware => "firmware",
            PlaceUse::Spared => "spared track",
            PlaceUse::Reserve => "reserve",
            PlaceUse::Outside => "outside the drive",
        },
        None if drive.window.is_some() => "outside the window",
        None => "outside the drive",
    }
}

fn block_row(heap: Global, room: &Opened, place: Asked<'_>) -> Result<Row, AllocError> {
    let tail = match room.pile.block_at(place.number) {
        Some(block) => block.to_string(heap)?,
        None => {
            let why = why_none(&room.drive, place.number);
            format!(in heap; "none: {why}")?
        }
    };
    Ok(Row {
        cells: vec![in heap; String::from_str(heap, place.word)?]?,
        tail,
    })
}

// The title, and a row for each that is asked for: pushed behind it, where a chain would need a second list.
fn rows<F: Fn(Asked<'_>) -> Result<Row, AllocError>>(
    heap: Global,
    title: Row,
    asked: &[Asked<'_>],
    row: F,
) -> Result<Vec<Row>, AllocError>
    requires { F.IsAlwaysCallable row }
{
    let mut rows = vec![in heap; title]?;
    for &one in asked {
        rows.push(row(one)?)?;
    }
    Ok(rows)
}

// What `place` and `block` share is `rows`; titles, sides and rows are their own.
pub(crate) fn place(rt: &HostRuntime, room: Room<'_>, words: &[&str]) -> Result<(), Stop> {
    let heap = rt.alloc();
    let blocks = asked_words(heap, "block", words)?;
    let room = room.open(rt)?;
    let title = title(heap, &["block", "place", "track", "sector", "byte"], "")?;
    let rows = rows(heap, title, blocks.as_slice(), |block| {
        place_row(heap, &room, block)
    })?;
    rt.print(laid_out(heap, rows.as_slice(), &[Side::Right; 5])?)?;
    if let Some(why) = no_byte(heap, &room)? {
        println!(rt; "no byte offsets: {why}")?;
    }
    Ok(())
}

pub(crate) fn block(rt: &HostRuntime, room: Room<'_>, words: &[&str]) -> Result<(), Stop> {
    let heap = rt.alloc();
    let places = asked_words(heap, "place", words)?;
    let room = room.open(rt)?;
    let title = title(heap, &["place"], "block")?;
    let rows = rows(heap, title, places.as_slice(), |place| {
        block_row(heap, &room, place)
    })?;
    rt.print(laid_out(heap, rows.as_slice(), &[Side::Right])?)?;
    Ok(())
}
