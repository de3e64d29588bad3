// A picture of a room's drive in text.
use crate::columns::{Row, Side, laid_out};
use crate::drive::Span;
use crate::opened::{Opened, Room};
use crate::stop::Stop;
use crate::words::{Stretch, add_lines, sum_of};
use placement::tracks::SparedTracks;
use placement::tracks::uses::PlaceUse;
use std::alloc::{AllocError, Global};
use std::fmt;
use std::fmt::Write;
use std::num::NonZeroU32;
use volume::Placement;

const COLUMNS: usize = 64;

const CELLS: usize = 1024;

// What a track, or a block of a drive without tracks, is; the more alarming first.
#[derive(Clone, Copy, PartialEq, Eq, PartialOrd, Ord)]
enum Mark {
    Lost,
    Spared,
    Room,
    Firmware,
    Unused,
    Reserve,
}

impl Mark {
    // Not the letters as the cases' numbers, whose order is that of alarm.
    fn letter(self) -> char {
        match self {
            Mark::Lost => '!',
            Mark::Spared => 'x',
            Mark::Room => '#',
            Mark::Firmware => 'F',
            Mark::Unused => '-',
            Mark::Reserve => '.',
        }
    }
}

impl fmt::Display for Mark {
    fn fmt<W: fmt::Write>(&self, f: &mut fmt::Formatter<W>) -> fmt::Result {
        f.write_str(match self {
            Mark::Lost => "holds a lost block",
            Mark::Spared => "spared",
            Mark::Room => "blocks of the room",
            Mark::Firmware => "firmware",
            Mark::Unused => "usable, not in the window",
            Mark::Reserve => "reserve",
        })
    }
}

fn track_mark(tracks: &SparedTracks, window: Option<Span>, track: u32) -> Mark {
    let sectors = tracks.shape().sectors;
    match tracks.use_of(track.saturating_mul(sectors)) {
        PlaceUse::Block(n) if window.is_none_or(|span| span.touches(n, sectors)) => Mark::Room,
        PlaceUse::Block(_) => Mark::Unused,
        PlaceUse::Firmware => Mark::Firmware,
        PlaceUse::Spared => Mark::Spared,
        PlaceUse::Reserve | PlaceUse::Outside => Mark::Reserve,
    }
}

fn block_mark(room: &Opened, place: u32) -> Mark {
    match room.pile.block_at(place) {
        Some(_) => Mark::Room,
        None => Mark::Unused,
    }
}

fn marks_of(heap: Global, room: &Opened) -> Result<Vec<Mark>, AllocError> {
    if let Some(tracks) = &room.drive.tracks {
        return (0..tracks.shape().tracks)
            .map(|track| track_mark(tracks, room.drive.window, track))
            .collect(heap);
    }
    let image = room.facts().map_or(0, |facts| facts.head.count);
    (0..image.max(room.pile.total()))
        .map(|place| block_mark(room, place))
        .collect(heap)
}

// Marks what holds a lost block, where each mark is of so many places.
fn mark_lost(marks: &mut [Mark], places: NonZeroU32, lost: Stretch) {
    let first = lost.first / places;
    let last = lost.last / places;
    let held = last.saturating_sub(first).saturating_add(1);
    for mark in marks.iter_mut().skip(first as usize).take(held as usize) {
        *mark = Mark::Lost;
    }
}

// A character for each of the chunks, which is the first of its marks.
fn letters(heap: Global, line: &[Mark], scale: usize) -> Result<String, AllocError> {
    line.chunks(scale.max(1))
        .filter_map(|cell| cell.iter().copied().min())
        .map(|mark| mark.letter())
        .collect(heap)
}

// The number is that of a mark, and no index.
// A character for each `scale` marks, 64 to a line, with the number of the line's first before it.
fn picture(heap: Global, marks: &[Mark], scale: usize) -> Result<String, AllocError> {
    let mut out = String::new(heap);
    let width = scale.saturating_mul(COLUMNS).max(1);
    for (i, line) in marks.chunks(width).enumerate() {
        let first = i.saturating_mul(width);
        let letters = letters(heap, line, scale)?;
        writeln!(out, "{first:>8}  {letters}")?;
    }
    Ok(out)
}

// Neighbours of the same mark.
#[derive(Clone, Copy)]
struct Alike {
    stretch: Stretch,
    mark: Mark,
}

// Equal neighbours joined. Not counted by the library: the counts would have to be added up to numbers again.
fn joined(heap: Global, marks: &[Mark]) -> Result<Vec<Alike>, AllocError> {
    let mut out: Vec<Alike> = Vec::new(heap);
    for (n, mark) in (0..u32::MAX).zip(marks.iter().copied()) {
        match out.last_mut() {
            Some(alike) if alike.mark == mark => alike.stretch.last = n,
            _ => out.push(Alike {
                stretch: Stretch { first: n, last: n },
                mark,
            })?,
        }
    }
    Ok(out)
}

fn alike_row(heap: Global, alike: &Alike) -> Result<Row, AllocError> {
    Ok(Row {
        cells: vec![in heap; String::new(heap), alike.stretch.to_string(heap)?]?,
        tail: alike.mark.to_string(heap)?,
    })
}

fn stretch_lines(heap: Global, marks: &[Mark]) -> Result<String, AllocError> {
    let rows: Vec<Row> = joined(heap, marks)?
        .iter()
        .map(|alike| alike_row(heap, alike))
        .try_collect(heap)?;
    laid_out(heap, rows.as_slice(), &[Side::Left, Side::Left])
}

fn lost_lines(heap: Global, lost: &[Stretch]) -> Result<String, AllocError> {
    if lost.is_empty() {
        return String::from_str(heap, "lost blocks of the image: none\n");
    }
    let sum = sum_of(lost);
    let (shown, more) = lost.split_at(lost.len().min(20));
    let mut out = format!(in heap; "lost blocks of the image, by place: {sum}\n")?;
    add_lines(&mut out, "  ", shown)?;
    match more.len() {
        0 => Ok(out),
        more => {
            writeln!(out, "  and {more} more")?;
            Ok(out)
        }
    }
}

const BY_TRACK: [Mark; 6] = [
    Mark::Lost,
    Mark::Spared,
    Mark::Room,
    Mark::Firmware,
    Mark::Unused,
    Mark::Reserve,
];

const BY_BLOCK: [Mark; 3] = [Mark::Lost, Mark::Room, Mark::Unused];

fn unit(room: &Opened) -> &'static str {
    match room.drive.sectors() {
        Some(_) => "track",
        None => "block",
    }
}

// What is drawn: so many blocks on n tracks or among n blocks.
fn subject(heap: Global, room: &Opened, n: usize) -> Result<String, AllocError> {
    let blocks = room.pile.count();
    match room.drive.sectors() {
        Some(sectors) => format!(in heap; "{blocks} blocks on {n} tracks of {sectors} sectors"),
        None => format!(in heap; "{blocks} of {n} blocks"),
    }
}

fn legend(heap: Global, room: &Opened) -> Result<String, AllocError> {
    let marks = match room.drive.sectors() {
        Some(_) => BY_TRACK.as_slice(),
        None => BY_BLOCK.as_slice(),
    };
    let mut out = String::new(heap);
    for mark in marks {
        let letter = mark.letter();
        writeln!(out, "  {letter}  {mark}")?;
    }
    Ok(out)
}

// What is drawn, what a character stands for, and what each means.
fn heading(
    heap: Global,
    name: &str,
    room: &Opened,
    n: usize,
    scale: usize,
) -> Result<String, AllocError> {
    let subject = subject(heap, room, n)?;
    let unit = unit(room);
    let legend = legend(heap, room)?;
    if scale < 2 {
        return format!(in heap; "room {name}: {subject}\neach character is one {unit}\n{legend}");
    }
    format!(in heap;
        "room {name}: {subject}\neach character is {scale} {unit}s, and shows the first of these that one of them is\n{legend}"
    )
}

// The heading, the picture, and the stretches, which say what is there besides what is lost.
fn drawing(heap: Global, name: &str, room: &Opened) -> Result<String, AllocError> {
    let mut marks = marks_of(heap, room)?;
    let scale = marks.len().div_ceil(CELLS);
    let head = heading(heap, name, room, marks.len(), scale)?;
    let stretches = stretch_lines(heap, marks.as_slice())?;
    let places = room.drive.sectors().unwrap_or(NonZeroU32::MIN);
    for &lost in room.lost() {
        mark_lost(marks.as_mut_slice(), places, lost);
    }
    let drawn = picture(heap, marks.as_slice(), scale)?;
    let unit = unit(room);
    format!(in heap; "{head}\n{drawn}\n{unit}s\n{stretches}")
}

pub(crate) fn map(rt: &HostRuntime, room: Room<'_>) -> Result<(), Stop> {
    let heap = rt.alloc();
    let opened = room.open(rt)?;
    rt.print(drawing(heap, room.name, &opened)?)?;
    if let Some(facts) = opened.facts() {
        rt.print(lost_lines(heap, facts.lost.as_slice())?)?;
    }
    Ok(())
}
