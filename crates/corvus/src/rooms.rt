// The list of a table's rooms, and which of them share an image.
use crate::columns::{Row, Side, laid_out, title};
use crate::drive::Drive;
use crate::images::{Asked, Facts, Images, blocks_below, images_of, place_of};
use crate::stop::{Stop, settled};
use crate::table;
use crate::table::Entry;
use crate::words::{runs_words, sum_of};
use itertools::Itertools;
use pile::runs::{Run, runs_of, shared_place};
use std::alloc::{AllocError, Global};
use std::fmt::Write;
use std::mem;
use volume::Placement;

// The blocks of a room, and the places that they take.
#[derive(Drop)]
struct Taken {
    blocks: u32,
    places: Vec<Run>,
}

// A room of the list: what it takes, where it has a drive, and what is said of its image or is wrong with the room.
#[derive(Drop)]
struct Shown {
    entry: Entry,
    taken: Option<Taken>,
    image: Result<String, String>,
}

impl Shown {
    // The places, where all is well with the room.
    fn sound_places(&self) -> Option<&[Run]> {
        match (&self.taken, &self.image) {
            (Some(taken), Ok(_)) => Some(taken.places.as_slice()),
            _ => None,
        }
    }

    // Takes what is said out of the room, so that it is not copied. Whether all is well with the image stays.
    fn row(&mut self, heap: Global) -> Result<Row, AllocError> {
        let mut cells = vec![in heap; String::from_str(heap, self.entry.shown_name())?]?;
        if let Some(Taken { blocks, places }) = &self.taken {
            cells.push(blocks.to_string(heap)?)?;
            cells.push(runs_words(heap, places.as_slice())?)?;
        }
        let line = self.entry.line;
        let tail = match &mut self.image {
            Ok(words) => mem::replace(words, String::new(heap)),
            Err(why) => {
                let why = mem::replace(why, String::new(heap));
                format!(in heap; "line {line}: {why}")?
            }
        };
        Ok(Row { cells, tail })
    }
}

fn lost_words(heap: Global, facts: &Facts) -> Result<String, AllocError> {
    match sum_of(facts.lost.as_slice()) {
        0 => String::from_str(heap, "none lost"),
        n => format!(in heap; "{n} lost"),
    }
}

// What is said of the image below a pile of that total, or what is wrong with it.
fn image_words(heap: Global, asked: Option<&Asked>, total: u32) -> Result<String, Stop> {
    let Some(Asked { name, facts }) = asked else {
        return Ok(String::from_str(heap, "no image")?);
    };
    let facts = facts.as_ref().map_err(|why| Stop::said(why.clone()))?;
    let count = facts.head.count;
    let lost = lost_words(heap, facts)?;
    if total <= count {
        return Ok(format!(in heap; "{name}: {count} blocks, {lost}, fits")?);
    }
    Err(Stop::said(format!(in heap;
        "{name}: {count} blocks, {lost}, does not fit: {total} are needed"
    )))
}

// The drive of a room and how many blocks lie below it, or why the room is refused.
fn drive_of<'a>(entry: &'a Entry, asked: Option<&'a Asked>) -> Result<(&'a Drive, u32), &'a str> {
    let drive = entry.drive.as_ref().map_err(|why| why.as_str())?;
    let count = blocks_below(drive, asked.map(|asked| &asked.facts))?;
    Ok((drive, count))
}

fn shown_of(heap: Global, entry: Entry, asked: Option<&Asked>) -> Result<Shown, Stop> {
    let (taken, image) = match drive_of(&entry, asked) {
        Err(why) => (None, Err(String::from_str(heap, why)?)),
        Ok((drive, count)) => {
            let pile = drive.pile(heap, count)?;
            let blocks = pile.count();
            let places = runs_of(heap, &pile)?;
            let image = settled(image_words(heap, asked, pile.total()))?;
            (Some(Taken { blocks, places }), image)
        }
    };
    Ok(Shown {
        entry,
        taken,
        image,
    })
}

// A place that two rooms share, with both of which all is well.
fn common(a: &Shown, b: &Shown) -> Option<u32> {
    shared_place(a.sound_places()?, b.sound_places()?)
}

fn names_of(heap: Global, rooms: &[&Shown]) -> Result<String, AllocError> {
    rooms
        .iter()
        .map(|room| room.entry.shown_name())
        .join(heap, ", ")
}

// The others that overlap with the room, a line each.
fn add_overlaps(out: &mut String, room: &Shown, others: &[&Shown]) -> Result<(), AllocError> {
    for other in others {
        if let Some(place) = common(room, other) {
            let a = room.entry.shown_name();
            let b = other.entry.shown_name();
            writeln!(out, "  {a} and {b} overlap, as at place {place}")?;
        }
    }
    Ok(())
}

// Which rooms share the image, and which of them overlap in it.
fn add_sharing(
    heap: Global,
    out: &mut String,
    image: &Asked,
    sharers: &[&Shown],
) -> Result<(), AllocError> {
    let image = image.name.as_str();
    let names = names_of(heap, sharers)?;
    writeln!(out, "{image} is shared by {names}")?;
    // Not `tuple_combinations`, which takes heap for each pair.
    for (i, room) in sharers.iter().enumerate() {
        add_overlaps(out, room, &sharers[i + 1..])?;
    }
    Ok(())
}

// For each of the images, in their order, the rooms on it. By one walk over the rooms: a walk for each image would compare every path with each.
fn rooms_on<'a>(
    heap: Global,
    rooms: &'a [Shown],
    images: &Images,
) -> Result<Vec<Vec<&'a Shown>>, AllocError> {
    let mut groups: Vec<Vec<&Shown>> = images.iter().map(|_| Vec::new(heap)).collect(heap)?;
    for room in rooms {
        let place = place_of(heap, images, &room.entry)?;
        if let Some(group) = place.and_then(|i| groups.get_mut(i)) {
            group.push(room)?;
        }
    }
    Ok(groups)
}

fn sharing(heap: Global, rooms: &[Shown], images: &Images) -> Result<String, AllocError> {
    let mut out = String::new(heap);
    let groups = rooms_on(heap, rooms, images)?;
    for ((_, image), sharers) in images.iter().zip(groups.iter()) {
        if sharers.len() > 1 {
            add_sharing(heap, &mut out, image, sharers.as_slice())?;
        }
    }
    Ok(out)
}

fn list(heap: Global, rooms: &mut [Shown]) -> Result<String, AllocError> {
    let mut rows = vec![in heap; title(heap, &["room", "blocks", "places"], "image")?]?;
    for room in rooms.iter_mut() {
        rows.push(room.row(heap)?)?;
    }
    laid_out(
        heap,
        rows.as_slice(),
        &[Side::Left, Side::Right, Side::Left],
    )
}

pub(crate) fn rooms(rt: &HostRuntime, table: &str) -> Result<(), Stop> {
    let heap = rt.alloc();
    let entries = table::read(rt, table)?;
    if entries.is_empty() {
        rt.println("no rooms")?;
        return Ok(());
    }
    let images = images_of(rt, table, entries.as_slice())?;
    let mut rooms = Vec::new(heap);
    for entry in entries {
        let place = place_of(heap, &images, &entry)?;
        let asked = place.and_then(|i| images.get_index(i));
        rooms.push(shown_of(heap, entry, asked.map(|(_, asked)| asked))?)?;
    }
    // The list is printed before the lines on shared images are made, for which memory may lack.
    rt.print(list(heap, rooms.as_mut_slice())?)?;
    rt.print(sharing(heap, rooms.as_slice(), &images)?)?;
    let all = rooms.len();
    match rooms.iter().filter(|room| room.image.is_err()).count() {
        0 => Ok(()),
        bad => Err(Stop::said(format!(in heap; "{table}: faults in {bad} of {all} rooms"))),
    }
}
