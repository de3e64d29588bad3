// Images as a room or a person names them: their header and their lost blocks, or why they are refused.
use crate::drive::Drive;
use crate::files::{beside, bytes_of};
use crate::questions::Failed;
use crate::stop::{Stop, settled};
use crate::table::Entry;
use crate::words::{Stretch, add_next};
use image::check::check;
use image::header::Header;
use image::shelf::ShelfImage;
use indexmap::IndexMap;
use std::alloc::{AllocError, Global};
use std::path::PathBuf;
use volume::Volume;
use volume::answers::ReadRefusal;

#[derive(Drop)]
pub(crate) struct Facts {
    pub(crate) head: Header,
    pub(crate) length: usize,
    pub(crate) lost: Vec<Stretch>,
}

// An image that was asked for, under the name that the table has for it first.
#[derive(Drop)]
pub(crate) struct Asked {
    pub(crate) name: String,
    pub(crate) facts: Result<Facts, String>,
}

pub(crate) type Images = IndexMap<PathBuf, Asked>;

// The path that an image of the table is known by: a.img and ./a.img are one. Made for each look-up, since it is as long as the name.
fn path_of(heap: Global, name: &str) -> Result<PathBuf, AllocError> {
    PathBuf::from_str(heap, name.trim_start_matches("./"))
}

fn lost_of(heap: Global, image: &ShelfImage<&[u8]>) -> Result<Vec<Stretch>, AllocError> {
    let mut lost = Vec::new(heap);
    let mut buffer = [0u8; 512];
    // n is the number of a block, and no index.
    for n in 0..image.count() {
        if let Err(ReadRefusal::Lost) = image.read(n, &mut buffer) {
            add_next(&mut lost, n)?;
        }
    }
    Ok(lost)
}

// The header of sound bytes, or the question that they fail.
pub(crate) fn header_of(heap: Global, path: &str, bytes: &[u8]) -> Result<Header, Stop> {
    check(bytes).map_err(|fault| {
        let failed = Failed::from(fault);
        Stop::said(format!(in heap; "{path}: {failed}"))
    })
}

pub(crate) fn facts_of(rt: &HostRuntime, path: &str) -> Result<Facts, Stop> {
    let heap = rt.alloc();
    let bytes = bytes_of(rt, path)?;
    let head = header_of(heap, path, bytes.as_slice())?;
    let image = ShelfImage::new(bytes.as_slice());
    Ok(Facts {
        head,
        length: bytes.len(),
        lost: lost_of(heap, &image)?,
    })
}

// The facts of an image that a table names, or why it is refused.
pub(crate) fn facts_beside(
    rt: &HostRuntime,
    table: &str,
    name: &str,
) -> Result<Result<Facts, String>, Stop> {
    let path = beside(rt.alloc(), table, name)?;
    settled(facts_of(rt, path.as_str()))
}

// How many blocks an image below the drive has, or why it cannot be the whole of the room.
pub(crate) fn blocks_below<'a>(
    drive: &Drive,
    image: Option<&'a Result<Facts, String>>,
) -> Result<u32, &'a str> {
    match image {
        Some(Ok(facts)) => Ok(facts.head.count),
        Some(Err(why)) if drive.is_whole() => Err(why.as_str()),
        _ => Ok(0),
    }
}

// The images that the rooms name, in the order in which they are first named. Each is read once.
pub(crate) fn images_of(rt: &HostRuntime, table: &str, entries: &[Entry]) -> Result<Images, Stop> {
    let heap = rt.alloc();
    let mut images = IndexMap::new(heap);
    for name in entries.iter().filter_map(|entry| entry.image.as_deref()) {
        let path = path_of(heap, name)?;
        if !images.contains_key(&path) {
            let asked = Asked {
                name: String::from_str(heap, name)?,
                facts: facts_beside(rt, table, name)?,
            };
            images.insert(path, asked)?;
        }
    }
    Ok(images)
}

// The place, among the images, of the one that the room names.
pub(crate) fn place_of(
    heap: Global,
    images: &Images,
    entry: &Entry,
) -> Result<Option<usize>, AllocError> {
    let Some(name) = entry.image.as_deref() else {
        return Ok(None);
    };
    let path = path_of(heap, name)?;
    Ok(images.get_index_of(&path))
}
