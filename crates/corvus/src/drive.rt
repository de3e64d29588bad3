// What a room's fields say of its drive: spared tracks, and a window on them.
use crate::questions::Failed;
use crate::stop::Stop;
use crate::table::Fields;
use crate::words::number_word;
use pile::Pile;
use pile::layer::Layer;
use placement::shape::Shape;
use placement::tracks::SparedTracks;
use placement::window::Window;
use scenario::numbers::number;
use std::alloc::Global;
use std::num::NonZeroU32;
use volume::Placement;

#[derive(Clone, Copy)]
pub(crate) struct Span {
    pub(crate) offset: u32,
    pub(crate) length: u32,
}

impl Span {
    // Does one of so many blocks, from n on, lie in the window?
    pub(crate) fn touches(self, n: u32, blocks: u32) -> bool {
        self.offset < n.saturating_add(blocks) && n < self.offset.saturating_add(self.length)
    }
}

// With neither tracks nor window, the room is its whole image.
#[derive(Drop)]
pub(crate) struct Drive {
    pub(crate) tracks: Option<SparedTracks>,
    pub(crate) window: Option<Span>,
}

fn number_or_zero(heap: Global, name: &str, text: Option<&str>) -> Result<u32, Stop> {
    match text {
        Some(text) => number_word(heap, name, text),
        None => Ok(0),
    }
}

// The tracks that stand in the text, with blanks between them.
fn list_in(heap: Global, text: &str) -> Result<Vec<u32>, Stop> {
    text.split_whitespace()
        .map(|word| {
            number(word).ok_or_else(|| {
                Stop::said(format!(in heap;
                    "spared: '{word}' is no number (tracks with blanks between them)"
                ))
            })
        })
        .try_collect(heap)
}

// As `window_on`: the two placements are set up alike, by other arguments, and have no trait for it.
fn spared_tracks(heap: Global, shape: Shape, list: Vec<u32>) -> Result<SparedTracks, Stop> {
    let mut tracks = SparedTracks::fresh(heap);
    tracks
        .set(shape, list)
        .map_err(|refusal| Failed::from(refusal).stop(heap))?;
    Ok(tracks)
}

fn window_on(heap: Global, span: Span, total: u32) -> Result<Window, Stop> {
    let mut window = Window::fresh();
    window
        .set(span.offset, span.length, total)
        .map_err(|refusal| Failed::from(refusal).stop(heap))?;
    Ok(window)
}

// Without tracks, nothing else may be said of them.
fn no_tracks(heap: Global, fields: Fields<'_>) -> Result<(), Stop> {
    let others = [
        ("sectors", fields.sectors),
        ("firmware", fields.firmware),
        ("spares", fields.spares),
        ("spared", fields.spared),
    ];
    match others.iter().find(|(_, text)| text.is_some()) {
        Some((name, _)) => Err(Stop::said(format!(in heap;
            "{name} is filled, and tracks is empty"
        ))),
        None => Ok(()),
    }
}

fn tracks_in(heap: Global, fields: Fields<'_>) -> Result<Option<SparedTracks>, Stop> {
    let Some(tracks) = fields.tracks else {
        no_tracks(heap, fields)?;
        return Ok(None);
    };
    let Some(sectors) = fields.sectors else {
        return Err(Stop::said(format!(in heap; "tracks is filled, and sectors is empty")));
    };
    let shape = Shape {
        tracks: number_word(heap, "tracks", tracks)?,
        sectors: number_word(heap, "sectors", sectors)?,
        firmware: number_or_zero(heap, "firmware", fields.firmware)?,
        spares: number_or_zero(heap, "spares", fields.spares)?,
    };
    let list = list_in(heap, fields.spared.unwrap_or(""))?;
    Ok(Some(spared_tracks(heap, shape, list)?))
}

fn span_in(heap: Global, fields: Fields<'_>) -> Result<Option<Span>, Stop> {
    match (fields.offset, fields.length) {
        (None, None) => Ok(None),
        (None, Some(_)) => Err(Stop::said(format!(in heap;
            "length is filled, and offset is empty"
        ))),
        (Some(_), None) => Err(Stop::said(format!(in heap;
            "offset is filled, and length is empty"
        ))),
        (Some(offset), Some(length)) => Ok(Some(Span {
            offset: number_word(heap, "offset", offset)?,
            length: number_word(heap, "length", length)?,
        })),
    }
}

impl Drive {
    // The drive of a room with these fields, or which question it fails.
    pub(crate) fn new(heap: Global, fields: Fields<'_>) -> Result<Drive, Stop> {
        let tracks = tracks_in(heap, fields)?;
        let window = span_in(heap, fields)?;
        let drive = Drive { tracks, window };
        if drive.is_whole() && fields.image.is_none() {
            return Err(Stop::said(format!(in heap;
                "the room has no tracks, no window and no image"
            )));
        }
        let _pile = drive.pile(heap, 0)?;
        Ok(drive)
    }

    // Is the room its whole image?
    pub(crate) fn is_whole(&self) -> bool {
        self.tracks.is_none() && self.window.is_none()
    }

    // The sectors of a track, where the drive has tracks.
    pub(crate) fn sectors(&self) -> Option<NonZeroU32> {
        NonZeroU32::new(self.tracks.as_ref()?.shape().sectors)
    }

    // The placements, one on the other; an image of that many blocks lies below a drive that has none of its own.
    pub(crate) fn pile(&self, heap: Global, image_count: u32) -> Result<Pile<Layer>, Stop> {
        let Some(tracks) = &self.tracks else {
            let span = self.window.unwrap_or(Span {
                offset: 0,
                length: image_count,
            });
            let total = span.offset.saturating_add(span.length);
            return Ok(Pile::new(heap, Layer::Window(window_on(heap, span, total)?)));
        };
        let same = spared_tracks(heap, tracks.shape(), tracks.spared().to_vec(heap)?)?;
        let mut pile = Pile::new(heap, Layer::Tracks(same));
        if let Some(span) = self.window {
            pile.put_on(Layer::Window(window_on(heap, span, tracks.count())?))?;
        }
        Ok(pile)
    }
}
