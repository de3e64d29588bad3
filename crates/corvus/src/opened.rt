// One room of a table, with its drive and its image.
use crate::drive::Drive;
use crate::images::{Facts, blocks_below, facts_beside};
use crate::stop::Stop;
use crate::table;
use crate::table::Entry;
use crate::words::Stretch;
use pile::Pile;
use pile::layer::Layer;
use std::alloc::Global;
use volume::Placement;

// A room as a person names it.
#[derive(Clone, Copy)]
pub(crate) struct Room<'a> {
    pub(crate) table: &'a str,
    pub(crate) name: &'a str,
}

// What one command says of a room stands with that command: methods of this would all lie here.
// The image below the room's drive: None where the table names none, else its facts or why it is refused.
#[derive(Drop)]
pub(crate) struct Opened {
    pub(crate) drive: Drive,
    pub(crate) pile: Pile<Layer>,
    pub(crate) image: Option<Result<Facts, String>>,
}

impl Opened {
    pub(crate) fn facts(&self) -> Option<&Facts> {
        self.image.as_ref()?.as_ref().ok()
    }

    // The lost blocks of the image, where there is one.
    pub(crate) fn lost(&self) -> &[Stretch] {
        self.facts().map_or(&[], |facts| facts.lost.as_slice())
    }
}

impl Room<'_> {
    fn entry(self, rt: &HostRuntime) -> Result<Entry, Stop> {
        let Room { table, name } = self;
        table::read(rt, table)?
            .into_iter()
            .find(|entry| entry.is_named(name))
            .ok_or_else(|| Stop::said(format!(in rt.alloc(); "{table}: no room is named {name}")))
    }

    // Why the room on that line cannot be opened.
    fn closed(self, heap: Global, line: usize, why: &str) -> Stop {
        let Room { table, name } = self;
        Stop::said(format!(in heap; "{table}, line {line}: room {name}: {why}"))
    }

    // The room's placements, on an image of that many blocks. As `open`, it takes the line of the table apart, and needs less of it.
    pub(crate) fn pile(self, rt: &HostRuntime, count: u32) -> Result<Pile<Layer>, Stop> {
        let heap = rt.alloc();
        let Entry { line, drive, .. } = self.entry(rt)?;
        let drive = drive.map_err(|why| self.closed(heap, line, why.as_str()))?;
        drive.pile(heap, count)
    }

    pub(crate) fn open(self, rt: &HostRuntime) -> Result<Opened, Stop> {
        let heap = rt.alloc();
        let Entry {
            line,
            image,
            drive,
            ..
        } = self.entry(rt)?;
        let drive = drive.map_err(|why| self.closed(heap, line, why.as_str()))?;
        let image = image
            .map(|name| facts_beside(rt, self.table, name.as_str()))
            .transpose()?;
        let count = blocks_below(&drive, image.as_ref()).map_err(|why| self.closed(
            heap, line, why,
        ))?;
        let pile = drive.pile(heap, count)?;
        Ok(Opened { drive, pile, image })
    }
}
