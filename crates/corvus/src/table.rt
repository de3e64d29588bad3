// The room table: which rooms there are, on which lines, and what stands in their fields.
ghost use Rattle.std.specs.Iterator.{at_most};
ghost use Rattle.corvus.specs.Tables.{most_lines};

use crate::drive::Drive;
use crate::files::bytes_of;
use crate::stop::{Stop, settled};
use crate::words::OneLine;
use sheet::fault::Fault;
use sheet::reader::Reader;
use sheet::reader::records::Record;
use std::alloc::{AllocError, Global};
use std::collections::HashMap;

const HEADER: &str = "room,image,tracks,sectors,firmware,spares,spared,offset,length";

// A line of the table: a room, or why there is none.
#[derive(Drop)]
pub(crate) struct Entry {
    pub(crate) line: usize,
    pub(crate) name: Option<String>,
    pub(crate) image: Option<String>,
    pub(crate) drive: Result<Drive, String>,
}

impl Entry {
    // A line without a name is found by an empty one.
    pub(crate) fn is_named(&self, name: &str) -> bool {
        self.name.as_deref().unwrap_or("") == name
    }

    // The name that is shown, or a dash where there is none.
    pub(crate) fn shown_name(&self) -> &str {
        self.name.as_deref().unwrap_or("-")
    }
}

// The fields of a room, of those that are filled.
#[derive(Clone, Copy)]
pub(crate) struct Fields<'a> {
    pub(crate) image: Option<&'a str>,
    pub(crate) tracks: Option<&'a str>,
    pub(crate) sectors: Option<&'a str>,
    pub(crate) firmware: Option<&'a str>,
    pub(crate) spares: Option<&'a str>,
    pub(crate) spared: Option<&'a str>,
    pub(crate) offset: Option<&'a str>,
    pub(crate) length: Option<&'a str>,
}

// The records of a table, up to its end or a fault.
#[derive(Drop)]
struct Lines<'a> {
    heap: Global,
    reader: Option<Reader<'a>>,
}

impl Iterator for Lines<'_> {
    type Item = Result<Record, Fault>;

    ghost remaining = { λ s. at_most (most_lines s.reader) };

    fn next(&mut self) -> Option<Result<Record, Fault>> {
        let mut reader = self.reader.take()?;
        match reader.next_record(self.heap).transpose()? {
            Ok(record) => {
                self.reader = Some(reader);
                Some(Ok(record))
            }
            Err(fault) => Some(Err(fault)),
        }
    }
}

fn is_blank(record: &Record) -> bool {
    record
        .fields
        .iter()
        .all(|bytes| bytes.as_slice().trim_ascii().is_empty())
}

// A field as one line of text, without the blanks around it: None where it is no text.
fn text_of(heap: Global, bytes: &[u8]) -> Result<Option<String>, AllocError> {
    std::str::from_utf8(bytes)
        .ok()
        .map(|text| OneLine(text.trim()).to_string(heap))
        .transpose()
}

fn texts_of(heap: Global, record: &Record) -> Result<Vec<Option<String>>, AllocError> {
    record
        .fields
        .iter()
        .map(|bytes| text_of(heap, bytes.as_slice()))
        .try_collect(heap)
}

fn filled(text: &Option<String>) -> Option<&str> {
    text.as_deref().filter(|text| !text.is_empty())
}

// What is not filled may stand behind the named columns.
fn is_header(texts: &[Option<String>]) -> bool {
    let Some((named, more)) = texts.split_at_checked(9) else {
        return false;
    };
    named.iter().map(filled).eq(HEADER.split(',').map(Some))
        && more.iter().all(|text| filled(text).is_none())
}

// Why the rest of the table is not read, from a line on. A lack of memory ends the command instead.
struct Unread {
    line: usize,
    fault: Fault,
}

impl TryFrom<Fault> for Unread {
    type Error = Stop;

    fn try_from(fault: Fault) -> Result<Unread, Stop> {
        match fault {
            Fault::Memory => Err(Stop::Memory(AllocError)),
            Fault::Unclosed { line } | Fault::Behind { line } => Ok(Unread { line, fault }),
        }
    }
}

// Says what the first line has to be, where it is another.
fn checked_header(
    heap: Global,
    table: &str,
    first: Option<Result<Record, Fault>>,
) -> Result<(), Stop> {
    let line = match first {
        Some(Ok(record)) => {
            if is_header(texts_of(heap, &record)?.as_slice()) {
                return Ok(());
            }
            record.line
        }
        None => 1,
        Some(Err(fault)) => {
            let Unread { line, fault } = Unread::try_from(fault)?;
            return Err(Stop::said(format!(in heap; "{table}, line {line}: {fault}")));
        }
    };
    Err(Stop::said(format!(in heap;
        "{table}, line {line}: the table has to begin with the line {HEADER}"
    )))
}

// The fields of a named room.
fn fields_of(heap: Global, texts: &[Option<String>]) -> Result<Fields<'_>, Stop> {
    if let Some(i) = texts.iter().rposition(|text| text.is_none()) {
        let column = i.saturating_add(1);
        return Err(Stop::said(format!(in heap; "field {column} is not UTF-8 text")));
    }
    let [
        name,
        image,
        tracks,
        sectors,
        firmware,
        spares,
        spared,
        offset,
        length,
        more @ ..,
    ] = texts
    else {
        let n = texts.len();
        return Err(Stop::said(format!(in heap; "there are {n} fields; a room has 9")));
    };
    if let Some(i) = more.iter().position(|text| filled(text).is_some()) {
        let column = i.saturating_add(10);
        return Err(Stop::said(format!(in heap;
            "something stands in field {column}; a room has 9"
        )));
    }
    if filled(name).is_none() {
        return Err(Stop::said(format!(in heap; "the room has no name")));
    }
    Ok(Fields {
        image: filled(image),
        tracks: filled(tracks),
        sectors: filled(sectors),
        firmware: filled(firmware),
        spares: filled(spares),
        spared: filled(spared),
        offset: filled(offset),
        length: filled(length),
    })
}

// Apart, so that what `?` gives is kept as the room's refusal.
fn drive_of(heap: Global, texts: &[Option<String>]) -> Result<Drive, Stop> {
    Drive::new(heap, fields_of(heap, texts)?)
}

// The text where there is one and it is filled.
fn owned(text: Option<Option<String>>) -> Option<String> {
    text?.filter(|text| !text.is_empty())
}

fn entry_of(heap: Global, line: Result<Record, Fault>) -> Result<Entry, Stop> {
    let record = match line {
        Ok(record) => record,
        Err(fault) => {
            let Unread { line, fault } = Unread::try_from(fault)?;
            return Ok(Entry {
                line,
                name: None,
                image: None,
                drive: Err(fault.to_string(heap)?),
            });
        }
    };
    let texts = texts_of(heap, &record)?;
    let drive = settled(drive_of(heap, texts.as_slice()))?;
    let mut texts = texts.into_iter();
    let name = owned(texts.next());
    let image = owned(texts.next());
    Ok(Entry {
        line: record.line,
        name,
        image,
        drive,
    })
}

type NamedLines = HashMap<String, Vec<usize>>;

// The lines on which each name stands.
fn named_lines(heap: Global, entries: &[Entry]) -> Result<NamedLines, AllocError> {
    let mut lines: NamedLines = HashMap::new(heap);
    for entry in entries {
        if let Some(name) = &entry.name {
            lines.entry(name.clone()?)?.or_default().push(entry.line)?;
        }
    }
    Ok(lines)
}

// The first other line on which the entry's name stands.
fn twin(entry: &Entry, lines: &NamedLines) -> Option<usize> {
    lines
        .get(entry.name.as_deref()?)?
        .iter()
        .copied()
        .find(|&line| line != entry.line)
}

fn twice_words(heap: Global, entry: &Entry, twin: usize) -> Result<String, AllocError> {
    let name = entry.shown_name();
    let first = entry.line.min(twin);
    let second = entry.line.max(twin);
    format!(in heap; "the name {name} stands twice, on lines {first} and {second}")
}

// Refuses each room whose name stands on another line too.
fn refuse_twins(heap: Global, entries: &mut [Entry]) -> Result<(), AllocError> {
    let lines = named_lines(heap, entries)?;
    for entry in entries.iter_mut() {
        if let Some(line) = twin(entry, &lines) {
            entry.drive = Err(twice_words(heap, entry, line)?);
        }
    }
    Ok(())
}

// The lines of the table in their order, each a room or why there is none.
pub(crate) fn read(rt: &HostRuntime, table: &str) -> Result<Vec<Entry>, Stop> {
    let heap = rt.alloc();
    let bytes = bytes_of(rt, table)?;
    let reader = Some(Reader::new(bytes.as_slice()));
    let mut lines = Lines { heap, reader }.filter(|line| !line.as_ref().is_ok_and(is_blank));
    checked_header(heap, table, lines.next())?;
    let mut entries: Vec<Entry> = lines.map(|line| entry_of(heap, line)).try_collect(heap)?;
    refuse_twins(heap, entries.as_mut_slice())?;
    Ok(entries)
}
