// Whole files, blocks of files and standard input, with the path in each refusal.
use crate::stop::Stop;
use std::alloc::{AllocError, Global};
use std::fs::{File, OpenOptions};
use std::io::{ErrorKind, Read, Seek, SeekFrom, Write};
use std::path::Path;
use std::{fs, io};

pub(crate) fn io_stop(heap: Global, path: &str, e: io::Error) -> Stop {
    Stop::said(match e.kind() {
        ErrorKind::NotFound => format!(in heap; "{path}: there is no such file or folder"),
        ErrorKind::IsADirectory => format!(in heap; "{path}: is a folder, not a file"),
        ErrorKind::PermissionDenied => format!(in heap; "{path}: access is not allowed"),
        ErrorKind::AlreadyExists => format!(in heap;
            "{path}: the file is there already; nothing is written over"
        ),
        _ => format!(in heap; "{path}: {e}"),
    })
}

// The file's bytes. A folder, a device or a pipe in its place is refused.
pub(crate) fn bytes_of(rt: &HostRuntime, path: &str) -> Result<Vec<u8>, Stop> {
    let heap = rt.alloc();
    let found = fs::metadata(rt, path).map_err(|e| io_stop(heap, path, e))?;
    if found.is_dir() {
        return Err(Stop::said(format!(in heap; "{path}: is a folder, not a file")));
    }
    if !found.is_file() {
        return Err(Stop::said(format!(in heap; "{path}: is not a plain file")));
    }
    fs::read(rt, path).map_err(|e| io_stop(heap, path, e))
}

pub(crate) fn input_stop(heap: Global, e: io::Error) -> Stop {
    Stop::said(format!(in heap; "standard input: {e}"))
}

// Up to n bytes of standard input; fewer where it ends.
pub(crate) fn input(rt: &HostRuntime, n: u64) -> Result<Vec<u8>, Stop> {
    let heap = rt.alloc();
    let mut bytes = Vec::new(heap);
    rt.stdin()
        .take(n)
        .read_to_end(&mut bytes)
        .map_err(|e| input_stop(heap, e))?;
    Ok(bytes)
}

// A path of the table, seen from where the table stands.
pub(crate) fn beside(heap: Global, table: &str, path: &str) -> Result<String, AllocError> {
    match Path::new(table).parent() {
        Some(folder) => Ok(folder.join(heap, path)?.into_string()),
        None => String::from_str(heap, path),
    }
}

// Where a block stands in a file, and its map byte where that has to become 0.
#[derive(Clone, Copy, PartialEq, Eq)]
pub(crate) struct Target {
    pub(crate) block: u64,
    pub(crate) map: Option<u64>,
}

fn write_at(file: &mut File, at: u64, bytes: &[u8]) -> io::Result<()> {
    file.seek(SeekFrom::Start(at))?;
    file.write_all(bytes)
}

// The block's bytes into the file, then its map byte where it has to change. No other byte is touched.
fn write_back(file: &mut File, target: Target, bytes: &[u8; 512]) -> io::Result<()> {
    write_at(file, target.block, bytes)?;
    if let Some(at) = target.map {
        write_at(file, at, &[0])?;
    }
    file.sync_all()
}

// Writes a block in place: its bytes, and its map byte where one is named.
pub(crate) fn put_back(
    rt: &HostRuntime,
    path: &str,
    target: Target,
    bytes: &[u8; 512],
) -> Result<(), Stop> {
    let heap = rt.alloc();
    let mut file = OpenOptions::new()
        .write(true)
        .open(rt, path)
        .map_err(|e| io_stop(heap, path, e))?;
    write_back(&mut file, target, bytes).map_err(|e| Stop::said(format!(in heap;
        "{path}: writing failed ({e})"
    )))
}
