// A packet in words.
use crate::digits::bytes_in;
use crate::questions::Failed;
use crate::stop::Stop;
use packet::command::{Command, SectorAddress};
use packet::decode::decode;
use packet::fault::PacketFault;
use std::alloc::Global;
use std::fmt;

// The question that the packet fails: a refusal, or a reply of one byte.
fn stop_of(heap: Global, fault: PacketFault) -> Stop {
    if fault != PacketFault::Illegal {
        return Failed::from(fault).stop(heap);
    }
    let number = fault.number();
    Stop::said(format!(in heap; "the reply is one byte, {number:02X}h: {fault}"))
}

// The eight bytes of a name, as text where they are.
#[derive(Clone, Copy)]
pub(crate) struct Name(pub(crate) u64);

impl fmt::Display for Name {
    fn fmt<W: fmt::Write>(&self, f: &mut fmt::Formatter<W>) -> fmt::Result {
        let number = self.0;
        let bytes = number.to_be_bytes();
        match std::str::from_utf8(&bytes) {
            Ok(text) if bytes.iter().all(|&b| matches!(b, b' '..=b'~')) => {
                write!(f, "'{text}' ({number:016x})")
            }
            _ => write!(f, "{number:016x}"),
        }
    }
}

// The fields of a command, a line each.
#[derive(Clone, Copy)]
struct Fields<'p>(Command<'p>);

fn write_sector<W: fmt::Write>(f: &mut fmt::Formatter<W>, at: SectorAddress) -> fmt::Result {
    let SectorAddress {
        size,
        drive,
        sector,
    } = at;
    let block = at.block();
    let first = at.first_byte();
    let last = first.saturating_add(size.bytes()).saturating_sub(1);
    writeln!(f, "drive   {drive}")?;
    writeln!(f, "sector  {sector}")?;
    writeln!(f, "block   {block}, bytes {first} to {last}")
}

impl fmt::Display for Fields<'_> {
    fn fmt<W: fmt::Write>(&self, f: &mut fmt::Formatter<W>) -> fmt::Result {
        match self.0 {
            Command::Read(at) | Command::Write { at, .. } => write_sector(f, at),
            Command::Lock { name }
            | Command::Unlock { name }
            | Command::OpenWrite { name }
            | Command::OpenRead { name } => writeln!(f, "name    {}", Name(name)),
            Command::InitializeSemaphores => Ok(()),
            Command::Status { selector } => writeln!(f, "tells   {}", selected(selector)),
            Command::InitializeArea { first, blocks } => {
                writeln!(f, "first   block {first}")?;
                writeln!(f, "length  {blocks} blocks")
            }
            Command::PipeRead { number, length } | Command::PipeWrite { number, length, .. } => {
                writeln!(f, "pipe    {number}")?;
                writeln!(f, "length  {length}")
            }
            Command::Close { number } => writeln!(f, "pipe    {number}"),
        }
    }
}

// A command is another crate's, so that its texts stand in functions and not in its Display.
fn title(command: Command<'_>) -> &'static str {
    match command {
        Command::Read(_) => "Read of a sector",
        Command::Write { .. } => "Write of a sector",
        Command::Lock { .. } => "Semaphore Lock",
        Command::Unlock { .. } => "Semaphore Unlock",
        Command::InitializeSemaphores => "Semaphore Initialize",
        Command::Status { .. } => "Status",
        Command::InitializeArea { .. } => "Pipe Area Initialize",
        Command::OpenWrite { .. } => "Pipe Open Write",
        Command::OpenRead { .. } => "Pipe Open Read",
        Command::PipeRead { .. } => "Pipe Read",
        Command::PipeWrite { .. } => "Pipe Write",
        Command::Close { .. } => "Pipe Close",
    }
}

// A selector is any byte, of which `decode` lets four through. Two functions: of a pair, each caller would take a half.
fn selected(selector: u8) -> &'static str {
    match selector {
        0 => "the names and the pointers of the pipes (0)",
        1 => "the names of the pipes (1)",
        2 => "the pointers of the pipes (2)",
        _ => "the semaphores (3)",
    }
}

fn status_reply(selector: u8) -> &'static str {
    match selector {
        0 => "1025 bytes: 00h, 64 names of 8 bytes, 64 pointers of 8 bytes",
        1 => "513 bytes: 00h, 64 names of 8 bytes",
        2 => "513 bytes: 00h, 64 pointers of 8 bytes",
        _ => "257 bytes: 00h, 32 names of 8 bytes",
    }
}

// What a command is answered.
#[derive(Clone, Copy)]
struct Reply<'p>(Command<'p>);

impl fmt::Display for Reply<'_> {
    fn fmt<W: fmt::Write>(&self, f: &mut fmt::Formatter<W>) -> fmt::Result {
        f.write_str(match self.0 {
            Command::Read(at) => {
                let bytes = at.size.bytes().saturating_add(1);
                return write!(
                    f,
                    "{bytes} bytes: 00h and the data; refused, one byte: 87h, 8Eh or 8Bh"
                );
            }
            Command::Write { .. } => "1 byte: 00h; refused: 87h, 8Eh, 8Dh or 8Bh",
            Command::Lock { .. } | Command::Unlock { .. } => {
                "12 bytes: 00h, the semaphore result, ten 00h; eight blanks, one byte: 8Fh"
            }
            Command::InitializeSemaphores => "1 byte: 00h",
            Command::Status { selector } => status_reply(selector),
            Command::InitializeArea { .. } => {
                "12 bytes: 00h, the pipe result, ten 00h; or one byte: 8Dh or 8Eh"
            }
            Command::OpenWrite { .. } | Command::OpenRead { .. } => {
                "12 bytes: 00h, the pipe result, number, state, eight 00h"
            }
            Command::PipeRead { .. } => {
                "516 bytes: 00h, the pipe result, the length, 512 bytes of data"
            }
            Command::PipeWrite { .. } | Command::Close { .. } => {
                "12 bytes: 00h, the pipe result, ten 00h"
            }
        })
    }
}

// Which of a packet's bytes say the command: the code, and the modifier of codes that have one.
#[derive(Clone, Copy)]
struct Code<'p>(&'p [u8]);

impl fmt::Display for Code<'_> {
    fn fmt<W: fmt::Write>(&self, f: &mut fmt::Formatter<W>) -> fmt::Result {
        match self.0 {
            [code @ (0x0B | 0x1A | 0x1B), modifier, ..] => {
                write!(f, "{code:02X}h,{modifier:02X}h")
            }
            [code, ..] => write!(f, "{code:02X}h"),
            [] => Ok(()),
        }
    }
}

pub(crate) fn explain(rt: &HostRuntime, words: &[&str]) -> Result<(), Stop> {
    let heap = rt.alloc();
    let bytes = bytes_in(heap, words)?;
    let packet = bytes.as_slice();
    let command = decode(packet).map_err(|fault| stop_of(heap, fault))?;
    let title = title(command);
    let code = Code(packet);
    let count = packet.len();
    println!(rt; "{title}, {code}, {count} bytes")?;
    rt.print(Fields(command))?;
    let reply = Reply(command);
    println!(rt; "reply   {reply}")?;
    Ok(())
}
