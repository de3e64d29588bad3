// What a packet says: code, modifier and rest, its questions in turn.
ghost use Rattle.std.specs.Prelude.{◌≡◌, ◌+◌, ◌*◌, ◌/◌, ◌%◌, Ok};
ghost use Rattle.packet.specs.Commands.{Command as Cmd};
ghost use Rattle.packet.specs.Packets.{read_packet, write_packet, name_packet, semaphore_packet, table_packet, pipe_write_packet, pipe_packet, decoded, Said};
ghost use Rattle.packet.specs.Views.{said_of};

use crate::command::{Command, SectorAddress, Size};
use crate::fault::PacketFault;

fn address_of(size: Size, high: u8, low: u8, middle: u8) -> SectorAddress
    ensures size { result.size ≡ size }
    ensures drive { result.drive ≡ high % 16 }
    ensures sector { result.sector ≡ high / 16 * 65536 + middle * 256 + low }
{
    SectorAddress {
        size,
        drive: high % 16,
        sector: u32::from_be_bytes([0, high / 16, middle, low]),
    }
}

fn decode_read<'p>(size: Size, packet: &'p [u8]) -> Result<Command<'p>, PacketFault>
    ensures { said_of result ≡ read_packet size packet.now }
{
    match packet {
        &[_, high, low, middle] => Ok(Command::Read(address_of(size, high, low, middle))),
        _ => Err(PacketFault::Length),
    }
}

fn decode_write<'p>(size: Size, packet: &'p [u8]) -> Result<Command<'p>, PacketFault>
    ensures { said_of result ≡ write_packet size packet.now }
{
    match packet {
        &[_, high, low, middle, ref bytes @ ..] if bytes.len() == size.bytes() => {
            Ok(Command::Write {
                at: address_of(size, high, low, middle),
                bytes,
            })
        }
        _ => Err(PacketFault::Length),
    }
}

fn decode_name(packet: &[u8]) -> Result<u64, PacketFault>
    ensures { result ≡ name_packet packet.now }
{
    match packet {
        &[_, _, a, b, c, d, e, f, g, h] => Ok(u64::from_be_bytes([a, b, c, d, e, f, g, h])),
        _ => Err(PacketFault::Length),
    }
}

fn decode_semaphore<'p>(packet: &'p [u8]) -> Result<Command<'p>, PacketFault>
    ensures { said_of result ≡ semaphore_packet packet.now }
{
    match packet {
        [_, 0x01, ..] => Ok(Command::Lock {
            name: decode_name(packet)?,
        }),
        [_, 0x11, ..] => Ok(Command::Unlock {
            name: decode_name(packet)?,
        }),
        [_, _, ..] => Err(PacketFault::Illegal),
        _ => Err(PacketFault::NoModifier),
    }
}

fn decode_pipe<'p>(packet: &'p [u8]) -> Result<Command<'p>, PacketFault>
    ensures { said_of result ≡ pipe_packet packet.now }
{
    match packet {
        [_, 0x80, ..] => Ok(Command::OpenWrite {
            name: decode_name(packet)?,
        }),
        [_, 0xC0, ..] => Ok(Command::OpenRead {
            name: decode_name(packet)?,
        }),
        &[_, 0xA0, a, b, c, d, _, _, _, _] => Ok(Command::InitializeArea {
            first: u16::from_le_bytes([a, b]),
            blocks: u16::from_le_bytes([c, d]),
        }),
        [_, 0xA0, ..] => Err(PacketFault::Length),
        [_, _, ..] => Err(PacketFault::Illegal),
        _ => Err(PacketFault::NoModifier),
    }
}

fn decode_pipe_write<'p>(packet: &'p [u8]) -> Result<Command<'p>, PacketFault>
    ensures { said_of result ≡ pipe_write_packet packet.now }
{
    match packet {
        &[_, _, number, a, b, ref bytes @ ..] if bytes.len() == 512 => Ok(Command::PipeWrite {
            number,
            length: u16::from_le_bytes([a, b]),
            bytes,
        }),
        _ => Err(PacketFault::Length),
    }
}

fn decode_table<'p>(packet: &'p [u8]) -> Result<Command<'p>, PacketFault>
    ensures { said_of result ≡ table_packet packet.now }
{
    match packet {
        [_, 0x10, _, _, _] => Ok(Command::InitializeSemaphores),
        &[_, 0x20, number, a, b] => Ok(Command::PipeRead {
            number,
            length: u16::from_le_bytes([a, b]),
        }),
        [_, 0x21, ..] => decode_pipe_write(packet),
        &[_, 0x40, number, _, _] => Ok(Command::Close { number }),
        &[_, 0x41, selector @ 0..=3, _, _] => Ok(Command::Status { selector }),
        [_, 0x41, _, _, _] => Err(PacketFault::Illegal),
        [_, 0x10 | 0x20 | 0x40 | 0x41, ..] => Err(PacketFault::Length),
        [_, _, ..] => Err(PacketFault::Illegal),
        _ => Err(PacketFault::NoModifier),
    }
}

// Apart from decode: in one function the clause `back` did not prove at half of these returns. The codes stand in one table, which a
// TryFrom of Size would only split.
fn by_code<'p>(packet: &'p [u8]) -> Result<Command<'p>, PacketFault>
    ensures { said_of result ≡ decoded packet.now }
{
    match packet {
        [] => Err(PacketFault::Empty),
        [0x12, ..] => decode_read(Size::Bytes128, packet),
        [0x02, ..] => decode_read(Size::Bytes256, packet),
        [0x22, ..] => decode_read(Size::Bytes256Again, packet),
        [0x32, ..] => decode_read(Size::Bytes512, packet),
        [0x13, ..] => decode_write(Size::Bytes128, packet),
        [0x03, ..] => decode_write(Size::Bytes256, packet),
        [0x23, ..] => decode_write(Size::Bytes256Again, packet),
        [0x33, ..] => decode_write(Size::Bytes512, packet),
        [0x0B, ..] => decode_semaphore(packet),
        [0x1A, ..] => decode_table(packet),
        [0x1B, ..] => decode_pipe(packet),
        _ => Err(PacketFault::Illegal),
    }
}

// A function, as std's `from_utf8`: the clause `back` is more than a TryFrom can promise.
// What the packet says. If it says a command, the packet is that command's packet, but for unused bytes at its end.
pub fn decode<'p>(packet: &'p [u8]) -> Result<Command<'p>, PacketFault>
    ensures says { said_of result ≡ decoded packet.now }
    ensures back { (c : Cmd) → decoded packet.now ≡ Ok c → Said packet.now c }
{
    by_code(packet)
}
