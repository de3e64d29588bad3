#![tactic(auto)]
// The packet of a command, at the front of a buffer.
ghost use Rattle.std.specs.Prelude.{◌≡◌, ℕ, ◌≤◌, true, ◌++◌, take, Ok};
ghost use Rattle.packet.specs.Packets.{address, packet_of, in_range, decoded};
ghost use Rattle.packet.specs.Views.{command_of};
ghost use Rattle.build.specs.Builds.{put_answer, after_put, build_answer, after_build, Typed};

use packet::command::{Command, SectorAddress};
use refusal::BuildRefusal;

pub mod refusal;

// Head and then tail at the front of the buffer, or nothing where they do not fit. No heap while serving: the buffer is the caller's, and
// the result says how much of it is the packet.
pub fn put(buffer: &mut [u8], head: &[u8], tail: &[u8]) -> Result<usize, BuildRefusal>
    ensures answer { result ≡ put_answer (head.now ++ tail.now) buffer.old }
    ensures after { buffer.new ≡ after_put (head.now ++ tail.now) buffer.old }
{
    let end = head.len() + tail.len();
    if end > buffer.len() {
        return Err(BuildRefusal::Room);
    }
    buffer[..head.len()].copy_from_slice(head);
    buffer[head.len()..end].copy_from_slice(tail);
    Ok(end)
}

fn is_in_range(command: &Command<'_>) -> bool
    ensures { result ≡ in_range (command_of command.now) }
{
    match *command {
        Command::Read(at) => at.is_in_range(),
        Command::Write { at, bytes } => at.is_in_range() && bytes.len() == at.size.bytes(),
        Command::Status { selector } => selector <= 3,
        Command::PipeWrite { bytes, .. } => bytes.len() == 512,
        _ => true,
    }
}

fn address_of(at: SectorAddress) -> [u8; 3]
    requires sector { at.sector ≤ 1048575 }
    requires drive { at.drive ≤ 15 }
    ensures { result ≡ address at.drive at.sector }
{
    let [_, high, middle, low] = at.sector.to_be_bytes();
    [high * 16 + at.drive, low, middle]
}

// The packet of a command whose fields are in range.
fn lay(command: &Command<'_>, buffer: &mut [u8]) -> Result<usize, BuildRefusal>
    requires { in_range (command_of command.now) ≡ true }
    ensures answer { result ≡ put_answer (packet_of (command_of command.now)) buffer.old }
    ensures after { buffer.new ≡ after_put (packet_of (command_of command.now)) buffer.old }
    ensures typed { Typed (command_of command.now) }
{
    match *command {
        Command::Read(at) => put(buffer, &[at.size.read_code()], &address_of(at)),
        Command::Write { at, bytes } => {
            let [high, low, middle] = address_of(at);
            put(buffer, &[at.size.write_code(), high, low, middle], bytes)
        }
        Command::Lock { name } => put(buffer, &[0x0B, 0x01], &name.to_be_bytes()),
        Command::Unlock { name } => put(buffer, &[0x0B, 0x11], &name.to_be_bytes()),
        Command::InitializeSemaphores => put(buffer, &[0x1A, 0x10], &[0, 0, 0]),
        Command::Status { selector } => put(buffer, &[0x1A, 0x41], &[selector, 0, 0]),
        Command::InitializeArea { first, blocks } => {
            let [a, b] = first.to_le_bytes();
            let [c, d] = blocks.to_le_bytes();
            put(buffer, &[0x1B, 0xA0], &[a, b, c, d, 0, 0, 0, 0])
        }
        Command::OpenWrite { name } => put(buffer, &[0x1B, 0x80], &name.to_be_bytes()),
        Command::OpenRead { name } => put(buffer, &[0x1B, 0xC0], &name.to_be_bytes()),
        Command::PipeRead { number, length } => {
            put(buffer, &[0x1A, 0x20, number], &length.to_le_bytes())
        }
        Command::PipeWrite {
            number,
            length,
            bytes,
        } => {
            let [a, b] = length.to_le_bytes();
            put(buffer, &[0x1A, 0x21, number, a, b], bytes)
        }
        Command::Close { number } => put(buffer, &[0x1A, 0x40], &[number, 0, 0]),
    }
}

// The command's packet at the front of the buffer: its length, or a refusal that writes nothing. What was built reads back as the
// command it was built from.
pub fn build(command: &Command<'_>, buffer: &mut [u8]) -> Result<usize, BuildRefusal>
    ensures answer { result ≡ build_answer (command_of command.now) buffer.old }
    ensures after { buffer.new ≡ after_build (command_of command.now) buffer.old }
    ensures back { (n : ℕ) → result ≡ Ok n → decoded (take n buffer.new) ≡ Ok (command_of command.now) }
{
    if !is_in_range(command) {
        return Err(BuildRefusal::Field);
    }
    lay(command, buffer)
}
