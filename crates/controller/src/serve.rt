// Packets: the reply buffer's question, the packet's questions, the command, the reply.
ghost use Rattle.std.specs.Prelude.{◌≡◌, ◌≤◌, true, length};
ghost use Rattle.packet.specs.Commands.{read, pipe_read, pipe_write, status};
ghost use Rattle.packet.specs.Packets.{in_range};
ghost use Rattle.packet.specs.Views.{command_of};
ghost use Rattle.model.specs.Steps.{packet as sent, obey, step};
ghost use Rattle.model.specs.Laws.{Does};
ghost use Rattle.controller.specs.Serves.{serve_number, Performed, Served};
ghost use Rattle.controller.specs.Worlds.{world_of};

use crate::controller::Controller;
use crate::reply::{Replied, reply_bare, reply_pipe_read, reply_read};
use packet::command::{Command, SectorAddress};
use packet::decode::decode;
use packet::fault::PacketFault;
use volume::Volume;

// Why a packet gets no reply.
#[derive(Clone, Copy, PartialEq, Eq, Debug)]
pub enum ServeRefusal {
    ReplyBuffer = 1,
    Empty = 2,
    NoModifier = 3,
    Length = 4,
}

impl ServeRefusal {
    pub fn number(self) -> u8
        ensures { result ≡ serve_number self }
    {
        self as u8
    }
}

impl<V: Volume> Controller<V> {
    fn perform_read(&self, at: SectorAddress, reply: &mut [u8; 1025]) -> usize
        ensures { Performed (obey (world_of V.Volume.meaning self.now) (read at.size at.drive at.sector)) result reply.old reply.new (world_of V.Volume.meaning self.now) }
    {
        let mut block = [0u8; 512];
        let answered = self.obey_read(at, &mut block);
        let first = at.first_byte();
        reply_read(reply, answered, &block[first..first + at.size.bytes()])
    }

    fn perform_pipe_read(&mut self, number: u8, length: u16, reply: &mut [u8; 1025]) -> usize
        ensures { Performed (obey (world_of V.Volume.meaning self.old) (pipe_read number length)) result reply.old reply.new (world_of V.Volume.meaning self.new) }
    {
        let mut block = [0u8; 512];
        let answered = self.obey_pipe_read(number, length, &mut block);
        reply_pipe_read(reply, answered, &block)
    }

    fn perform_status(&self, selector: u8, reply: &mut [u8; 1025]) -> usize
        requires { selector ≤ 3 }
        ensures { Performed (obey (world_of V.Volume.meaning self.now) (status selector)) result reply.old reply.new (world_of V.Volume.meaning self.now) }
    {
        let behind = reply.last_chunk_mut::<1024>().unwrap();
        let count = self.tables.put(selector, behind).unwrap();
        reply[0] = 0x00;
        count + 1
    }

    // `count` is the packet's field, since `length` is the word of the clause. Number and field are a command's own, told apart at once: a
    // type for the two would be made and taken apart in one call.
    fn perform_pipe_write(
        &mut self,
        number: u8,
        count: u16,
        bytes: &[u8],
        reply: &mut [u8; 1025],
    ) -> usize
        requires { length bytes.now ≡ 512 }
        ensures { Performed (obey (world_of V.Volume.meaning self.old) (pipe_write number count bytes.now)) result reply.old reply.new (world_of V.Volume.meaning self.new) }
    {
        let block = bytes.first_chunk::<512>().unwrap();
        self.obey_pipe_write(number, count, block).reply(reply)
    }

    fn perform(&mut self, command: &Command<'_>, reply: &mut [u8; 1025]) -> usize
        requires { in_range (command_of command.now) ≡ true }
        ensures { Performed (obey (world_of V.Volume.meaning self.old) (command_of command.now)) result reply.old reply.new (world_of V.Volume.meaning self.new) }
    {
        match *command {
            Command::Read(at) => self.perform_read(at, reply),
            Command::Write { at, bytes } => self.obey_write(at, bytes).reply(reply),
            Command::Lock { name } => self.obey_lock(name).reply(reply),
            Command::Unlock { name } => self.unlock(name).reply(reply),
            Command::InitializeSemaphores => {
                self.initialize_semaphores();
                reply_bare(reply, 0x00)
            }
            Command::Status { selector } => self.perform_status(selector, reply),
            Command::InitializeArea { first, blocks } => {
                self.obey_area(first, blocks).reply(reply)
            }
            Command::OpenWrite { name } => self.obey_open_write(name).reply(reply),
            Command::OpenRead { name } => self.obey_open_read(name).reply(reply),
            Command::PipeRead { number, length } => self.perform_pipe_read(number, length, reply),
            Command::PipeWrite {
                number,
                length,
                bytes,
            } => self.perform_pipe_write(number, length, bytes, reply),
            Command::Close { number } => self.obey_close(number).reply(reply),
        }
    }

    fn serve_said(&mut self, packet: &[u8], reply: &mut [u8; 1025]) -> Result<usize, ServeRefusal>
        ensures { Served (world_of V.Volume.meaning self.old) packet.now reply.old reply.new result (world_of V.Volume.meaning self.new) }
    {
        // Illegal has a reply, so that no conversion of the faults as a whole would do.
        match decode(packet) {
            Ok(command) => Ok(self.perform(&command, reply)),
            Err(PacketFault::Empty) => Err(ServeRefusal::Empty),
            Err(PacketFault::NoModifier) => Err(ServeRefusal::NoModifier),
            Err(PacketFault::Length) => Err(ServeRefusal::Length),
            Err(PacketFault::Illegal) => Ok(reply_bare(reply, 0x8F)),
        }
    }

    // No heap while serving: the caller's buffer, and how much of it is the reply.
    // Serves a packet: the reply at the front of the buffer, the bytes behind it as they were, and its length; or a refusal, which
    // writes and changes nothing.
    pub fn serve(&mut self, packet: &[u8], reply: &mut [u8]) -> Result<usize, ServeRefusal>
        ensures served { Served (world_of V.Volume.meaning self.old) packet.now reply.old reply.new result (world_of V.Volume.meaning self.new) }
        ensures does { Does (world_of V.Volume.meaning self.old) (sent (length reply.old) packet.now) (step (world_of V.Volume.meaning self.old) (sent (length reply.old) packet.now)).0 (world_of V.Volume.meaning self.new) }
    {
        match reply.first_chunk_mut::<1025>() {
            Some(front) => self.serve_said(packet, front),
            None => Err(ServeRefusal::ReplyBuffer),
        }
    }
}
