// The pipe commands.
ghost use Rattle.std.specs.Prelude.{◌≡◌, OnErr};
ghost use Rattle.packet.specs.Commands.{initialize_area, open_write, open_read, pipe_read, pipe_write, close};
ghost use Rattle.tables.specs.Entries.{pipes_of};
ghost use Rattle.model.specs.Pipes.{may_name, find};
ghost use Rattle.model.specs.Steps.{call, obey};
ghost use Rattle.model.specs.Laws.{Does};
ghost use Rattle.controller.specs.Answers.{pipe_answer, open_answer, pipe_read_answer};
ghost use Rattle.controller.specs.Pipes.{found};
ghost use Rattle.controller.specs.Worlds.{world_of};

use crate::answers::PipeRefusal;
use crate::controller::{Controller, Tables};
use model::names::{BLANK, HIGH_NAME, LOW_NAME};
use model::pipe::{Access, Area, Pipe};
use status::state_of;
use volume::Volume;

// What an accepted open tells of the pipe; the state is the byte of the reply, a sum of bits.
#[derive(Clone, Copy)]
pub(crate) struct OpenedPipe {
    pub(crate) number: u8,
    pub(crate) state: u8,
}

fn may_name(name: u64) -> bool
    ensures { result ≡ may_name name }
{
    name != BLANK && name != LOW_NAME && name != HIGH_NAME
}

impl Tables {
    // The area and the pipe of this number, or which of them there is not.
    fn found(&self, number: u8) -> Result<(Area, Pipe), PipeRefusal>
        ensures { result ≡ found self.now.area (find number (pipes_of self.now.pipes)) }
    {
        let area = self.area.ok_or(PipeRefusal::NoArea)?;
        let pipe = self.pipes.find(number).ok_or(PipeRefusal::NoPipe)?;
        Ok((area, pipe))
    }
}

// Each `obey_` is what its command does, for packets and calls alike: its outcomes are proved alone, and one lemma gives the call its laws.
// Each call's answer cites that lemma, `does`: `using(does)` on the function does not find it, since the goal is a record.
impl<V: Volume> Controller<V> {
    pub(crate) fn obey_area(&mut self, first: u16, blocks: u16) -> Result<(), PipeRefusal>
        ensures { obey (world_of V.Volume.meaning self.old) (initialize_area first blocks) ≡ (pipe_answer result, world_of V.Volume.meaning self.new) }
    {
        let area = Area { first, blocks };
        if !self.volume.writable() {
            return Err(PipeRefusal::Protected);
        }
        if blocks == 0 || area.end() >= 32768 {
            return Err(PipeRefusal::Illegal);
        }
        if area.end() > self.volume.count() {
            return Err(PipeRefusal::Beyond);
        }
        self.tables.area = Some(area);
        self.tables.pipes.clear();
        Ok(())
    }

    pub fn initialize_area(&mut self, first: u16, blocks: u16) -> Result<(), PipeRefusal>
        ensures { Does (world_of V.Volume.meaning self.old) (call (initialize_area first blocks)) (pipe_answer result) (world_of V.Volume.meaning self.new) }
    {
        self.obey_area(first, blocks)
    }

    pub(crate) fn obey_open_write(&mut self, name: u64) -> Result<OpenedPipe, PipeRefusal>
        ensures { obey (world_of V.Volume.meaning self.old) (open_write name) ≡ (open_answer result, world_of V.Volume.meaning self.new) }
    {
        let area = self.tables.area.ok_or(PipeRefusal::NoArea)?;
        if !may_name(name) {
            return Err(PipeRefusal::Illegal);
        }
        if self.tables.pipes.has_writer(name) {
            return Err(PipeRefusal::AlreadyOpen);
        }
        let gap = self.tables.pipes.best_gap(area);
        if gap.gives == 0 {
            return Err(PipeRefusal::NoSpace);
        }
        let unused = self.tables.pipes.lowest_unused();
        let number = unused.ok_or(PipeRefusal::NoSpace)?;
        let pipe = Pipe {
            number,
            name,
            start: gap.from,
            end: gap.from,
            access: Access::Writing,
        };
        self.tables.pipes.insert(gap.below, pipe).unwrap();
        Ok(OpenedPipe {
            number,
            state: state_of(pipe),
        })
    }

    pub(crate) fn obey_open_read(&mut self, name: u64) -> Result<OpenedPipe, PipeRefusal>
        ensures { obey (world_of V.Volume.meaning self.old) (open_read name) ≡ (open_answer result, world_of V.Volume.meaning self.new) }
    {
        if self.tables.area.is_none() {
            return Err(PipeRefusal::NoArea);
        }
        if !may_name(name) {
            return Err(PipeRefusal::Illegal);
        }
        if !self.tables.pipes.has_name(name) {
            return Err(PipeRefusal::NoPipe);
        }
        let closed = self.tables.pipes.closed_named(name);
        let pipe = Pipe {
            access: Access::Reading,
            ..closed.ok_or(PipeRefusal::AlreadyOpen)?
        };
        self.tables.pipes.exchange(pipe.number, pipe);
        Ok(OpenedPipe {
            number: pipe.number,
            state: state_of(pipe),
        })
    }

    // The block goes into the buffer, which a refusal leaves alone.
    pub(crate) fn obey_pipe_read(
        &mut self,
        number: u8,
        length: u16,
        block: &mut [u8; 512],
    ) -> Result<(), PipeRefusal>
        ensures buffer { OnErr result (block.new ≡ block.old) }
        ensures defined { obey (world_of V.Volume.meaning self.old) (pipe_read number length) ≡ (pipe_read_answer result block.new, world_of V.Volume.meaning self.new) }
    {
        let (_, pipe) = self.tables.found(number)?;
        if pipe.access != Access::Reading {
            return Err(PipeRefusal::NotOpen);
        }
        if length != 512 {
            return Err(PipeRefusal::Illegal);
        }
        if pipe.start >= pipe.end {
            return Err(PipeRefusal::Empty);
        }
        self.volume.read(pipe.start, block)?;
        let rest = Pipe {
            start: pipe.start + 1,
            ..pipe
        };
        self.tables.pipes.exchange(pipe.number, rest);
        Ok(())
    }

    pub(crate) fn obey_pipe_write(
        &mut self,
        number: u8,
        length: u16,
        block: &[u8; 512],
    ) -> Result<(), PipeRefusal>
        ensures { obey (world_of V.Volume.meaning self.old) (pipe_write number length block.now) ≡ (pipe_answer result, world_of V.Volume.meaning self.new) }
    {
        let (area, pipe) = self.tables.found(number)?;
        if !pipe.access.is_writing() {
            return Err(PipeRefusal::NotOpen);
        }
        if length != 512 {
            return Err(PipeRefusal::Illegal);
        }
        if pipe.end >= self.tables.pipes.next_start(pipe.number, area.end()) {
            return Err(PipeRefusal::NoRoom);
        }
        self.volume.write(pipe.end, block)?;
        let longer = Pipe {
            end: pipe.end + 1,
            ..pipe
        };
        self.tables.pipes.exchange(pipe.number, longer);
        Ok(())
    }

    pub(crate) fn obey_close(&mut self, number: u8) -> Result<(), PipeRefusal>
        ensures { obey (world_of V.Volume.meaning self.old) (close number) ≡ (pipe_answer result, world_of V.Volume.meaning self.new) }
    {
        let (_, pipe) = self.tables.found(number)?;
        if pipe.access == Access::Closed {
            return Err(PipeRefusal::NotOpen);
        }
        if pipe.start < pipe.end {
            let closed = Pipe {
                access: Access::Closed,
                ..pipe
            };
            self.tables.pipes.exchange(pipe.number, closed);
        } else {
            self.tables.pipes.remove(pipe.number);
        }
        Ok(())
    }
}
