// Ends of pipes: an accepted open by call gives one, and it must be closed.
ghost use Rattle.std.specs.Prelude.{◌≡◌, OnErr};
ghost use Rattle.packet.specs.Commands.{open_write, open_read, pipe_read, pipe_write, close};
ghost use Rattle.model.specs.Steps.{call};
ghost use Rattle.model.specs.Laws.{Does};
ghost use Rattle.controller.specs.Answers.{pipe_answer, pipe_read_answer};
ghost use Rattle.controller.specs.Ends.{opened_end, Opens};
ghost use Rattle.controller.specs.Worlds.{world_of};

use crate::answers::PipeRefusal;
use crate::controller::Controller;
use crate::pipes::OpenedPipe;
use std::marker::PhantomData;
use volume::Volume;

// What an end is open for.
pub struct Writing;

pub struct Reading;

// Not Drop: `close` spends it. A writing end writes and closes, a reading end reads and closes, and neither offers anything else.
pub struct End<M> {
    number: u8,
    open_for: PhantomData<M>,
}

pub type WritingEnd = End<Writing>;

pub type ReadingEnd = End<Reading>;

// An end with the state that the pipe now has, as the byte that the reply tells.
pub struct Opened<E> {
    pub end: E,
    pub state: u8,
}

impl<V: Volume> Controller<V> {
    pub fn open_write(&mut self, name: u64) -> Result<Opened<WritingEnd>, PipeRefusal>
        ensures { Does (world_of V.Volume.meaning self.old) (call (open_write name)) (opened_end result) (world_of V.Volume.meaning self.new) }
    {
        Ok(self.obey_open_write(name)?.into())
    }

    pub fn open_read(&mut self, name: u64) -> Result<Opened<ReadingEnd>, PipeRefusal>
        ensures { Does (world_of V.Volume.meaning self.old) (call (open_read name)) (opened_end result) (world_of V.Volume.meaning self.new) }
    {
        Ok(self.obey_open_read(name)?.into())
    }
}

impl<M> From<OpenedPipe> for Opened<End<M>> {
    ghost from_gives = { Opens };

    fn from(pipe: OpenedPipe) -> Self {
        Opened {
            end: End {
                number: pipe.number,
                open_for: PhantomData,
            },
            state: pipe.state,
        }
    }
}

impl<M> End<M> {
    // Answers as a Close of the pipe's number, and spends the end whichever answer that is.
    pub fn close<V: Volume>(self, controller: &mut Controller<V>) -> Result<(), PipeRefusal>
        ensures { Does (world_of V.Volume.meaning controller.old) (call (close self.number)) (pipe_answer result) (world_of V.Volume.meaning controller.new) }
    {
        let End {
            number,
            open_for: _,
        } = self;
        controller.obey_close(number)
    }
}

impl End<Writing> {
    // A block of 512 bytes at the pipe's end.
    pub fn write<V: Volume>(
        &self,
        controller: &mut Controller<V>,
        block: &[u8; 512],
    ) -> Result<(), PipeRefusal>
        ensures { Does (world_of V.Volume.meaning controller.old) (call (pipe_write self.now.number 512 block.now)) (pipe_answer result) (world_of V.Volume.meaning controller.new) }
    {
        controller.obey_pipe_write(self.number, 512, block)
    }
}

impl End<Reading> {
    // The block at the pipe's start goes into the buffer, which a refusal leaves alone.
    pub fn read<V: Volume>(
        &self,
        controller: &mut Controller<V>,
        block: &mut [u8; 512],
    ) -> Result<(), PipeRefusal>
        ensures does { Does (world_of V.Volume.meaning controller.old) (call (pipe_read self.now.number 512)) (pipe_read_answer result block.new) (world_of V.Volume.meaning controller.new) }
        ensures buffer { OnErr result (block.new ≡ block.old) }
    {
        controller.obey_pipe_read(self.number, 512, block)
    }
}
