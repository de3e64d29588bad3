// The reply to each answer, at the front of a buffer that has room for the longest. The buffer is a lone parameter, so that a struct
// around it would only rename it.
ghost use Rattle.std.specs.Prelude.{◌≡◌, ◌+◌, ◌≤◌, ◌++◌, length};
ghost use Rattle.build.specs.Builds.{front};
ghost use Rattle.model.specs.Answers.{Answer, bare, semaphore, pipe, no_block};
ghost use Rattle.controller.specs.Answers.{lock_answer, unlock_answer, sector_write_answer, read_answer, pipe_answer, open_answer, pipe_read_answer};
ghost use Rattle.controller.specs.Serves.{Replies};

use crate::answers::{PipeRefusal, SectorRefusal};
use crate::pipes::OpenedPipe;
use build::put;
use tables::answers::{LockRefusal, UnlockRefusal};
use volume::answers::ResultByte;

// Head and then tail; the bytes behind them stay.
fn answer(reply: &mut [u8; 1025], head: &[u8], tail: &[u8]) -> usize
    requires { length head.now + length tail.now ≤ 1025 }
    ensures value { result ≡ length (head.now ++ tail.now) }
    ensures after { reply.new ≡ front (head.now ++ tail.now) reply.old }
{
    put(reply, head, tail).unwrap()
}

pub(crate) fn reply_bare(reply: &mut [u8; 1025], byte: u8) -> usize
    ensures { Replies (bare byte) result reply.old reply.new }
{
    answer(reply, &[byte], &[])
}

// A semaphore's or a pipe's result.
fn reply_result(reply: &mut [u8; 1025], res: u8) -> usize
    ensures semaphore { Replies (semaphore res) result reply.old reply.new }
    ensures pipe { Replies (pipe res) result reply.old reply.new }
{
    answer(reply, &[0x00, res], &[0; 10])
}

// Of a Pipe Read that is refused: the result, and zeros for length and block.
fn reply_no_block(reply: &mut [u8; 1025], res: u8) -> usize
    ensures { Replies (no_block res) result reply.old reply.new }
{
    answer(reply, &[0x00, res], &[0; 514])
}

// An answer that has a reply of its own.
pub(crate) trait Replied {
    ghost answer: { Self → Answer };

    // How long the reply is.
    fn reply(self, reply: &mut [u8; 1025]) -> usize
        ensures { Replies (answer self) result reply.old reply.new };
}

// Of a Lock, an Unlock and a Pipe command alike one match: which refusal has a lone byte differs, and a trait for that alone, with its
// ghost part and three impls, would be longer.
impl Replied for Result<(), LockRefusal> {
    ghost answer = { lock_answer };

    fn reply(self, reply: &mut [u8; 1025]) -> usize {
        match self {
            Err(LockRefusal::Blank) => reply_bare(reply, self.byte()),
            _ => reply_result(reply, self.byte()),
        }
    }
}

impl Replied for Result<(), UnlockRefusal> {
    ghost answer = { unlock_answer };

    fn reply(self, reply: &mut [u8; 1025]) -> usize {
        match self {
            Err(UnlockRefusal::Blank) => reply_bare(reply, self.byte()),
            _ => reply_result(reply, self.byte()),
        }
    }
}

// A field out of range has no reply.
impl Replied for Result<(), SectorRefusal> {
    ghost answer = { sector_write_answer };

    fn reply(self, reply: &mut [u8; 1025]) -> usize {
        match self {
            Err(SectorRefusal::Field) => 0,
            _ => reply_bare(reply, self.byte()),
        }
    }
}

// What the volume refuses is answered by a lone byte.
impl Replied for Result<(), PipeRefusal> {
    ghost answer = { pipe_answer };

    fn reply(self, reply: &mut [u8; 1025]) -> usize {
        match self {
            Err(refusal) if refusal.by_volume() => reply_bare(reply, self.byte()),
            _ => reply_result(reply, self.byte()),
        }
    }
}

impl Replied for Result<OpenedPipe, PipeRefusal> {
    ghost answer = { open_answer };

    fn reply(self, reply: &mut [u8; 1025]) -> usize {
        match self {
            Ok(pipe) => answer(reply, &[0x00, 0x00, pipe.number, pipe.state], &[0; 8]),
            Err(refusal) => Err::<(), _>(refusal).reply(reply),
        }
    }
}

pub(crate) fn reply_read(
    reply: &mut [u8; 1025],
    answered: Result<(), SectorRefusal>,
    bytes: &[u8],
) -> usize
    requires { length bytes.now ≤ 512 }
    ensures { Replies (read_answer answered bytes.now) result reply.old reply.new }
{
    match answered {
        Ok(()) => answer(reply, &[0x00], bytes),
        Err(_) => answered.reply(reply),
    }
}

pub(crate) fn reply_pipe_read(
    reply: &mut [u8; 1025],
    answered: Result<(), PipeRefusal>,
    block: &[u8; 512],
) -> usize
    ensures { Replies (pipe_read_answer answered block.now) result reply.old reply.new }
{
    match answered {
        Ok(()) => answer(reply, &[0x00, 0x00, 0x00, 0x02], block),
        Err(refusal) => {
            if refusal.by_volume() {
                reply_bare(reply, answered.byte())
            } else {
                reply_no_block(reply, answered.byte())
            }
        }
    }
}
