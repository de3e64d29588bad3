// An entry of the pointer table as its eight bytes.
ghost use Rattle.std.specs.Prelude.{refl, ◌≡◌};
ghost use Rattle.model.specs.Tables.{byte_address, pointer, end_pointer, pipe_pointer};

use crate::rows::Row;
use crate::state_of;
use model::pipe::Pipe;

// Where a block begins, in bytes from the volume's first: three bytes, the most significant first.
fn byte_address(block: u32) -> [u8; 3]
    ensures { result ≡ byte_address block }
{
    let [_, _, _, _, _, high, middle, low] = (u64::from(block) * 512).to_be_bytes();
    [high, middle, low]
}

fn pointer_of(number: u8, start: u32, end: u32, state: u8) -> [u8; 8]
    ensures { result ≡ pointer number start end state }
{
    let [a, b, c] = byte_address(start);
    let [d, e, f] = byte_address(end);
    [number, a, b, c, d, e, f, state]
}

pub(crate) fn end_pointer(number: u8, at: u32) -> [u8; 8]
    ensures { result ≡ end_pointer number at }
{
    pointer_of(number, at, at, 0x80)
}

impl Row for Pipe {
    ghost bytes = { pipe_pointer };

    ghost eight = { λ _. refl };

    fn row(&self) -> [u8; 8] {
        pointer_of(self.number, self.start, self.end, state_of(*self))
    }
}
