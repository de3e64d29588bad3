#![tactic(auto)]
// The controller's tables as Status tells them, as bytes at the front of a buffer.
ghost use Rattle.std.specs.Prelude.{◌≡◌, ◌*◌, length, nat_le};
ghost use Rattle.packet.specs.Packets.{name_bytes};
ghost use Rattle.model.specs.Pipes.{state_of};
ghost use Rattle.model.specs.Tables.{bytes_of};
ghost use Rattle.status.specs.Written.{after_table, put_answer};

use model::pipe::{Access, Pipe};
use refusal::TableRefusal;
use rows::put_rows;

pub mod asked;
pub mod entries;
mod pointers;
pub mod refusal;
mod rows;

// The semaphore names, eight bytes each. Refused, and nothing written, where they do not fit.
pub fn put_semaphores(names: &[u64], out: &mut [u8]) -> Result<(), TableRefusal>
    ensures answer { result ≡ put_answer (8 * length names.now) (length out.old) }
    ensures after { out.new ≡ after_table (nat_le (8 * length names.now) (length out.old)) (bytes_of name_bytes names.now) out.old }
{
    if names.len() > out.len() / 8 {
        return Err(TableRefusal::NoRoom);
    }
    put_rows(names, 0, out);
    Ok(())
}

// Bit 7: it holds data; bit 1: open for read; bit 0: open for write. A sum of bits, and so no number of a variant.
pub fn state_of(pipe: Pipe) -> u8
    ensures { result ≡ state_of pipe }
{
    let open = match pipe.access {
        Access::Closed => 0x00,
        Access::Reading => 0x02,
        Access::Writing => 0x01,
    };
    if pipe.start < pipe.end {
        0x80 + open
    } else {
        open
    }
}
