// The 64 entries of the pipe table: the pipes in the table's order, between the area's two ends.
ghost use Rattle.std.specs.Prelude.{◌≡◌, ◌+◌, ◌*◌, ◌≤◌, ◌&&◌, length, replicate, nat_le};
ghost use Rattle.build.specs.Builds.{front};
ghost use Rattle.model.specs.Pipes.{find};
ghost use Rattle.model.specs.Tables.{pipe_name, entry_name, name_table, pointer_table};
ghost use Rattle.status.specs.Written.{after_table, entry_names, pointer_entries, put_answer, pointers_answer};

use crate::pointers::end_pointer;
use crate::refusal::TableRefusal;
use crate::rows::{put_row, put_rows};
use model::names::{BLANK, HIGH_NAME, LOW_NAME};
use model::pipe::{Area, Pipe};
use std::array;

#[derive(Clone, Copy)]
pub struct Entries<'a> {
    pub area: Option<Area>,
    pub pipes: &'a [Pipe],
}

// The pipes in the table's order, between the area's two ends.
fn put_entries(area: Area, pipes: &[Pipe], out: &mut [u8])
    requires { 16 + 8 * length pipes.now ≤ length out.old }
    ensures { out.new ≡ front (pointer_entries area pipes.now) out.old }
{
    put_row(&end_pointer(0, u32::from(area.first)), 0, out);
    put_rows(pipes, 8, out);
    put_row(&end_pointer(63, area.end()), 8 + 8 * pipes.len(), out);
}

// A function for its clause: `fill` tells of each byte, this of the front.
fn put_zeros(count: usize, out: &mut [u8])
    requires { count ≤ length out.old }
    ensures { out.new ≡ front (replicate count 0) out.old }
{
    out[..count].fill(0);
}

impl Entries<'_> {
    fn pipe_name(&self, number: u8) -> u64
        ensures { result ≡ pipe_name (find number self.now.pipes.now) }
    {
        let pipe = self.pipes.iter().find(|pipe| number == pipe.number);
        pipe.map_or(BLANK, |pipe| pipe.name)
    }

    fn name(&self, number: u8) -> u64
        ensures { result ≡ entry_name self.now.pipes.now number }
    {
        match number {
            0 => LOW_NAME,
            63 => HIGH_NAME,
            _ => self.pipe_name(number),
        }
    }

    fn names(&self) -> [u64; 64]
        ensures { result ≡ entry_names self.now.area self.now.pipes.now }
    {
        match self.area {
            Some(_) => array::from_fn(|number| self.name(number as u8)),
            None => [BLANK; 64],
        }
    }

    // A slice, as of the pointers: the two also stand one behind the other in a longer buffer.
    pub(crate) fn write_names(&self, out: &mut [u8])
        requires { 512 ≤ length out.old }
        ensures { out.new ≡ front (name_table self.now.area self.now.pipes.now) out.old }
    {
        put_rows(&self.names(), 0, out);
    }

    // The pointers with zeros behind them, or zeros alone.
    pub(crate) fn write_pointers(&self, out: &mut [u8])
        requires room { 512 ≤ length out.old }
        requires few { length self.now.pipes.now ≤ 62 }
        ensures { out.new ≡ front (pointer_table self.now.area self.now.pipes.now) out.old }
    {
        put_zeros(512, out);
        if let Some(area) = self.area {
            put_entries(area, self.pipes, out);
        }
    }

    // The names by number. Refused, and nothing written, where they do not fit.
    pub fn put_names(&self, out: &mut [u8]) -> Result<(), TableRefusal>
        ensures answer { result ≡ put_answer 512 (length out.old) }
        ensures after { out.new ≡ after_table (nat_le 512 (length out.old)) (name_table self.now.area self.now.pipes.now) out.old }
    {
        if out.len() < 512 {
            return Err(TableRefusal::NoRoom);
        }
        self.write_names(out);
        Ok(())
    }

    // The pointers in the table's order. Refused, and nothing written, where 512 bytes do not fit or there are more pipes than the
    // table takes.
    pub fn put_pointers(&self, out: &mut [u8]) -> Result<(), TableRefusal>
        ensures answer { result ≡ pointers_answer (length self.now.pipes.now) (length out.old) }
        ensures after { out.new ≡ after_table (nat_le 512 (length out.old) && nat_le (length self.now.pipes.now) 62) (pointer_table self.now.area self.now.pipes.now) out.old }
    {
        if out.len() < 512 {
            return Err(TableRefusal::NoRoom);
        }
        if self.pipes.len() > 62 {
            return Err(TableRefusal::TooManyPipes);
        }
        self.write_pointers(out);
        Ok(())
    }
}
