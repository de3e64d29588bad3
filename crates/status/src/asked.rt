// The tables that a Status asks for by its selector.
ghost use Rattle.std.specs.Prelude.{◌≡◌, ◌≤◌, ◌++◌, length, nat_le};
ghost use Rattle.build.specs.Builds.{front};
ghost use Rattle.model.specs.Tables.{name_table, pointer_table, tables_asked};
ghost use Rattle.status.specs.Written.{after_table};
ghost use Rattle.status.specs.Asked.{asked_answer, asked_number, after_asked, selected_number};

use crate::entries::Entries;
use crate::rows::put_rows;

// The tables, of whatever sizes.
#[derive(Clone, Copy)]
pub struct Tables<'a> {
    pub names: &'a [u64],
    pub entries: Entries<'a>,
}

// The tables of the controller's sizes.
#[derive(Clone, Copy)]
struct Whole<'a> {
    names: &'a [u64],
    entries: Entries<'a>,
    ghost all: { length names.now ≡ 32 },
    ghost few: { length entries.pipes.now ≤ 62 },
}

impl Whole<'_> {
    // The names of the entries, then their pointers.
    fn put_both(&self, out: &mut [u8; 1024])
        ensures { out.new ≡ front (name_table self.now.entries.area self.now.entries.pipes.now ++ pointer_table self.now.entries.area self.now.entries.pipes.now) out.old }
    {
        self.entries.write_names(out);
        self.entries.write_pointers(&mut out[512..]);
    }

    // A selector is a byte of the packet, and any byte must be answered: an enum would only put a test before this match.
    fn put(&self, selector: u8, out: &mut [u8; 1024]) -> Option<usize>
        ensures number { result ≡ selected_number selector }
        ensures after { out.new ≡ after_table (nat_le selector 3) (tables_asked self.now.names.now self.now.entries.area self.now.entries.pipes.now selector) out.old }
    {
        match selector {
            0 => {
                self.put_both(out);
                Some(1024)
            }
            1 => {
                self.entries.write_names(out);
                Some(512)
            }
            2 => {
                self.entries.write_pointers(out);
                Some(512)
            }
            3 => {
                put_rows(self.names, 0, out);
                Some(256)
            }
            _ => None,
        }
    }
}

// No heap while serving: the caller's buffer, and how much of it is the answer.
// The tables that the selector asks for, and how many bytes they are. None, and nothing written, where there is no such selector,
// the buffer has fewer bytes than the longest answer, or the tables are not of the controller's sizes.
pub fn put_tables(tables: &Tables, selector: u8, out: &mut [u8]) -> Option<usize>
    ensures answer { result ≡ asked_answer tables.now.names.now tables.now.entries.area tables.now.entries.pipes.now selector out.old }
    ensures number { result ≡ asked_number tables.now.names.now tables.now.entries.area tables.now.entries.pipes.now selector out.old }
    ensures after { out.new ≡ after_asked tables.now.names.now tables.now.entries.area tables.now.entries.pipes.now selector out.old }
{
    let Tables { names, entries } = *tables;
    if names.len() != 32 || entries.pipes.len() > 62 {
        return None;
    }
    let front = out.first_chunk_mut::<1024>()?;
    Whole { names, entries }.put(selector, front)
}
