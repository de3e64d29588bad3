// Rows of eight bytes, one behind the other.
ghost use Rattle.std.specs.Prelude.{refl, ◌≡◌, ℕ, ◌+◌, ◌*◌, ◌≤◌, List, length};
ghost use Rattle.packet.specs.Packets.{name_bytes};
ghost use Rattle.volume.specs.Parts.{with_part};
ghost use Rattle.model.specs.Tables.{bytes_of};

// What a table tells in eight bytes.
pub(crate) trait Row {
    ghost bytes: { Self → List ℕ };

    fn row(&self) -> [u8; 8]
        ensures { result ≡ bytes self.now };

    ghost eight: { (x : Self) → length (bytes x) ≡ 8 };
}

impl Row for u64 {
    ghost bytes = { name_bytes };

    ghost eight = { λ _. refl };

    fn row(&self) -> [u8; 8] {
        self.to_be_bytes()
    }
}

pub(crate) fn put_row(row: &[u8; 8], at: usize, out: &mut [u8])
    requires { at + 8 ≤ length out.old }
    ensures { out.new ≡ with_part out.old at row.now }
{
    out[at..at + 8].copy_from_slice(row);
}

// Not `chunks_exact_mut`: what is written through it is not known afterwards.
pub(crate) fn put_rows<R: Row>(rows: &[R], from: usize, out: &mut [u8])
    requires { from + 8 * length rows.now ≤ length out.old }
    ensures { out.new ≡ with_part out.old from (bytes_of R.bytes rows.now) }
{
    for (i, row) in rows.iter().enumerate() {
        put_row(&row.row(), from + 8 * i, out);
    }
}
