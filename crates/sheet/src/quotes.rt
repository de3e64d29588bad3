// Writing a field so that it reads back.
ghost use Rattle.std.specs.Prelude.{◌≡◌, IfOk};
ghost use Rattle.sheet.specs.Rows.{quoted, ReadsBack};

use std::alloc::{AllocError, Global};

// The field in quotes, each quote in it doubled. A row of such fields reads back as these fields, whatever bytes they have.
#[tactic(auto, using(crate::proofs::Backs::reads_back))]
pub fn quote(heap: Global, field: &[u8]) -> Result<Vec<u8>, AllocError>
    ensures made { IfOk result (λ v. v.items ≡ quoted field.now) }
    ensures reads_back { ReadsBack }
{
    let mut out = vec![in heap; b'"']?;
    for &byte in field {
        if byte == b'"' {
            out.push(b'"')?;
        }
        out.push(byte)?;
    }
    out.push(b'"')?;
    Ok(out)
}
