// The check of an image: six questions in turn.
ghost use Rattle.std.specs.Prelude.{◌≡◌};
ghost use Rattle.image.specs.Images.{checked_head, checked};

use crate::fault::Fault;
use crate::header::{Header, MOST_BLOCKS};

fn check_header(head: Header, len: usize) -> Result<Header, Fault>
    ensures { result ≡ checked_head head len }
{
    if !(1..=MOST_BLOCKS).contains(&head.count) {
        return Err(Fault::Count);
    }
    let count = head.count as usize;
    let map = head.map as usize;
    let blocks = head.blocks as usize;
    if map < 16 || map + count > len {
        return Err(Fault::Map);
    }
    if blocks < 16 || blocks + 512 * count > len {
        return Err(Fault::Blocks);
    }
    if map + count <= blocks || blocks + 512 * count <= map {
        Ok(head)
    } else {
        Err(Fault::Overlap)
    }
}

// A function, as std's `from_utf8`: the header is what is found in bytes, not these bytes converted.
pub fn check(bytes: &[u8]) -> Result<Header, Fault>
    ensures { result ≡ checked bytes.now }
{
    let (words, _) = bytes.as_chunks::<4>();
    let &[count, map, blocks, length, ..] = words else {
        return Err(Fault::Short);
    };
    if u32::from_be_bytes(length) as usize != bytes.len() {
        return Err(Fault::Length);
    }
    let head = Header {
        count: u32::from_be_bytes(count),
        map: u32::from_be_bytes(map),
        blocks: u32::from_be_bytes(blocks),
    };
    check_header(head, bytes.len())
}
