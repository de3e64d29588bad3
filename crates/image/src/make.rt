// The making of a new image.
ghost use Rattle.image.specs.Makes.{New};

use crate::header::MOST_BLOCKS;

// The 16 bytes that a new image of that many blocks opens with. Behind them stand 513 zero bytes for each block:
// the map first, then the blocks. None if an image cannot have that many blocks.
pub fn new_header(count: u32) -> Option<[u8; 16]>
    ensures { New count result }
{
    if !(1..=MOST_BLOCKS).contains(&count) {
        return None;
    }
    // Word by word: `concat` takes heap, and a loop over the array's words would say no more than the sixteen bytes.
    let [n0, n1, n2, n3] = count.to_be_bytes();
    let [b0, b1, b2, b3] = (16 + count).to_be_bytes();
    let [l0, l1, l2, l3] = (16 + 513 * count).to_be_bytes();
    Some([n0, n1, n2, n3, 0, 0, 0, 16, b0, b1, b2, b3, l0, l1, l2, l3])
}
