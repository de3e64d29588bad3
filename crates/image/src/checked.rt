// An image's bytes with the header that the check gives of them, in whatever holds them.
ghost use Rattle.std.specs.Prelude.{◌≡◌};
ghost use Rattle.image.specs.Images.{header_of};

use crate::check::check;
use crate::header::Header;
use std::convert::AsSlice;
use volume::answers::{ReadRefusal, WriteRefusal};

// Of bytes that fail the check, it has no block.
#[derive(Drop)]
pub(crate) struct CheckedImage<B: AsSlice<u8>> {
    pub(crate) bytes: B,
    pub(crate) head: Header,
    ghost own: { head ≡ header_of (B.items bytes) },
}

impl<B: AsSlice<u8>> CheckedImage<B> {
    ghost use Rattle.std.specs.Prelude.{true};
    ghost use Rattle.volume.specs.Meanings.{read_answer, read_buffer};
    ghost use Rattle.image.specs.Images.{image_meaning};

    #[tactic(auto, unfolding(crate::specs::Images::header_of))]
    pub(crate) fn new(bytes: B) -> CheckedImage<B>
        ensures { result.bytes ≡ bytes }
    {
        let head = check(bytes.as_slice()).unwrap_or_default();
        CheckedImage { bytes, head }
    }

    #[tactic(auto, using(crate::specs::Heads::own_fits))]
    pub(crate) fn read(&self, n: u32, buffer: &mut [u8; 512]) -> Result<(), ReadRefusal>
        ensures answer { result ≡ read_answer (image_meaning true (B.items self.now.bytes)) n }
        ensures buffer { buffer.new ≡ read_buffer (image_meaning true (B.items self.now.bytes)) n buffer.old }
    {
        let Header { count, map, blocks } = self.head;
        if n >= count {
            return Err(ReadRefusal::Beyond);
        }
        // The two offsets are worked out here and in `write`: a helper would have to promise the bounds of both.
        let bytes = self.bytes.as_slice();
        if bytes[map as usize + n as usize] != 0 {
            return Err(ReadRefusal::Lost);
        }
        let at = blocks as usize + 512 * n as usize;
        buffer.copy_from_slice(&bytes[at..at + 512]);
        Ok(())
    }
}

impl CheckedImage<Vec<u8>> {
    ghost use Rattle.std.specs.Prelude.{true};
    ghost use Rattle.volume.specs.Meanings.{write_answer, written};
    ghost use Rattle.image.specs.Images.{image_meaning, image_with};

    // Writes block n and marks it sound.
    #[tactic(auto, using(crate::specs::Heads::own_fits))]
    pub(crate) fn write(&mut self, n: u32, block: &[u8; 512]) -> Result<(), WriteRefusal>
        ensures answer { result ≡ write_answer (image_meaning true self.old.bytes.items) n }
        ensures after { image_meaning true self.new.bytes.items ≡ written (image_meaning true self.old.bytes.items) n block.now }
        ensures bytes { self.new.bytes.items ≡ image_with self.old.bytes.items n block.now }
        ensures head { self.new.head ≡ self.old.head }
    {
        let Header { count, map, blocks } = self.head;
        if n >= count {
            return Err(WriteRefusal::Beyond);
        }
        let bytes = self.bytes.as_mut_slice();
        bytes[map as usize + n as usize] = 0;
        let at = blocks as usize + 512 * n as usize;
        bytes[at..at + 512].copy_from_slice(block);
        Ok(())
    }
}
