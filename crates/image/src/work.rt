// A house image open for writing, apart from the one for reading for the reason that stands there.
ghost use Rattle.std.specs.Prelude.{◌≡◌, true};
ghost use Rattle.volume.specs.Meanings.{write_answer, written};
ghost use Rattle.image.specs.Images.{header_of, block_byte_of, map_byte_of, image_meaning, image_with};
ghost use Rattle.image.specs.Owned.{work_meaning};
ghost use Rattle.image.specs.Wholes.{image_sound};

use crate::checked::CheckedImage;
use volume::Volume;
use volume::answers::{ReadRefusal, WriteRefusal};

#[derive(Drop)]
pub struct WorkImage {
    image: CheckedImage<Vec<u8>>,
}

impl WorkImage {
    // It never refuses: of bytes that fail the check, the volume has no block.
    pub fn new(bytes: Vec<u8>) -> WorkImage
        ensures meaning { work_meaning result ≡ image_meaning true bytes.items }
        ensures kept { result.image.bytes ≡ bytes }
    {
        WorkImage {
            image: CheckedImage::new(bytes),
        }
    }

    // The offset of block n's first byte in the image.
    pub fn block_byte(&self, n: u32) -> Option<u64>
        ensures { result ≡ block_byte_of (header_of self.now.image.bytes.items) n }
    {
        self.image.head.block_byte(n)
    }

    // The offset of block n's map byte in the image.
    pub fn map_byte(&self, n: u32) -> Option<u64>
        ensures { result ≡ map_byte_of (header_of self.now.image.bytes.items) n }
    {
        self.image.head.map_byte(n)
    }

    // The image's bytes.
    pub fn into_bytes(self) -> Vec<u8>
        ensures { result ≡ self.image.bytes }
    {
        self.image.bytes
    }
}

impl Volume for WorkImage {
    ghost meaning = { work_meaning };

    ghost sound = { λ w. image_sound true w.image.bytes.items };

    fn count(&self) -> u32 {
        self.image.head.count
    }

    fn writable(&self) -> bool {
        true
    }

    fn read(&self, n: u32, buffer: &mut [u8; 512]) -> Result<(), ReadRefusal> {
        self.image.read(n, buffer)
    }

    // Of the image's bytes it changes the block's 512 and its map byte, and no other.
    fn write(&mut self, n: u32, bytes: &[u8; 512]) -> Result<(), WriteRefusal>
        ensures answer { result ≡ write_answer (work_meaning self.old) n }
        ensures after { work_meaning self.new ≡ written (work_meaning self.old) n bytes.now }
        ensures bytes { self.new.image.bytes.items ≡ image_with self.old.image.bytes.items n bytes.now }
        ensures head { header_of self.new.image.bytes.items ≡ header_of self.old.image.bytes.items }
    {
        self.image.write(n, bytes)
    }
}
