// A house image held for reading.
ghost use Rattle.std.specs.Prelude.{◌≡◌, false};
ghost use Rattle.volume.specs.Meanings.{write_answer, written};
ghost use Rattle.image.specs.Owned.{shelf_meaning};
ghost use Rattle.image.specs.Wholes.{image_sound};

use crate::checked::CheckedImage;
use std::convert::AsSlice;
use volume::Volume;
use volume::answers::{ReadRefusal, WriteRefusal};

// The bytes are lent, as a slice, or its own, as a vector. A type of its own beside the work image: a const parameter that says which of the two
// it is cannot stand on a struct with a ghost field.
#[derive(Drop)]
pub struct ShelfImage<B: AsSlice<u8>> {
    image: CheckedImage<B>,
}

impl<B: AsSlice<u8>> ShelfImage<B> {
    // It never refuses: of bytes that fail the check, the volume has no block.
    pub fn new(bytes: B) -> ShelfImage<B>
        ensures { result.image.bytes ≡ bytes }
    {
        ShelfImage {
            image: CheckedImage::new(bytes),
        }
    }

    // The image's bytes.
    pub fn into_bytes(self) -> B
        ensures { result ≡ self.image.bytes }
    {
        self.image.bytes
    }
}

impl<B: AsSlice<u8>> Volume for ShelfImage<B> {
    ghost meaning = { λ s. shelf_meaning s };

    ghost sound = { λ s. image_sound false (B.items s.image.bytes) };

    fn count(&self) -> u32 {
        self.image.head.count
    }

    fn writable(&self) -> bool {
        false
    }

    fn read(&self, n: u32, buffer: &mut [u8; 512]) -> Result<(), ReadRefusal> {
        self.image.read(n, buffer)
    }

    // It is refused, and every byte is kept.
    fn write(&mut self, n: u32, _bytes: &[u8; 512]) -> Result<(), WriteRefusal>
        ensures answer { result ≡ write_answer (shelf_meaning self.old) n }
        ensures after { shelf_meaning self.new ≡ written (shelf_meaning self.old) n _bytes.now }
        ensures kept { self.new ≡ self.old }
    {
        Err(if n < self.image.head.count {
            WriteRefusal::Protected
        } else {
            WriteRefusal::Beyond
        })
    }
}
