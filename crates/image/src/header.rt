// Where an image keeps its map and its blocks.
ghost use Rattle.std.specs.Prelude.{◌≡◌};
ghost use Rattle.image.specs.Images.{map_byte_of, block_byte_of};

// The most blocks that an image can have.
pub(crate) const MOST_BLOCKS: u32 = 1_048_576;

#[derive(Clone, Copy, PartialEq, Eq, Debug, Default)]
pub struct Header {
    pub count: u32,
    pub map: u32,
    pub blocks: u32,
}

// The two offsets differ in base and step: one function for both would take these and be no plainer.
impl Header {
    // The offset of block n's map byte in the image.
    pub fn map_byte(self, n: u32) -> Option<u64>
        ensures { result ≡ map_byte_of self n }
    {
        (n < self.count).then(|| u64::from(self.map) + u64::from(n))
    }

    // The offset of block n's first byte in the image.
    pub fn block_byte(self, n: u32) -> Option<u64>
        ensures { result ≡ block_byte_of self n }
    {
        (n < self.count).then(|| u64::from(self.blocks) + 512 * u64::from(n))
    }
}
