// What a place of the drive serves.
#[derive(Clone, Copy, PartialEq, Eq, Debug)]
pub enum PlaceUse {
    Block(u32),
    Firmware,
    Spared,
    Reserve,
    Outside,
}
