// Names of eight bytes, each as one number, the first byte the most significant. No type of their own: each public function that
// takes or tells a name promises the number.

// Eight blanks: an unused entry.
pub const BLANK: u64 = 0x2020_2020_2020_2020;

// WOOFWOOF and FOOWFOOW, the two ends of the pipe area.
pub const LOW_NAME: u64 = 0x574F_4F46_574F_4F46;

pub const HIGH_NAME: u64 = 0x464F_4F57_464F_4F57;
