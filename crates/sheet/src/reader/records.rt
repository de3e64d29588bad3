// A record of a text.

// Its fields, and the line that it begins on. A blank line is a record of one empty field.
#[derive(Drop)]
pub struct Record {
    pub line: usize,
    pub fields: Vec<Vec<u8>>,
}
