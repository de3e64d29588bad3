#![tactic(auto, using(crate::proofs::Places::reading))]
// A text that is read record by record. A reader that finds a fault stops somewhere in the field.
ghost use Rattle.std.specs.Prelude.{◌+◌, ◌^◌, ◌<◌, length};

use crate::fault::Fault;
use records::Record;
use splits::{split_plain, split_quoted, without_mark};
use std::alloc::{AllocError, Global};

pub mod records;
mod splits;

#[derive(Drop)]
pub struct Reader<'a> {
    left: &'a [u8],
    lines: usize,
    // The line ends passed and those to come can be counted.
    ghost few: { lines + length left.now < 2 ^ 64 },
}

impl<'a> Reader<'a> {
    ghost use Rattle.std.specs.Prelude.{◌≡◌, map, IfOk, MatchResult, vec_items};
    ghost use Rattle.sheet.specs.Readers.{text_left, lines_passed, unmarked, Next};
    ghost use Rattle.sheet.specs.Records.{front, plain, inside};
    ghost use Rattle.sheet.specs.Steps.{FieldTo, FieldFaults, RecordTo, RecordFaults};

    // Before the first record. A UTF-8 mark at the front of the text is no part of it.
    pub fn new(text: &'a [u8]) -> Reader<'a>
        ensures left { text_left result ≡ unmarked text.now }
        ensures lines { lines_passed result ≡ 0 }
    {
        Reader {
            left: without_mark(text),
            lines: 0,
        }
    }

    // The next record, or none at the end of the text. After a fault the reader stands where it stood.
    pub fn next_record(&mut self, heap: Global) -> Result<Option<Record>, Fault>
        ensures { Next (lines_passed self.old) (text_left self.old) result (lines_passed self.new) (text_left self.new) }
    {
        if self.left.is_empty() {
            return Ok(None);
        }
        let line = self.lines + 1;
        // A fault leaves `self` where it stands.
        let mut ahead = Reader {
            left: self.left,
            lines: self.lines,
        };
        let fields = ahead.read_fields(heap)?;
        *self = ahead;
        Ok(Some(Record { line, fields }))
    }

    // Two loops of one shape: only a quoted field counts line ends and has faults. What is left of the text is their state, which no
    // iterator gives beside each byte.
    fn read_plain(&mut self, heap: Global) -> Result<Vec<u8>, AllocError>
        ensures { IfOk result (λ v. FieldTo plain self.old v.items self.new) }
    {
        let mut field = Vec::new(heap);
        while let Some((byte, rest)) = split_plain(self.left) {
            field.push(byte)?;
            self.left = rest;
        }
        Ok(field)
    }

    // The field behind the opening quote, which stands on that line.
    fn read_quoted(&mut self, heap: Global, line: usize) -> Result<Vec<u8>, Fault>
        ensures { MatchResult result (λ v. FieldTo (inside line) self.old v.items self.new) (FieldFaults (inside line) self.old) }
    {
        let mut field = Vec::new(heap);
        while let Some((byte, rest)) = split_quoted(self.left) {
            field.push(byte)?;
            self.left = rest;
            if byte == b'\n' {
                self.lines += 1;
            }
        }
        let [_, rest @ ..] = self.left else {
            return Err(Fault::Unclosed { line });
        };
        if split_plain(rest).is_some() {
            let line = self.lines + 1;
            return Err(Fault::Behind { line });
        }
        self.left = rest;
        Ok(field)
    }

    fn read_field(&mut self, heap: Global) -> Result<Vec<u8>, Fault>
        ensures { MatchResult result (λ v. FieldTo front self.old v.items self.new) (FieldFaults front self.old) }
    {
        match self.left {
            [b'"', rest @ ..] => {
                let line = self.lines + 1;
                self.left = rest;
                self.read_quoted(heap, line)
            }
            _ => Ok(self.read_plain(heap)?),
        }
    }

    // The fields of the record that the text begins with, whose line end is passed too.
    fn read_fields(&mut self, heap: Global) -> Result<Vec<Vec<u8>>, Fault>
        ensures { MatchResult result (λ v. RecordTo self.old (map vec_items v.items) self.new) (RecordFaults self.old) }
    {
        let mut fields = Vec::new(heap);
        // Not `while`: a field stands before the first comma too, so the test is in the middle.
        loop {
            fields.push(self.read_field(heap)?)?;
            match self.left {
                [b',', rest @ ..] => self.left = rest,
                [b'\n', rest @ ..] | [b'\r', b'\n', rest @ ..] => {
                    self.left = rest;
                    self.lines += 1;
                    return Ok(fields);
                }
                _ => return Ok(fields),
            }
        }
    }
}
