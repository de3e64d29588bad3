// What a text begins with, and the text behind it. In a file of its own, since the one of a struct with a ghost field cannot use
// definitions that name the struct.
ghost use Rattle.std.specs.Prelude.{◌≡◌, ◌≢◌, [], ◌∷◌, ◌++◌, MatchOption};
ghost use Rattle.sheet.specs.Readers.{unmarked};
ghost use Rattle.sheet.specs.Records.{mark_of, Byte};
ghost use Rattle.sheet.specs.Rows.{doubled};
ghost use Rattle.sheet.specs.Steps.{EndsQuote};

pub(crate) fn without_mark(text: &[u8]) -> &[u8]
    ensures { result.now ≡ unmarked text.now }
{
    match text {
        [0xEF, 0xBB, 0xBF, rest @ ..] => rest,
        _ => text,
    }
}

// The next byte of a field without quotes, and the text behind it, or none where the field ends.
pub(crate) fn split_plain(text: &[u8]) -> Option<(u8, &[u8])>
    ensures { MatchOption result (mark_of text.now ≢ Byte) (λ p. (mark_of text.now ≡ Byte) × (text.now ≡ p.0 ∷ p.1.now)) }
{
    match text {
        [] | [b',' | b'\n', ..] | [b'\r', b'\n', ..] => None,
        &[byte, ref rest @ ..] => Some((byte, rest)),
    }
}

// The next byte of a field in quotes, and the text behind it, or none at the closing quote or the end of the text.
pub(crate) fn split_quoted(text: &[u8]) -> Option<(u8, &[u8])>
    ensures { MatchOption result (EndsQuote text.now) (λ p. text.now ≡ doubled (p.0 ∷ []) ++ p.1.now) }
{
    match text {
        [b'"', b'"', rest @ ..] => Some((b'"', rest)),
        [] | [b'"', ..] => None,
        &[byte, ref rest @ ..] => Some((byte, rest)),
    }
}
