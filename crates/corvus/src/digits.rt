// Bytes from hexadecimal text.
use crate::stop::Stop;
use std::alloc::Global;

// The bytes of one text of digits, two to a byte.
pub(crate) fn bytes_from(heap: Global, text: &str) -> Result<Vec<u8>, Stop> {
    if !text.bytes().all(|b| b.is_ascii_hexdigit()) {
        return Err(Stop::said(format!(in heap;
            "'{text}' is not hexadecimal (digits 0 to 9 and A to F, two a byte)"
        )));
    }
    let mut bytes = vec![in heap; 0u8; text.len() / 2]?;
    hex::decode_to_slice(text, bytes.as_mut_slice()).map_err(|_| {
        Stop::said(format!(in heap; "'{text}' has an odd number of digits; a byte has two"))
    })?;
    Ok(bytes)
}

// The bytes of all the words, one behind the other; blanks may stand between them.
pub(crate) fn bytes_in(heap: Global, words: &[&str]) -> Result<Vec<u8>, Stop> {
    let mut out = Vec::new(heap);
    for text in words.iter().flat_map(|word| word.split_whitespace()) {
        out.extend_from_slice(bytes_from(heap, text)?.as_slice())?;
    }
    Ok(out)
}
