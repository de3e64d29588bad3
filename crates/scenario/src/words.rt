// Words at the front of a text.
use crate::numbers::number;

// The first word, and what stands behind it and its blanks.
pub(crate) fn first_word(text: &str) -> (&str, &str) {
    let text = text.trim_start();
    match text.split_once(char::is_whitespace) {
        Some((word, rest)) => (word, rest.trim()),
        None => (text, ""),
    }
}

// The number that the first word says, and what stands behind it.
pub(crate) fn first_number(text: &str) -> Option<(u32, &str)> {
    let (word, rest) = first_word(text);
    Some((number(word)?, rest))
}
