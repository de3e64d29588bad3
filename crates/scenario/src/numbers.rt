// Decimal numbers and lists of them.
ghost use Rattle.std.specs.Prelude.{◌≡◌};
ghost use Rattle.std.specs.Char.{is_ascii_digit};
ghost use Rattle.std.specs.List.{list_all};
ghost use Rattle.scenario.specs.Numbers.{number_of};

use std::alloc::{AllocError, Global};

fn is_digits(text: &str) -> bool
    ensures { result ≡ list_all is_ascii_digit text.now }
{
    text.bytes().all(|b| b.is_ascii_digit())
}

// A decimal number. One above 4,294,967,295 counts as that, which no block, track or place reaches. None for any other text.
#[tactic(auto, using(crate::proofs::Digits::no_text, crate::proofs::Digits::no_number, crate::proofs::Digits::parsed))]
pub fn number(text: &str) -> Option<u32>
    ensures { result ≡ number_of text.now }
{
    if text.is_empty() || !is_digits(text) {
        return None;
    }
    Some(text.parse().unwrap_or(u32::MAX))
}

// Numbers with commas between them; there may be none. None for any other text, as `collect` gives it: to be out of memory is no fault
// of the text.
pub fn numbers(heap: Global, text: &str) -> Result<Option<Vec<u32>>, AllocError> {
    if text.trim().is_empty() {
        return Ok(Some(Vec::new(heap)));
    }
    text.split(',')
        .map(|part| number(part.trim()))
        .collect(heap)
}

#[cfg(test)]
mod tests {
    use super::*;
    use std::test::Fail;

    #[test]
    fn lists(rt: HostRuntime) -> Result<(), Fail> {
        let heap = rt.alloc();
        for (text, found) in [
            ("34, 67", Some([34, 67])),
            (" 1 ,99999999999 ", Some([1, u32::MAX])),
            ("34,,67", None),
            ("34,67,", None),
        ] {
            let list = numbers(heap, text)?;
            assert_eq!(rt;
                list.as_ref().map(|l| l.as_slice()),
                found.as_ref().map(|l| l.as_slice())
            );
        }
        assert_eq!(rt; numbers(heap, " ")?.map(|l| l.len()), Some(0));
        Ok(())
    }
}
