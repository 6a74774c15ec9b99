// Lines, words and numbers of a text of bytes.
#![tactic(auto)]

ghost use Rattle.std.specs.Prelude.{◌≡◌, map, IfOk, Some};
ghost use Rattle.std.specs.Option.{option_map};
ghost use Rattle.lines.specs.Text.{before, behind, lines_of, without_end, number_of, numbers_of};

use std::alloc::{AllocError, Global};

// A text cut at the first of a byte.
#[derive(Clone, Copy)]
pub struct Pieces<'a> {
    pub front: &'a [u8],
    // none where the byte is not there
    pub rest: Option<&'a [u8]>,
}

pub fn cut(text: &[u8], mark: u8) -> Pieces<'_>
    ensures front { result.front.now ≡ before mark text.now }
    ensures rest { option_map (λ x. x.now) result.rest ≡ behind mark text.now }
{
    match text.iter().position(|b| *b == mark) {
        Some(i) => Pieces {
            front: &text[..i],
            rest: Some(&text[i + 1..]),
        },
        None => Pieces {
            front: text,
            rest: None,
        },
    }
}

// The lines of a text, without the bytes that end them.
pub fn split_lines(heap: Global, text: &[u8]) -> Result<Vec<&[u8]>, AllocError>
    ensures { IfOk result (λ v. map (λ x. x.now) v.items ≡ lines_of text.now) }
{
    text.split_inclusive(|b| *b == b'\n')
        .map(without_end)
        .collect(heap)
}

fn without_end(line: &[u8]) -> &[u8]
    ensures { result.now ≡ without_end line.now }
{
    line.strip_suffix(b"\n").unwrap_or(line)
}

// A number of 1 to 10 digits that fits 32 bits.
pub fn number(word: &[u8]) -> Option<u32>
    ensures { result ≡ number_of word.now }
{
    if word.is_empty() || word.len() > 10 {
        return None;
    }
    if !word.iter().all(u8::is_ascii_digit) {
        return None;
    }
    // ten digits fit 64 bits
    let value = word
        .iter()
        .fold(0, |value, digit| value * 10 + u64::from(digit - b'0'));
    u32::try_from(value).ok()
}

// A text that is just K numbers, one blank between.
pub fn numbers<const K: usize>(text: &[u8]) -> Option<[u32; K]>
    ensures { result ≡ numbers_of K (Some text.now) }
{
    let mut found = [0; K];
    let mut rest = Some(text);
    for slot in &mut found {
        let word = cut(rest?, b' ');
        *slot = number(word.front)?;
        rest = word.rest;
    }
    rest.is_none().then_some(found)
}

#[cfg(test)]
mod tests {
    use super::*;
    use std::test::Fail;

    #[test]
    fn numbers_at_the_edges(rt: HostRuntime) {
        assert_eq!(rt; number(b"0"), Some(0));
        assert_eq!(rt; number(b"4294967295"), Some(4_294_967_295));
        assert_eq!(rt; number(b"4294967296"), None);
        assert_eq!(rt; number(b"0000000007"), Some(7));
        assert_eq!(rt; number(b"00000000007"), None);
        assert_eq!(rt; number(b""), None);
        assert_eq!(rt; number(b"+1"), None);
    }

    #[test]
    fn one_blank_between(rt: HostRuntime) {
        assert!(rt; numbers::<3>(b"1 22 333") == Some([1, 22, 333]));
        assert!(rt; numbers::<3>(b"1 22").is_none());
        assert!(rt; numbers::<3>(b"1 22 333 4").is_none());
        assert!(rt; numbers::<3>(b"1  22 333").is_none());
        assert!(rt; numbers::<3>(b"1 22 333 ").is_none());
    }

    #[test]
    fn where_lines_end(rt: HostRuntime) -> Result<(), Fail> {
        let heap = rt.alloc();
        assert_eq!(rt; split_lines(heap, b"")?.len(), 0);
        assert_eq!(rt; split_lines(heap, b"\n")?.len(), 1);
        assert_eq!(rt; split_lines(heap, b"a\n\nb")?.len(), 3);
        assert_eq!(rt; split_lines(heap, b"a\n\nb\n")?.len(), 3);
        Ok(())
    }
}
