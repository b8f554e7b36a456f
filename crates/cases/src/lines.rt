// Lines of text, with octets in hexadecimal.
ghost use Rattle.std.specs.Prelude.{◌≤◌, vec_len, IfOk};

use std::alloc::{AllocError, Global};

// More octets than any section may have.
const MOST: usize = 70000;

// What stands behind the next `byte`, and nothing if there is none.
pub(crate) fn behind(text: &[u8], byte: u8) -> &[u8] {
    match text.iter().position(|c| *c == byte) {
        Some(at) => &text[at + 1..],
        None => &[],
    }
}

// The word with this index, from 0 on, and nothing if there is none.
pub(crate) fn word(text: &[u8], index: usize) -> &[u8] {
    text.split(|c| *c == b' ').nth(index).unwrap_or(&[])
}

// The section whose length and octets are the two words behind the first; its last octet stands for the rest.
pub(crate) fn section(alloc: Global, text: &[u8]) -> Result<Vec<u8>, AllocError> {
    let size = decimal(word(text, 1)).min(MOST);
    let mut section = decode(alloc, word(text, 2), size)?;
    let last = section.last().copied().unwrap_or(0);
    section.resize(size, last)?;
    Ok(section)
}

// The sections of a line, one behind each `/`.
#[derive(Drop)]
pub(crate) struct Sections<'a> {
    rest: &'a [u8],
}

impl<'a> Sections<'a> {
    pub(crate) fn of(line: &'a [u8]) -> Sections<'a> {
        Sections { rest: line }
    }

    pub(crate) fn next(&mut self, alloc: Global) -> Result<Vec<u8>, AllocError> {
        self.rest = behind(self.rest, b'/');
        section(alloc, self.rest)
    }
}

// A decimal number, as far as it is at most 5,000,000,000.
pub(crate) fn decimal(word: &[u8]) -> usize {
    let mut value = 0;
    for c in word {
        let more = value * 10 + usize::from(digit(*c));
        if 5_000_000_000 < more {
            break;
        }
        value = more;
    }
    value
}

// What a hexadecimal digit stands for, and 0 for anything else.
pub(crate) fn digit(c: u8) -> u8
    ensures { result ≤ 15 }
{
    match c {
        b'0'..=b'9' => c - b'0',
        b'a'..=b'f' => c - b'a' + 10,
        _ => 0,
    }
}

// The octets of a text of pairs of digits, `most` of them at most.
fn decode(alloc: Global, text: &[u8], most: usize) -> Result<Vec<u8>, AllocError>
    ensures { IfOk result (λ octets. vec_len octets ≤ most) }
{
    let (pairs, _) = text.as_chunks::<2>();
    pairs
        .iter()
        .take(most)
        .map(|[high, low]| digit(*high) * 16 + digit(*low))
        .collect(alloc)
}
