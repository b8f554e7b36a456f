// What the program prints: on a buffered standard output, of which a contract can say nothing.
use layout::Refusal;
use std::fmt::Display;
use std::io;
use std::io::{BufWriter, Stdout, Write};

// The hexadecimal digits.
const DIGITS: &[u8; 16] = b"0123456789abcdef";

// Where the answers go.
pub(crate) type Output = BufWriter<Stdout>;

pub(crate) fn text(out: &mut Output, words: &[u8]) -> io::Result<()> {
    out.write_all(words)
}

// A number, as a word of a line.
pub(crate) fn number(out: &mut Output, n: impl Display + Drop) -> io::Result<()> {
    write!(out, " {n}")
}

// The least number stands for missing in a row of values.
pub(crate) fn signed(out: &mut Output, z: i64) -> io::Result<()> {
    if z == i64::MIN {
        text(out, b" missing")
    } else {
        number(out, z)
    }
}

// No `Display` of layout's: the core writes a refusal as octets into a lent buffer (`text::refused`), and this is the one place besides.
pub(crate) fn refusal(out: &mut Output, x: Refusal) -> io::Result<()> {
    write!(out, "refused {} {} {}", x.number, x.section, x.place)
}

// How many octets a part has, and these: of more than 40 the first 24 and the last 12.
pub(crate) fn part(out: &mut Output, name: &[u8], part: &[u8]) -> io::Result<()> {
    let n = part.len();
    text(out, name)?;
    number(out, n)?;
    if n == 0 {
        return Ok(());
    }
    text(out, b" ")?;
    if n <= 40 {
        return hexadecimal(out, part);
    }
    hexadecimal(out, &part[..24])?;
    text(out, b"..")?;
    hexadecimal(out, &part[n - 12..])
}

// By the digits and not by a `write!` of each octet, with which a shelf's lines took more than twice as long.
pub(crate) fn hexadecimal(out: &mut Output, part: &[u8]) -> io::Result<()> {
    for octet in part {
        let pair = [
            DIGITS[usize::from(octet / 16)],
            DIGITS[usize::from(octet % 16)],
        ];
        text(out, &pair)?;
    }
    Ok(())
}
