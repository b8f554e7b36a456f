// Unpacking: section 7 alone, and the row that sections 5 and 7 unpack into.
use crate::print::{self, Output};
use crate::sections;
use layout::Refusal;
use std::io;

pub(crate) fn show(
    out: &mut Output,
    section5: &[u8],
    section7: &[u8],
    row: &mut [u32],
) -> io::Result<()> {
    sections::show_values(out, 7, section7)?;
    print::text(out, b" unpacked ")?;
    let answer = packing::unpack(section5, section7, row);
    show_answer(out, answer)?;
    print::text(out, b" row")?;
    if row.len() <= 8 {
        show_numbers(out, row)
    } else {
        print::text(out, b" digest")?;
        print::number(out, digest(row))
    }
}

fn show_answer(out: &mut Output, answer: Result<u32, Refusal>) -> io::Result<()> {
    match answer {
        Ok(n) => {
            print::text(out, b"written")?;
            print::number(out, n)
        }
        Err(x) => print::refusal(out, x),
    }
}

fn show_numbers(out: &mut Output, row: &[u32]) -> io::Result<()> {
    for number in row {
        print::number(out, *number)?;
    }
    Ok(())
}

// A number that a change of any place changes.
fn digest(row: &[u32]) -> u32 {
    row.iter().fold(
        0u32,
        |sum, number| sum.wrapping_mul(31).wrapping_add(*number),
    )
}
