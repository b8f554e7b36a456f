// A section: the row of its values or its refusal, and then the parts that a caller is shown.
use crate::print::{self, Output};
use std::io;

pub(crate) fn show(out: &mut Output, section: u8, s: &[u8]) -> io::Result<()> {
    show_values(out, section, s)?;
    match section {
        3 => print::part(out, b" list", grid::list(s)),
        4 => show_lists(out, s),
        _ => Ok(()),
    }
}

pub(crate) fn show_values(out: &mut Output, section: u8, s: &[u8]) -> io::Result<()> {
    let mut row = [0; 64];
    if let Err(x) = values::read_into(section, s, &mut row) {
        return print::refusal(out, x);
    }
    print::text(out, b"read")?;
    show_row(out, &row)
}

// The count of the values, which is the first of the row, and they.
fn show_row(out: &mut Output, row: &[i64; 64]) -> io::Result<()> {
    for (value, _) in row.iter().zip(0..=row[0]) {
        print::signed(out, *value)?;
    }
    Ok(())
}

fn show_lists(out: &mut Output, s: &[u8]) -> io::Result<()> {
    show_ranges(out, s)?;
    print::part(out, b" range_at_most", product::time_range(s, usize::MAX))?;
    print::part(out, b" members", product::member_list(s))?;
    print::part(out, b" coordinates", product::coordinate_list(s))
}

// The time ranges and one more, which is empty.
fn show_ranges(out: &mut Output, s: &[u8]) -> io::Result<()> {
    for k in 0..256 {
        let range = product::time_range(s, k);
        print::part(out, b" range", range)?;
        if range.is_empty() {
            break;
        }
    }
    Ok(())
}
