// Messages: the contents of one, as the program `fields` prints them.
use crate::lines;
use crate::print::{self, Output};
use std::alloc::Global;
use std::io;

pub(crate) fn show(out: &mut Output, alloc: Global, line: &[u8]) -> io::Result<()> {
    let message = lines::section(alloc, line)?;
    let mut text = contents::contents_buffer();
    let end = contents::contents(&message, &mut text);
    print::text(out, octets::part_after(&text, 0, end))
}
