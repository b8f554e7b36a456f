// Queues: the listing and the explanation of one, as the two programs print them.
use crate::lines;
use crate::print::{self, Output};
use std::alloc::Global;
use std::io;

pub(crate) fn show(out: &mut Output, alloc: Global, line: &[u8]) -> io::Result<()> {
    let queue = lines::section(alloc, line)?;
    list(out, &queue)?;
    explain(out, &queue)
}

// These two and `messages::show` are three lines each, with another buffer and another end: one over a closure would be no shorter.
fn list(out: &mut Output, queue: &[u8]) -> io::Result<()> {
    let mut text = report::listing_buffer();
    let end = report::listing(queue, &mut text);
    print::text(out, octets::part_after(&text, 0, end))
}

fn explain(out: &mut Output, queue: &[u8]) -> io::Result<()> {
    let mut text = report::explanation_buffer();
    let end = report::explanation(queue, &mut text);
    print_short(out, octets::part_after(&text, 0, end))
}

// Of more than 4,000 octets the first 1,000 and the last 200.
fn print_short(out: &mut Output, text: &[u8]) -> io::Result<()> {
    if text.len() <= 4000 {
        return print::text(out, text);
    }
    let (first, _) = text.split_at(1000);
    let (_, last) = text.split_at(text.len() - 200);
    print::text(out, first)?;
    print::text(out, b"\n...\n")?;
    print::text(out, last)
}
