// Runs the readers over cases from standard input and prints what each answers, one line for a case, so that it can be
// compared with what document 01 says. A line of input is `SECTION LENGTH OCTETS`: the reader to ask, the length of the
// section to lend it, and its octets in hexadecimal, of which the last stands for the rest; printed are the row of its values and the
// parts (`sections`). For unpacking it is `7 LENGTH OCTETS / LENGTH OCTETS / PLACES`: section 5, section 7, and the places of the row,
// each of which holds 9 before (`unpacked`). A line that starts with `#` is printed as it is. Lines that start with a letter file fields
// and join shelves (`shelves`), but for `q LENGTH OCTETS`: a queue, of which the listing and the explanation are printed (`queues`), and
// `m LENGTH OCTETS`: a message, whose contents are printed (`messages`).
#![tactic(auto)]

use print::Output;
use shelves::Shelves;
use std::alloc::Global;
use std::io;
use std::io::{BufWriter, Write};

mod lines;
mod messages;
mod print;
mod queues;
mod sections;
mod shelves;
mod unpacked;

// Room for the whole input.
const INPUT: usize = 3000000;

// Room for a row of as many values as any has.
const PLACES: usize = 524288;

fn main(rt: HostRuntime) -> io::Result<()> {
    let mut room = vec![in rt.alloc(); 0; INPUT]?;
    let n = standard::read_all(&rt, &mut room)?;
    let mut out = BufWriter::new(rt.alloc(), rt.stdout())?;
    run(&mut out, rt.alloc(), &room[..n])?;
    out.flush()
}

// One line after the other.
fn run(out: &mut Output, alloc: Global, text: &[u8]) -> io::Result<()> {
    let mut shelves = Shelves::empty();
    for line in text.split_inclusive(|c| *c == b'\n') {
        let line = line.strip_suffix(b"\n").unwrap_or(line);
        run_line(out, alloc, line, &mut shelves)?;
        print::text(out, b"\n")?;
    }
    Ok(())
}

fn run_line(out: &mut Output, alloc: Global, line: &[u8], shelves: &mut Shelves) -> io::Result<()> {
    match line {
        [] => Ok(()),
        [b'#', ..] => print::text(out, line),
        [b'q', ..] => queues::show(out, alloc, line),
        [b'm', ..] => messages::show(out, alloc, line),
        [order @ b'a'..=u8::MAX, ..] => shelves.run(out, alloc, line, *order),
        [b'7', ..] => run_unpacking(out, alloc, line),
        [section, ..] => {
            let s = lines::section(alloc, line)?;
            sections::show(out, lines::digit(*section), &s)
        }
    }
}

fn run_unpacking(out: &mut Output, alloc: Global, line: &[u8]) -> io::Result<()> {
    let behind5 = lines::behind(line, b'/');
    let section5 = lines::section(alloc, line)?;
    let section7 = lines::section(alloc, behind5)?;
    let places = lines::decimal(lines::word(lines::behind(behind5, b'/'), 1));
    if PLACES < places {
        return Ok(());
    }
    let mut row = vec![in alloc; 9; places]?;
    unpacked::show(out, &section5, &section7, &mut row)
}
