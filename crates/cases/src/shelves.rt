// Shelves: fields filed, one shelf joined to another, and what the slots then hold.
use crate::lines::{self, Sections};
use crate::print::{self, Output};
use card::Card;
use filing::{Change, Filed};
use layout::Refusal;
use shelf::Shelf;
use std::alloc::{AllocError, Global};
use std::io::Write;
use std::{io, mem};

// The shelf that fields are filed to, and another.
#[derive(Clone, Copy)]
pub(crate) struct Shelves {
    here: Shelf,
    other: Shelf,
}

impl Shelves {
    pub(crate) fn empty() -> Shelves {
        Shelves {
            here: Shelf::empty(),
            other: Shelf::empty(),
        }
    }

    // What a line asks for: `f SLOT ISSUE+1 / five sections` files a field (0: no issue named), `b SLOT 0 / five sections` reloads one
    // at the bench, `e` empties the shelf, `x` changes the two over, `j` joins the other in, and `s` shows what is held. Any other letter
    // is as `f`.
    pub(crate) fn run(
        &mut self,
        out: &mut Output,
        alloc: Global,
        line: &[u8],
        order: u8,
    ) -> io::Result<()> {
        // An enum of orders would say the letters once more, and have no name for all the others.
        match order {
            b'e' => self.here = Shelf::empty(),
            b'x' => mem::swap(&mut self.here, &mut self.other),
            b'j' => self.here = self.here.join(self.other),
            b's' => show_shelf(out, self.here)?,
            _ => {
                let done = file(alloc, line, order, self.here)?;
                self.here = done.shelf;
                show_answer(out, done.answer)?;
            }
        }
        Ok(())
    }
}

fn show_answer(out: &mut Output, answer: Result<Change, Refusal>) -> io::Result<()> {
    match answer {
        Ok(Change::Kept) => print::text(out, b"kept"),
        Ok(Change::Passed) => print::text(out, b"passed"),
        Err(x) => print::refusal(out, x),
    }
}

fn show_shelf(out: &mut Output, shelf: Shelf) -> io::Result<()> {
    print::text(out, b"held")?;
    for (i, slot) in shelf.slots.iter().enumerate() {
        if let Some(card) = *slot {
            show_card(out, card, i)?;
        }
    }
    Ok(())
}

fn show_card(out: &mut Output, card: Card, i: usize) -> io::Result<()> {
    let Card {
        year,
        month,
        day,
        hour,
        minute,
        second,
        issue,
        product,
    } = card;
    write!(
        out,
        " slot {i} {year} {month} {day} {hour} {minute} {second} {issue} "
    )?;
    print::hexadecimal(out, &product)
}

// Files the field of the line's five sections, or reloads it.
fn file(alloc: Global, line: &[u8], order: u8, shelf: Shelf) -> Result<Filed, AllocError> {
    let mut sections = Sections::of(line);
    let s1 = sections.next(alloc)?;
    let s3 = sections.next(alloc)?;
    let s4 = sections.next(alloc)?;
    let s5 = sections.next(alloc)?;
    let s7 = sections.next(alloc)?;
    let slot = lines::decimal(lines::word(line, 1));
    if order == b'b' {
        return Ok(filing::bench_reload(shelf, slot, &s1, &s3, &s4, &s5, &s7));
    }
    let stored = lines::decimal(lines::word(line, 2));
    match filing::issue_from(stored as u64) {
        Ok(issue) => Ok(filing::file_by_value(shelf, slot, issue, &s1, &s3, &s4, &s5, &s7)),
        Err(refusal) => Ok(Filed {
            shelf,
            answer: Err(refusal),
        }),
    }
}
