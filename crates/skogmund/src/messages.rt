// Whole messages for C: where the sections of their fields stand, since C cannot be handed views of them.
ghost use Rattle.std.specs.Prelude.{◌≡◌, ◌+◌, ◌≤◌, length};
ghost use Rattle.std.proofs.lemmas.List.Edits.{sets};
ghost use Rattle.lent.specs.Lent.{done_both, over};
ghost use Rattle.message.specs.Walk.{told};
ghost use Rattle.message.specs.Places.{LowField};
ghost use Rattle.skogmund.specs.Messages.{field_spans, spans_of, message_told, fields_told, Tellable};

use crate::part;
use message::{Fields, Sections};

// Of a field five spans of two numbers each; a message has at most 16 fields.
const OF_A_FIELD: usize = 10;

const SPANS: usize = 160;

// The fields' sections, first octet (from 1) and length of each, in the first places, and how many fields there are.
pub fn skogmund_message(message: &[u8], spans: &mut [u64], count: &mut [u64]) -> u64
    ensures { done_both result spans.new count.new ≡ message_told message.now spans.old count.old }
{
    match message::read(message) {
        Ok(fields) => tell(spans, count, fields),
        Err(x) => crate::code(x),
    }
}

// The same of the fields of an accepted message.
fn tell(spans: &mut [u64], count: &mut [u64], fields: Fields) -> u64
    requires { Tellable (told (Ok fields)) }
    ensures { done_both result spans.new count.new ≡ fields_told (told (Ok fields)) spans.old count.old }
{
    if spans.len() < SPANS {
        return crate::NO_ROOM;
    }
    if !lent::numbers(count, &[fields.count as u64]) {
        return crate::NO_ROOM;
    }
    write_spans(spans, fields);
    0
}

fn write_spans(spans: &mut [u64], fields: Fields)
    requires { Tellable (told (Ok fields)) × (160 ≤ length spans.old) }
    ensures { spans.new ≡ over spans.old (spans_of (told (Ok fields))) }
{
    for (k, sections) in fields.found().iter().enumerate() {
        write_field(spans, OF_A_FIELD * k, *sections);
    }
}

fn write_field(spans: &mut [u64], at: usize, sections: Sections)
    requires { LowField sections × (at + 10 ≤ length spans.old) }
    ensures { spans.new ≡ sets spans.old at (field_spans sections) }
{
    let numbers = [
        part::first_octet(sections.one),
        sections.one.length as u64,
        part::first_octet(sections.three),
        sections.three.length as u64,
        part::first_octet(sections.four),
        sections.four.length as u64,
        part::first_octet(sections.five),
        sections.five.length as u64,
        part::first_octet(sections.seven),
        sections.seven.length as u64,
    ];
    lent::numbers(&mut spans[at..], &numbers);
}
