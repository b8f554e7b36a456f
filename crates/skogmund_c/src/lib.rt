// The entries for C; `include/skogmund.h` declares them and says what they do. Each calls the entry of that name in `skogmund`, and promises what
// it promises.
#![tactic(auto)]

ghost use Rattle.std.specs.Prelude.{◌≡◌};
ghost use Rattle.lent.specs.Lent.{done, done_both};
ghost use Rattle.skogmund.specs.Entries.{row_unpacked, record_told, listing_told};
ghost use Rattle.skogmund.specs.Parts.{part_told};
ghost use Rattle.skogmund.specs.Messages.{message_told};
ghost use Rattle.skogmund.specs.Shelves.{emptied, joined, filed_field, filed_queue, slot_shown};

#[unsafe(no_mangle)]
pub extern "C" fn skogmund_unpack(section5: &[u8], section7: &[u8], row: &mut [u32]) -> u64
    ensures { done result row.new ≡ row_unpacked section5.now section7.now row.old }
{
    skogmund::skogmund_unpack(section5, section7, row)
}

#[unsafe(no_mangle)]
pub extern "C" fn skogmund_read(section: u8, s: &[u8], values: &mut [i64]) -> u64
    ensures { done result values.new ≡ record_told section s.now values.old }
{
    skogmund::skogmund_read(section, s, values)
}

#[unsafe(no_mangle)]
pub extern "C" fn skogmund_list(queue: &[u8], text: &mut [u8], length: &mut [u64]) -> u64
    ensures { done_both result text.new length.new ≡ listing_told queue.now text.old length.old }
{
    skogmund::skogmund_list(queue, text, length)
}

#[unsafe(no_mangle)]
pub extern "C" fn skogmund_part(part: u8, s: &[u8], k: u64, span: &mut [u64]) -> u64
    ensures { done result span.new ≡ part_told part s.now k span.old }
{
    skogmund::part::skogmund_part(part, s, k, span)
}

#[unsafe(no_mangle)]
pub extern "C" fn skogmund_message(message: &[u8], spans: &mut [u64], count: &mut [u64]) -> u64
    ensures { done_both result spans.new count.new ≡ message_told message.now spans.old count.old }
{
    skogmund::messages::skogmund_message(message, spans, count)
}

#[unsafe(no_mangle)]
pub extern "C" fn skogmund_empty(shelf: &mut [u8]) -> u64
    ensures { done result shelf.new ≡ emptied shelf.old }
{
    skogmund::shelves::skogmund_empty(shelf)
}

#[unsafe(no_mangle)]
pub extern "C" fn skogmund_file<'s, 'a, 'k>(
    shelf: &'s mut [u8],
    slot: u64,
    issue_plus_1: u64,
    section1: &'a [u8],
    section3: &'a [u8],
    section4: &'a [u8],
    section5: &'a [u8],
    section7: &'a [u8],
    kept: &'k mut [u64],
) -> u64
    ensures { done_both result shelf.new kept.new ≡ filed_field shelf.old slot issue_plus_1 section1.now section3.now section4.now section5.now section7.now kept.old }
{
    skogmund::shelves::skogmund_file(
        shelf,
        slot,
        issue_plus_1,
        section1,
        section3,
        section4,
        section5,
        section7,
        kept,
    )
}

#[unsafe(no_mangle)]
pub extern "C" fn skogmund_file_queue(shelf: &mut [u8], queue: &[u8], counts: &mut [u64]) -> u64
    ensures { done_both result shelf.new counts.new ≡ filed_queue shelf.old queue.now counts.old }
{
    skogmund::shelves::skogmund_file_queue(shelf, queue, counts)
}

#[unsafe(no_mangle)]
pub extern "C" fn skogmund_join(shelf: &mut [u8], other: &[u8]) -> u64
    ensures { done result shelf.new ≡ joined shelf.old other.now }
{
    skogmund::shelves::skogmund_join(shelf, other)
}

#[unsafe(no_mangle)]
pub extern "C" fn skogmund_slot(shelf: &[u8], slot: u64, values: &mut [i64]) -> u64
    ensures { done result values.new ≡ slot_shown shelf.now slot values.old }
{
    skogmund::shelves::skogmund_slot(shelf, slot, values)
}
