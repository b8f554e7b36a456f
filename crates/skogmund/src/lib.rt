// The entries for C and Rust, on numbers and slices; `include/skogmund.h` declares them. Nothing is kept between calls. A refusal is one
// number: 0 for none, else number x 2^40 + section x 2^32 + place.
#![tactic(auto)]

ghost use Rattle.std.specs.Prelude.{◌≡◌, ◌≤◌};
ghost use Rattle.lent.specs.Lent.{done, done_both};
ghost use Rattle.layout.specs.Refusals.{last_place};
ghost use Rattle.skogmund.specs.Entries.{code_of, row_unpacked, record_told, listing_told};

use layout::Refusal;

pub mod messages;
pub mod part;
pub mod shelves;

// 18, of no section and no place.
pub(crate) const NO_ROOM: u64 = 18 * 0x100_0000_0000;

pub fn skogmund_unpack(section5: &[u8], section7: &[u8], row: &mut [u32]) -> u64
    ensures { done result row.new ≡ row_unpacked section5.now section7.now row.old }
{
    match packing::unpack(section5, section7, row) {
        Ok(_) => 0,
        Err(x) => code(x),
    }
}

// The count and the numbers of a section's record, in the first places.
pub fn skogmund_read(section: u8, s: &[u8], values: &mut [i64]) -> u64
    ensures { done result values.new ≡ record_told section s.now values.old }
{
    match values::read_into(section, s, values) {
        Ok(()) => 0,
        Err(x) => code(x),
    }
}

// No refusal's place is above the last.
pub(crate) fn code(x: Refusal) -> u64
    requires { x.place ≤ last_place }
    ensures { result ≡ code_of x }
{
    x.number as u64 * 0x100_0000_0000 + x.section as u64 * 0x1_0000_0000 + x.place as u64
}

// What the program `listing` prints for this queue, at the start of the text buffer, and its length in the first place of `length`.
pub fn skogmund_list(queue: &[u8], text: &mut [u8], length: &mut [u64]) -> u64
    ensures { done_both result text.new length.new ≡ listing_told queue.now text.old length.old }
{
    let mut room = report::listing_buffer();
    let end = report::whole_listing(queue, &mut room);
    if text.len() < end {
        return NO_ROOM;
    }
    let ends = [end as u64];
    if !lent::numbers(length, &ends) {
        return NO_ROOM;
    }
    text[..end].copy_from_slice(&room[..end]);
    0
}
