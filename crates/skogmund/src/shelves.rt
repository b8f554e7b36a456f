// Shelves for C and Rust: 2,624 octets that the caller keeps. Any octets are a shelf, so that nothing is asked of them but their number.
ghost use Rattle.std.specs.Prelude.{◌≡◌, map, ◌≤◌, pos, length};
ghost use Rattle.std.proofs.lemmas.List.Edits.{sets};
ghost use Rattle.octets.specs.Octets.{part};
ghost use Rattle.lent.specs.Lent.{done, done_both, with_count};
ghost use Rattle.skogmund.specs.Shelves.{emptied, joined, kept_in, filed_field, filed_queue, slot_numbers, slot_shown};

use card::Card;
use filing::Change;
use shelf::Shelf;

const SHELF: usize = 2624;

// 16: no shelf has the slot.
const NO_SLOT: u64 = 16 * 0x100_0000_0000;

// The empty shelf.
pub fn skogmund_empty(shelf: &mut [u8]) -> u64
    ensures { done result shelf.new ≡ emptied shelf.old }
{
    if shelf.len() != SHELF {
        return crate::NO_ROOM;
    }
    shelf_octets::write(shelf, Shelf::empty());
    0
}

// Joins another shelf in, slot by slot.
pub fn skogmund_join(shelf: &mut [u8], other: &[u8]) -> u64
    ensures { done result shelf.new ≡ joined shelf.old other.now }
{
    if shelf.len() != SHELF {
        return crate::NO_ROOM;
    }
    if other.len() != SHELF {
        return crate::NO_ROOM;
    }
    let ours = shelf_octets::read(shelf);
    let theirs = shelf_octets::read(other);
    shelf_octets::write(shelf, ours.join(theirs));
    0
}

// Files a field; `kept` is 1 where the slot changed, and 0 where it did not.
pub fn skogmund_file<'s, 'a, 'k>(
    shelf: &'s mut [u8],
    slot: u64,
    issue_plus_1: u64,
    section1: &'a [u8],
    section3: &'a [u8],
    section4: &'a [u8],
    section5: &'a [u8],
    section7: &'a [u8],
    kept: &'k mut [u64],
) -> u64
    ensures { done_both result shelf.new kept.new ≡ filed_field shelf.old slot issue_plus_1 section1.now section3.now section4.now section5.now section7.now kept.old }
{
    let issue = match filing::issue_from(issue_plus_1) {
        Ok(issue) => issue,
        Err(x) => return crate::code(x),
    };
    let done = filing::file_by_value(
        shelf_octets::read(shelf),
        slot as usize,
        issue,
        section1,
        section3,
        section4,
        section5,
        section7,
    );
    match done.answer {
        Ok(Change::Kept) => keep(shelf, kept, done.shelf, &[1]),
        Ok(Change::Passed) => keep(shelf, kept, done.shelf, &[0]),
        Err(x) => crate::code(x),
    }
}

// The shelf, and numbers in the first places, if there is room for both.
fn keep(shelf: &mut [u8], places: &mut [u64], after: Shelf, numbers: &[u64]) -> u64
    ensures { done_both result shelf.new places.new ≡ kept_in shelf.old places.old after numbers.now }
{
    if shelf.len() != SHELF {
        return crate::NO_ROOM;
    }
    if !lent::numbers(places, numbers) {
        return crate::NO_ROOM;
    }
    shelf_octets::write(shelf, after);
    0
}

// Files a queue; the counts are its records kept, passed and refused.
pub fn skogmund_file_queue(shelf: &mut [u8], queue: &[u8], counts: &mut [u64]) -> u64
    ensures { done_both result shelf.new counts.new ≡ filed_queue shelf.old queue.now counts.old }
{
    let done = queue::file(shelf_octets::read(shelf), queue);
    match done.answer {
        Ok(n) => keep(
            shelf,
            counts,
            done.shelf,
            &[n.kept as u64, n.passed as u64, n.refused as u64],
        ),
        Err(x) => crate::code(x),
    }
}

// What a slot holds: how many values follow, and they.
pub fn skogmund_slot(shelf: &[u8], slot: u64, values: &mut [i64]) -> u64
    ensures { done result values.new ≡ slot_shown shelf.now slot values.old }
{
    if 63 < slot {
        return NO_SLOT;
    }
    if shelf.len() != SHELF {
        return crate::NO_ROOM;
    }
    if values.len() < 64 {
        return crate::NO_ROOM;
    }
    let held = shelf_octets::slot_of(shelf, slot as usize);
    show_slot(values, held);
    0
}

fn show_slot(values: &mut [i64], slot: Option<Card>)
    requires { 64 ≤ length values.old }
    ensures { values.new ≡ with_count (slot_numbers slot) values.old }
{
    let Some(card) = slot else {
        values[0] = 0;
        return;
    };
    values[0] = 34;
    values[1] = i64::from(card.year);
    values[2] = i64::from(card.month);
    values[3] = i64::from(card.day);
    values[4] = i64::from(card.hour);
    values[5] = i64::from(card.minute);
    values[6] = i64::from(card.second);
    values[7] = i64::from(card.issue);
    show_product(values, card.product);
}

fn show_product(values: &mut [i64], product: [u8; 27])
    requires { 64 ≤ length values.old }
    ensures { values.new ≡ sets values.old 8 (map pos (part product 1 27)) }
{
    for (i, octet) in product.iter().enumerate() {
        values[8 + i] = i64::from(*octet);
    }
}
