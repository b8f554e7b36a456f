// A shelf as octets, to be stored or sent to another trailer. Any octets are a shelf.
#![tactic(auto)]

ghost use Rattle.std.specs.Prelude.{◌≡◌};
ghost use Rattle.octets.specs.Octets.{digits};
ghost use Rattle.shelf.specs.Shelves.{slot_at};
ghost use Rattle.lent.specs.Written.{written, append};
ghost use Rattle.lent.specs.Writers.{writes};
ghost use Rattle.shelf_octets.specs.ShelfOctets.{year_in, raw_year, card_in, slot_in, shelf_in, octets_of_card, octets_of_slot, as_octets};

use card::Card;
use lent::Writer;
use shelf::Shelf;

// The shelf that octets say.
pub fn read(octets: &[u8]) -> Shelf
    ensures { result ≡ shelf_in octets.now }
{
    Shelf {
        slots: std::array::from_fn(|i| slot_of(octets, i)),
    }
}

// What one slot of that shelf holds, without reading the others. Past slot 63 there is none.
#[tactic(auto, using(crate::proofs::Laws::slot_of, crate::proofs::Laws::slot_past))]
pub fn slot_of(octets: &[u8], slot: usize) -> Option<Card>
    ensures { result ≡ slot_at (shelf_in octets.now) slot }
{
    if 63 < slot {
        return None;
    }
    slot_in(octets::part_after(octets, 41 * slot, 41))
}

// Octet 1 is 1 or the slot is empty: other numbers are for what a later make may store there, which this one can't compare.
#[tactic(auto, unfolding(crate::specs::ShelfOctets::slot_in))]
fn slot_in(octets: &[u8]) -> Option<Card>
    ensures { result ≡ slot_in octets.now }
{
    if octets::u8_at(octets, 1) != 1 {
        return None;
    }
    Some(card_in(octets))
}

#[tactic(auto, unfolding(crate::specs::ShelfOctets::card_in))]
fn card_in(octets: &[u8]) -> Card
    ensures { result ≡ card_in octets.now }
{
    let year = year_in(octets::u32_at(octets, 2));
    let product = card::product_at(octets, 15);
    Card {
        year,
        month: octets::u8_at(octets, 6),
        day: octets::u8_at(octets, 7),
        hour: octets::u8_at(octets, 8),
        minute: octets::u8_at(octets, 9),
        second: octets::u8_at(octets, 10),
        issue: octets::u32_at(octets, 11),
        product,
    }
}

fn year_in(raw: u32) -> i32
    ensures { result ≡ year_in raw }
{
    // Std has no sum of a signed and an unsigned number here, so that the difference is taken in 64 bits.
    (raw as i64 - 0x8000_0000) as i32
}

// Writes the octets of a shelf at the start of a lent buffer, as far as there is room, and answers the index after them.
#[tactic(auto, using(lent::proofs::Writers::at_last))]
pub fn write(out: &mut [u8], shelf: Shelf) -> usize
    ensures { written out.new result ≡ append (written out.old 0) (as_octets shelf) }
{
    let mut writer = Writer::new(out, 0);
    write_slots(&mut writer, shelf);
    writer.at()
}

#[tactic(auto, using(lent::proofs::Writers::no_turn, lent::proofs::Writers::next_turn))]
fn write_slots(out: &mut Writer, shelf: Shelf)
    ensures { out.new ≡ writes out.old (as_octets shelf) }
{
    for slot in shelf.slots {
        write_slot(out, slot);
    }
}

#[tactic(auto, unfolding(crate::specs::ShelfOctets::octets_of_slot), using(lent::proofs::Writers::octet_then))]
fn write_slot(out: &mut Writer, slot: Option<Card>)
    ensures { out.new ≡ writes out.old (octets_of_slot slot) }
{
    let Some(card) = slot else {
        out.octets(&[0; 41]);
        return;
    };
    out.octet(1);
    write_card(out, card);
}

fn write_card(out: &mut Writer, card: Card)
    ensures { out.new ≡ writes out.old (octets_of_card card) }
{
    write_number(out, raw_year(card.year));
    out.octet(card.month);
    out.octet(card.day);
    out.octet(card.hour);
    out.octet(card.minute);
    out.octet(card.second);
    write_number(out, card.issue);
    out.octets(&card.product);
}

fn raw_year(year: i32) -> u32
    ensures { result ≡ raw_year year }
{
    year.abs_diff(i32::MIN)
}

// A number as four octets.
#[tactic(auto, using(crate::proofs::Laws::octets_of_number))]
fn write_number(out: &mut Writer, n: u32)
    ensures { out.new ≡ writes out.old (digits 4 n) }
{
    out.octets(&n.to_be_bytes());
}
