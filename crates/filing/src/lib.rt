// Filing: a field is read, and its card put to a slot of the shelf.
#![tactic(auto)]

ghost use Rattle.std.specs.Prelude.{◌≡◌};
ghost use Rattle.identification.specs.Section1.{values_in};
ghost use Rattle.filing.specs.Filing.{filing_of, filed_of, after_put, stored_issue, card_of, foreign_calendar, told};

use card::Card;
use identification::Identification;
use layout::Refusal;
use shelf::{PutDone, Shelf};

// What a caller gets who names no issue.
pub const DEFAULT_ISSUE: u32 = 0;

// What became of a card that was put to its slot: the slot changed, or it held no less.
#[derive(Clone, Copy, Debug, PartialEq, Eq)]
pub enum Change {
    Kept,
    Passed,
}

// The shelf after a filing, and what became of the field.
#[derive(Clone, Copy)]
pub struct Filed {
    pub shelf: Shelf,
    pub answer: Result<Change, Refusal>,
}

// Files a field to a slot of the shelf, which is handed back: as it was where the filing is refused, with 16, as the field is, or
// with 17, and otherwise with the greater card in the slot.
#[tactic(auto, unfolding(crate::specs::Filing::filed_of, crate::specs::Filing::filed_by))]
pub fn file_by_value<'a>(
    shelf: Shelf,
    slot: usize,
    issue: Option<u32>,
    section1: &'a [u8],
    section3: &'a [u8],
    section4: &'a [u8],
    section5: &'a [u8],
    section7: &'a [u8],
) -> Filed
    ensures { result ≡ filed_of shelf slot issue section1.now section3.now section4.now section5.now section7.now }
{
    let card = match card_for(
        slot, issue, section1, section3, section4, section5, section7,
    ) {
        Ok(card) => card,
        Err(refusal) => {
            return Filed {
                shelf,
                answer: Err(refusal),
            };
        }
    };
    after_put(shelf.put(slot, card))
}

// The card of a field that can be filed to a slot. It is kept apart from the filing: copied into it, the readers would hide from LLVM that
// the shelf is written over, which would then be cleared first and copied once more for each field.
#[tactic(auto, unfolding(crate::specs::Filing::filing_of, crate::specs::Filing::of_field, field::specs::Field::told))]
#[inline(never)]
fn card_for(
    slot: usize,
    issue: Option<u32>,
    section1: &[u8],
    section3: &[u8],
    section4: &[u8],
    section5: &[u8],
    section7: &[u8],
) -> Result<Card, Refusal>
    ensures { told result ≡ filing_of slot issue section1.now section3.now section4.now section5.now section7.now }
{
    if 63 < slot {
        return Err(Refusal::of(16, 0));
    }
    let field = field::read(section1, section3, section4, section5, section7)?;
    if foreign_calendar(field.identification) {
        return Err(Refusal::of(17, 1));
    }
    let issue = issue.unwrap_or(DEFAULT_ISSUE);
    Ok(card_of(field.identification, issue, section4))
}

// The trailer's one shelf is lent to the filing call and changed there.
pub fn file<'s, 'a>(
    shelf: &'s mut Shelf,
    slot: usize,
    issue: Option<u32>,
    section1: &'a [u8],
    section3: &'a [u8],
    section4: &'a [u8],
    section5: &'a [u8],
    section7: &'a [u8],
) -> Result<Change, Refusal>
    ensures { record { shelf = shelf.new; answer = result } ≡ filed_of shelf.old slot issue section1.now section3.now section4.now section5.now section7.now }
{
    let done = file_by_value(
        *shelf, slot, issue, section1, section3, section4, section5, section7,
    );
    *shelf = done.shelf;
    done.answer
}

// The bench reload refiles a kept field after a repair, and names no issue.
pub fn bench_reload<'a>(
    shelf: Shelf,
    slot: usize,
    section1: &'a [u8],
    section3: &'a [u8],
    section4: &'a [u8],
    section5: &'a [u8],
    section7: &'a [u8],
) -> Filed
    ensures { result ≡ filed_of shelf slot None section1.now section3.now section4.now section5.now section7.now }
{
    file_by_value(
        shelf, slot, None, section1, section3, section4, section5, section7,
    )
}

// An issue is stored as issue + 1, and as 0 where none is named. A number above 4,294,967,296 stores none: 19.
pub fn issue_from(stored: u64) -> Result<Option<u32>, Refusal>
    ensures { result ≡ stored_issue stored }
{
    if 4294967296 < stored {
        return Err(Refusal::of(19, 0));
    }
    Ok(stored.checked_sub(1).map(|issue| issue as u32))
}

// Whether the calendar is present and not 0, the Gregorian one.
#[tactic(auto, unfolding(identification::specs::Section1::values_in, layout::specs::Time::time_in))]
fn foreign_calendar(x: Identification) -> bool
    ensures { result ≡ foreign_calendar (values_in x) }
{
    x.calendar.is_some_and(|code| code != 0)
}

#[tactic(auto, unfolding(crate::specs::Filing::card_of, identification::specs::Section1::values_in, layout::specs::Time::time_in))]
fn card_of(x: Identification, issue: u32, section4: &[u8]) -> Card
    ensures { result ≡ card_of (values_in x) issue section4.now }
{
    let product = card::product_at(section4, 8);
    Card {
        year: x.real_year,
        month: x.time.month,
        day: x.time.day,
        hour: x.time.hour,
        minute: x.time.minute,
        second: x.time.second,
        issue,
        product,
    }
}

fn after_put(done: PutDone) -> Filed
    ensures { result ≡ after_put done }
{
    let shelf = done.shelf;
    if done.changed {
        Filed {
            shelf,
            answer: Ok(Change::Kept),
        }
    } else {
        Filed {
            shelf,
            answer: Ok(Change::Passed),
        }
    }
}
