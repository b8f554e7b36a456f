// Whole messages: one walk over the sections of a lent message, and its fields' sections as parts of it. Nothing is copied.
#![tactic(auto)]

ghost use Rattle.std.specs.Prelude.{◌≡◌, drop, take};
ghost use Rattle.cutting.specs.Cuts.{cut_of};
ghost use Rattle.cutting.specs.Sections.{section_step};
ghost use Rattle.layout.specs.Outcomes.{check_of};
ghost use Rattle.layout.specs.Spans.{octets_in};
ghost use Rattle.identification.specs.Section1.{outcome₁};
ghost use Rattle.grid.specs.Section3.{outcome₃};
ghost use Rattle.field.specs.Field.{field_check};
ghost use Rattle.message.specs.Walk.{no_sections, told, in_force, unless_refused, may_follow, other_six, section_refusal, end_refusal, judged, start_walk};
ghost use Rattle.message.specs.Messages.{start_refusal, cut_message, shown_in, outcome_of, same_section, WasRead, OpeningRead, found_in, fields_read, read_message, field_of, span_of, section_in};

use layout::{Refusal, Span};

// GRIB and 7777, as numbers of four octets.
const START: u32 = 0x4752_4942;

const END: u32 = 0x3737_3737;
// The number of the section with which a field ends.
const DATA: u8 = 7;

// Where the five sections of a field stand in their message.
#[derive(Clone, Copy, PartialEq, Eq)]
pub struct Sections {
    pub one: Span,
    pub three: Span,
    pub four: Span,
    pub five: Span,
    pub seven: Span,
}

// The fields of a message, of which the first `count` are there: at most 16, so that they need no heap.
#[derive(Clone, Copy, PartialEq, Eq)]
pub struct Fields {
    pub count: usize,
    pub fields: [Sections; 16],
}

impl Fields {
    // Those that are there.
    pub fn found(&self) -> &[Sections]
        ensures { result.now ≡ take self.now.count self.now.fields }
    {
        &self.fields[..self.count.min(16)]
    }
}

// Reads a message: 2 and 22 to 25 by its frame, and then the refusal of the first field refused.
#[tactic(auto, unfolding(crate::specs::Messages::read_message))]
pub fn read(message: &[u8]) -> Result<Fields, Refusal>
    ensures { told result ≡ read_message message.now }
{
    let fields = cut_frame(message)?;
    check_fields(message, fields)?;
    Ok(fields)
}

// A section of the k-th field, from 0: those very octets of the message. No octets where the message is refused, where it has no such
// field, and for a section that is none of the five.
#[tactic(auto, unfolding(crate::specs::Messages::section_in))]
pub fn section(message: &[u8], answer: Result<Fields, Refusal>, k: usize, section: u8) -> &[u8]
    ensures { result.now ≡ section_in message.now (told answer) k section }
{
    span_of(field_of(answer, k), section).of(message)
}

// Where the k-th field's sections stand, from 0; of a refused message and past the last field, nowhere.
#[tactic(auto, using(octets::proofs::Lists::unmapped))]
pub fn field_of(answer: Result<Fields, Refusal>, k: usize) -> Sections
    ensures { result ≡ field_of (told answer) k }
{
    let fields = match answer {
        Ok(fields) => fields,
        Err(_) => return no_sections(),
    };
    if fields.count <= k {
        return no_sections();
    }
    if 15 < k {
        return no_sections();
    }
    fields.fields[k]
}

// Where a section stands, asked for by document 01's number, as every refusal and C have it; one that is none of the five stands nowhere.
#[tactic(auto, unfolding(crate::specs::Messages::numbered))]
pub fn span_of(sections: Sections, section: u8) -> Span
    ensures { result ≡ span_of sections section }
{
    match section {
        1 => sections.one,
        3 => sections.three,
        4 => sections.four,
        5 => sections.five,
        7 => sections.seven,
        _ => Span::NOWHERE,
    }
}

// Reads the fields that were found, in order, up to the first that is refused.
fn check_fields(message: &[u8], fields: Fields) -> Result<(), Refusal>
    ensures { unless_refused result (told (Ok fields)) ≡ fields_read (told (Ok fields)) (found_in message.now (told (Ok fields))) }
{
    let mut before = no_sections();
    for sections in fields.found() {
        check_field(message, before, *sections)?;
        before = *sections;
    }
    Ok(())
}

// Reads one field, whose sections are parts of the message, behind the field before.
#[tactic(auto, using(crate::proofs::Reading::field_checks), unfolding(layout::specs::Outcomes::and_check))]
fn check_field(message: &[u8], before: Sections, sections: Sections) -> Result<(), Refusal>
    requires { OpeningRead message.now before }
    ensures { result ≡ field_check (outcome_of (shown_in message.now sections)) }
{
    check_one(message, before.one, sections.one)?;
    check_three(message, before.three, sections.three)?;
    let points = octets::u32_at(sections.three.of(message), 7);
    field::check_later(
        points,
        sections.four.of(message),
        sections.five.of(message),
        sections.seven.of(message),
    )
}

// Section 1 of a field: one that the field before has too was read there, and is not read again.
#[tactic(auto, using(crate::proofs::Reading::refused_check, crate::proofs::Reading::passed_check, crate::proofs::Reading::again_check))]
fn check_one(message: &[u8], before: Span, section: Span) -> Result<(), Refusal>
    requires { WasRead outcome₁ message.now before }
    ensures { result ≡ check_of (outcome₁ (octets_in section message.now)) }
{
    if !stands_there(before, section) {
        identification::read(section.of(message))?;
    }
    Ok(())
}

// Section 3, in the same way: one function over the reader would ask for its contract as a parameter, in the place of these few lines.
#[tactic(auto, using(crate::proofs::Reading::refused_check, crate::proofs::Reading::passed_check, crate::proofs::Reading::again_check))]
fn check_three(message: &[u8], before: Span, section: Span) -> Result<(), Refusal>
    requires { WasRead outcome₃ message.now before }
    ensures { result ≡ check_of (outcome₃ (octets_in section message.now)) }
{
    if !stands_there(before, section) {
        grid::read(section.of(message))?;
    }
    Ok(())
}

// Whether a section is the one that stands at `before`; where that is nowhere, none does.
#[tactic(auto, unfolding(crate::specs::Messages::same_section))]
fn stands_there(before: Span, section: Span) -> bool
    ensures { result ≡ same_section before section }
{
    before.length != 0 && before == section
}

// The frame: section 0, the walk over the sections, the last four octets.
#[tactic(auto, using(crate::proofs::Clear::starts), unfolding(crate::specs::Messages::cut_message))]
fn cut_frame(message: &[u8]) -> Result<Fields, Refusal>
    ensures { told result ≡ cut_message message.now }
{
    check_start(message)?;
    let end = message.len() - 4;
    let right = octets::u32_at(message, end + 1) == END;
    walk_sections(octets::part_after(message, 0, end), right)
}

// 2, and 22 by the length or by section 0.
#[tactic(auto, unfolding(crate::specs::Messages::start_refusal, layout::specs::Outcomes::first_refusal))]
fn check_start(message: &[u8]) -> Result<(), Refusal>
    ensures { result ≡ start_refusal message.now }
{
    if 65536 < message.len() {
        return Err(Refusal::of(2, 0));
    }
    if message.len() < 20 {
        return Err(Refusal::of(22, 0));
    }
    if octets::u32_at(message, 1) != START {
        return Err(Refusal::of(22, 0));
    }
    if octets::u8_at(message, 8) != 2 {
        return Err(Refusal::of(22, 0));
    }
    if octets::u64_at(message, 9) != message.len() as u64 {
        return Err(Refusal::of(22, 0));
    }
    Ok(())
}

// From section to section, from octet 17 on. What stands before the last four octets is lent, so that no section can run into them; `right`
// says whether they are 7777. The walk goes on by as many octets as the section has, and by no count.
fn walk_sections(body: &[u8], right: bool) -> Result<Fields, Refusal>
    ensures { told result ≡ judged right 16 start_walk (cut_of section_step (drop 16 body.now)) }
{
    let mut last: u8 = 0;
    let mut force = no_sections();
    let mut found = no_fields();
    let mut at: usize = 16;
    while at < body.len() {
        let Some(end) = cutting::end_after(body, at) else {
            return Err(Refusal::of(23, 0));
        };
        let section = cutting::stretch(body, at, end);
        check_section(section, last, found.count)?;
        last = octets::u8_at(section, 5);
        let length = end - at;
        force = in_force(force, last, Span { before: at, length });
        if last == DATA {
            found.fields[found.count] = force;
            found.count += 1;
        }
        at = end;
    }
    check_end(last, right)?;
    Ok(found)
}

// 23 to 25 at a section which stands behind section `last` and behind `count` fields.
#[tactic(auto, unfolding(crate::specs::Walk::section_refusal, layout::specs::Outcomes::first_refusal))]
fn check_section(section: &[u8], last: u8, count: usize) -> Result<(), Refusal>
    ensures { result ≡ section_refusal last count section.now }
{
    if !may_follow(last, octets::u8_at(section, 5)) {
        return Err(Refusal::of(23, 0));
    }
    if other_six(section) {
        return Err(Refusal::of(24, 0));
    }
    if 15 < count {
        return Err(Refusal::of(25, 0));
    }
    Ok(())
}

// At the last four octets: 23 behind another section than a 7, then 25 where they are not 7777.
#[tactic(auto, unfolding(crate::specs::Walk::end_refusal, layout::specs::Outcomes::first_refusal))]
fn check_end(last: u8, right: bool) -> Result<(), Refusal>
    ensures { result ≡ end_refusal last right }
{
    if last != 7 {
        return Err(Refusal::of(23, 0));
    }
    if !right {
        return Err(Refusal::of(25, 0));
    }
    Ok(())
}

// Whether a section of number `next` may stand behind one of number `last`; before the first there is none, 0.
#[tactic(auto, unfolding(crate::specs::Walk::may_follow, layout::specs::Fields::between))]
fn may_follow(last: u8, next: u8) -> bool
    ensures { result ≡ may_follow last next }
{
    match last {
        7 => (2..=4).contains(&next),
        1 => (2..=3).contains(&next),
        _ => next as u32 == last as u32 + 1,
    }
}

// A section 6 other than 6 octets with 255.
#[tactic(auto, unfolding(crate::specs::Walk::other_six))]
fn other_six(section: &[u8]) -> bool
    ensures { result ≡ other_six section.now }
{
    octets::u8_at(section, 5) == 6 && !(section.len() == 6 && octets::u8_at(section, 6) == 255)
}

// The sections in force, with one more: 2 and 6 are passed over.
#[tactic(auto, unfolding(crate::specs::Walk::in_force))]
fn in_force(sections: Sections, number: u8, span: Span) -> Sections
    ensures { result ≡ in_force sections number span }
{
    let mut after = sections;
    match number {
        1 => after.one = span,
        3 => after.three = span,
        4 => after.four = span,
        5 => after.five = span,
        7 => after.seven = span,
        _ => {}
    }
    after
}

fn no_sections() -> Sections
    ensures { result ≡ no_sections }
{
    Sections {
        one: Span::NOWHERE,
        three: Span::NOWHERE,
        four: Span::NOWHERE,
        five: Span::NOWHERE,
        seven: Span::NOWHERE,
    }
}

fn no_fields() -> Fields
    ensures { told (Ok result) ≡ start_walk.found }
{
    let none = no_sections();
    Fields {
        count: 0,
        fields: [none; 16],
    }
}
