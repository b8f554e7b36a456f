// Section 1: where a field comes from and its reference time.
#![tactic(auto)]

ghost use Rattle.std.specs.Prelude.{◌≡◌};
ghost use Rattle.layout.specs.Fields.{after};
ghost use Rattle.layout.specs.Outcomes.{told, all_allowed};
ghost use Rattle.identification.specs.Section1.{outcome₁, template_of, fields₁, total, values₁, values_in};
ghost use Rattle.identification.specs.Means.{year_meant, number_meant, calendar_meant, offset_meant, real_year_meant};

use layout::{Refusal, Time};

// How a section 1 goes on after octet 21: not at all, or by template 1.0, 1.1 or 1.2. No Option of three: a section of 21 octets is one of
// four layouts on the same footing.
#[derive(Clone, Copy, PartialEq, Eq)]
pub enum Template {
    None,
    Calendar,
    Offset,
    CalendarAndOffset,
}

// Every field once, and the real year beside year and offset. A field that the template lacks is None.
#[derive(Clone, Copy, PartialEq, Eq)]
pub struct Identification {
    pub length: u32,
    pub number: u8,
    pub centre: u16,
    pub sub_centre: u16,
    pub master_version: u8,
    pub local_version: u8,
    pub significance: u8,
    pub year: i32,
    pub time: Time,
    pub status: u8,
    pub data_type: u8,
    pub template: Option<u16>,
    pub calendar: Option<u8>,
    pub offset: Option<i32>,
    pub real_year: i32,
}

// Reads a lent section 1, or refuses it with 1 to 8 or 21.
pub fn read(section: &[u8]) -> Result<Identification, Refusal>
    ensures { told values_in result ≡ outcome₁ section.now }
{
    let template = accept(section)?;
    Ok(record_of(section, template))
}

// The template that a section follows, or why it is refused.
#[tactic(auto, using(crate::proofs::Reading::read_in_steps))]
fn accept(section: &[u8]) -> Result<Template, Refusal>
    ensures { told (λ template. values₁ template section.now) result ≡ outcome₁ section.now }
{
    layout::check_opening(section, 1, 21)?;
    let template = template_of(section)?;
    let total = total_of(template);
    if section.len() < total {
        return Err(Refusal::of(7, 1));
    }
    check_fields(section, template)?;
    layout::check_total(section, 1, total)?;
    Ok(template)
}

// 5: 22 octets have half of the template's number, which is octets 22-23; 21 octets have no template.
#[tactic(auto, using(crate::proofs::Reading::unlisted), unfolding(crate::specs::Section1::template_of, crate::specs::Section1::listed_template))]
fn template_of(section: &[u8]) -> Result<Template, Refusal>
    ensures { result ≡ template_of section.now }
{
    if section.len() == 22 {
        return Err(Refusal::of(5, 1));
    }
    if section.len() == 21 {
        return Ok(Template::None);
    }
    match octets::u16_at(section, 22) {
        0 => Ok(Template::Calendar),
        1 => Ok(Template::Offset),
        2 => Ok(Template::CalendarAndOffset),
        _ => Err(Refusal::of(6, 1)),
    }
}

fn total_of(template: Template) -> usize
    ensures { result ≡ total template }
{
    match template {
        Template::None => 21,
        Template::Calendar => 24,
        Template::Offset => 25,
        Template::CalendarAndOffset => 26,
    }
}

// 8: year, time and offset.
#[tactic(auto, using(crate::proofs::Reading::fields_checked), unfolding(layout::specs::Outcomes::and_check, layout::specs::Outcomes::all_allowed, layout::specs::Fields::placed))]
fn check_fields(section: &[u8], template: Template) -> Result<(), Refusal>
    ensures { result ≡ all_allowed 1 (after 0 (fields₁ template)) section.now }
{
    layout::check_present::<u16>(section, 1, 13)?;
    layout::check_time(section, 1, 14)?;
    match template {
        Template::None | Template::Calendar => Ok(()),
        Template::Offset => layout::check_present::<u16>(section, 1, 24),
        Template::CalendarAndOffset => layout::check_present::<u16>(section, 1, 25),
    }
}

// The record of a section that follows its template.
#[tactic(auto, using(crate::proofs::Reading::values_meant, octets::proofs::Signs::kept32), unfolding(crate::specs::Section1::values_in))]
fn record_of(section: &[u8], template: Template) -> Identification
    ensures { values_in result ≡ values₁ template section.now }
{
    Identification {
        length: octets::u32_at(section, 1),
        number: octets::u8_at(section, 5),
        centre: octets::u16_at(section, 6),
        sub_centre: octets::u16_at(section, 8),
        master_version: octets::u8_at(section, 10),
        local_version: octets::u8_at(section, 11),
        significance: octets::u8_at(section, 12),
        year: year_of(section, template),
        time: layout::read_time(section, 14),
        status: octets::u8_at(section, 20),
        data_type: octets::u8_at(section, 21),
        template: number_of(section, template),
        calendar: calendar_of(section, template),
        offset: offset_of(section, template),
        real_year: real_year_of(section, template),
    }
}

// Octets 13-14: unsigned without an offset, signed with one.
fn year_of(section: &[u8], template: Template) -> i32
    ensures { result ≡ year_meant template section.now }
{
    match template {
        Template::None | Template::Calendar => octets::u16_at(section, 13) as i32,
        Template::Offset | Template::CalendarAndOffset => octets::signed16_at(section, 13),
    }
}

// Octets 22-23.
fn number_of(section: &[u8], template: Template) -> Option<u16>
    ensures { result ≡ number_meant template section.now }
{
    match template {
        Template::None => None,
        _ => Some(octets::u16_at(section, 22)),
    }
}

// Octet 24 of 1.0 and 1.2.
fn calendar_of(section: &[u8], template: Template) -> Option<u8>
    ensures { result ≡ calendar_meant template section.now }
{
    match template {
        Template::Calendar | Template::CalendarAndOffset => Some(octets::u8_at(section, 24)),
        _ => None,
    }
}

// Octets 24-25 of 1.1, and 25-26 of 1.2.
fn offset_of(section: &[u8], template: Template) -> Option<i32>
    ensures { result ≡ offset_meant template section.now }
{
    match template {
        Template::Offset => Some(octets::signed16_at(section, 24)),
        Template::CalendarAndOffset => Some(octets::signed16_at(section, 25)),
        _ => None,
    }
}

// Without an offset the year itself.
fn real_year_of(section: &[u8], template: Template) -> i32
    ensures { result ≡ real_year_meant template section.now }
{
    let year = octets::u16_at(section, 13);
    match template {
        Template::None | Template::Calendar => year as i32,
        Template::Offset => octets::real_year(year, octets::u16_at(section, 24)),
        Template::CalendarAndOffset => octets::real_year(year, octets::u16_at(section, 25)),
    }
}
