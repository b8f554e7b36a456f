// The templates of section 3: the octet at which each one's base ends, the list behind it, and the total.
ghost use Rattle.std.specs.Prelude.{◌≡◌, ◌^◌, ◌<◌};
ghost use Rattle.octets.specs.Octets.{be_at};
ghost use Rattle.grid.specs.Blocks.{has_list};
ghost use Rattle.grid.specs.Templates.{listed_template, base_end, is_missing, list_count, list_octets, total};

use crate::blocks::Grid;
use layout::Refusal;

// 3.0, 3.1, 3.2 and 3.3: latitude and longitude, rotated, stretched, or both.
#[derive(Clone, Copy, PartialEq, Eq)]
pub enum Template {
    LatLon,
    Rotated,
    Stretched,
    StretchedAndRotated,
}

// By its number, or 6.
impl TryFrom<u16> for Template {
    type Error = Refusal;

    ghost try_from_gives = { λ number result. result ≡ listed_template number };

    #[tactic(auto, using(crate::proofs::Reading::unlisted), unfolding(crate::specs::Templates::listed_template))]
    fn try_from(number: u16) -> Result<Self, Refusal> {
        match number {
            0 => Ok(Template::LatLon),
            1 => Ok(Template::Rotated),
            2 => Ok(Template::Stretched),
            3 => Ok(Template::StretchedAndRotated),
            _ => Err(Refusal::of(6, 3)),
        }
    }
}

// The last octet of a template's base.
pub(crate) fn base_end(template: Template) -> usize
    ensures { result ≡ base_end template }
{
    match template {
        Template::LatLon => Grid::END_3_0,
        Template::Rotated => Grid::END_3_1,
        Template::Stretched => Grid::END_3_2,
        Template::StretchedAndRotated => Grid::END_3_3,
    }
}

// Whether the numbers of a list can have so many octets.
#[tactic(auto, unfolding(crate::specs::Blocks::has_list))]
pub(crate) fn has_list(width: u8) -> bool
    ensures { result ≡ has_list width }
{
    matches!(width, 1 | 2 | 4)
}

// Whether the four octets from octet `at` on are all ones.
#[tactic(auto, using(crate::proofs::Missing::is_missing_none))]
pub(crate) fn missing(section: &[u8], at: usize) -> bool
    ensures { result ≡ is_missing (be_at section.now at 4) }
{
    layout::or_missing::<u32>(section, at).is_none()
}

// Nj numbers if Ni is missing, else Ni numbers.
#[tactic(auto, using(crate::proofs::Missing::ni_or_nj), unfolding(crate::specs::Templates::list_count))]
fn list_count(section: &[u8]) -> u32
    ensures { result ≡ list_count section.now }
{
    if octets::u8_at(section, 11) == 0 {
        return 0;
    }
    let ni = layout::or_missing::<u32>(section, 31);
    ni.unwrap_or(octets::u32_at(section, 35))
}

// The octets of a section's list, which its own numbers say.
pub(crate) fn list_octets(section: &[u8]) -> usize
    ensures octets { result ≡ list_octets section.now }
    ensures small { result < 2 ^ 40 }
{
    let width = octets::u8_at(section, 11);
    (width as usize) * (list_count(section) as usize)
}

// The octets of a section with its base and its list.
#[tactic(auto, using(crate::proofs::Widths::base_small))]
pub(crate) fn total_of(section: &[u8], template: Template) -> usize
    ensures { result ≡ total template section.now }
{
    base_end(template) + list_octets(section)
}
