// 10: the width, Ni, Nj, Di, Dj and octet 12 agree.
ghost use Rattle.std.specs.Prelude.{◌≡◌};
ghost use Rattle.grid.specs.Agreement.{missing_with, agreed_without_list, agreed_with_list, agreed};

use crate::templates::{has_list, missing};

#[tactic(auto, unfolding(crate::specs::Agreement::agreed))]
pub(crate) fn agrees(section: &[u8]) -> bool
    ensures { result ≡ agreed section.now }
{
    let width = octets::u8_at(section, 11);
    if width == 0 {
        return agrees_without_list(section);
    }
    has_list(width) && agrees_with_list(section)
}

// Ni and Nj both present, octet 12 is 0.
#[tactic(auto, unfolding(crate::specs::Agreement::agreed_without_list))]
fn agrees_without_list(section: &[u8]) -> bool
    ensures { result ≡ agreed_without_list section.now }
{
    octets::u8_at(section, 12) == 0 && !missing(section, 31) && !missing(section, 35)
}

// Exactly one of Ni and Nj missing, its increment (Di for Ni) missing too, octet 12 is 1 or 2.
#[tactic(auto, unfolding(crate::specs::Agreement::agreed_with_list, layout::specs::Fields::between))]
fn agrees_with_list(section: &[u8]) -> bool
    ensures { result ≡ agreed_with_list section.now }
{
    (1..=2).contains(&octets::u8_at(section, 12))
        && (missing_with(section, 31, 64, 35) || missing_with(section, 35, 68, 31))
}

// The count at octet `absent` is missing and its increment too, and the count at octet `counted` is not.
#[tactic(auto, unfolding(crate::specs::Agreement::missing_with))]
fn missing_with(section: &[u8], absent: usize, increment: usize, counted: usize) -> bool
    ensures { result ≡ missing_with absent increment counted section.now }
{
    missing(section, absent) && missing(section, increment) && !missing(section, counted)
}
