// 8: the fields are in their ranges, from the first to the last.
ghost use Rattle.std.specs.Prelude.{◌≡◌};
ghost use Rattle.octets.specs.Octets.{be_at};
ghost use Rattle.layout.specs.Fields.{after};
ghost use Rattle.layout.specs.Outcomes.{if_allowed, all_allowed};
ghost use Rattle.grid.specs.Blocks.{common, pole, poles, width_allowed};
ghost use Rattle.grid.specs.Templates.{fields₃, list_octets};

use crate::templates::{Template, has_list};
use layout::Refusal;

// Octets 1 to 14, 15 to 72, and the poles.
#[tactic(auto, using(crate::proofs::Reading::fields_checked), unfolding(layout::specs::Outcomes::and_check))]
pub(crate) fn check_fields(section: &[u8], template: Template) -> Result<(), Refusal>
    ensures { result ≡ all_allowed 3 (after 0 (fields₃ template (list_octets section.now))) section.now }
{
    layout::check_within(section, 3, 6, 0, 0)?;
    check_width(section)?;
    layout::check_within(section, 3, 12, 0, 2)?;
    check_common(section)?;
    check_poles(section, template)
}

fn check_width(section: &[u8]) -> Result<(), Refusal>
    ensures { result ≡ if_allowed 3 11 (width_allowed (be_at section.now 11 1)) }
{
    let width = octets::u8_at(section, 11);
    if width == 0 || has_list(width) {
        Ok(())
    } else {
        Err(Refusal::at(8, 3, 11))
    }
}

// Ni, Nj, subdivisions, La1, Lo1, La2 and Lo2.
#[tactic(auto, unfolding(layout::specs::Outcomes::all_allowed, layout::specs::Outcomes::and_check, layout::specs::Fields::placed, crate::specs::Blocks::common, crate::specs::Blocks::earth, crate::specs::Blocks::earth_size, crate::specs::Blocks::counts, crate::specs::Blocks::corners))]
fn check_common(section: &[u8]) -> Result<(), Refusal>
    ensures { result ≡ all_allowed 3 (after 14 common) section.now }
{
    layout::check_nonzero::<u32>(section, 3, 31)?;
    layout::check_nonzero::<u32>(section, 3, 35)?;
    layout::check_nonzero::<u32>(section, 3, 43)?;
    layout::check_present::<u32>(section, 3, 47)?;
    layout::check_present::<u32>(section, 3, 51)?;
    layout::check_present::<u32>(section, 3, 56)?;
    layout::check_present::<u32>(section, 3, 60)
}

#[tactic(auto, unfolding(layout::specs::Outcomes::all_allowed, layout::specs::Outcomes::and_check, layout::specs::Fields::placed, crate::specs::Blocks::pole, crate::specs::Blocks::poles))]
fn check_poles(section: &[u8], template: Template) -> Result<(), Refusal>
    ensures { result ≡ all_allowed 3 (after 72 (poles template)) section.now }
{
    match template {
        Template::LatLon => Ok(()),
        Template::Rotated | Template::Stretched => check_pole(section, 72),
        Template::StretchedAndRotated => {
            check_pole(section, 72)?;
            check_pole(section, 84)
        }
    }
}

// Latitude and longitude.
#[tactic(auto, unfolding(layout::specs::Outcomes::all_allowed, layout::specs::Outcomes::and_check, layout::specs::Fields::placed, crate::specs::Blocks::pole))]
fn check_pole(section: &[u8], end: u32) -> Result<(), Refusal>
    ensures { result ≡ all_allowed 3 (after end pole) section.now }
{
    let before = end as usize;
    layout::check_present::<u32>(section, 3, before + 1)?;
    layout::check_present::<u32>(section, 3, before + 5)
}
