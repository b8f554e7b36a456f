// Section 3: the grid, templates 3.0 to 3.3, and the list behind it.
#![tactic(auto)]

ghost use Rattle.std.specs.Prelude.{◌≡◌, IfOk};
ghost use Rattle.layout.specs.Outcomes.{told};
ghost use Rattle.grid.specs.Blocks.{values_in};
ghost use Rattle.grid.specs.Templates.{template_named, values₃};
ghost use Rattle.grid.specs.Section3.{outcome₃};

use agreement::agrees;
use fields::check_fields;
use layout::Refusal;
use points::check_points;
use templates::{base_end, total_of};

mod agreement;
mod blocks;
mod fields;
mod points;
mod templates;
mod views;

pub use blocks::{Common, Earth, EarthSize, Grid, Pole, Poles};
pub use templates::Template;
pub use views::{list, list_span};

// Reads a lent section 3, or refuses it with 1 to 8, 10, 11, 21 or 13.
pub fn read(section: &[u8]) -> Result<Grid, Refusal>
    ensures { told values_in result ≡ outcome₃ section.now }
{
    let template = accept(section)?;
    Ok(Grid::of_section(section, template))
}

// The template that a section follows, or why it is refused. The list is summed up only where the section has its total.
// Copied into its two callers, as its `inline(always)` asks: what it tests of the length then holds where `read` reads the record, and no octet's
// place is tested again.
#[tactic(auto, using(crate::proofs::Reading::read_in_steps, crate::proofs::Reading::listed_numbered, layout::proofs::Outcomes::passed_small, layout::proofs::Outcomes::passed_whole))]
#[inline(always)]
fn accept(section: &[u8]) -> Result<Template, Refusal>
    ensures outcome { told (λ template. values₃ template section.now) result ≡ outcome₃ section.now }
    ensures named { IfOk result (λ template. template ≡ template_named section.now) }
{
    layout::check_opening(section, 3, 14)?;
    let template = Template::try_from(octets::u16_at(section, 13))?;
    if section.len() < base_end(template) {
        return Err(Refusal::of(7, 3));
    }
    check_fields(section, template)?;
    if !agrees(section) {
        return Err(Refusal::of(10, 3));
    }
    layout::check_total(section, 3, total_of(section, template))?;
    check_points(section, template)?;
    Ok(template)
}
