// Section 4: the product, by templates 4.0, 4.1, 4.4, 4.5, 4.8, 4.9, 4.11, 4.14 and 4.46. Every function takes every input.
#![tactic(auto)]

ghost use Rattle.std.specs.Prelude.{◌≡◌};
ghost use Rattle.layout.specs.Outcomes.{told};
ghost use Rattle.product.specs.Blocks.{values_in};
ghost use Rattle.product.specs.Section4.{as_template, outcome₄};

use layout::Refusal;

mod blocks;
mod checks;
mod templates;
mod views;

pub use blocks::{
    AerosolPart, ClusterPart, EnsemblePart, Forecast, IntervalEnd, Parameter, Part,
    ProbabilityPart, Process, Product, Scaled, Surface,
};
pub use templates::{PartKind, Template};
pub use views::{
    coordinate_list, coordinate_span, member_list, member_span, range_span, time_range,
};

// Reads a lent section 4, or refuses it with 1 to 9, 11 or 21.
#[tactic(auto, using(crate::proofs::ByChecks::section4_by_checks))]
pub fn read(section: &[u8]) -> Result<Product, Refusal>
    ensures { told values_in result ≡ outcome₄ section.now }
{
    layout::check_opening(section, 4, 9)?;
    let template = Template::try_from(octets::u16_at(section, 8))?;
    template.read(section)
}

impl Template {
    // The rest of the reading, once the template is known.
    #[tactic(auto, using(crate::proofs::ByChecks::template_by_checks))]
    fn read(self, section: &[u8]) -> Result<Product, Refusal>
        ensures { told values_in result ≡ as_template self.kind self.timed section.now }
    {
        if section.len() < self.total(1, 0, 0) {
            return Err(Refusal::of(7, 4));
        }
        self.check_fields(section)?;
        let ranges = self.range_count(section);
        if self.timed && ranges == 0 {
            return Err(Refusal::of(9, 4));
        }
        let members = self.member_count(section);
        let coordinates = octets::u16_at(section, 6);
        layout::check_total(section, 4, self.total(ranges, members, coordinates))?;
        Ok(self.record_of(section))
    }
}
