// 8: the fields that have a range. These are the forecast time and the end of the interval.
ghost use Rattle.std.specs.Prelude.{◌≡◌};
ghost use Rattle.layout.specs.Fields.{after};
ghost use Rattle.layout.specs.Outcomes.{all_allowed};
ghost use Rattle.product.specs.Blocks.{interval};
ghost use Rattle.product.specs.Templates.{fields_in};

use crate::templates::Template;
use layout::Refusal;

impl Template {
    #[tactic(auto, using(crate::proofs::FieldsByBlock::allowed_is), unfolding(layout::specs::Outcomes::and_check))]
    pub(crate) fn check_fields(self, section: &[u8]) -> Result<(), Refusal>
        ensures { result ≡ all_allowed 4 (after 0 (fields_in self.kind self.timed section.now)) section.now }
    {
        layout::check_present::<u32>(section, 4, self.front_end() as usize + 8)?;
        if !self.timed {
            return Ok(());
        }
        check_end(section, self.part_end())
    }
}

// The same of the end of an interval.
#[tactic(auto, using(crate::proofs::ByChecks::end_by_checks), unfolding(layout::specs::Outcomes::and_check))]
fn check_end(section: &[u8], end: u16) -> Result<(), Refusal>
    ensures { result ≡ all_allowed 4 (after end interval) section.now }
{
    layout::check_present::<u16>(section, 4, end as usize + 1)?;
    layout::check_time(section, 4, end as u32 + 2)
}
