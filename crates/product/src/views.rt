// The time ranges, the members and the coordinate values, as those very octets of the section, and where they stand: nowhere where
// the section is refused or has none.
ghost use Rattle.std.specs.Prelude.{◌≡◌, Some};
ghost use Rattle.product.specs.Views.{template_read, range_by, members_by, coordinates_by, range_span, member_span, coordinate_span, range_of, members_of, coordinates_of};

use crate::read;
use crate::templates::Template;
use layout::Span;

// The template by which a section is read, if it is.
#[tactic(auto, unfolding(layout::specs::Outcomes::if_read))]
fn template_read(section: &[u8]) -> Option<Template>
    ensures { result ≡ template_read section.now }
{
    read(section).ok()?;
    Template::try_from(octets::u16_at(section, 8)).ok()
}

impl Template {
    // The k-th of the time ranges, which have 12 octets each, behind the end of the interval.
    #[tactic(auto, unfolding(crate::specs::Views::range_by))]
    fn range_span(self, section: &[u8], k: usize) -> Span
        ensures { result ≡ range_by (Some self) section.now k }
    {
        if self.range_count(section) as usize <= k {
            return Span::NOWHERE;
        }
        Span::after(self.part_end() as usize + 12 + 12 * k, 12)
    }

    // The members, behind the time ranges.
    #[tactic(auto, unfolding(crate::specs::Views::members_by))]
    fn member_span(self, section: &[u8]) -> Span
        ensures { result ≡ members_by (Some self) section.now }
    {
        let end = self.ranges_end(self.range_count(section)) as usize;
        Span::after(end, self.member_count(section) as usize)
    }

    // The coordinate values, behind the members.
    #[tactic(auto, unfolding(crate::specs::Views::coordinates_by))]
    fn coordinate_span(self, section: &[u8]) -> Span
        ensures { result ≡ coordinates_by (Some self) section.now }
    {
        let end = self.ranges_end(self.range_count(section)) as usize;
        let members = self.member_count(section) as usize;
        let coordinates = octets::u16_at(section, 6) as usize;
        Span::after(end + members, 4 * coordinates)
    }
}

// The k-th time range (from 0), nowhere from n up.
#[tactic(auto, unfolding(crate::specs::Views::range_by))]
pub fn range_span(section: &[u8], k: usize) -> Span
    ensures { result ≡ range_span section.now k }
{
    template_read(section).map_or(Span::NOWHERE, |t| t.range_span(section, k))
}

// The numbers of a cluster's members, an octet each.
#[tactic(auto, unfolding(crate::specs::Views::members_by))]
pub fn member_span(section: &[u8]) -> Span
    ensures { result ≡ member_span section.now }
{
    template_read(section).map_or(Span::NOWHERE, |t| t.member_span(section))
}

// The coordinate values, four octets each.
#[tactic(auto, unfolding(crate::specs::Views::coordinates_by))]
pub fn coordinate_span(section: &[u8]) -> Span
    ensures { result ≡ coordinate_span section.now }
{
    template_read(section).map_or(Span::NOWHERE, |t| t.coordinate_span(section))
}

pub fn time_range(section: &[u8], k: usize) -> &[u8]
    ensures { result.now ≡ range_of section.now k }
{
    range_span(section, k).of(section)
}

pub fn member_list(section: &[u8]) -> &[u8]
    ensures { result.now ≡ members_of section.now }
{
    member_span(section).of(section)
}

pub fn coordinate_list(section: &[u8]) -> &[u8]
    ensures { result.now ≡ coordinates_of section.now }
{
    coordinate_span(section).of(section)
}
