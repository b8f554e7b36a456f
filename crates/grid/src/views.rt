// The list behind the base, as those very octets of the section, and where it stands.
ghost use Rattle.std.specs.Prelude.{◌≡◌};
ghost use Rattle.grid.specs.Views.{list_span, list₃};

use crate::accept;
use crate::templates::{base_end, list_octets};
use layout::Span;

// Where the list stands, which is nowhere where the section is refused or has no list.
#[tactic(auto, unfolding(crate::specs::Views::list_span, layout::specs::Outcomes::if_read))]
pub fn list_span(section: &[u8]) -> Span
    ensures { result ≡ list_span section.now }
{
    let Ok(template) = accept(section) else {
        return Span::NOWHERE;
    };
    Span::after(base_end(template), list_octets(section))
}

// The list's very octets.
pub fn list(section: &[u8]) -> &[u8]
    ensures { result.now ≡ list₃ section.now }
{
    list_span(section).of(section)
}
