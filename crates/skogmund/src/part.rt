// Where a part of a section stands: C cannot be handed a view of it.
ghost use Rattle.std.specs.Prelude.{◌≡◌, ◌^◌, ◌<◌};
ghost use Rattle.lent.specs.Lent.{done};
ghost use Rattle.skogmund.specs.Parts.{part_span, first_octet, part_told};

use layout::Span;

// The first octet of a part (from 1) and its length, in the first two places. C passes the part as a number.
pub fn skogmund_part(part: u8, s: &[u8], k: u64, span: &mut [u64]) -> u64
    ensures { done result span.new ≡ part_told part s.now k span.old }
{
    let found = span_of(part, s, k as usize);
    let numbers = [first_octet(found), found.length as u64];
    if !lent::numbers(span, &numbers) {
        return crate::NO_ROOM;
    }
    0
}

fn span_of(part: u8, s: &[u8], k: usize) -> Span
    ensures { result ≡ part_span part s.now k }
{
    match part {
        1 => grid::list_span(s),
        2 => product::range_span(s, k),
        3 => product::member_span(s),
        4 => product::coordinate_span(s),
        _ => Span::NOWHERE,
    }
}

// Octets are counted from 1, and 0 says that there is none. A part is within a slice, which has fewer than 2^63 octets.
pub(crate) fn first_octet(x: Span) -> u64
    requires { x.before < 2 ^ 63 }
    ensures { result ≡ first_octet x }
{
    if x.length == 0 {
        return 0;
    }
    x.before as u64 + 1
}
