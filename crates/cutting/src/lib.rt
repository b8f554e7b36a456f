// Octets cut one thing after the other: numbers in groups of seven bits, and sections by their own length octets.
#![tactic(auto)]

ghost use Rattle.std.specs.Prelude.{◌≡◌};
ghost use Rattle.cutting.specs.Numbers.{groups, leading_number};
ghost use Rattle.cutting.specs.Sections.{stretch, end_after};

// A number, and how many octets it takes.
#[derive(Clone, Copy, Debug, PartialEq, Eq)]
pub struct Number {
    pub value: u64,
    pub octets: usize,
}

// The number at the start of these octets, if one stands there.
#[tactic(auto, unfolding(crate::specs::Numbers::leading_number))]
pub fn leading_number(octets: &[u8]) -> Option<Number>
    ensures { result ≡ leading_number octets.now }
{
    let found = groups_of(octets)?;
    if 4294967296 < found.value {
        return None;
    }
    Some(found)
}

// At most five groups. The first may be 0; a later last one that is 0 would be a longer form.
fn groups_of(octets: &[u8]) -> Option<Number>
    ensures { result ≡ groups 5 octets.now }
{
    let first = *octets.first()? as u64;
    // Most numbers are one group, for which nothing is summed up.
    if first < 128 {
        return Some(Number {
            value: first,
            octets: 1,
        });
    }
    let mut value = first - 128;
    let mut scale: u64 = 128;
    for i in 1..5 {
        let group = *octets.get(i)? as u64;
        if group < 128 {
            if group == 0 {
                return None;
            }
            return Some(Number {
                value: value + scale * group,
                octets: i + 1,
            });
        }
        value += scale * (group - 128);
        scale *= 128;
    }
    None
}

// The index after the section that starts at index `start`, if one of 5 or more octets stands there within these octets.
#[tactic(auto, using(crate::proofs::Sections::end_by_size))]
pub fn end_after(octets: &[u8], start: usize) -> Option<usize>
    ensures { result ≡ end_after octets.now start }
{
    if octets.len() < start {
        return None;
    }
    let size = octets::u32_at(octets, start + 1);
    if size < 5 {
        return None;
    }
    let end = start + size as usize;
    if octets.len() < end {
        return None;
    }
    Some(end)
}

// The octets from index `start` up to index `end`, as far as they are there.
pub fn stretch(octets: &[u8], start: usize, end: usize) -> &[u8]
    ensures { result.now ≡ stretch octets.now start end }
{
    if end < start {
        return octets::part_after(octets, start, 0);
    }
    octets::part_after(octets, start, end - start)
}
