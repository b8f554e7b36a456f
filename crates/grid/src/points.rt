// 13: the points are Ni x Nj, or, with bit 8 of the scanning mode, octets 7-10 as they stand, or the sum of the list.
ghost use Rattle.std.specs.Prelude.{◌≡◌, ◌/◌, ◌^◌, ◌<◌, ◌≤◌, length, true};
ghost use Rattle.layout.specs.Outcomes.{first_refusal};
ghost use Rattle.grid.specs.Agreement.{agreed};
ghost use Rattle.grid.specs.Templates.{total};
ghost use Rattle.grid.specs.Points.{sum_of, points_without_list, points_of, points_reasons};

use crate::templates::{Template, base_end};
use layout::{Refusal, Width};

// Of a section that has passed the checks before this one.
#[tactic(auto, unfolding(layout::specs::Outcomes::first_refusal))]
pub(crate) fn check_points(section: &[u8], template: Template) -> Result<(), Refusal>
    requires small { length section.now ≤ 65536 }
    requires agree { agreed section.now ≡ true }
    requires whole { length section.now ≡ total template section.now }
    ensures { result ≡ first_refusal 3 (points_reasons template section.now) }
{
    if octets::u32_at(section, 7) as u64 == points_of(section, template) {
        Ok(())
    } else {
        Err(Refusal::of(13, 3))
    }
}

// What octets 7-10 have to be: the sum of the list, whose numbers have as many octets as octet 11 says, or what they have to be without one.
#[tactic(auto, using(crate::proofs::Listed::summed, crate::proofs::Listed::not_summed, crate::proofs::Widths::base_small))]
fn points_of(section: &[u8], template: Template) -> u64
    requires small { length section.now ≤ 65536 }
    requires agree { agreed section.now ≡ true }
    requires whole { length section.now ≡ total template section.now }
    ensures { result ≡ points_of template section.now }
{
    let list = &section[base_end(template)..];
    match octets::u8_at(section, 11) {
        1 => list_sum::<u8>(list),
        2 => list_sum::<u16>(list),
        4 => list_sum::<u32>(list),
        _ => points_without_list(section),
    }
}

// Octets 7-10 themselves where bit 8 of the scanning mode, the lowest, is set: offset rows may then have fewer points than Ni.
// Else Ni x Nj, below 2^64 as a product of two numbers of 32 bits.
#[tactic(auto, unfolding(crate::specs::Points::points_without_list))]
fn points_without_list(section: &[u8]) -> u64
    ensures { result ≡ points_without_list section.now }
{
    if octets::u8_at(section, 72) % 2 == 1 {
        return octets::u32_at(section, 7) as u64;
    }
    let ni = octets::u32_at(section, 31);
    let nj = octets::u32_at(section, 35);
    (ni as u64) * (nj as u64)
}

// The sum of the numbers of a list, each below 2^32.
#[tactic(auto, using(crate::proofs::Listed::none_summed, crate::proofs::Listed::one_more))]
fn list_sum<T: Width>(list: &[u8]) -> u64
    requires { length list.now < 2 ^ 32 }
    ensures { result ≡ sum_of 0 T.OCTETS list.now (length list.now / T.OCTETS) }
{
    let mut sum: u64 = 0;
    for number in list.chunks_exact(T::OCTETS) {
        sum += T::at(number, 1) as u64;
    }
    sum
}
