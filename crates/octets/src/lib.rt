// Numbers in the octets of a lent slice: big-endian, and sign and magnitude. Octets are counted from 1, as document 01
// does, and an octet that is not there counts as 0, so every public function takes every input.
#![tactic(auto)]

ghost use Rattle.std.specs.Prelude.{◌≡◌, cond, ◌-◌, ◌*◌, ◌^◌, ◌<◌, ◌≤◌, ltb, pos, neg_ℤ, take, drop};
ghost use Rattle.octets.specs.Octets.{part, be_at, sign_of, real_year};

// The N octets from octet `at` on, of which those that are not there are 0. Nearly always all of them are there: they are then taken at once.
#[tactic(auto, using(crate::proofs::Parts::all_there))]
pub fn part_at<const N: usize>(s: &[u8], at: usize) -> [u8; N]
    ensures { result ≡ part s.now at N }
{
    if at == 0 || s.len() < at || s.len() - (at - 1) < N {
        return part_by_octet(s, at);
    }
    let mut part = [0; N];
    part.copy_from_slice(&s[at - 1..at - 1 + N]);
    part
}

// The same octet by octet, in a function of its own: it is seldom called, and would be copied to wherever a number is read.
#[cold]
#[inline(never)]
#[tactic(auto, using(crate::proofs::Parts::more), unfolding(crate::specs::Octets::part))]
fn part_by_octet<const N: usize>(s: &[u8], at: usize) -> [u8; N]
    ensures { result ≡ part s.now at N }
{
    let mut part = [0; N];
    // No slice has an octet of the greatest place, so that a sum that would be above it may stay at it.
    for i in 0..N {
        part[i] = u8_at(s, at.saturating_add(i));
    }
    part
}

// The number in octet `at`.
#[tactic(auto, using(crate::proofs::Parts::octet_number))]
pub fn u8_at(s: &[u8], at: usize) -> u8
    ensures { result ≡ be_at s.now at 1 }
{
    if at == 0 {
        return 0;
    }
    s.get(at - 1).copied().unwrap_or(0)
}

// The number in the two octets from octet `at` on. This and the next two are a line each over `part_at`: a caller names how many octets, as
// document 01 does, and one function over the number's type would ask every caller for it.
#[tactic(auto, using(crate::proofs::Parts::of_two))]
pub fn u16_at(s: &[u8], at: usize) -> u16
    ensures { result ≡ be_at s.now at 2 }
{
    u16::from_be_bytes(part_at(s, at))
}

// The number in the four octets from octet `at` on.
#[tactic(auto, using(crate::proofs::Parts::of_four))]
pub fn u32_at(s: &[u8], at: usize) -> u32
    ensures { result ≡ be_at s.now at 4 }
{
    u32::from_be_bytes(part_at(s, at))
}

// The number in the eight octets from octet `at` on.
#[tactic(auto, using(crate::proofs::Parts::of_eight))]
pub fn u64_at(s: &[u8], at: usize) -> u64
    ensures { result ≡ be_at s.now at 8 }
{
    u64::from_be_bytes(part_at(s, at))
}

// What a number of one octet says by sign and magnitude. This and the next two are a line each over `signed`, in the same way.
#[tactic(auto, using(crate::proofs::Signs::kept32), unfolding(crate::specs::Octets::sign_of))]
pub fn signed8(raw: u8) -> i32
    ensures { result ≡ sign_of 1 raw }
{
    signed(raw as u32, 0x80)
}

// The same of two octets.
#[tactic(auto, using(crate::proofs::Signs::kept32), unfolding(crate::specs::Octets::sign_of))]
pub fn signed16(raw: u16) -> i32
    ensures { result ≡ sign_of 2 raw }
{
    signed(raw as u32, 0x8000)
}

// The same of four octets.
#[tactic(auto, using(crate::proofs::Signs::kept32), unfolding(crate::specs::Octets::sign_of))]
pub fn signed32(raw: u32) -> i32
    ensures { result ≡ sign_of 4 raw }
{
    signed(raw, 0x8000_0000)
}

// The number by sign and magnitude in the two octets from octet `at` on.
#[tactic(auto, using(crate::proofs::Signs::kept32))]
pub fn signed16_at(s: &[u8], at: usize) -> i32
    ensures { result ≡ sign_of 2 (be_at s.now at 2) }
{
    signed16(u16_at(s, at))
}

// The same in the four octets from octet `at` on.
#[tactic(auto, using(crate::proofs::Signs::kept32))]
pub fn signed32_at(s: &[u8], at: usize) -> i32
    ensures { result ≡ sign_of 4 (be_at s.now at 4) }
{
    signed32(u32_at(s, at))
}

// Sign and magnitude for every octet count: below the weight of the top bit a number is its size, and from there on the
// size is what is left, to be negated.
fn signed(raw: u32, top: u32) -> i32
    requires { (raw < 2 * top) × (top ≤ 2 ^ 31) }
    ensures { result ≡ cond (ltb raw top) (pos raw) (neg_ℤ (pos (raw - top))) }
{
    if raw < top {
        raw as i32
    } else {
        -((raw - top) as i32)
    }
}

// The year that the two octets of a year and of its offset say, both by sign and magnitude.
pub fn real_year(year: u16, offset: u16) -> i32
    ensures { result ≡ real_year (sign_of 2 year) (sign_of 2 offset) }
{
    signed16(year) + 10000 * signed16(offset)
}

// Those very octets of the slice: the `width` octets after octet `end`, or as many of them as there are.
pub fn part_after(s: &[u8], end: usize, width: usize) -> &[u8]
    ensures { result.now ≡ take width (drop end s.now) }
{
    if s.len() <= end {
        return &s[..0];
    }
    if s.len() - end <= width {
        return &s[end..];
    }
    &s[end..end + width]
}
