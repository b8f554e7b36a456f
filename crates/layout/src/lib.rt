// What the readers of sections share: refusals, the checks of a section and of its fields, numbers that may be missing, the time that stands
// in two sections, and where a part of one stands. Octets are counted from 1; `end` is the octet after which a block of fields stands. Every
// function takes every input.
#![tactic(auto)]

ghost use Rattle.std.specs.Prelude.{◌≡◌, ◌<◌, ℕ, refl};
ghost use Rattle.std.proofs.Common.{lit<};
ghost use Rattle.octets.specs.Octets.{be_at, sign_of, all_ones};
ghost use Rattle.layout.specs.Fields.{between, not_ones, not_zero, means, unsigned, signed, or_missing, after, values_of};
ghost use Rattle.layout.specs.Outcomes.{refusal, head_reasons, opening_reasons, total_reasons, first_refusal, if_allowed, all_allowed};
ghost use Rattle.layout.specs.Missing.{in32, in_signed};
ghost use Rattle.layout.specs.Time.{time, time_in};
ghost use Rattle.layout.specs.Spans.{span_after, octets_in};

// Why something was refused: document 01's number, the section asked for, and the place. The number stays a number: document 01 has no names
// for its refusals, and what is told of one to C, in texts and in the tables of specs/Refusals.antt is the number.
#[derive(Clone, Copy, PartialEq, Eq)]
pub struct Refusal {
    pub number: u8,
    pub section: u8,
    pub place: usize,
}

impl Refusal {
    // One of no place.
    pub fn of(number: u8, section: u8) -> Self
        ensures { result ≡ refusal number section 0 }
    {
        Self {
            number,
            section,
            place: 0,
        }
    }

    pub fn at(number: u8, section: u8, place: usize) -> Self
        ensures { result ≡ refusal number section place }
    {
        Self {
            number,
            section,
            place,
        }
    }
}

// ---- the checks of a lent section: each refuses it by the first of its reasons that holds

// 1 to 4, which every section has.
#[tactic(auto, unfolding(crate::specs::Outcomes::first_refusal))]
pub fn check_head(s: &[u8], section: u8) -> Result<(), Refusal>
    ensures { result ≡ first_refusal section (head_reasons section s.now) }
{
    if s.len() < 5 {
        return Err(Refusal::of(1, section));
    }
    if 65536 < s.len() {
        return Err(Refusal::of(2, section));
    }
    if octets::u32_at(s, 1) as usize != s.len() {
        return Err(Refusal::of(3, section));
    }
    if octets::u8_at(s, 5) != section {
        return Err(Refusal::of(4, section));
    }
    Ok(())
}

// 1 to 4, and 5 for a section of fewer than `least` octets.
#[tactic(auto, using(crate::proofs::Outcomes::opening_by_head), unfolding(crate::specs::Outcomes::and_check))]
pub fn check_opening(s: &[u8], section: u8, least: usize) -> Result<(), Refusal>
    ensures { result ≡ first_refusal section (opening_reasons section least s.now) }
{
    check_head(s, section)?;
    if s.len() < least {
        return Err(Refusal::of(5, section));
    }
    Ok(())
}

// 11: the section is shorter than its total, and the place is the first octet that is not there. 21: it is longer, and the place is the
// first octet beyond. Neither sum can pass a usize, since the other side is greater. Whether it has its total is tested first: nearly
// every section that comes this far has it.
#[tactic(auto, unfolding(crate::specs::Outcomes::first_refusal, crate::specs::Outcomes::total_reasons))]
pub fn check_total(s: &[u8], section: u8, total: usize) -> Result<(), Refusal>
    ensures { result ≡ first_refusal section (total_reasons total s.now) }
{
    if s.len() == total {
        return Ok(());
    }
    if s.len() < total {
        return Err(Refusal::at(11, section, s.len() + 1));
    }
    Err(Refusal::at(21, section, total + 1))
}

// ---- numbers of one, two and four octets

// A number of so many octets; all ones may say that it is missing.
pub trait Width {
    ghost OCTETS: { ℕ };

    ghost ONES: { ℕ };

    const OCTETS: usize;

    const ONES: u32;

    // The one from octet `at` on.
    fn at(s: &[u8], at: usize) -> u32
        ensures { result ≡ be_at s.now at OCTETS };

    // The same by sign and magnitude.
    fn signed_at(s: &[u8], at: usize) -> i32
        ensures { result ≡ sign_of OCTETS (be_at s.now at OCTETS) };

    ghost some: { 0 < OCTETS };

    ghost ones: { ONES ≡ all_ones OCTETS };
}

impl Width for u8 {
    ghost OCTETS = { 1 };

    ghost ONES = { 0xff };

    const OCTETS: usize = 1;

    const ONES: u32 = 0xff;

    ghost some = { lit< tt };

    ghost ones = { refl };

    fn at(s: &[u8], at: usize) -> u32 {
        octets::u8_at(s, at) as u32
    }

    #[tactic(auto, using(octets::proofs::Signs::kept32))]
    fn signed_at(s: &[u8], at: usize) -> i32 {
        octets::signed8(octets::u8_at(s, at))
    }
}

impl Width for u16 {
    ghost OCTETS = { 2 };

    ghost ONES = { 0xffff };

    const OCTETS: usize = 2;

    const ONES: u32 = 0xffff;

    ghost some = { lit< tt };

    ghost ones = { refl };

    fn at(s: &[u8], at: usize) -> u32 {
        octets::u16_at(s, at) as u32
    }

    #[tactic(auto, using(octets::proofs::Signs::kept32))]
    fn signed_at(s: &[u8], at: usize) -> i32 {
        octets::signed16_at(s, at)
    }
}

impl Width for u32 {
    ghost OCTETS = { 4 };

    ghost ONES = { 0xffff_ffff };

    const OCTETS: usize = 4;

    const ONES: u32 = 0xffff_ffff;

    ghost some = { lit< tt };

    ghost ones = { refl };

    fn at(s: &[u8], at: usize) -> u32 {
        octets::u32_at(s, at)
    }

    #[tactic(auto, using(octets::proofs::Signs::kept32))]
    fn signed_at(s: &[u8], at: usize) -> i32 {
        octets::signed32_at(s, at)
    }
}

// A number that may be missing.
pub fn or_missing<T: Width>(s: &[u8], at: usize) -> Option<u32>
    ensures { in32 result ≡ means (or_missing unsigned) T.OCTETS (be_at s.now at T.OCTETS) }
{
    let x = T::at(s, at);
    if x == T::ONES { None } else { Some(x) }
}

// The same by sign and magnitude.
pub fn signed_or_missing<T: Width>(s: &[u8], at: usize) -> Option<i32>
    ensures { in_signed result ≡ means (or_missing signed) T.OCTETS (be_at s.now at T.OCTETS) }
{
    if T::at(s, at) == T::ONES {
        None
    } else {
        Some(T::signed_at(s, at))
    }
}

// ---- the checks of a field: 8 at its first octet where its number is out of its range

// An octet from `low` to `high`.
#[tactic(auto, unfolding(crate::specs::Fields::between))]
pub fn check_within(s: &[u8], section: u8, at: usize, low: u8, high: u8) -> Result<(), Refusal>
    ensures { result ≡ if_allowed section at (between low high (be_at s.now at 1)) }
{
    check(section, at, (low..=high).contains(&octets::u8_at(s, at)))
}

// A number that is not missing. Copied into its callers, most of which have tested that its octets are there.
#[inline(always)]
pub fn check_present<T: Width>(s: &[u8], section: u8, at: usize) -> Result<(), Refusal>
    ensures { result ≡ if_allowed section at (not_ones T.OCTETS (be_at s.now at T.OCTETS)) }
{
    check(section, at, T::at(s, at) != T::ONES)
}

// A number that is not 0.
pub fn check_nonzero<T: Width>(s: &[u8], section: u8, at: usize) -> Result<(), Refusal>
    ensures { result ≡ if_allowed section at (not_zero (be_at s.now at T.OCTETS)) }
{
    check(section, at, T::at(s, at) != 0)
}

fn check(section: u8, at: usize, allowed: bool) -> Result<(), Refusal>
    ensures { result ≡ if_allowed section at allowed }
{
    if allowed {
        Ok(())
    } else {
        Err(Refusal::at(8, section, at))
    }
}

// ---- the time that stands in sections 1 and 4, behind its year

#[derive(Clone, Copy, PartialEq, Eq)]
pub struct Time {
    pub month: u8,
    pub day: u8,
    pub hour: u8,
    pub minute: u8,
    pub second: u8,
}

#[tactic(auto, unfolding(crate::specs::Fields::values_of, crate::specs::Fields::placed, crate::specs::Time::time, crate::specs::Time::time_in))]
pub fn read_time(s: &[u8], end: u32) -> Time
    ensures { time_in result ≡ values_of (after end time) s.now }
{
    let before = end as usize;
    Time {
        month: octets::u8_at(s, before + 1),
        day: octets::u8_at(s, before + 2),
        hour: octets::u8_at(s, before + 3),
        minute: octets::u8_at(s, before + 4),
        second: octets::u8_at(s, before + 5),
    }
}

#[tactic(auto, unfolding(crate::specs::Outcomes::all_allowed, crate::specs::Outcomes::and_check, crate::specs::Fields::placed, crate::specs::Time::time))]
pub fn check_time(s: &[u8], section: u8, end: u32) -> Result<(), Refusal>
    ensures { result ≡ all_allowed section (after end time) s.now }
{
    let before = end as usize;
    check_within(s, section, before + 1, 1, 12)?;
    check_within(s, section, before + 2, 1, 31)?;
    check_within(s, section, before + 3, 0, 23)?;
    check_within(s, section, before + 4, 0, 59)?;
    check_within(s, section, before + 5, 0, 59)
}

// ---- the parts that a caller is shown

// Where a part stands: how many octets are before it, and how many it has. One without octets stands nowhere: 0 and 0.
#[derive(Clone, Copy, PartialEq, Eq)]
pub struct Span {
    pub before: usize,
    pub length: usize,
}

impl Span {
    pub const NOWHERE: Span = Span {
        before: 0,
        length: 0,
    };

    // So many octets behind octet `before`.
    pub fn after(before: usize, length: usize) -> Self
        ensures { result ≡ span_after before length }
    {
        if length == 0 {
            return Self::NOWHERE;
        }
        Self { before, length }
    }

    // Those very octets of the slice, or as many of them as there are.
    pub fn of(self, s: &[u8]) -> &[u8]
        ensures { result.now ≡ octets_in self s.now }
    {
        octets::part_after(s, self.before, self.length)
    }
}
