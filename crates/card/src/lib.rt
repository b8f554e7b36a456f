// A card: what decides which field of a slot is the newer one, and the one order of cards.
#![tactic(auto)]

ghost use Rattle.std.specs.Prelude.{◌≡◌};
ghost use Rattle.octets.specs.Octets.{part};
ghost use Rattle.card.specs.Key.{less_card};

// The real reference time, the issue number, and octets 8-34 of section 4. Cards are compared field by field, so that the first field
// in which they differ decides: the fields stand in the order of weight.
#[derive(Clone, Copy, PartialEq, Eq, PartialOrd, Ord)]
pub struct Card {
    pub year: i32,
    pub month: u8,
    pub day: u8,
    pub hour: u8,
    pub minute: u8,
    pub second: u8,
    pub issue: u32,
    pub product: [u8; 27],
}

// The 27 octets of a product, from octet `at` on: in section 4 they start at octet 8.
pub fn product_at(s: &[u8], at: usize) -> [u8; 27]
    ensures { result ≡ part s.now at 27 }
{
    octets::part_at(s, at)
}

// Whether a is less than b, as the order of the fields has it.
#[tactic(auto, using(crate::proofs::Derived::derived_less))]
pub fn less(a: Card, b: Card) -> bool
    ensures { result ≡ less_card a b }
{
    a < b
}
