// A shelf of 64 slots, each of which keeps the greatest card that was put to it.
#![tactic(auto)]

ghost use Rattle.std.specs.Prelude.{◌≡◌};
ghost use Rattle.shelf.specs.Shelves.{slot_at, empty_shelf, put_of, join_shelf};

use card::Card;

// Each slot holds a card, or none. Slots are compared as std compares options: the empty one is below each that holds a card.
#[derive(Clone, Copy, PartialEq, Eq)]
pub struct Shelf {
    pub slots: [Option<Card>; 64],
}

// The shelf after a card was put to it, and whether its slot changed.
#[derive(Clone, Copy, PartialEq, Eq)]
pub struct PutDone {
    pub shelf: Shelf,
    pub changed: bool,
}

impl Shelf {
    pub fn empty() -> Shelf
        ensures { result ≡ empty_shelf }
    {
        Shelf { slots: [None; 64] }
    }

    // What a slot holds. There is nothing past the last.
    pub fn slot(self, i: usize) -> Option<Card>
        ensures { result ≡ slot_at self i }
    {
        *self.slots.get(i)?
    }

    // The slot keeps the greater card. A slot that is not there takes none.
    #[tactic(auto, using(crate::proofs::Laws::put_changed, crate::proofs::Laws::put_unchanged, crate::proofs::Slots::option_less, octets::proofs::Lists::unmapped))]
    pub fn put(self, slot: usize, card: Card) -> PutDone
        ensures { result ≡ put_of self slot card }
    {
        let new = Some(card);
        let changed = slot < 64 && self.slots[slot] < new;
        if !changed {
            return PutDone {
                shelf: self,
                changed,
            };
        }
        let mut after = self;
        after.slots[slot] = new;
        PutDone {
            shelf: after,
            changed,
        }
    }

    // Slot by slot, the greater of the two, in place: a shelf made beside both takes half as much stack again.
    pub fn join(mut self, other: Shelf) -> Shelf
        ensures { result ≡ join_shelf self other }
    {
        for i in 0..64 {
            self.slots[i] = self.slots[i].max(other.slots[i]);
        }
        self
    }
}
