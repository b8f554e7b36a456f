// Writes into lent memory: octets into a buffer as far as there is room, and numbers into a row that has room for all.
#![tactic(auto)]

ghost use Rattle.std.specs.Prelude.{◌≡◌, true, false, [], ◌∷◌, leb, length};
ghost use Rattle.lent.specs.Lent.{done, over, if_room};
ghost use Rattle.lent.specs.Writers.{says, writer, writes};

// A lent buffer that is written from an index on: octet after octet, each if there is room.
#[derive(Drop)]
pub struct Writer<'a> {
    room: &'a mut [u8],
    at: usize,
}

impl<'a> Writer<'a> {
    pub fn new(room: &'a mut [u8], at: usize) -> Self
        ensures { result ≡ writer room.entry at }
    {
        Writer { room, at }
    }

    // The index after what is written.
    pub fn at(&self) -> usize
        ensures { result ≡ (says self.now).at }
    {
        self.at
    }

    #[tactic(auto, unfolding(crate::specs::Written::append, crate::specs::Written::one))]
    pub fn octet(&mut self, octet: u8)
        ensures { self.new ≡ writes self.old (octet ∷ []) }
    {
        if self.at < self.room.len() {
            self.room[self.at] = octet;
            self.at += 1;
        }
    }

    #[tactic(auto, unfolding(crate::specs::Written::append), using(crate::proofs::Writers::next_octet))]
    pub fn octets(&mut self, octets: &[u8])
        ensures { self.new ≡ writes self.old octets.now }
    {
        for octet in octets {
            self.octet(*octet);
        }
    }
}

// Numbers into the first places of a row, if there is room for all of them; says whether there is.
pub fn numbers(row: &mut [u64], numbers: &[u64]) -> bool
    ensures { done result row.new ≡ if_room true false (leb (length numbers.now) (length row.old)) (over row.old numbers.now) row.old }
{
    if row.len() < numbers.len() {
        return false;
    }
    row[..numbers.len()].copy_from_slice(numbers);
    true
}
