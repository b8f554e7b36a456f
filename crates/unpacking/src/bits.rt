// The plain engine: one bit at a time.
ghost use Rattle.std.specs.Prelude.{◌≡◌, ◌+◌, ◌-◌, ◌*◌, ◌^◌, ◌<◌};
ghost use Rattle.unpacking.specs.Packed.{bit_at, bits_from};
ghost use Rattle.unpacking.specs.Filled.{filled};

use crate::width::Width;

// Bit `bit` of octet `at`, both counted from 0.
#[derive(Clone, Copy, PartialEq, Eq)]
pub struct Cursor {
    pub at: usize,
    pub bit: u32,
    ghost inside: { bit < 8 },
}

impl Cursor {
    // The first bit.
    fn start() -> Cursor
        ensures { 8 * result.at + result.bit ≡ 0 }
    {
        Cursor { at: 0, bit: 0 }
    }

    // The bit behind it.
    fn next(self) -> Cursor
        requires { self.at < 2 ^ 64 - 1 }
        ensures { 8 * result.at + result.bit ≡ 8 * self.at + self.bit + 1 }
    {
        if self.bit == 7 {
            Cursor {
                at: self.at + 1,
                bit: 0,
            }
        } else {
            Cursor {
                at: self.at,
                bit: self.bit + 1,
            }
        }
    }
}

// A number, and the bit after it.
#[derive(Clone, Copy, PartialEq, Eq)]
pub struct Found {
    pub value: u32,
    pub next: Cursor,
}

// Fills the row with its numbers; a number of more than 32 bits has no room in a place, and the row stays as it was.
#[tactic(auto, using(crate::proofs::Places::places))]
pub fn unpack_bits(packed: &[u8], bits: u32, row: &mut [u32])
    ensures { row.new ≡ filled bits packed.now row.old }
{
    if 32 < bits {
        return;
    }
    let width = Width { bits };
    let mut next = Cursor::start();
    for place in row.iter_mut() {
        let found = number(packed, next, width);
        *place = found.value;
        next = found.next;
    }
}

// The number that starts at the cursor.
#[tactic(auto, unfolding(crate::specs::Packed::bits_from), using(crate::proofs::Runs::small))]
fn number(packed: &[u8], from: Cursor, width: Width) -> Found
    requires { from.at < 2 ^ 63 }
    ensures value { result.value ≡ bits_from packed.now (8 * from.at + from.bit) width.bits }
    ensures place { 8 * result.next.at + result.next.bit ≡ 8 * from.at + from.bit + width.bits }
{
    let mut value: u32 = 0;
    let mut next = from;
    for _ in 0..width.bits {
        value = value * 2 + bit(packed, next);
        next = next.next();
    }
    Found { value, next }
}

// The bit at the cursor; past the end it is 0. With `unwrap_or(0)` before the shift each bit waits longer for the one before it, and numbers of 12 bits
// took nearly twice as long.
#[tactic(auto, using(crate::proofs::Runs::bit_of))]
fn bit(packed: &[u8], c: Cursor) -> u32
    ensures { result ≡ bit_at packed.now (8 * c.at + c.bit) }
{
    match packed.get(c.at) {
        Some(octet) => (*octet as u32 >> (7 - c.bit)) % 2,
        None => 0,
    }
}
