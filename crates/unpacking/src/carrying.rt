// The engine to read. It takes one octet at a time and carries the bits that are left over. Octets 0C and 44 hold three numbers of five bits and a
// spare bit, and octet 0C ends within the second number:
//
//     octets   |       0C      |       44      |
//     bits      0 0 0 0 1 1 0 0 0 1 0 0 0 1 0 0
//     numbers  |    1    |    17   |    2    | |
//                         ^ ^ ^
//                         carried
//
//     0C comes in     8 bits,        0 x 256 + 12 = 12      12 / 2^3 = 1 goes out         12 % 2^3 = 4 is carried, 3 bits
//     44 comes in     3 + 8 bits,  4 x 256 + 68 = 1092      1092 / 2^6 = 17 goes out    1092 % 2^6 = 4 is carried, 6 bits
//     none comes in   6 bits,                        4      4 / 2^1 = 2 goes out           4 % 2^1 = 0 is carried, 1 bit
//
// What is carried has seven bits at most, so eight powers of two are enough. An octet that is not there counts as 0.
ghost use Rattle.std.specs.Prelude.{◌≡◌, ◌^◌, ◌<◌, length, get_or};
ghost use Rattle.unpacking.specs.Packed.{unpacked};
ghost use Rattle.unpacking.specs.Filled.{filled};
ghost use Rattle.unpacking.specs.Standing.{Stands, Stepped};

use crate::width::Width;

// How far a run is: the octets taken, and the `left` bits at their end that no number has taken yet, which make the number `held`.
#[derive(Clone, Copy, PartialEq, Eq, Default)]
pub struct Run {
    pub taken: usize,
    pub held: u64,
    pub left: u32,
}

// Fills the row with its numbers; a number of more than 32 bits has no room in a place, and the row stays as it was.
#[tactic(auto, using(crate::proofs::Places::places))]
pub fn unpack_octets(packed: &[u8], bits: u32, row: &mut [u32])
    ensures { row.new ≡ filled bits packed.now row.old }
{
    if bits <= 32 {
        fill(packed, Width { bits }, row);
    }
}

// The run: a step for each place.
#[tactic(auto, using(crate::proofs::Places::places, crate::proofs::Carried::begins))]
#[inline(always)]
pub(crate) fn fill(packed: &[u8], width: Width, row: &mut [u32])
    ensures { row.new ≡ unpacked width.bits (length row.old) packed.now }
{
    let mut run = Run::default();
    for place in row.iter_mut() {
        let (number, next) = step(packed, run, width);
        *place = number;
        run = next;
    }
}

// The step: octets come in, one at a time, until a number is whole; it goes out, and the rest is carried.
#[tactic(auto, using(crate::proofs::Carried::carried))]
#[inline(always)]
fn step(packed: &[u8], run: Run, width: Width) -> (u32, Run)
    requires { Stands packed.now run × (run.taken < 2 ^ 63) }
    ensures { Stepped packed.now width.bits run result.0 result.1 }
{
    let mut taken = run.taken;
    let mut held = run.held;
    let mut left = run.left;
    while left < width.bits {
        held = held * 256 + octet(packed, taken) as u64;
        left += 8;
        taken += 1;
    }
    left -= width.bits;
    let weight = power(left);
    let number = (held / weight) as u32;
    let rest = held % weight;
    let next = Run {
        taken,
        held: rest,
        left,
    };
    (number, next)
}

// Octet `at`, counted from 0.
fn octet(packed: &[u8], at: usize) -> u8
    ensures { result ≡ get_or packed.now at 0 }
{
    packed.get(at).copied().unwrap_or(0)
}

// 2 ^ left, as a table: with a shift `unpack_octets` takes a quarter longer or more.
fn power(left: u32) -> u64
    requires { left < 8 }
    ensures { result ≡ 2 ^ left }
{
    match left {
        0 => 1,
        1 => 2,
        2 => 4,
        3 => 8,
        4 => 16,
        5 => 32,
        6 => 64,
        _ => 128,
    }
}
