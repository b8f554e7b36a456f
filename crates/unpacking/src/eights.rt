// For speed alone: what `carrying` does, eight numbers a turn, with an arm for each width. Its promise is the same, and nothing needs it: `unpack` of
// the crate, which calls it, can call `carrying` in its place.
//
// Its speed hangs on what the compiler makes of it. In an arm it knows the width, and how many octets and places a group has. So it knows which octets
// each of the eight numbers crosses, that they are there, and every power, and no loop and no test is left. For that it has to copy `carrying::fill`
// and the step into each arm, as their `inline(always)` asks. `bench/run --check` fails where this is lost.
ghost use Rattle.std.specs.Prelude.{◌≡◌, ◌≤◌};
ghost use Rattle.unpacking.specs.Filled.{filled};
ghost use Rattle.unpacking.specs.Groups.{Grouped};

use crate::carrying;
use crate::width::Width;

// The octets that whole groups have taken, and the places that they have written.
#[derive(Clone, Copy, Default)]
struct Done {
    taken: usize,
    written: usize,
}

// Fills the row as `carrying` does, which needs no help with fewer than eight numbers.
pub(crate) fn few_or_eights(packed: &[u8], bits: u32, row: &mut [u32])
    ensures { row.new ≡ filled bits packed.now row.old }
{
    if row.len() < 8 {
        carrying::unpack_octets(packed, bits, row);
    } else {
        unpack_eights(packed, bits, row);
    }
}

// Groups of eight as far as there are octets, and then the rest as `carrying` takes it. It is kept apart from `unpack`: copied into it, it would have
// that save registers where there are few numbers too.
#[tactic(auto, using(crate::proofs::Parts::rest_on, crate::proofs::Places::places))]
#[inline(never)]
pub fn unpack_eights(packed: &[u8], bits: u32, row: &mut [u32])
    ensures { row.new ≡ filled bits packed.now row.old }
{
    if 32 < bits {
        return;
    }
    let width = Width { bits };
    let done = by_width(packed, width, row);
    carrying::fill(&packed[done.taken..], width, &mut row[done.written..]);
}

// Groups by the arm of this width. The arms stay: a width that is known as the program runs is none that the compiler knows.
fn by_width(packed: &[u8], width: Width, row: &mut [u32]) -> Done
    ensures { Grouped width.bits packed.now row.new result }
{
    match width.bits {
        0 => groups::<0>(packed, row),
        1 => groups::<1>(packed, row),
        2 => groups::<2>(packed, row),
        3 => groups::<3>(packed, row),
        4 => groups::<4>(packed, row),
        5 => groups::<5>(packed, row),
        6 => groups::<6>(packed, row),
        7 => groups::<7>(packed, row),
        8 => groups::<8>(packed, row),
        9 => groups::<9>(packed, row),
        10 => groups::<10>(packed, row),
        11 => groups::<11>(packed, row),
        12 => groups::<12>(packed, row),
        13 => groups::<13>(packed, row),
        14 => groups::<14>(packed, row),
        15 => groups::<15>(packed, row),
        16 => groups::<16>(packed, row),
        17 => groups::<17>(packed, row),
        18 => groups::<18>(packed, row),
        19 => groups::<19>(packed, row),
        20 => groups::<20>(packed, row),
        21 => groups::<21>(packed, row),
        22 => groups::<22>(packed, row),
        23 => groups::<23>(packed, row),
        24 => groups::<24>(packed, row),
        25 => groups::<25>(packed, row),
        26 => groups::<26>(packed, row),
        27 => groups::<27>(packed, row),
        28 => groups::<28>(packed, row),
        29 => groups::<29>(packed, row),
        30 => groups::<30>(packed, row),
        31 => groups::<31>(packed, row),
        _ => groups::<32>(packed, row),
    }
}

// As many groups as the row has places for and the octets hold. Eight numbers take `BITS` octets.
fn groups<const BITS: u32>(packed: &[u8], row: &mut [u32]) -> Done
    requires { BITS ≤ 32 }
    ensures { Grouped BITS packed.now row.new result }
{
    let octets = BITS as usize;
    let width = Width { bits: BITS };
    let mut done = Done::default();
    while 8 <= row.len() - done.written && octets <= packed.len() - done.taken {
        let next = Done {
            taken: done.taken + octets,
            written: done.written + 8,
        };
        carrying::fill(
            &packed[done.taken..next.taken],
            width,
            &mut row[done.written..next.written],
        );
        done = next;
    }
    done
}
