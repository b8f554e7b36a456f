// Numbers of one width out of packed octets, one after the other without a gap, the most significant bit first. Two engines with one promise: `bits`
// takes one bit at a time and is the plainest; `carrying` takes one octet at a time and is the one to read. `eights` makes `carrying` faster. The two
// and `unpack` are for C too (`include/unpacking.h`), so that tests and benchmarks can run each by itself.
#![tactic(auto)]

ghost use Rattle.std.specs.Prelude.{◌≡◌};
ghost use Rattle.unpacking.specs.Filled.{filled};

pub mod bits;
pub mod carrying;
mod eights;
mod width;

// Alone for the exports for C, which are in a crate of their own.
pub use crate::eights::unpack_eights;

// Fills the row: what `packing` calls. Without `eights` this is `carrying::unpack_octets`.
pub fn unpack(packed: &[u8], bits: u32, row: &mut [u32])
    ensures { row.new ≡ filled bits packed.now row.old }
{
    eights::few_or_eights(packed, bits, row);
}
