// The engines of unpacking for C; `include/unpacking.h` declares them. Each calls the engine of that name, and promises what it promises.
#![tactic(auto)]

ghost use Rattle.std.specs.Prelude.{◌≡◌};
ghost use Rattle.unpacking.specs.Filled.{filled};

#[unsafe(no_mangle)]
pub extern "C" fn unpack(packed: &[u8], bits: u32, row: &mut [u32])
    ensures { row.new ≡ filled bits packed.now row.old }
{
    unpacking::unpack(packed, bits, row);
}

#[unsafe(no_mangle)]
pub extern "C" fn unpack_bits(packed: &[u8], bits: u32, row: &mut [u32])
    ensures { row.new ≡ filled bits packed.now row.old }
{
    unpacking::bits::unpack_bits(packed, bits, row);
}

#[unsafe(no_mangle)]
pub extern "C" fn unpack_octets(packed: &[u8], bits: u32, row: &mut [u32])
    ensures { row.new ≡ filled bits packed.now row.old }
{
    unpacking::carrying::unpack_octets(packed, bits, row);
}

#[unsafe(no_mangle)]
pub extern "C" fn unpack_eights(packed: &[u8], bits: u32, row: &mut [u32])
    ensures { row.new ≡ filled bits packed.now row.old }
{
    unpacking::unpack_eights(packed, bits, row);
}
