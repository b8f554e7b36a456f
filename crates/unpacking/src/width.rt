// The width of the numbers. It is a type by itself, and the octets stay a parameter beside it: of a struct that lends them too an `ensures` would say
// `packed.entry.octets.now` where it says `packed.now`. It is made where its test is: with a `new` that answers an Option, `unpack` took half as long
// again for no number, which misses the bar of `bench/run --check`.
ghost use Rattle.std.specs.Prelude.{◌≤◌};

// At most 32 bits, for which a place of the row has room.
#[derive(Clone, Copy)]
pub(crate) struct Width {
    pub bits: u32,
    ghost narrow: { bits ≤ 32 },
}
