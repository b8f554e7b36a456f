// Numbers, times and refusals as text, that a writer writes into a lent buffer, as far as there is room.
#![tactic(auto)]

ghost use Rattle.std.specs.Prelude.{◌≡◌, [], ◌∷◌, ◌++◌};
ghost use Rattle.lent.specs.Writers.{writes};
ghost use Rattle.text.specs.Text.{decimal, whole_number, time_text, refused_text};

use layout::Refusal;
use lent::Writer;

#[tactic(auto, using(crate::proofs::Digits::same_digits))]
pub fn number(out: &mut Writer, n: u64)
    ensures { out.new ≡ writes out.old (decimal n) }
{
    let mut digits = [0; 20];
    let count = io::decimal(n, &mut digits);
    out.octets(&digits[..count]);
}

// A number and the octet behind it, as a space or a line end.
#[tactic(auto, using(lent::proofs::Writers::and_then))]
pub fn number_then(out: &mut Writer, n: u64, end: u8)
    ensures { out.new ≡ writes out.old (decimal n ++ (end ∷ [])) }
{
    number(out, n);
    out.octet(end);
}

#[tactic(auto, using(lent::proofs::Writers::octet_then))]
pub fn signed(out: &mut Writer, z: i32)
    ensures { out.new ≡ writes out.old (whole_number z) }
{
    if z < 0 {
        out.octet(b'-');
    }
    number(out, z.unsigned_abs() as u64);
}

// Six numbers, each with a space behind it.
#[tactic(auto, unfolding(crate::specs::Text::time_text), using(lent::proofs::Writers::and_then, lent::proofs::Writers::octet_then))]
pub fn time(out: &mut Writer, year: i32, month: u8, day: u8, hour: u8, minute: u8, second: u8)
    ensures { out.new ≡ writes out.old (time_text year month day hour minute second) }
{
    signed(out, year);
    out.octet(b' ');
    number_then(out, month as u64, b' ');
    number_then(out, day as u64, b' ');
    number_then(out, hour as u64, b' ');
    number_then(out, minute as u64, b' ');
    number_then(out, second as u64, b' ');
}

// The word, the number, the section and the place: a line.
pub fn refused(out: &mut Writer, refusal: Refusal)
    ensures { out.new ≡ writes out.old (refused_text refusal) }
{
    out.octets(b"refused ");
    number_then(out, refusal.number as u64, b' ');
    number_then(out, refusal.section as u64, b' ');
    number_then(out, refusal.place as u64, b'\n');
}
