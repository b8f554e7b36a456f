// The record of a section as numbers, those of its fields in a lent row. A template's fields are a word, a letter for each:
//   1 2 4  unsigned, of so many octets     Q R T  the same, or missing
//   b d    signed, of 2 and 4 octets       A D    signed or missing, of 1 and 4
// Letters and no enum of kinds: a template is then one word, to be held against its table in one line. A section is asked for by document 01's
// number, which C passes.
#![tactic(auto)]

ghost use Rattle.std.specs.Prelude.{◌≡◌, [], ◌∷◌, ◌++◌, ◌<◌, ◌≤◌, length};
ghost use Rattle.std.proofs.lemmas.List.Edits.{sets};
ghost use Rattle.layout.specs.Outcomes.{check_of};
ghost use Rattle.layout.specs.Missing.{in32, in_signed};
ghost use Rattle.identification.specs.Section1.{outcome₁};
ghost use Rattle.grid.specs.Section3.{outcome₃};
ghost use Rattle.product.specs.Section4.{outcome₄};
ghost use Rattle.lent.specs.Lent.{done, with_count};
ghost use Rattle.values.specs.Records.{section_outcome, into_row, PutsRecord};
ghost use Rattle.values.specs.Letters.{kind_of, row_number, number_by, numbers_by};

use layout::Refusal;

// INT64_MIN.
const MISSING: i64 = -9223372036854775808;

// The record of a section into the row, or its refusal.
#[tactic(auto, using(crate::proofs::RecordRead::no_places))]
pub fn read_into(section: u8, s: &[u8], values: &mut [i64]) -> Result<(), Refusal>
    ensures { done result values.new ≡ into_row (section_outcome section s.now) values.old }
{
    check(section, s)?;
    if values.len() < 64 {
        return Err(Refusal::of(18, 0));
    }
    put_record(section, s, values);
    Ok(())
}

// Whether a section is read. Section 7 alone knows 1 to 4 only.
fn check(section: u8, s: &[u8]) -> Result<(), Refusal>
    ensures { result ≡ check_of (section_outcome section s.now) }
{
    match section {
        1 => identification::read(s).and(Ok(())),
        3 => grid::read(s).and(Ok(())),
        4 => product::read(s).and(Ok(())),
        5 => packing::read(s).and(Ok(())),
        7 => layout::check_head(s, 7),
        _ => Err(Refusal::of(4, section)),
    }
}

// The record of an accepted section.
fn put_record(section: u8, s: &[u8], values: &mut [i64])
    requires { 64 ≤ length values.old }
    ensures { PutsRecord (section_outcome section s.now) values.old values.new }
{
    match section {
        1 => put_identification(s, values),
        3 => put_grid(s, values),
        4 => put_product(s, values),
        5 => put(s, b"41424bb11", values),
        _ => put(s, b"41", values),
    }
}

// Section 1 ends with the real year, which no octets hold.
fn put_identification(s: &[u8], values: &mut [i64])
    requires { 64 ≤ length values.old }
    ensures { PutsRecord (outcome₁ s.now) values.old values.new }
{
    let year = octets::u16_at(s, 13);
    if s.len() == 21 {
        put_with(s, b"412211121111111", year as i64, values);
        return;
    }
    match octets::u16_at(s, 22) {
        0 => put_with(s, b"41221112111111121", year as i64, values),
        1 => put_with(
            s,
            b"4122111b11111112b",
            octets::real_year(year, octets::u16_at(s, 24)) as i64,
            values,
        ),
        // 1.2, since no other number is accepted
        _ => put_with(
            s,
            b"4122111b111111121b",
            octets::real_year(year, octets::u16_at(s, 25)) as i64,
            values,
        ),
    }
}

fn put_grid(s: &[u8], values: &mut [i64])
    requires { 64 ≤ length values.old }
    ensures { PutsRecord (outcome₃ s.now) values.old values.new }
{
    match octets::u16_at(s, 13) {
        0 => put(s, b"41141121QTQTQTTT4Tdd1ddTT1", values),
        1 => put(s, b"41141121QTQTQTTT4Tdd1ddTT1dd4", values),
        2 => put(s, b"41141121QTQTQTTT4Tdd1ddTT1dd4", values),
        // 3.3, since no other number is accepted
        _ => put(s, b"41141121QTQTQTTT4Tdd1ddTT1dd4dd4", values),
    }
}

fn put_product(s: &[u8], values: &mut [i64])
    requires { 64 ≤ length values.old }
    ensures { PutsRecord (outcome₄ s.now) values.old values.new }
{
    match octets::u16_at(s, 8) {
        0 => put(s, b"412211111R11d1AD1AD", values),
        1 => put(s, b"412211111R11d1AD1AD111", values),
        4 => put(s, b"412211111R11d1AD1AD111111144411414", values),
        5 => put(s, b"412211111R11d1AD1AD111ADAD", values),
        8 => put(s, b"412211111R11d1AD1AD21111114", values),
        9 => put(s, b"412211111R11d1AD1AD111ADAD21111114", values),
        11 => put(s, b"412211111R11d1AD1AD11121111114", values),
        14 => put(s, b"412211111R11d1AD1AD11111114441141421111114", values),
        // 4.46, since no other number is accepted
        _ => put(s, b"41221121ADAD111R11d1AD1AD21111114", values),
    }
}

// The count of the fields, and their numbers.
fn put(s: &[u8], letters: &[u8], values: &mut [i64])
    requires few { length letters.now < 64 }
    requires room { 64 ≤ length values.old }
    ensures { values.new ≡ with_count (numbers_by letters.now 1 s.now) values.old }
{
    put_fields(s, letters, values);
    values[0] = letters.len() as i64;
}

// The same, and a last number behind them.
fn put_with(s: &[u8], letters: &[u8], last: i64, values: &mut [i64])
    requires few { length letters.now < 63 }
    requires room { 64 ≤ length values.old }
    ensures { values.new ≡ with_count (numbers_by letters.now 1 s.now ++ (last ∷ [])) values.old }
{
    put_fields(s, letters, values);
    let count = letters.len() + 1;
    values[count] = last;
    values[0] = count as i64;
}

// The numbers of the fields, the first from octet 1 on, into the places behind the first.
fn put_fields(s: &[u8], letters: &[u8], values: &mut [i64])
    requires few { length letters.now < 64 }
    requires room { 64 ≤ length values.old }
    ensures { values.new ≡ sets values.old 1 (numbers_by letters.now 1 s.now) }
{
    let mut at: usize = 1;
    for (i, letter) in letters.iter().enumerate() {
        let found = field_at(s, at, *letter);
        values[i + 1] = found.0;
        at += found.1;
    }
}

// A field's number, and how many octets it has.
#[derive(Clone, Copy)]
struct Found(i64, usize);

// The field from octet `at` on.
#[tactic(auto, unfolding(crate::specs::Letters::kind_of))]
fn field_at(s: &[u8], at: usize, letter: u8) -> Found
    ensures number { result.0 ≡ number_by (kind_of letter) at s.now }
    ensures octets { result.1 ≡ (kind_of letter).octets }
{
    match letter {
        b'1' => Found(octets::u8_at(s, at) as i64, 1),
        b'2' => Found(octets::u16_at(s, at) as i64, 2),
        b'4' => Found(octets::u32_at(s, at) as i64, 4),
        b'b' => Found(octets::signed16_at(s, at) as i64, 2),
        b'd' => Found(octets::signed32_at(s, at) as i64, 4),
        b'A' => Found(signed(layout::signed_or_missing::<u8>(s, at)), 1),
        b'D' => Found(signed(layout::signed_or_missing::<u32>(s, at)), 4),
        b'Q' => Found(unsigned(layout::or_missing::<u8>(s, at)), 1),
        b'R' => Found(unsigned(layout::or_missing::<u16>(s, at)), 2),
        _ => Found(unsigned(layout::or_missing::<u32>(s, at)), 4),
    }
}

fn unsigned(x: Option<u32>) -> i64
    ensures { result ≡ row_number (in32 x) }
{
    x.map_or(MISSING, i64::from)
}

#[tactic(auto, using(octets::proofs::Signs::wide_fits))]
fn signed(x: Option<i32>) -> i64
    ensures { result ≡ row_number (in_signed x) }
{
    x.map_or(MISSING, i64::from)
}
