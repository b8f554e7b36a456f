// What the program `fields` prints of a message: its fields, and where in it their sections stand. It is written into a lent buffer, as far as
// there is room.
#![tactic(auto)]

ghost use Rattle.std.specs.Prelude.{◌≡◌, [], ◌∷◌, ◌++◌, ℕ, ◌+◌, ◌<◌, ◌^◌, length, replicate};
ghost use Rattle.lent.specs.Written.{written, append, starts_with};
ghost use Rattle.lent.specs.Writers.{writes};
ghost use Rattle.identification.specs.Section1.{outcome₁};
ghost use Rattle.message.specs.Walk.{told};
ghost use Rattle.message.specs.Messages.{shown_in, field_of};
ghost use Rattle.message.specs.Places.{LowField};
ghost use Rattle.text.specs.Text.{decimal, spaced};
ghost use Rattle.contents.specs.Contents.{time_read, numbers_text, places_text, field_line, field_lines, accepted_text, contents};

use layout::Span;
use lent::Writer;
use message::{Fields, Sections};

// Room for a message, and for one octet more than the longest may have, so that a longer one is told.
pub fn message_buffer() -> [u8; 65537]
    ensures { (result ≡ replicate 65537 0) × (65537 ≡ length result) }
{
    [0; 65537]
}

// Room for the contents of every message.
pub fn contents_buffer() -> [u8; 8192]
    ensures { (result ≡ replicate 8192 0) × (8192 ≡ length result) }
{
    [0; 8192]
}

// The whole contents, at the start of a buffer that is never too small.
pub fn whole_contents(message: &[u8], out: &mut [u8; 8192]) -> usize
    ensures { written out.new result ≡ starts_with out.old (contents message.now) }
{
    contents(message, out)
}

// As much of the contents as there is room for.
#[tactic(auto, using(lent::proofs::Writers::at_last))]
pub fn contents(message: &[u8], out: &mut [u8]) -> usize
    ensures { written out.new result ≡ append (written out.old 0) (contents message.now) }
{
    let mut writer = Writer::new(out, 0);
    tell(&mut writer, message);
    writer.at()
}

fn tell(out: &mut Writer, message: &[u8])
    ensures { out.new ≡ writes out.old (contents message.now) }
{
    match message::read(message) {
        Ok(fields) => accepted(out, message, fields),
        Err(refusal) => text::refused(out, refusal),
    }
}

// An accepted message: the heading, its fields, and how many they are. It is asked that the sections stand where those of a message do, so that
// the number of a first octet can't wrap; every message keeps that (`field-low`, message/proofs/Views.antt).
fn accepted(out: &mut Writer, message: &[u8], fields: Fields)
    requires { (k : ℕ) → LowField (field_of (told (Ok fields)) k) }
    ensures { out.new ≡ writes out.old (accepted_text message.now (told (Ok fields))) }
{
    out.octets(
        b"field year month day hour minute second grid product points bits first1 length1 first3 length3 first4 length4 first5 length5 first7 length7\n",
    );
    field_lines(out, message, fields);
    out.octets(b"fields ");
    text::number_then(out, fields.count as u64, b'\n');
}

#[tactic(auto, using(lent::proofs::Writers::no_turn, lent::proofs::Writers::next_turn))]
fn field_lines(out: &mut Writer, message: &[u8], fields: Fields)
    requires { (k : ℕ) → LowField (field_of (told (Ok fields)) k) }
    ensures { out.new ≡ writes out.old (field_lines message.now (told (Ok fields))) }
{
    for k in 0..fields.count {
        field_line(out, k as u64 + 1, message, message::field_of(Ok(fields), k));
    }
}

// The sections are parts of the message, and nothing is copied.
#[tactic(auto, unfolding(crate::specs::Contents::field_line), using(lent::proofs::Writers::and_then))]
fn field_line(out: &mut Writer, number: u64, message: &[u8], sections: Sections)
    requires { LowField sections }
    ensures { out.new ≡ writes out.old (field_line number (shown_in message.now sections) sections) }
{
    text::number_then(out, number, b' ');
    time_text(out, sections.one.of(message));
    numbers_text(
        out,
        sections.three.of(message),
        sections.four.of(message),
        sections.five.of(message),
    );
    places_text(out, sections);
}

// A section 1 that is refused has no time; an accepted message has none such.
#[tactic(auto, unfolding(crate::specs::Contents::time_read, layout::specs::Time::time_in, identification::specs::Section1::values_in), using(lent::proofs::Writers::no_text))]
fn time_text(out: &mut Writer, section1: &[u8])
    ensures { out.new ≡ writes out.old (time_read (outcome₁ section1.now)) }
{
    if let Ok(x) = identification::read(section1) {
        text::time(
            out,
            x.real_year,
            x.time.month,
            x.time.day,
            x.time.hour,
            x.time.minute,
            x.time.second,
        );
    }
}

#[tactic(auto, unfolding(crate::specs::Contents::numbers_text), using(lent::proofs::Writers::and_then))]
fn numbers_text(out: &mut Writer, section3: &[u8], section4: &[u8], section5: &[u8])
    ensures { out.new ≡ writes out.old (numbers_text section3.now section4.now section5.now) }
{
    let grid = octets::u16_at(section3, 13);
    let product = octets::u16_at(section4, 8);
    let points = octets::u32_at(section3, 7);
    let bits = octets::u8_at(section5, 20);
    text::number_then(out, grid as u64, b' ');
    text::number_then(out, product as u64, b' ');
    text::number_then(out, points as u64, b' ');
    text::number_then(out, bits as u64, b' ');
}

#[tactic(auto, unfolding(crate::specs::Contents::places_text), using(lent::proofs::Writers::and_then))]
fn places_text(out: &mut Writer, sections: Sections)
    requires { LowField sections }
    ensures { out.new ≡ writes out.old (places_text sections) }
{
    place_then(out, sections.one, b' ');
    place_then(out, sections.three, b' ');
    place_then(out, sections.four, b' ');
    place_then(out, sections.five, b' ');
    place_then(out, sections.seven, b'\n');
}

// The first octet of a section, from 1, its length, and the octet behind them.
#[tactic(auto, using(lent::proofs::Writers::and_then))]
fn place_then(out: &mut Writer, place: Span, end: u8)
    requires { place.before < 2 ^ 63 }
    ensures { out.new ≡ writes out.old (spaced (place.before + 1) ++ (decimal place.length ++ (end ∷ []))) }
{
    text::number_then(out, place.before as u64 + 1, b' ');
    text::number_then(out, place.length as u64, end);
}
