// What the two programs print of a queue that is filed to an empty shelf: the listing of what is then held, and the explanation of what
// became of each record. It is written into a lent buffer, as far as there is room.
#![tactic(auto)]

ghost use Rattle.std.specs.Prelude.{◌≡◌, length, replicate};
ghost use Rattle.octets.specs.Octets.{be_at};
ghost use Rattle.cutting.specs.Cuts.{cut_of};
ghost use Rattle.queue.specs.Queues.{record_step};
ghost use Rattle.shelf.specs.Shelves.{empty_shelf};
ghost use Rattle.lent.specs.Written.{written, append, starts_with};
ghost use Rattle.lent.specs.Writers.{writes};
ghost use Rattle.report.specs.Texts.{counts_line, refused_line, card_line, slot_line, slot_lines, filed_listing, listing_of, issue_text, refused_fate, fate, record_line, record_lines, filed_explanation, explanation_of, listing, explanation};

use card::Card;
use filing::Change;
use layout::Refusal;
use lent::Writer;
use queue::{Counts, Records};
use shelf::Shelf;

// Room for a queue, and for one octet more than the longest may have, so that a longer one is told.
pub fn queue_buffer() -> [u8; 65537]
    ensures { (result ≡ replicate 65537 0) × (65537 ≡ length result) }
{
    [0; 65537]
}

// Room for the listing of every queue, and for the explanation of every queue. One function over the length would leave it to the caller how
// long a text can get, and so would one over the two `whole_` functions.
pub fn listing_buffer() -> [u8; 16384]
    ensures { (result ≡ replicate 16384 0) × (16384 ≡ length result) }
{
    [0; 16384]
}

pub fn explanation_buffer() -> [u8; 2163200]
    ensures { (result ≡ replicate 2163200 0) × (2163200 ≡ length result) }
{
    [0; 2163200]
}

// The whole listing, at the start of a buffer that is never too small.
pub fn whole_listing(queue: &[u8], out: &mut [u8; 16384]) -> usize
    ensures { written out.new result ≡ starts_with out.old (listing queue.now) }
{
    listing(queue, out)
}

// As much of the listing as there is room for.
#[tactic(auto, unfolding(crate::specs::Texts::listing), using(lent::proofs::Writers::at_last))]
pub fn listing(queue: &[u8], out: &mut [u8]) -> usize
    ensures { written out.new result ≡ append (written out.old 0) (listing queue.now) }
{
    let filed = queue::file(Shelf::empty(), queue);
    let shelf = filed.shelf;
    let answer = filed.answer;
    let mut writer = Writer::new(out, 0);
    list(&mut writer, shelf, answer);
    writer.at()
}

#[tactic(auto, unfolding(crate::specs::Texts::listing_of))]
fn list(out: &mut Writer, shelf: Shelf, answer: Result<Counts, Refusal>)
    ensures { out.new ≡ writes out.old (listing_of shelf answer) }
{
    match answer {
        Ok(counts) => list_filed(out, shelf, counts),
        Err(x) => refused_line(out, x),
    }
}

fn list_filed(out: &mut Writer, shelf: Shelf, counts: Counts)
    ensures { out.new ≡ writes out.old (filed_listing shelf counts) }
{
    out.octets(b"slot year month day hour minute second issue template\n");
    slot_lines(out, shelf);
    counts_line(out, counts);
}

#[tactic(auto, using(lent::proofs::Writers::no_turn, lent::proofs::Writers::next_turn))]
fn slot_lines(out: &mut Writer, shelf: Shelf)
    ensures { out.new ≡ writes out.old (slot_lines shelf) }
{
    for i in 0..64 {
        slot_line(out, i, shelf.slot(i));
    }
}

#[tactic(auto, unfolding(crate::specs::Texts::slot_line), using(lent::proofs::Writers::no_text))]
fn slot_line(out: &mut Writer, i: usize, slot: Option<Card>)
    ensures { out.new ≡ writes out.old (slot_line i slot) }
{
    if let Some(card) = slot {
        card_line(out, i, card);
    }
}

#[tactic(auto, unfolding(crate::specs::Texts::card_line), using(lent::proofs::Writers::and_then))]
fn card_line(out: &mut Writer, i: usize, card: Card)
    ensures { out.new ≡ writes out.old (card_line i card) }
{
    text::number_then(out, i as u64, b' ');
    text::time(
        out,
        card.year,
        card.month,
        card.day,
        card.hour,
        card.minute,
        card.second,
    );
    text::number_then(out, card.issue as u64, b' ');
    text::number_then(out, template_in(card.product) as u64, b'\n');
}

fn template_in(product: [u8; 27]) -> u16
    ensures { result ≡ be_at product 1 2 }
{
    octets::u16_at(&product, 1)
}

fn counts_line(out: &mut Writer, counts: Counts)
    ensures { out.new ≡ writes out.old (counts_line counts) }
{
    out.octets(b"kept ");
    text::number(out, counts.kept as u64);
    out.octets(b" passed ");
    text::number(out, counts.passed as u64);
    out.octets(b" refused ");
    text::number_then(out, counts.refused as u64, b'\n');
}

fn refused_line(out: &mut Writer, refusal: Refusal)
    ensures { out.new ≡ writes out.old (refused_line refusal) }
{
    out.octets(b"refused ");
    text::number_then(out, refusal.number as u64, b'\n');
}

// The whole explanation, at the start of a buffer that is never too small.
pub fn whole_explanation(queue: &[u8], out: &mut [u8; 2163200]) -> usize
    ensures { written out.new result ≡ starts_with out.old (explanation queue.now) }
{
    explanation(queue, out)
}

// As much of the explanation as there is room for. The queue is filed once for the counts, and then each record again for its line.
#[tactic(auto, unfolding(crate::specs::Texts::explanation), using(lent::proofs::Writers::at_last))]
pub fn explanation(queue: &[u8], out: &mut [u8]) -> usize
    ensures { written out.new result ≡ append (written out.old 0) (explanation queue.now) }
{
    let filed = queue::file(Shelf::empty(), queue);
    let answer = filed.answer;
    let mut writer = Writer::new(out, 0);
    explain(&mut writer, queue, answer);
    writer.at()
}

#[tactic(auto, unfolding(crate::specs::Texts::explanation_of))]
fn explain(out: &mut Writer, queue: &[u8], answer: Result<Counts, Refusal>)
    ensures { out.new ≡ writes out.old (explanation_of (cut_of record_step queue.now).items answer) }
{
    match answer {
        Ok(counts) => explain_filed(out, queue, counts),
        Err(x) => refused_line(out, x),
    }
}

fn explain_filed(out: &mut Writer, queue: &[u8], counts: Counts)
    ensures { out.new ≡ writes out.old (filed_explanation (cut_of record_step queue.now).items counts) }
{
    out.octets(b"record slot issue fate\n");
    record_lines(out, queue);
    counts_line(out, counts);
}

fn record_lines(out: &mut Writer, queue: &[u8])
    ensures { out.new ≡ writes out.old (record_lines 1 empty_shelf (cut_of record_step queue.now).items) }
{
    let mut shelf = Shelf::empty();
    for (i, sent) in Records::of(queue).enumerate() {
        let head = sent.head;
        let filed = queue::file_record(shelf, sent);
        record_line(out, i as u64 + 1, head.slot, head.issue, filed.answer);
        shelf = filed.shelf;
    }
}

#[tactic(auto, unfolding(crate::specs::Texts::record_line), using(lent::proofs::Writers::and_then))]
fn record_line(
    out: &mut Writer,
    k: u64,
    slot: u64,
    issue: Option<u32>,
    answer: Result<Change, Refusal>,
)
    ensures { out.new ≡ writes out.old (record_line k slot issue answer) }
{
    text::number_then(out, k, b' ');
    text::number_then(out, slot, b' ');
    issue_text(out, issue);
    fate(out, answer);
}

fn issue_text(out: &mut Writer, issue: Option<u32>)
    ensures { out.new ≡ writes out.old (issue_text issue) }
{
    match issue {
        Some(n) => text::number(out, n as u64),
        None => out.octet(b'-'),
    }
}

fn fate(out: &mut Writer, answer: Result<Change, Refusal>)
    ensures { out.new ≡ writes out.old (fate answer) }
{
    match answer {
        Ok(Change::Kept) => out.octets(b" kept\n"),
        Ok(Change::Passed) => out.octets(b" passed\n"),
        Err(x) => refused_fate(out, x),
    }
}

#[tactic(auto, using(lent::proofs::Writers::octet_then))]
fn refused_fate(out: &mut Writer, x: Refusal)
    ensures { out.new ≡ writes out.old (refused_fate x) }
{
    out.octet(b' ');
    text::refused(out, x);
}
