// Queues: how one is cut into records and their bodies into sections, and filing one, record by record.
#![tactic(auto)]

ghost use Rattle.std.specs.Prelude.{◌≡◌, ◌^◌, ◌<◌};
ghost use Rattle.cutting.specs.Cuts.{cut_of};
ghost use Rattle.queue.specs.Records.{record_of};
ghost use Rattle.queue.specs.Bodies.{body_of};
ghost use Rattle.queue.specs.Walks.{rest_of, cut_left, sent_in};
ghost use Rattle.queue.specs.Queues.{record_filed, record_step, three_together, one_more, records_filed, from_start, checked, queue_filed};

use filing::{Change, Filed};
use layout::Refusal;
use shelf::Shelf;

// What a record says before its body, its slot and its issue, and where the body stands: from index `start` up to index `end`.
#[derive(Clone, Copy, Debug, PartialEq, Eq)]
pub struct Head {
    pub slot: u64,
    pub issue: Option<u32>,
    pub start: usize,
    pub end: usize,
}

// The record at the start of these octets, if one stands there.
#[tactic(auto, using(cutting::proofs::Taken::taken, std::proofs::lemmas::List::take_rest, filing::proofs::StoredIssues::too_large), unfolding(crate::specs::Records::record_of))]
pub fn record_of(octets: &[u8]) -> Option<Head>
    ensures { result ≡ record_of octets.now }
{
    let slot = cutting::leading_number(octets)?;
    let stored = cutting::leading_number(&octets[slot.octets..])?;
    let size = cutting::leading_number(&octets[slot.octets + stored.octets..])?;
    let start = slot.octets + stored.octets + size.octets;
    let end = start + size.value as usize;
    if octets.len() < end {
        return None;
    }
    let issue = filing::issue_from(stored.value).ok()?;
    Some(Head {
        slot: slot.value,
        issue,
        start,
        end,
    })
}

// A record of a queue: the octets from its first one on, and its head.
#[derive(Clone, Copy)]
pub struct Record<'a> {
    pub octets: &'a [u8],
    pub head: Head,
}

// A walk over the records of a queue, one after the other, up to its end or to where no record stands.
#[derive(Clone, Copy)]
pub struct Records<'a> {
    rest: &'a [u8],
}

impl<'a> Records<'a> {
    // From the start of a queue.
    #[tactic(auto, unfolding(crate::specs::Walks::cut_left))]
    pub fn of(queue: &'a [u8]) -> Records<'a>
        ensures all { rest_of result ≡ queue.now }
        ensures cut { cut_left result ≡ cut_of record_step queue.now }
    {
        Records { rest: queue }
    }
}

impl<'a> Iterator for Records<'a> {
    ghost use Rattle.std.specs.Iterator.{item_count};
    ghost use Rattle.queue.specs.Walks.{records_left, GivesRecord};

    type Item = Record<'a>;

    ghost next_gives = { GivesRecord };

    ghost remaining = { item_count records_left };

    // Copied into each walk, what is left of the queue need not go through memory; `record_of` is the call.
    #[tactic(auto, using(crate::proofs::Cuts::given, crate::proofs::Cuts::none_given), unfolding(crate::specs::Walks::cut_left))]
    #[inline(always)]
    fn next(&mut self) -> Option<Record<'a>> {
        let octets = self.rest;
        let head = record_of(octets)?;
        self.rest = &octets[head.end..];
        Some(Record { octets, head })
    }
}

// Where sections 1, 3, 4 and 5 of a body end: the index after each one's last octet, at which the next one starts.
#[derive(Clone, Copy, Debug, PartialEq, Eq)]
pub struct Ends {
    pub one: usize,
    pub three: usize,
    pub four: usize,
    pub five: usize,
}

// Where the five sections of a body end, if it is exactly five. It is kept apart from the filing of a record: copied into it,
// it would hide from LLVM that the shelf is written over, which would then be cleared first for each record.
#[tactic(auto, unfolding(crate::specs::Bodies::body_of))]
#[inline(never)]
pub fn body_of(octets: &[u8]) -> Option<Ends>
    ensures { result ≡ body_of octets.now }
{
    let one = cutting::end_after(octets, 0)?;
    let three = cutting::end_after(octets, one)?;
    let four = cutting::end_after(octets, three)?;
    let five = cutting::end_after(octets, four)?;
    let seven = cutting::end_after(octets, five)?;
    if seven != octets.len() {
        return None;
    }
    Some(Ends {
        one,
        three,
        four,
        five,
    })
}

// Files a record: 20, or as its five sections are filed. They are parts of what is lent, and only the card's octets are copied.
#[tactic(auto, unfolding(crate::specs::Queues::record_filed, crate::specs::Queues::record_filing, crate::specs::Queues::body_filing, filing::specs::Filing::filed_by, filing::specs::Filing::filed_of))]
pub fn file_record(shelf: Shelf, sent: Record) -> Filed
    ensures { result ≡ record_filed shelf (sent_in sent.entry) }
{
    let head = sent.head;
    let body = cutting::stretch(sent.octets, head.start, head.end);
    let Some(ends) = body_of(body) else {
        return Filed {
            shelf,
            answer: Err(Refusal::of(20, 0)),
        };
    };
    let section1 = cutting::stretch(body, 0, ends.one);
    let section3 = cutting::stretch(body, ends.one, ends.three);
    let section4 = cutting::stretch(body, ends.three, ends.four);
    let section5 = cutting::stretch(body, ends.four, ends.five);
    let section7 = cutting::stretch(body, ends.five, body.len());
    let slot = head.slot as usize;
    filing::file_by_value(
        shelf, slot, head.issue, section1, section3, section4, section5, section7,
    )
}

// How many records were kept (the slot changed), passed (it did not) and refused.
#[derive(Clone, Copy, Debug, PartialEq, Eq)]
pub struct Counts {
    pub kept: usize,
    pub passed: usize,
    pub refused: usize,
}

// The shelf after some records, and what became of them.
#[derive(Clone, Copy)]
pub struct Progress {
    pub shelf: Shelf,
    pub counts: Counts,
}

// The shelf after a queue, and what became of its records.
#[derive(Clone, Copy)]
pub struct QueueFiled {
    pub shelf: Shelf,
    pub answer: Result<Counts, Refusal>,
}

// Files a queue to the shelf, which is handed back: as it was where the whole queue is refused, with 2 or 19, and otherwise with each
// record filed after the one before it. A refused record doesn't stop the next.
#[tactic(auto, unfolding(crate::specs::Queues::queue_filed, crate::specs::Queues::checked))]
pub fn file(shelf: Shelf, queue: &[u8]) -> QueueFiled
    ensures { result ≡ queue_filed shelf queue.now }
{
    if let Err(refusal) = check(queue) {
        return QueueFiled {
            shelf,
            answer: Err(refusal),
        };
    }
    let done = file_records(shelf, queue);
    QueueFiled {
        shelf: done.shelf,
        answer: Ok(done.counts),
    }
}

// Whether a whole queue is refused, with 2 or 19, before anything of it is filed.
#[tactic(auto, unfolding(crate::specs::Queues::checked, crate::specs::Queues::queue_refusal))]
pub fn check(queue: &[u8]) -> Result<(), Refusal>
    ensures { result ≡ checked queue.now }
{
    if 65536 < queue.len() {
        return Err(Refusal::of(2, 0));
    }
    if well_cut(queue) {
        Ok(())
    } else {
        Err(Refusal::of(19, 0))
    }
}

// One record more: it counts once, as it is answered.
fn file_next(progress: Progress, sent: Record) -> Progress
    requires { three_together progress.counts < 2 ^ 63 }
    ensures { result ≡ one_more progress.counts (record_filed progress.shelf (sent_in sent.entry)) }
{
    let filed = file_record(progress.shelf, sent);
    let mut counts = progress.counts;
    match filed.answer {
        Ok(Change::Kept) => counts.kept += 1,
        Ok(Change::Passed) => counts.passed += 1,
        Err(_) => counts.refused += 1,
    }
    Progress {
        shelf: filed.shelf,
        counts,
    }
}

// Whether the queue is whole records to its end. A `for` would take the walk, and what it leaves is asked for.
fn well_cut(queue: &[u8]) -> bool
    ensures { result ≡ (cut_of record_step queue.now).whole }
{
    let mut records = Records::of(queue);
    while records.next().is_some() {}
    records.rest.is_empty()
}

// Files the records of a queue one after the other, up to its end or to where no record stands.
fn file_records(shelf: Shelf, queue: &[u8]) -> Progress
    ensures { result ≡ records_filed (from_start shelf) (cut_of record_step queue.now).items }
{
    let mut progress = Progress {
        shelf,
        counts: Counts {
            kept: 0,
            passed: 0,
            refused: 0,
        },
    };
    for sent in Records::of(queue) {
        progress = file_next(progress, sent);
    }
    progress
}
