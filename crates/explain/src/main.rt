// Says of each record of the queue on standard input what becomes of it, filed to an empty shelf, or that the queue is refused.
#![tactic(auto)]

ghost use Rattle.report.specs.Texts.{explanation};

use standard::Program;

struct Explanation;

impl Program<2163200> for Explanation {
    ghost text_of = { explanation };

    #[tactic(auto, unfolding(lent::specs::Written::starts_with))]
    fn whole_text<'a>(queue: &[u8], room: &'a mut [u8; 2163200]) -> &'a [u8] {
        let end = report::whole_explanation(queue, room);
        &room[..end]
    }
}

fn main(rt: HostRuntime) {
    standard::run::<Explanation, _>(
        &rt,
        &mut report::queue_buffer(),
        &mut report::explanation_buffer(),
    );
}
