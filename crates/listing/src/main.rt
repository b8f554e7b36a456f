// Lists what an empty shelf holds after the queue on standard input was filed to it, or that the queue is refused.
#![tactic(auto)]

ghost use Rattle.report.specs.Texts.{listing};

use standard::Program;

struct Listing;

impl Program<16384> for Listing {
    ghost text_of = { listing };

    #[tactic(auto, unfolding(lent::specs::Written::starts_with))]
    fn whole_text<'a>(queue: &[u8], room: &'a mut [u8; 16384]) -> &'a [u8] {
        let end = report::whole_listing(queue, room);
        &room[..end]
    }
}

fn main(rt: HostRuntime) {
    standard::run::<Listing, _>(
        &rt,
        &mut report::queue_buffer(),
        &mut report::listing_buffer(),
    );
}
