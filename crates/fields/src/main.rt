// Tells of the message on standard input which fields it has and where in it their sections stand, or that it is refused.
#![tactic(auto)]

ghost use Rattle.contents.specs.Contents.{contents};

use standard::Program;

struct Contents;

impl Program<8192> for Contents {
    ghost text_of = { contents };

    #[tactic(auto, unfolding(lent::specs::Written::starts_with))]
    fn whole_text<'a>(message: &[u8], room: &'a mut [u8; 8192]) -> &'a [u8] {
        let end = contents::whole_contents(message, room);
        &room[..end]
    }
}

fn main(rt: HostRuntime) {
    standard::run::<Contents, _>(
        &rt,
        &mut contents::message_buffer(),
        &mut contents::contents_buffer(),
    );
}
