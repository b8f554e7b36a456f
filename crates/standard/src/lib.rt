// Standard input, read whole, and standard output and standard error, and programs that print one text of their input. Nothing is known of what
// is read.
#![tactic(auto)]

ghost use Rattle.std.specs.Prelude.{◌≡◌, ℕ, List};
ghost use Rattle.io.specs.Counts.{IsPrefixLen};
ghost use Rattle.standard.specs.Input.{Holds, IsOfRead};

use std::io;
use std::io::Read;

// A program: which text it prints of an input, written in a room that is never too small for it.
pub trait Program<const ROOM: usize> {
    ghost text_of: { List ℕ → List ℕ };

    fn whole_text<'a>(input: &[u8], room: &'a mut [u8; ROOM]) -> &'a [u8]
        ensures { result.now ≡ text_of input.now };
}

// Runs it: where a read fails nothing is printed, and standard error says why.
pub fn run<P: Program<ROOM>, const ROOM: usize>(
    rt: &HostRuntime,
    buf: &mut [u8],
    room: &mut [u8; ROOM],
) {
    match read_all(rt, buf) {
        Ok(n) => print(rt, answer::<P, ROOM>(buf, n, room)),
        Err(why) => read_failed(rt, why),
    }
}

// The text of what is read: of the `n` octets that `read_all` says, no more and no fewer. It is given the count, since of a count that it read by
// itself its contract could not say that it is that of the read.
fn answer<'a, P: Program<ROOM>, const ROOM: usize>(
    buf: &[u8],
    n: usize,
    room: &'a mut [u8; ROOM],
) -> &'a [u8]
    requires { IsPrefixLen n buf.now }
    ensures { IsOfRead P.text_of n buf.now result.now }
{
    P::whole_text(&buf[..n], room)
}

// Reads until the input ends or the buffer is full: how many octets, at the start of the buffer, or why a read failed. A read that fails is told
// from the end of the input. A `while`, since each read says for itself how far it came.
pub fn read_all(rt: &HostRuntime, buf: &mut [u8]) -> io::Result<usize>
    ensures { Holds result buf.new }
{
    let mut stdin = rt.stdin();
    let mut done = 0;
    while done < buf.len() {
        let more = stdin.read(&mut buf[done..])?;
        if more == 0 {
            break;
        }
        done += more;
    }
    Ok(done)
}

// What can't be said on standard error either is let go, here and in `print`.
pub fn read_failed(rt: &HostRuntime, why: io::Error) {
    let _ = eprintln!(rt; "standard input: {why}");
}

pub fn print(rt: &HostRuntime, text: &[u8]) {
    if let Err(why) = rt.write_all(text) {
        let _ = eprintln!(rt; "standard output: {why}");
    }
}
