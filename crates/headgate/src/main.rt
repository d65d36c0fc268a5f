//! The program: a task book on standard input, its listing on standard output. It runs over the lever on the packed
//! roll. The one line of a refused book is a listing too, so that it ends with status 0.

#![tactic(auto)]

ghost use Rattle.std.specs.Prelude.{◌≡◌, ◌≤◌, take, IfOk, IfSome};

mod console;

use console::Console;
use lever::Lever;
use packed::Packed;
use std::io;
use std::io::{ErrorKind, Read};

// One byte more than the largest book has.
const MOST: usize = 65_536;

// Reads an input to its end, or as much of it as tells a book from what is too long to be one; answers how many bytes
// came. A read that was interrupted is made again, and the tries are counted, since nothing says that an input ends.
fn read_book<R: Read + Drop>(mut input: R, bytes: &mut [u8; MOST]) -> io::Result<usize>
    ensures bytes { IfOk result (λ n. IfSome (R.Read.remaining input) (λ all. take n bytes.new ≡ take 65536 all)) }
    ensures room { IfOk result (λ n. n ≤ 65536) }
{
    let mut len = 0;
    for _ in 0..u64::MAX {
        match input.read(&mut bytes[len..]) {
            Ok(0) => return Ok(len),
            Ok(more) => len += more,
            Err(e) => {
                if e.kind() != ErrorKind::Interrupted {
                    return Err(e);
                }
            }
        }
    }
    Err(ErrorKind::TimedOut.into())
}

fn main(rt: HostRuntime) -> io::Result<()> {
    let mut bytes = [0; MOST];
    let len = read_book(rt.stdin(), &mut bytes)?;
    let mut console = Console { out: rt.stdout() };
    runner::run(Lever::new(Packed::new()), &bytes[..len], &mut console)
}
