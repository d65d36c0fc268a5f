//! Standard output as a sink.

ghost use Rattle.std.proofs.Common.{rules};

use runner::Sink;
use std::io;
use std::io::{Stdout, Write};

#[derive(Drop)]
pub struct Console {
    pub out: Stdout,
}

// Nothing can be said of what a program has written, so that the model says nothing.
impl Sink for Console {
    type Error = io::Error;

    ghost Model = { Unit {0} };

    ghost state = { λ _. tt };

    ghost took = { λ _ _. tt };

    ghost nothing = { Prim.search rules };

    ghost joined = { Prim.search rules };

    fn put(&mut self, bytes: &[u8]) -> io::Result<()> {
        self.out.write_all(bytes)
    }
}
