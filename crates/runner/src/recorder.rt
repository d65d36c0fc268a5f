//! A sink that keeps what it takes.

ghost use Rattle.std.specs.Prelude.{ℕ, List, ◌++◌};
ghost use Rattle.std.proofs.Common.{append_assoc};
ghost use Rattle.std.proofs.lemmas.List.{append-nil};

use crate::sink::Sink;
use std::alloc::AllocError;

/// All bytes that were put, in their order.
#[derive(Drop)]
pub struct Recorder {
    pub bytes: Vec<u8>,
}

impl Sink for Recorder {
    type Error = AllocError;

    ghost Model = { List ℕ };

    ghost state = { λ s. s.bytes.items };

    ghost took = { λ m bytes. m ++ bytes };

    ghost nothing = { λ m. append-nil m };

    ghost joined = { λ m a b. append_assoc m a b };

    fn put(&mut self, bytes: &[u8]) -> Result<(), AllocError> {
        self.bytes.extend_from_slice(bytes)
    }
}
