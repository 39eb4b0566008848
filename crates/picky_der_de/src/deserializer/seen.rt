//! Bytes that were shown, which only clauses read.
ghost use Rattle.std.specs.Prelude.{◌≡◌, take};
ghost use Rattle.picky_der_core.specs.Peeking.{left_in};
ghost use Rattle.picky_der_de.specs.Order.{known_bytes};

use picky_der_core::misc::{PeekableReader, ReadExt};
use std::marker::Model;
use std::snapshot::Snapshot;

// The first bytes that a reader had left, so many of them. They use no memory.
#[derive(Drop)]
pub(crate) struct Seen<R: ReadExt> {
    before: Snapshot<PeekableReader<R>>,
    count: Snapshot<usize>,
}

impl<R: ReadExt> Model for Seen<R> {
    ghost use Rattle.std.specs.Prelude.{ℕ, List, take};
    ghost use Rattle.picky_der_core.specs.Peeking.{left_in};
    ghost use Rattle.picky_der_de.specs.Order.{known_bytes};

    ghost Value = { List ℕ };

    ghost view = { λ s. take s.count.value (known_bytes (left_in R.remaining s.before.value)) };
}

impl<R: ReadExt> Seen<R> {
    // The next bytes of this reader, so many of them.
    #[inline(always)]
    pub(crate) fn of(reader: &PeekableReader<R>, count: usize) -> Seen<R>
        ensures { result ≡ take count (known_bytes (left_in R.remaining reader.now)) }
    {
        Seen {
            before: Snapshot::of(reader),
            count: Snapshot::of(&count),
        }
    }
}
