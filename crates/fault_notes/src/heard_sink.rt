// A sink that remembers of the text what is explained.
use crate::pending::{Pending, pending_in};
use nc_outside::{Failed, Sink};
use std::alloc::Global;

// A line that tells a fault is shorter.
const MOST_KEPT: usize = 256;

/// A sink that keeps the front of the first piece that it is given, which is the whole text, and the requests that it tells.
#[derive(Drop)]
pub struct HeardSink<K: Sink + Drop> {
    sink: K,
    line: Vec<u8>,
    pending: Option<Pending>,
}

impl<K: Sink + Drop> HeardSink<K> {
    pub fn new(alloc: Global, sink: K) -> Self {
        HeardSink {
            sink,
            line: Vec::new(alloc),
            pending: None,
        }
    }

    /// The front of the text.
    pub fn line(&self) -> &[u8] {
        self.line.as_slice()
    }

    pub fn pending(&self) -> Option<Pending> {
        self.pending
    }
}

impl<K: Sink + Drop> Sink for HeardSink<K> {
    ghost given = { λ s. K.given s.sink };

    ghost faults = { λ s. K.faults s.sink };

    fn give(&mut self, piece: &[u8]) -> Result<usize, Failed> {
        if self.line.is_empty() {
            let front = piece.get(..MOST_KEPT).unwrap_or(piece);
            let _ = self.line.extend_from_slice(front);
            self.pending = pending_in(piece);
        }
        self.sink.give(piece)
    }
}
