// A sink before which the line of a terminal is cleared.
use crate::progress::Progress;
use nc_outside::{Failed, Sink};
use std::time::Clock;

/// A sink that takes the line of progress away before it is given text, which may go to the same terminal.
#[derive(Drop)]
pub struct ClearingSink<'a, K: Sink + Drop, C: Clock> {
    sink: K,
    progress: &'a Progress<'a, C>,
}

impl<'a, K: Sink + Drop, C: Clock> ClearingSink<'a, K, C> {
    pub fn new(progress: &'a Progress<'a, C>, sink: K) -> Self {
        ClearingSink { sink, progress }
    }
}

impl<K: Sink + Drop, C: Clock> Sink for ClearingSink<'_, K, C> {
    ghost given = { λ s. K.given s.sink };

    ghost faults = { λ s. K.faults s.sink };

    fn give(&mut self, piece: &[u8]) -> Result<usize, Failed> {
        self.progress.clear();
        self.sink.give(piece)
    }
}
