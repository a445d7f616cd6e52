// A source whose calls are counted.
use crate::progress::Progress;
use nc_outside::{Failed, Source};
use std::time::Clock;

/// A source that tells how many lines of calls it hands on: those that begin with the number of a rank.
#[derive(Drop)]
pub struct CountedSource<'a, S: Source + Drop, C: Clock> {
    source: S,
    progress: &'a Progress<'a, C>,
    // Whether what was handed on ends where a line may begin.
    begins: bool,
}

impl<'a, S: Source + Drop, C: Clock> CountedSource<'a, S, C> {
    pub fn new(progress: &'a Progress<'a, C>, source: S) -> Self {
        CountedSource {
            source,
            progress,
            begins: true,
        }
    }
}

// How many calls begin in a piece of a script, and whether a line may begin behind it.
fn calls_in(piece: &[u8], begins: bool) -> (u64, bool) {
    let mut begins = begins;
    let mut calls = 0u64;
    for byte in piece {
        match byte {
            b'\n' => begins = true,
            b' ' | b'\t' | b'\r' => {}
            other => {
                calls = calls.wrapping_add(u64::from(begins && other.is_ascii_digit()));
                begins = false;
            }
        }
    }
    (calls, begins)
}

impl<S: Source + Drop, C: Clock> Source for CountedSource<'_, S, C> {
    ghost left = { λ s. S.left s.source };

    ghost faults = { λ s. S.faults s.source };

    fn take(&mut self, into: &mut [u8]) -> Result<usize, Failed> {
        let count = self.source.take(into)?;
        if self.progress.is_shown() {
            let (calls, begins) = calls_in(&into[..count], self.begins);
            self.progress.expect(calls);
            self.begins = begins;
        }
        Ok(count)
    }
}
