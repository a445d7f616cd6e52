// A source whose bytes are kept, to say more of a script when the run has ended.
use nc_outside::{Failed, Source};
use std::alloc::Global;

/// A source that keeps what it hands on, as long as there is memory for it.
#[derive(Drop)]
pub struct KeptSource<S: Source + Drop> {
    source: S,
    kept: Option<Vec<u8>>,
}

impl<S: Source + Drop> KeptSource<S> {
    pub fn new(alloc: Global, source: S) -> Self {
        KeptSource {
            source,
            kept: Some(Vec::new(alloc)),
        }
    }

    /// The bytes that were handed on; none of them where there was no memory for all.
    pub fn kept(&self) -> &[u8] {
        match &self.kept {
            Some(kept) => kept.as_slice(),
            None => &[],
        }
    }
}

// Adds bytes to those that are kept.
fn keep(kept: &mut Option<Vec<u8>>, piece: &[u8]) {
    if let Some(bytes) = kept {
        if bytes.extend_from_slice(piece).is_err() {
            *kept = None;
        }
    }
}

impl<S: Source + Drop> Source for KeptSource<S> {
    ghost left = { λ s. S.left s.source };

    ghost faults = { λ s. S.faults s.source };

    fn take(&mut self, into: &mut [u8]) -> Result<usize, Failed> {
        let count = self.source.take(into)?;
        keep(&mut self.kept, &into[..count]);
        Ok(count)
    }
}
