//! A source and a sink that remember what went through them, for what a person is told of it.

use m88_base::{Failed, Sink, Source};
use std::alloc::Global;

/// How many bytes are remembered of what is written, more than three transactions' lines have; and of what is read where
/// the whole isn't wanted.
const FRONT: usize = 512;

/// A source that remembers the bytes that it gave, or the front of them, as long as there is memory for them.
#[derive(Drop)]
pub struct Keeping<S> {
    inner: S,
    is_whole: bool,
    kept: Option<Vec<u8>>,
}

impl<S: Source> Keeping<S> {
    /// A source of what another has left, which remembers the whole of it or the front.
    pub fn new(alloc: Global, inner: S, is_whole: bool) -> Keeping<S> {
        Keeping {
            inner,
            is_whole,
            kept: Some(Vec::new(alloc)),
        }
    }

    /// The front of what was given, as far as it was remembered.
    pub fn front(&self) -> &[u8] {
        match &self.kept {
            Some(bytes) => bytes.as_slice(),
            None => &[],
        }
    }
}

impl<S: Source> Source for Keeping<S> {
    ghost left = { λ s. S.left s.inner };

    ghost faults = { λ s. S.faults s.inner };

    ghost calls = { λ s. S.calls s.inner };

    fn read(&mut self, buf: &mut [u8]) -> Result<usize, Failed> {
        let count = self.inner.read(buf)?;
        if self.is_whole {
            keep(&mut self.kept, &buf[..count]);
        } else if self.front().len() < FRONT {
            keep(&mut self.kept, &buf[..count.min(FRONT)]);
        }
        Ok(count)
    }
}

/// A sink that remembers the front of what it took, as long as there is memory for it.
#[derive(Drop)]
pub struct Showing<K> {
    inner: K,
    front: Option<Vec<u8>>,
}

impl<K: Sink> Showing<K> {
    /// A sink that hands its bytes to another.
    pub fn new(alloc: Global, inner: K) -> Showing<K> {
        Showing {
            inner,
            front: Some(Vec::new(alloc)),
        }
    }

    /// The front of what was taken, at most twice as many bytes as are remembered; None where it was not remembered.
    pub fn front(&self) -> Option<&[u8]> {
        match &self.front {
            Some(bytes) => Some(bytes.as_slice()),
            None => None,
        }
    }
}

impl<K: Sink> Sink for Showing<K> {
    ghost held = { λ s. K.held s.inner };

    ghost faults = { λ s. K.faults s.inner };

    ghost calls = { λ s. K.calls s.inner };

    fn write(&mut self, buf: &[u8]) -> Result<usize, Failed> {
        let count = self.inner.write(buf)?;
        if self.front().map_or(0, |front| front.len()) < FRONT {
            keep(&mut self.front, &buf[..count.min(FRONT)]);
        }
        Ok(count)
    }
}

/// Adds bytes to those that are remembered; where there is no memory for them, nothing is remembered any more.
fn keep(kept: &mut Option<Vec<u8>>, bytes: &[u8]) {
    let is_lost = match kept {
        Some(vec) => vec.extend_from_slice(bytes).is_err(),
        None => false,
    };
    if is_lost {
        *kept = None;
    }
}
