//! The bytes that a link took, as a second view of them in memory that both share. No clause speaks
//! of it: it is for tests of calls that take a link away.
use crate::memory::NoMemory;
use std::alloc::Global;
use std::sync::Arc;
use std::sync::atomic::{AtomicU8, AtomicUsize, Ordering};

#[derive(Drop)]
struct Shown {
    bytes: Vec<AtomicU8>,
    count: AtomicUsize,
}

/// Where a link shows what it took.
#[derive(Drop)]
pub struct Board {
    shown: Arc<Shown>,
    alloc: Global,
}

/// A second view of the bytes that a link took.
#[derive(Drop)]
pub struct Watch {
    shown: Option<Arc<Shown>>,
    alloc: Global,
}

impl Board {
    pub fn new(alloc: Global, room: usize) -> Result<Board, NoMemory> {
        let mut bytes = Vec::with_capacity(alloc, room)?;
        for _ in 0..room {
            bytes.push(AtomicU8::new(0))?;
        }
        let count = AtomicUsize::new(0);
        let shown = Arc::new(alloc, Shown { bytes, count })?;
        Ok(Board { shown, alloc })
    }

    /// Shows these bytes behind those before.
    pub fn show(&mut self, piece: &[u8]) {
        let from = self.shown.count.load(Ordering::SeqCst);
        let count = piece.len().min(self.shown.bytes.len().saturating_sub(from));
        for (at, byte) in piece.iter().enumerate().take(count) {
            if let Some(place) = self.shown.bytes.get(from.saturating_add(at)) {
                place.store(*byte, Ordering::SeqCst);
            }
        }
        self.shown
            .count
            .store(from.saturating_add(count), Ordering::SeqCst);
    }

    pub fn watch(&self) -> Watch {
        Watch {
            shown: Arc::try_clone(&self.shown).ok(),
            alloc: self.alloc,
        }
    }
}

impl Watch {
    /// The bytes that the link has taken.
    pub fn bytes(&self) -> Result<Vec<u8>, NoMemory> {
        let Some(shown) = &self.shown else {
            return Err(NoMemory);
        };
        let count = shown.count.load(Ordering::SeqCst);
        let mut bytes = Vec::new(self.alloc);
        for byte in shown.bytes.iter().take(count) {
            bytes.push(byte.load(Ordering::SeqCst))?;
        }
        Ok(bytes)
    }
}
