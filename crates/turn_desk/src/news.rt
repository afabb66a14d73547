//! What threads wait for beside a desk: that its machine has news. No clause speaks of it: it only ends a sleep.
use std::sync::Wait;
use std::sync::atomic::{AtomicU64, Ordering};
use std::time::Duration;

/// The machine's news as its last step left them.
#[derive(Drop)]
pub struct News {
    now: AtomicU64,
    /// Of which the sleepers know.
    told: AtomicU64,
    sleepers: AtomicU64,
}

impl News {
    pub(crate) fn new() -> News {
        News {
            now: AtomicU64::new(0),
            told: AtomicU64::new(0),
            sleepers: AtomicU64::new(0),
        }
    }

    pub(crate) fn now(&self) -> u64 {
        self.now.load(Ordering::SeqCst)
    }

    pub(crate) fn note(&self, news: u64) {
        self.now.store(news, Ordering::SeqCst);
    }

    /// Wakes the sleepers, if there are any and they don't know of the news.
    pub(crate) fn tell(&self) {
        let now = self.now();
        if self.told.load(Ordering::SeqCst) != now {
            self.told.store(now, Ordering::SeqCst);
            if self.sleepers.load(Ordering::SeqCst) > 0 {
                self.now.wake_all();
            }
        }
    }

    /// Sleeps until there are other news than these, but not longer than so. It may also return for no reason.
    pub(crate) fn sleep<R: Wait>(&self, rt: &R, seen: u64, limit: Duration) {
        self.sleepers.fetch_add(1, Ordering::SeqCst);
        if self.now() == seen {
            let low = (seen % 4_294_967_296) as u32;
            self.now.park_timeout(rt, low, limit);
        }
        self.sleepers.fetch_sub(1, Ordering::SeqCst);
    }
}
