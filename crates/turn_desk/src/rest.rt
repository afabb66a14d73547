//! A pause beside a desk.
use crate::desk::Desk;
use crate::machine::Machine;
use lf_base::Pause;
use std::sync::Wait;
use std::time::Duration;

/// Its naps end where the machine has news, and are not longer than so many milliseconds.
#[derive(Drop)]
pub struct Rest<'a, M: Machine, R> {
    rt: R,
    desk: &'a Desk<M>,
    seen: u64,
    millis: u64,
}

impl<'a, M: Machine, R: Wait> Rest<'a, M, R> {
    pub fn new(rt: R, desk: &'a Desk<M>, millis: u64) -> Rest<'a, M, R> {
        Rest {
            rt,
            desk,
            seen: desk.news.now(),
            millis,
        }
    }
}

impl<M: Machine, R: Wait> Pause for Rest<'_, M, R> {
    /// News that came since the nap before end it at once.
    fn nap(&mut self) {
        self.naps(1);
    }

    fn naps(&mut self, count: u64) {
        let limit = Duration::from_millis(self.millis.saturating_mul(count));
        self.desk.news.sleep(&self.rt, self.seen, limit);
        self.seen = self.desk.news.now();
    }
}
