//! A count of jobs that run, which threads share.
use crate::memory::NoMemory;
use std::alloc::Global;
use std::sync::{Arc, Condvar, Mutex, Wait};

#[derive(Drop)]
struct Running {
    jobs: Mutex<u64>,
    ended: Condvar,
}

/// How many jobs run. Its copies share the count.
#[derive(Drop)]
pub struct Gate {
    running: Arc<Running>,
}

impl Gate {
    pub fn new(alloc: Global) -> Result<Gate, NoMemory> {
        let running = Running {
            jobs: Mutex::new(0),
            ended: Condvar::new(),
        };
        Ok(Gate {
            running: Arc::new(alloc, running)?,
        })
    }

    /// A second hold of the same count.
    pub fn another(&self) -> Result<Gate, NoMemory> {
        Ok(Gate {
            running: Arc::try_clone(&self.running)?,
        })
    }

    /// One job more runs.
    pub fn enter(&self, rt: &impl Wait) {
        let mut jobs = self.running.jobs.lock(rt);
        *jobs = jobs.saturating_add(1);
    }

    /// One job less runs.
    pub fn leave(&self, rt: &impl Wait) {
        let mut jobs = self.running.jobs.lock(rt);
        *jobs = jobs.saturating_sub(1);
        self.running.ended.notify_all();
    }

    /// Waits until no job runs.
    pub fn wait(&self, rt: &impl Wait) {
        let jobs = self.running.jobs.lock(rt);
        let _none = self.running.ended.wait_while(rt, jobs, |jobs| *jobs > 0);
    }
}
