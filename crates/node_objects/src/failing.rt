//! The call of a disk that failed last.
use lf_base::{Errno, NoMemory};
use lf_disk::FileName;
use std::alloc::Global;
use std::sync::{Arc, Mutex, Wait};

/// A call of a disk.
#[derive(Clone, Copy, Debug, PartialEq, Eq)]
pub enum DiskCall {
    Size,
    Read,
    Write,
    Cut,
    Sync,
    Rename,
    Remove,
    List,
}

/// A call of a disk that failed.
#[derive(Clone, Copy, Debug, PartialEq, Eq)]
pub struct FailedCall {
    pub call: DiskCall,
    /// The file; none where the call is of the whole folder.
    pub file: Option<FileName>,
    /// The number of the system's error, where it gave one.
    pub error: Option<Errno>,
}

/// The call that failed last, if one did. Its copies share it.
#[derive(Drop)]
pub struct Failing {
    last: Arc<Mutex<Option<FailedCall>>, Global>,
}

impl Failing {
    pub fn new(alloc: Global) -> Result<Failing, NoMemory> {
        let last = Arc::new(alloc, Mutex::new(None))?;
        Ok(Failing { last })
    }

    /// A second hold of the same.
    pub fn another(&self) -> Result<Failing, NoMemory> {
        let last = Arc::try_clone(&self.last)?;
        Ok(Failing { last })
    }

    /// Notes that this call failed, where it did.
    pub fn note(&self, rt: &impl Wait, failed: bool, call: FailedCall) {
        if failed {
            let mut last = self.last.lock(rt);
            *last = Some(call);
        }
    }

    pub fn last(&self, rt: &impl Wait) -> Option<FailedCall> {
        let last = self.last.lock(rt);
        *last
    }
}
