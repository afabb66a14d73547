//! Where a node's jobs find its primary.
use lf_base::{NoMemory, Text};
use std::alloc::Global;
use std::sync::{Arc, Mutex, Wait};

/// The address of the primary that is followed, as `host:port`, if one is. Its copies share it.
#[derive(Drop)]
pub struct Board {
    address: Arc<Mutex<Option<Text>>, Global>,
}

impl Board {
    /// A board with this address.
    pub fn new(alloc: Global, address: Option<Text>) -> Result<Board, NoMemory> {
        let address = Arc::new(alloc, Mutex::new(address))?;
        Ok(Board { address })
    }

    /// A second hold of the same board.
    pub fn another(&self) -> Result<Board, NoMemory> {
        let address = Arc::try_clone(&self.address)?;
        Ok(Board { address })
    }

    pub fn set(&self, rt: &impl Wait, address: Option<Text>) {
        let mut held = self.address.lock(rt);
        *held = address;
    }

    /// A copy of the address.
    pub fn read(&self, rt: &impl Wait) -> Result<Option<Text>, NoMemory> {
        let held = self.address.lock(rt);
        match &*held {
            Some(address) => {
                let copy = address.copy()?;
                Ok(Some(copy))
            }
            None => Ok(None),
        }
    }
}
