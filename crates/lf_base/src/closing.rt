use crate::door::Door;
use crate::handles::Handles;
use crate::memory::NoMemory;
use std::alloc::Global;
use std::sync::atomic::{AtomicBool, Ordering};
use std::sync::{Arc, Mutex, Wait};

#[derive(Drop)]
struct Word {
    closed: AtomicBool,
    doors: Mutex<Vec<Door>>,
}

/// A word that acceptors share: once it is closed, they say that no more links come. One that waits at a door looks at the
/// word when somebody dials it.
#[derive(Drop)]
pub struct Closing {
    word: Arc<Word>,
}

impl Closing {
    pub fn new(alloc: Global) -> Result<Closing, NoMemory> {
        let word = Word {
            closed: AtomicBool::new(false),
            doors: Mutex::new(Vec::new(alloc)),
        };
        Ok(Closing {
            word: Arc::new(alloc, word)?,
        })
    }

    /// A second hold of the same word.
    pub fn another(&self) -> Result<Closing, NoMemory> {
        let word = Arc::try_clone(&self.word)?;
        Ok(Closing { word })
    }

    /// Somebody waits at this door.
    pub fn add_door(&self, rt: &impl Wait, door: Door) -> Result<(), NoMemory> {
        let mut doors = self.word.doors.lock(rt);
        doors.push(door)?;
        Ok(())
    }

    pub fn close(&self) {
        self.word.closed.store(true, Ordering::SeqCst);
    }

    /// Closes the word, and knocks at all doors.
    pub fn close_doors<R: Handles>(&self, rt: &R) {
        self.close();
        let doors = self.word.doors.lock(rt);
        for door in doors.iter() {
            door.knock(rt);
        }
    }

    pub fn is_closed(&self) -> bool {
        self.word.closed.load(Ordering::SeqCst)
    }
}
