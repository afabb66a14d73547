//! A machine that answers each file and each drop by the next word of a script, and keeps what it was
//! asked.
use byte_locks::LockId;
use node_core::{Answer, Ask, Refusal, Whereabouts};
use std::alloc::Global;
use test_nodes::Answers;
use txn_log::StoreFault;

/// What it answers.
#[derive(Clone, Copy, PartialEq, Eq)]
pub enum Word {
    Applied,
    Same,
    Held,
    Disk,
}

#[derive(Drop)]
pub struct Scripted {
    here: Whereabouts,
    script: Vec<Word>,
    at: usize,
    /// The number of bytes of each file that it was asked, 1 for Where and 0 for a drop.
    pub asked: Vec<u64>,
}

impl Scripted {
    pub fn new(alloc: Global, here: Whereabouts, script: Vec<Word>) -> Scripted {
        Scripted {
            here,
            script,
            at: 0,
            asked: Vec::new(alloc),
        }
    }

    fn next_word(&mut self) -> Answer {
        let word = self.script.as_slice().get(self.at);
        self.at = self.at.wrapping_add(1);
        match word {
            Some(Word::Same) => Answer::Same(self.here.pos),
            Some(Word::Held) => Answer::Held(LockId::Shared),
            Some(Word::Disk) => Answer::Refused(Refusal::Store(StoreFault::Disk)),
            _ => Answer::Applied(self.here.pos),
        }
    }
}

impl Answers for Scripted {
    fn answer(&mut self, ask: &Ask) -> Answer {
        match ask {
            Ask::Where => {
                let _ = self.asked.push(1);
                Answer::At(self.here)
            }
            Ask::Frame { bytes, .. } => {
                let _ = self.asked.push(bytes.as_slice().len() as u64);
                self.next_word()
            }
            Ask::Drop { .. } => {
                let _ = self.asked.push(0);
                self.next_word()
            }
            _ => Answer::Quiet,
        }
    }
}
