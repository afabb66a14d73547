//! A machine that answers each Hello by the next word of a script, and keeps at which transactions it
//! was asked.
use crate::sessions::Keeps;
use lf_base::{Bytes, Pos};
use node_core::{Answer, Ask, Refusal};
use std::alloc::Global;
use test_base::{ONE_PAGE, SNAPSHOT, encoding};
use test_nodes::Answers;
use txn_log::StoreFault;

/// What it answers.
#[derive(Clone, Copy, PartialEq, Eq)]
pub enum Word {
    /// A file, after which the follower is one transaction on.
    File,
    Level,
    Gone,
    NotPrimary,
    Disk,
    NoMemory,
}

#[derive(Drop)]
pub struct Scripted {
    alloc: Global,
    script: Vec<Word>,
    asked: Vec<u8>,
}

impl Scripted {
    pub fn new(alloc: Global, script: Vec<Word>) -> Scripted {
        Scripted {
            alloc,
            script,
            asked: Vec::new(alloc),
        }
    }

    fn next_file(&self, pos: Pos) -> Answer {
        match encoding(self.alloc, &SNAPSHOT) {
            Ok(ltx) => Answer::Item {
                ltx: Bytes::of(ltx),
                after: Pos {
                    txid: pos.txid.wrapping_add(1),
                    sum: ONE_PAGE,
                },
            },
            Err(_) => Answer::Quiet,
        }
    }

    fn hello(&mut self, pos: Pos) -> Answer {
        let at = self.asked.len();
        let _ = self.asked.push(u8::try_from(pos.txid).unwrap_or(u8::MAX));
        match self.script.as_slice().get(at) {
            Some(Word::File) => self.next_file(pos),
            Some(Word::Level) => Answer::Level(pos),
            Some(Word::Gone) => Answer::Gone,
            Some(Word::NotPrimary) => Answer::Refused(Refusal::NotPrimary),
            Some(Word::Disk) => Answer::Refused(Refusal::Store(StoreFault::Disk)),
            Some(Word::NoMemory) => Answer::Refused(Refusal::NoMemory),
            None => Answer::Level(pos),
        }
    }
}

impl Answers for Scripted {
    fn answer(&mut self, ask: &Ask) -> Answer {
        match ask {
            Ask::Hello { pos, .. } => self.hello(*pos),
            _ => Answer::Quiet,
        }
    }
}

impl Keeps for Scripted {
    fn asked(&self) -> &[u8] {
        &self.asked
    }
}
