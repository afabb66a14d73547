//! A machine that answers each export and each import by a word, and keeps what it was asked.
use crate::sessions::Keeps;
use byte_locks::LockId;
use lf_base::{Bytes, Failed, Pos};
use node_core::{Answer, Ask, Refusal};
use snapshot::ImportFault;
use std::alloc::Global;
use test_nodes::Answers;

/// Where the database stands then.
const AT: Pos = Pos {
    txid: 2,
    sum: 0xb20a_ff5e_38e3_8e38,
};

/// What it answers.
#[derive(Clone, Copy, PartialEq, Eq)]
pub enum Word {
    /// The bytes of a database: `pages`, or none.
    Pages,
    NoPages,
    Absent,
    Applied,
    Same,
    Held,
    NotDatabase,
    Limit,
    Failed,
    NotPrimary,
    NoMemory,
    /// An answer that is none to an export or an import.
    Quiet,
}

#[derive(Drop)]
pub struct Stored {
    alloc: Global,
    word: Word,
    asked: Vec<u8>,
}

impl Stored {
    pub fn new(alloc: Global, word: Word) -> Stored {
        Stored {
            alloc,
            word,
            asked: Vec::new(alloc),
        }
    }

    fn bytes(&self, text: &[u8]) -> Answer {
        match Vec::from_slice(self.alloc, text) {
            Ok(bytes) => Answer::Bytes(Bytes::of(bytes)),
            Err(_) => Answer::Quiet,
        }
    }

    fn by_word(&self) -> Answer {
        match self.word {
            Word::Pages => self.bytes(b"pages"),
            Word::NoPages => self.bytes(b""),
            Word::Absent => Answer::Refused(Refusal::Absent),
            Word::Applied => Answer::Applied(AT),
            Word::Same => Answer::Same(AT),
            Word::Held => Answer::Held(LockId::Shared),
            Word::NotDatabase => Answer::Refused(Refusal::Import(ImportFault::NotDatabase)),
            Word::Limit => Answer::Refused(Refusal::Import(ImportFault::Limit)),
            Word::Failed => Answer::Refused(Refusal::Import(ImportFault::Store(Failed))),
            Word::NotPrimary => Answer::Refused(Refusal::NotPrimary),
            Word::NoMemory => Answer::Refused(Refusal::NoMemory),
            Word::Quiet => Answer::Quiet,
        }
    }

    fn keep(&mut self, text: &[u8]) {
        let _ = self.asked.extend_from_slice(text);
    }

    /// Keeps an import at a moment of one digit.
    fn keep_import(&mut self, now: u64, bytes: &[u8]) {
        self.keep(b"import at ");
        self.keep(&[b'0' + (now % 10) as u8]);
        self.keep(b": ");
        self.keep(bytes);
    }
}

impl Answers for Stored {
    fn answer(&mut self, ask: &Ask) -> Answer {
        match ask {
            Ask::Export => {
                self.keep(b"export");
                self.by_word()
            }
            Ask::Import { now, bytes } => {
                self.keep_import(*now, bytes.as_slice());
                self.by_word()
            }
            _ => Answer::Quiet,
        }
    }
}

impl Keeps for Stored {
    fn asked(&self) -> &[u8] {
        &self.asked
    }
}
