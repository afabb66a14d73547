//! A machine that answers each ask for a permit, each that is given back, and each commit under one by a word, and keeps what it was asked.
use crate::sessions::Keeps;
use byte_locks::LockId;
use halt_forward::{HaltFault, HaltPass};
use lf_base::Pos;
use ltx_codec::LtxFault;
use node_core::{Answer, Ask, Refusal, Whereabouts};
use std::alloc::Global;
use test_nodes::Answers;
use txn_log::StoreFault;

/// Where it stands.
const AT: Pos = Pos {
    txid: 2,
    sum: 0xb20a_ff5e_38e3_8e38,
};

/// Before the first transaction.
const NOWHERE: Pos = Pos { txid: 0, sum: 0 };

/// The permit that it gives out.
const PASS: HaltPass = HaltPass {
    number: 1,
    until: 1_005,
};

/// What it answers.
#[derive(Clone, Copy, PartialEq, Eq)]
pub enum Word {
    Pass,
    Quiet,
    HaltHeld,
    HaltGone,
    Held,
    Limit,
    NotPrimary,
    Applied,
    Behind,
    Ltx,
    SumDiffers,
}

#[derive(Drop)]
pub struct Permitting {
    word: Word,
    asked: Vec<u8>,
}

impl Permitting {
    pub fn new(alloc: Global, word: Word) -> Permitting {
        Permitting {
            word,
            asked: Vec::new(alloc),
        }
    }

    fn by_word(&self) -> Answer {
        match self.word {
            Word::Pass => Answer::Pass(PASS),
            Word::Quiet => Answer::Quiet,
            Word::HaltHeld => Answer::Refused(Refusal::Halt(HaltFault::HaltHeld {
                number: 3,
                until: 9,
            })),
            Word::HaltGone => Answer::Refused(Refusal::Halt(HaltFault::HaltGone { number: 1 })),
            Word::Held => Answer::Held(LockId::Reserved),
            Word::Limit => Answer::Refused(Refusal::Halt(HaltFault::Limit)),
            Word::NotPrimary => Answer::Refused(Refusal::NotPrimary),
            Word::Applied => Answer::Applied(AT),
            Word::Behind => Answer::Refused(Refusal::Halt(HaltFault::Behind {
                have: AT,
                want: NOWHERE,
            })),
            Word::Ltx => Answer::Refused(Refusal::Ltx(LtxFault::Txid)),
            Word::SumDiffers => Answer::Refused(Refusal::Store(StoreFault::SumDiffers {
                want: 1,
                got: 2,
            })),
        }
    }

    fn keep(&mut self, text: &[u8]) {
        let _ = self.asked.extend_from_slice(text);
    }

    /// Keeps an ask of a number of one digit, at a moment of one digit.
    fn keep_ask(&mut self, word: &[u8], number: u64, now: u64) {
        self.keep(word);
        self.keep(&[b'0' + (number % 10) as u8]);
        self.keep(b" at ");
        self.keep(&[b'0' + (now % 10) as u8]);
        self.keep(b", ");
    }
}

impl Answers for Permitting {
    fn answer(&mut self, ask: &Ask) -> Answer {
        match ask {
            Ask::HaltAsk { now, node } => {
                self.keep_ask(b"node ", *node, *now);
                self.by_word()
            }
            Ask::HaltBack { now, number } => {
                self.keep_ask(b"back ", *number, *now);
                self.by_word()
            }
            Ask::Forward { now, number, bytes } => {
                self.keep_ask(b"file of ", *number, *now);
                self.keep(bytes.as_slice());
                self.by_word()
            }
            Ask::Where => {
                self.keep(b"where, ");
                Answer::At(Whereabouts {
                    pos: AT,
                    last: None,
                })
            }
            _ => Answer::Quiet,
        }
    }
}

impl Keeps for Permitting {
    fn asked(&self) -> &[u8] {
        &self.asked
    }
}
