//! A machine that answers each operation in one way, and keeps what it was asked.
use fuse_msgs::{Op, Reply};
use lf_base::{Bytes, Errno};
use node_core::{Answer, Ask};
use std::alloc::Global;
use test_nodes::Answers;

/// What a READ reads.
const POSITION: &[u8; 34] = b"0000000000000001/efb1f44fecd99000\n";

#[derive(Drop)]
pub struct Scripted {
    alloc: Global,
    /// The number of each request, one for a run of the same, and 0 for the end of the session.
    pub asked: Vec<u64>,
    /// How many steps it made.
    pub steps: u64,
}

impl Scripted {
    pub fn new(alloc: Global) -> Scripted {
        Scripted {
            alloc,
            asked: Vec::new(alloc),
            steps: 0,
        }
    }

    fn note(&mut self, number: u64) {
        self.steps = self.steps.wrapping_add(1);
        if self.asked.last() != Some(&number) {
            let _ = self.asked.push(number);
        }
    }

    fn read(&self) -> Answer {
        match Vec::from_slice(self.alloc, POSITION) {
            Ok(bytes) => Answer::Done(Reply::Bytes {
                bytes: Bytes::of(bytes),
            }),
            Err(_) => Answer::Refuse(Errno(12)),
        }
    }

    fn answer_to(&self, op: &Op) -> Answer {
        match op {
            Op::Read { .. } => self.read(),
            Op::Lookup { .. } => Answer::Refuse(Errno(2)),
            Op::Setlkw { .. } => Answer::Refuse(Errno(11)),
            Op::Forget => Answer::Quiet,
            _ => Answer::Done(Reply::Empty),
        }
    }
}

impl Answers for Scripted {
    fn answer(&mut self, ask: &Ask) -> Answer {
        match ask {
            Ask::File { now: _, request } => {
                self.note(request.unique);
                self.answer_to(&request.op)
            }
            Ask::EndSession
            | Ask::Where
            | Ask::Hello { .. }
            | Ask::Frame { .. }
            | Ask::Drop { .. }
            | Ask::Export
            | Ask::Import { .. }
            | Ask::Prune { .. }
            | Ask::Info { .. }
            | Ask::Watch { .. }
            | Ask::Lease { .. }
            | Ask::HaltAsk { .. }
            | Ask::HaltBack { .. }
            | Ask::Forward { .. }
            | Ask::HaltGot { .. }
            | Ask::HaltLost { .. }
            | Ask::Forwarded { .. } => {
                self.note(0);
                Answer::Quiet
            }
        }
    }
}
