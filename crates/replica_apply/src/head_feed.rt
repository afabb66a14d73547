//! The head of a reply as a feed.
ghost use Rattle.std.specs.Prelude.{◌≡◌, ◌++◌, ◌≤◌, [], true, Ok, None, Some, length, take, IfOk, IfErr, OnErr, IfSome};
ghost use Rattle.httparse.specs.Grammar.{HasNoResponse};
ghost use Rattle.link_session.specs.Reading.{Faulted};
ghost use Rattle.stream_wire.specs.Head.{NeverTakesResponse};
ghost use Rattle.stream_wire.proofs.Heads.{never_more};
ghost use Rattle.replica_apply.specs.Heads.{head_stage, IsHead, IsHeadPart, IsSomeHead};

use link_session::{Feed, FeedFault};
use std::alloc::Global;
use std::marker::Model;
use stream_wire::{Told, read_response};

/// The head of a reply that is coming, or is whole.
#[derive(Drop)]
pub struct HeadFeed {
    alloc: Global,
    bytes: Vec<u8>,
    status: Option<u16>,
}

impl Model for HeadFeed {
    ghost use Rattle.replica_apply.specs.Heads.{HeadBytes, HoldsHead};

    ghost Value = { HeadBytes };

    ghost view = { λ f. record { held = f.bytes.items; status = f.status } };

    ghost invariant = { λ f. HoldsHead f.status f.bytes.items };
}

impl HeadFeed {
    /// Holds nothing.
    #[tactic(auto, using(crate::proofs::Heads::none_is_no_head))]
    pub fn new(alloc: Global) -> HeadFeed
        ensures { result ≡ record { held = []; status = None } }
    {
        HeadFeed {
            alloc,
            bytes: Vec::new(alloc),
            status: None,
        }
    }
}

impl Feed for HeadFeed {
    /// Its status.
    type Message = u16;

    ghost limit = { λ feed. 0 };

    ghost held = { λ feed. feed.held };

    ghost stage = { λ feed. head_stage feed.status };

    ghost message = { λ limit. IsSomeHead };

    ghost partial = { λ limit. IsHeadPart };

    ghost takes_memory = { true };

    ghost stands_for = { IsHead };

    ghost broken = { λ limit. NeverTakesResponse };

    fn take(&mut self, piece: &[u8]) -> Result<Option<usize>, FeedFault> {
        match take_head(&mut self.bytes, piece) {
            Ok(Some((used, status))) => {
                self.status = Some(status);
                Ok(Some(used))
            }
            Ok(None) => Ok(None),
            Err(fault) => Err(fault),
        }
    }

    fn next(&mut self) -> u16 {
        self.bytes = Vec::new(self.alloc);
        match self.status.take() {
            Some(status) => status,
            None => unreachable!(),
        }
    }

    fn is_between(&self) -> bool {
        self.bytes.is_empty()
    }

    ghost lasts = { λ limit. never_more };
}

/// Appends a piece to the bytes of a head, up to its end, and answers how many those are and its
/// status. After a fault nothing is held that is a head.
#[tactic(auto, using(crate::proofs::Heads::refused, crate::proofs::Heads::none_is_no_head))]
fn take_head(bytes: &mut Vec<u8>, piece: &[u8]) -> Result<Option<(usize, u16)>, FeedFault>
    requires { HasNoResponse bytes.old.items }
    ensures part { result ≡ Ok None → IsHeadPart bytes.new.items × (bytes.new.items ≡ bytes.old.items ++ piece.now) }
    ensures whole { IfOk result (λ found. IfSome found (λ p. (p.0 ≤ length piece.now) × (bytes.new.items ≡ bytes.old.items ++ take p.0 piece.now) × IsHead p.1 bytes.new.items)) }
    ensures fault { IfErr result (Faulted true NeverTakesResponse (bytes.old.items ++ piece.now)) }
    ensures none { OnErr result (HasNoResponse bytes.new.items) }
{
    let before = bytes.len();
    match bytes.extend_from_slice(piece) {
        Ok(()) => {}
        Err(_) => return Err(FeedFault::NoMemory),
    }
    match read_response(bytes.as_slice()) {
        Ok(Told::Part) => Ok(None),
        Ok(Told::Whole { used, status, .. }) => {
            bytes.truncate(used);
            Ok(Some((used - before, status)))
        }
        Err(_) => {
            bytes.clear();
            Err(FeedFault::Broken)
        }
    }
}
