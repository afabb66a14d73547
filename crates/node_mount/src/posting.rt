//! What a round with the lease service tells of where the primary is found.
ghost use Rattle.std.specs.Prelude.{IfOk};
ghost use Rattle.node_mount.specs.Leasing.{IsPosting, IsPostingOf};

use lease_core::Grant;
use lease_link::KeepEnd;
use lf_base::{NoMemory, Text};
use node_settings::{SettingsFault, Url};
use std::alloc::Global;

/// What becomes of the address on a board.
#[derive(Debug, Drop)]
pub enum Posting {
    /// It stays.
    AsBefore,
    /// There is none.
    Nobody,
    /// It is this one.
    At(Text),
}

/// What a round that ended so makes of it. `own` has the term that the node had before it.
pub fn posted_by(alloc: Global, own: &Grant, end: &KeepEnd) -> Result<Posting, NoMemory>
    ensures { IfOk result (IsPosting own.now end.now) }
{
    match end {
        KeepEnd::Done { url: Some(url), .. } => posting_of(alloc, &own.url, url),
        KeepEnd::Done { term, url: None } => {
            if *term == own.term {
                Ok(Posting::AsBefore)
            } else {
                Ok(Posting::Nobody)
            }
        }
        _ => Ok(Posting::AsBefore),
    }
}

/// The same of one that named the primary's URL, where this is the node's own.
fn posting_of(alloc: Global, own: &Text, url: &Text) -> Result<Posting, NoMemory>
    ensures { IfOk result (IsPostingOf own.now url.now) }
{
    if url.bytes() == own.bytes() {
        return Ok(Posting::Nobody);
    }
    match Url::read(alloc, url.as_str()) {
        Ok(url) => Ok(Posting::At(url.address().copy()?)),
        Err(SettingsFault::Config) => Ok(Posting::AsBefore),
        Err(SettingsFault::NoMemory) => Err(NoMemory),
    }
}
