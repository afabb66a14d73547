//! What differs from the record.
ghost use Rattle.std.specs.Prelude.{◌≡◌, ◌↔◌, IsTrue, IfOk, IfSome, map};
ghost use Rattle.std.specs.List.{flat_map};
ghost use Rattle.sha2.specs.Sha256.{sha256};
ghost use Rattle.fuse_msgs.specs.Reply.{IsReply};
ghost use Rattle.conversations.specs.declared.difference.Difference.TheVariants as difference;
ghost use Rattle.conversations.specs.AsRecorded.{AsRecorded, SameReply, SameCommit, SameChange, SamePages, SameBytes, SamePosition, OutcomeDiffers, CommitDiffers, ChangeDiffers};

use crate::outcome::Outcome;
use crate::turn::{Commit, Message};
use fuse_msgs::{Reply, encode};
use lf_base::{NoMemory, Pos, pos_text};
use lf_sqlite_pages::{Change, PageWrite};
use sha2::{Digest, Sha256};
use std::alloc::Global;
use std::fmt;

/// How many bytes the body of a message has at most: their number and the header's stand in four bytes.
const LONGEST: usize = 0xFFFF_FFEF;

/// How a turn differs from its record.
#[derive(Clone, Copy)]
pub enum Difference {
    /// The message is no request.
    Request,
    /// The reply has other bytes.
    Reply,
    /// Nothing was committed.
    NoCommit,
    /// Something was committed where nothing was.
    Commit,
    /// The change is of another page size, another number of pages, or holds other pages.
    Pages,
    /// The pages of the change have other bytes.
    Bytes,
    /// The database stands elsewhere after the commit.
    Position,
}

impl fmt::Display for Difference {
    fn fmt<W: fmt::Write>(&self, f: &mut fmt::Formatter<W>) -> Result<(), fmt::Error> {
        f.write_str(match self {
            Difference::Request => "the message is no request",
            Difference::Reply => "another reply",
            Difference::NoCommit => "no commit",
            Difference::Commit => "a commit where there was none",
            Difference::Pages => "other pages in the commit",
            Difference::Bytes => "other bytes in the commit's pages",
            Difference::Position => "another position after the commit",
        })
    }
}

/// How what became of a request differs from its record: first in its commit, then in its reply. The
/// database stands at the position afterwards.
pub fn outcome_differs(
    alloc: Global,
    outcome: &Outcome,
    position: Pos,
    unique: u64,
    recorded: &Message,
) -> Result<Option<Difference>, NoMemory>
    ensures same { IfOk result (λ why. (why ≡ None) ↔ AsRecorded outcome.now position unique recorded.now) }
    ensures differs { IfOk result (λ why. IfSome why (OutcomeDiffers outcome.now position unique recorded.now)) }
{
    match commit_differs(alloc, &outcome.change, position, &recorded.commit)? {
        Some(why) => Ok(Some(why)),
        None => reply_differs(alloc, &outcome.reply, unique, recorded.reply.as_str()),
    }
}

/// How a reply to the request of this number differs from the recorded one, which is hex.
fn reply_differs(
    alloc: Global,
    reply: &Option<Reply>,
    unique: u64,
    recorded: &str,
) -> Result<Option<Difference>, NoMemory>
    ensures same { IfOk result (λ why. (why ≡ None) ↔ SameReply reply.now unique recorded.now) }
    ensures differs { IfOk result (λ why. IfSome why (λ it. it ≡ difference.Reply)) }
{
    let same = match reply {
        None => recorded.is_empty(),
        Some(reply) => is_recorded(alloc, reply, unique, recorded)?,
    };
    Ok((!same).then_some(Difference::Reply))
}

/// Whether a reply can be written, and its bytes are the recorded ones.
fn is_recorded(alloc: Global, reply: &Reply, unique: u64, recorded: &str) -> Result<bool, NoMemory>
    ensures { IfOk result (λ same. IsTrue same ↔ SameReply (Some reply.now) unique recorded.now) }
{
    if !is_sendable(reply) {
        return Ok(false);
    }
    let mut bytes = Vec::new(alloc);
    encode(alloc, reply, unique, &mut bytes)?;
    let written = hex::encode(alloc, bytes)?;
    Ok(written.as_str() == recorded)
}

/// Whether a reply can be written as a message.
fn is_sendable(reply: &Reply) -> bool
    ensures { IsTrue result ↔ IsReply reply.now }
{
    match reply {
        Reply::Bytes { bytes } => bytes.as_slice().len() <= LONGEST,
        Reply::Error(errno) => 1 <= errno.0 && errno.0 <= 4095,
        _ => true,
    }
}

/// How what was committed, if anything, differs from the record.
fn commit_differs(
    alloc: Global,
    change: &Option<Change>,
    position: Pos,
    recorded: &Option<Commit>,
) -> Result<Option<Difference>, NoMemory>
    ensures same { IfOk result (λ why. (why ≡ None) ↔ SameCommit change.now position recorded.now) }
    ensures differs { IfOk result (λ why. IfSome why (CommitDiffers change.now position recorded.now)) }
{
    match (change, recorded) {
        (None, None) => Ok(None),
        (None, Some(_)) => Ok(Some(Difference::NoCommit)),
        (Some(_), None) => Ok(Some(Difference::Commit)),
        (Some(change), Some(recorded)) => change_differs(alloc, change, position, recorded),
    }
}

/// How a change, which is complete, and the position after it differ from the recorded ones.
fn change_differs(
    alloc: Global,
    change: &Change,
    position: Pos,
    recorded: &Commit,
) -> Result<Option<Difference>, NoMemory>
    ensures same { IfOk result (λ why. (why ≡ None) ↔ SameChange change.now position recorded.now) }
    ensures differs { IfOk result (λ why. IfSome why (ChangeDiffers change.now position recorded.now)) }
{
    if !has_pages(alloc, change, recorded)? {
        return Ok(Some(Difference::Pages));
    }
    if !has_bytes(alloc, change, recorded.digest.as_str())? {
        return Ok(Some(Difference::Bytes));
    }
    let same_place = pos_text(position).as_slice() == recorded.position.as_str().as_bytes();
    Ok((!same_place).then_some(Difference::Position))
}

/// Whether a change has the recorded page size, number of pages, and numbers.
fn has_pages(alloc: Global, change: &Change, recorded: &Commit) -> Result<bool, NoMemory>
    ensures { IfOk result (λ same. IsTrue same ↔ SamePages change.now recorded.now) }
{
    let numbers = numbers_of(alloc, change.pages())?;
    Ok(
        u64::from(change.page_size()) == recorded.page_size
            && u64::from(change.commit()) == recorded.pages
            && numbers.as_slice() == recorded.numbers.as_slice(),
    )
}

/// The numbers of pages.
fn numbers_of(alloc: Global, pages: &[PageWrite]) -> Result<Vec<u64>, NoMemory>
    ensures { IfOk result (λ numbers. numbers.items ≡ map (λ w. w.number) pages.now) }
{
    let mut numbers = Vec::new(alloc);
    for page in pages {
        numbers.push(u64::from(page.number))?;
    }
    Ok(numbers)
}

/// Whether the pages of a change, one after another, have this SHA-256.
fn has_bytes(alloc: Global, change: &Change, recorded: &str) -> Result<bool, NoMemory>
    ensures { IfOk result (λ same. IsTrue same ↔ SameBytes change.now recorded.now) }
{
    let digest = digest_of(change.pages());
    let found = hex::encode(alloc, digest.as_slice())?;
    Ok(found.as_str() == recorded)
}

/// The SHA-256 of pages, one after another.
fn digest_of(pages: &[PageWrite]) -> [u8; 32]
    ensures { result ≡ sha256 (flat_map (λ w. w.bytes) pages.now) }
{
    let mut digest = Sha256::new();
    for page in pages {
        digest.update(page.bytes.as_slice());
    }
    digest.finalize()
}
