//! An input read to its end, up to a limit, and consumed as its bytes come.
ghost use Rattle.std.specs.Prelude.{◌≡◌, ◌<◌, ◌≤◌, ◌++◌, List, ℕ, [], length, take, vec_len, IfOk, IfErr};
ghost use Rattle.litefs_tool.specs.steps.Input.{HasConsumedWhole, LosesBytes, CountsReads};
ghost use Rattle.litefs_tool.specs.declared.input.InputFault.TheVariants as fault;

use lf_base::{Failed, NoMemory, Source};
use std::alloc::{AllocError, Global};

/// The longest input that is read, in bytes.
pub const INPUT_LIMIT: usize = 2_147_483_648;

/// What consumes an input as its bytes come.
pub trait Consumer: Drop {
    /// These are all the bytes that it consumed.
    ghost has_consumed: { Self → List ℕ → Type 0 };

    /// Consumes a prefix of the bytes that come next, and answers how many it took.
    fn consume_prefix(self, bytes: &[u8]) -> Result<(Self, usize), NoMemory>
        requires begun { (before : List ℕ) × has_consumed self before }
        requires more { 0 < length bytes.now }
        ensures some { IfOk result (λ next. 0 < next.1) }
        ensures within { IfOk result (λ next. next.1 ≤ length bytes.now) }
        ensures consumed { (before : List ℕ) → has_consumed self before → IfOk result (λ next. has_consumed next.0 (before ++ take next.1 bytes.now)) };
}

/// Consumes all of the bytes.
pub fn consume_all<T: Consumer>(consumer: T, bytes: &[u8]) -> Result<T, NoMemory>
    requires { (before : List ℕ) × T.has_consumed consumer before }
    ensures { (before : List ℕ) → T.has_consumed consumer before → IfOk result (λ next. T.has_consumed next (before ++ bytes.now)) }
{
    let mut consumer = consumer;
    let mut rest = bytes;
    while !rest.is_empty() {
        let (next, used) = consumer.consume_prefix(rest)?;
        let (_, others) = rest.split_at(used);
        consumer = next;
        rest = others;
    }
    Ok(consumer)
}

/// Why an input was not read whole.
#[derive(Clone, Copy, Debug, PartialEq, Eq)]
pub enum InputFault {
    /// The source failed.
    Failed,
    /// There were more bytes than the limit.
    TooLong,
    NoMemory,
}

impl From<Failed> for InputFault {
    ghost from_gives = { λ _ e. e ≡ fault.Failed };

    fn from(_failed: Failed) -> InputFault {
        InputFault::Failed
    }
}

impl From<AllocError> for InputFault {
    ghost from_gives = { λ _ e. e ≡ fault.NoMemory };

    fn from(_error: AllocError) -> InputFault {
        InputFault::NoMemory
    }
}

impl From<NoMemory> for InputFault {
    ghost from_gives = { λ _ e. e ≡ fault.NoMemory };

    fn from(_want: NoMemory) -> InputFault {
        InputFault::NoMemory
    }
}

/// Reads a source to its end, and gives each piece to the consumer as it comes. A source with more
/// bytes than the limit is read until that is known. After a fault of the source, or want of
/// memory, what was consumed is lost.
pub fn read_to_end<S: Source, T: Consumer>(
    alloc: Global,
    source: &mut S,
    limit: usize,
    consumer: T,
) -> Result<T, InputFault>
    requires { T.has_consumed consumer [] }
    ensures whole { IfOk result (λ after. HasConsumedWhole (T.has_consumed after) limit (S.left source.old) (S.left source.new)) }
    ensures lost { IfErr result (LosesBytes limit (S.left source.old) (S.left source.new)) }
    ensures cause { CountsReads (S.faults source.old) (S.faults source.new) result }
{
    let mut piece = new_piece(alloc)?;
    read_pieces(source, limit, piece.as_mut_slice(), consumer)
}

/// How many bytes are asked for at a time.
const PIECE: usize = 65_536;

fn new_piece(alloc: Global) -> Result<Vec<u8>, AllocError>
    ensures { IfOk result (λ piece. vec_len piece ≡ PIECE) }
{
    vec![in alloc; 0u8; PIECE]
}

fn read_pieces<S: Source, T: Consumer>(
    source: &mut S,
    limit: usize,
    piece: &mut [u8],
    consumer: T,
) -> Result<T, InputFault>
    requires some { 0 < length piece.old }
    requires none { T.has_consumed consumer [] }
    ensures whole { IfOk result (λ after. HasConsumedWhole (T.has_consumed after) limit (S.left source.old) (S.left source.new)) }
    ensures lost { IfErr result (LosesBytes limit (S.left source.old) (S.left source.new)) }
    ensures cause { CountsReads (S.faults source.old) (S.faults source.new) result }
{
    let mut consumer = consumer;
    let mut room = limit;
    loop {
        let count = source.read(piece)?;
        if count == 0 {
            return Ok(consumer);
        }
        if room < count {
            return Err(InputFault::TooLong);
        }
        room -= count;
        consumer = consume_all(consumer, &piece[..count])?;
    }
}
