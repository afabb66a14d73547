//! What an answer is to a follower: the bytes, and how it stands then. Nothing is written here.
ghost use Rattle.std.specs.Prelude.{◌≡◌, ◌++◌, true, OnOk};
ghost use Rattle.stream_primary.specs.Telling.{begun, end_frame, file_of, frame_for, goes_on, next, opening, ready_frame, words};
ghost use Rattle.stream_wire.specs.Frame.{frame_text};
ghost use Rattle.stream_wire.specs.declared.frame.Frame.TheVariants as frame;

use crate::standing::{Sent, Standing};
use lf_base::{Name, NoMemory, Pos};
use node_core::{Answer, Refusal, Whereabouts};
use std::alloc::Global;
use stream_wire::{Frame, encode_frame, encode_ltx_front, write_head};

/// Whether the stream goes on with this answer.
pub fn goes_on(answer: &Answer) -> bool
    ensures { result ≡ goes_on answer.now }
{
    matches!(
        answer,
        Answer::Item { .. } | Answer::Gone | Answer::Level(_)
    )
}

/// How the follower stands behind this answer.
pub fn next(at: Standing, answer: &Answer) -> Standing
    ensures { result ≡ next at answer.now }
{
    match answer {
        Answer::Item { after, .. } => Standing {
            here: Whereabouts {
                pos: *after,
                last: None,
            },
            sent: begun(at.sent),
        },
        Answer::Gone => Standing {
            here: Whereabouts {
                pos: Pos { txid: 0, sum: 0 },
                last: None,
            },
            sent: begun(at.sent),
        },
        Answer::Level(_) => Standing {
            here: at.here,
            sent: Sent::Ready,
        },
        _ => at,
    }
}

fn begun(sent: Sent) -> Sent
    ensures { result ≡ begun sent }
{
    match sent {
        Sent::Ready => Sent::Ready,
        _ => Sent::Head,
    }
}

/// The file that an answer brings.
pub fn file_of(answer: &Answer) -> &[u8]
    ensures { result.now ≡ file_of answer.now }
{
    match answer {
        Answer::Item { ltx, .. } => ltx.as_slice(),
        _ => b"",
    }
}

/// Puts the bytes of an answer with which the stream goes on in place of what is in the buffer, up to
/// its file.
pub fn put_words(
    alloc: Global,
    name: &Name,
    sent: Sent,
    answer: &Answer,
    text: &mut Vec<u8>,
) -> Result<(), NoMemory>
    requires { goes_on answer.now ≡ true }
    ensures { OnOk result (text.new.items ++ file_of answer.now ≡ words name.now sent answer.now) }
{
    text.clear();
    match put_opening(alloc, sent, text) {
        Ok(()) => put_frame(name, sent, answer, text),
        Err(_) => Err(NoMemory),
    }
}

fn put_opening(alloc: Global, sent: Sent, text: &mut Vec<u8>) -> Result<(), NoMemory>
    ensures { OnOk result (text.new.items ≡ text.old.items ++ opening sent) }
{
    match sent {
        Sent::Nothing => write_head(alloc, 200, None, text),
        Sent::Head | Sent::Ready => Ok(()),
    }
}

fn put_frame(name: &Name, sent: Sent, answer: &Answer, text: &mut Vec<u8>) -> Result<(), NoMemory>
    ensures { OnOk result (text.new.items ++ file_of answer.now ≡ text.old.items ++ frame_for name.now sent answer.now) }
{
    match answer {
        Answer::Item { ltx, .. } => put_front(name, ltx.as_slice(), text),
        Answer::Gone => put_drop(name, text),
        Answer::Level(pos) => put_ready(name, sent, *pos, text),
        _ => Ok(()),
    }
}

fn put_front(name: &Name, ltx: &[u8], text: &mut Vec<u8>) -> Result<(), NoMemory>
    ensures { OnOk result (text.new.items ++ ltx.now ≡ text.old.items ++ frame_text (frame.Ltx name.now ltx.now)) }
{
    encode_ltx_front(name, ltx.len() as u64, text)
}

fn put_drop(name: &Name, text: &mut Vec<u8>) -> Result<(), NoMemory>
    ensures { OnOk result (text.new.items ≡ text.old.items ++ frame_text (frame.Drop name.now)) }
{
    let name = name.copy()?;
    encode_frame(&Frame::Drop { name }, text)
}

fn put_ready(name: &Name, sent: Sent, pos: Pos, text: &mut Vec<u8>) -> Result<(), NoMemory>
    ensures { OnOk result (text.new.items ≡ text.old.items ++ ready_frame name.now sent pos) }
{
    if sent == Sent::Ready {
        return Ok(());
    }
    let name = name.copy()?;
    encode_frame(&Frame::Ready { name, pos }, text)
}

/// Appends the end of a stream that has begun.
pub fn put_end(answer: &Answer, text: &mut Vec<u8>) -> Result<(), NoMemory>
    ensures { OnOk result (text.new.items ≡ text.old.items ++ end_frame answer.now) }
{
    match answer {
        Answer::Refused(Refusal::NotPrimary) => encode_frame(&Frame::End, text),
        _ => Ok(()),
    }
}
