ghost use Rattle.std.specs.Prelude.{ℕ, List, ◌≡◌, ◌++◌, ◌<◌, ◌^◌, length, OnOk, OnErr};
ghost use Rattle.std.specs.Io.{StartsWith};
ghost use Rattle.stream_wire.specs.declared.frame.Frame.TheVariants as frame;
ghost use Rattle.stream_wire.specs.Frame.{frame_text, frame_of, front_of, pos_body, be32, be64};

use crate::Frame;
use lf_base::{Name, NoMemory, Pos};

/// Appends the bytes of a frame.
pub fn encode_frame(frame: &Frame, out: &mut Vec<u8>) -> Result<(), NoMemory>
    ensures ok { OnOk result (out.new.items ≡ out.old.items ++ frame_text frame.now) }
    ensures err { OnErr result (out.new.items ≡ out.old.items) }
{
    match frame {
        Frame::Ltx { name, bytes } => append(out, 1, name.bytes(), bytes.as_slice()),
        Frame::Ready { name, pos } => append(out, 2, name.bytes(), &pos_bytes(*pos)),
        Frame::End => append(out, 3, &[], &[]),
        Frame::Drop { name } => append(out, 4, name.bytes(), &[]),
    }
}

/// Appends the frame of an LTX file of `count` bytes, up to the file itself: so it can be written from
/// where it stands.
#[tactic(auto, using(crate::proofs::FrameFronts::front_written))]
pub fn encode_ltx_front(name: &Name, count: u64, out: &mut Vec<u8>) -> Result<(), NoMemory>
    ensures { OnOk result ((bytes : List ℕ) → length bytes ≡ count → out.new.items ++ bytes ≡ out.old.items ++ frame_text (frame.Ltx name.now bytes)) }
{
    append_front(out, 1, name.bytes(), count)
}

#[tactic(auto, unfolding(crate::specs::Frame::front_of))]
fn append_front(out: &mut Vec<u8>, kind: u32, name: &[u8], count: u64) -> Result<(), NoMemory>
    requires { length name.now < 2 ^ 32 }
    ensures { OnOk result (out.new.items ≡ out.old.items ++ front_of kind name.now count) }
{
    put_u32(out, kind)?;
    put_u32(out, name.len() as u32)?;
    put_u64(out, count)?;
    out.extend_from_slice(name)?;
    Ok(())
}

#[tactic(auto, unfolding(crate::specs::Frame::pos_body, crate::specs::Frame::be64))]
fn pos_bytes(pos: Pos) -> [u8; 16]
    ensures { result ≡ pos_body pos }
{
    let txid = pos.txid.to_be_bytes();
    let sum = pos.sum.to_be_bytes();
    [
        txid[0], txid[1], txid[2], txid[3], txid[4], txid[5], txid[6], txid[7], sum[0], sum[1],
        sum[2], sum[3], sum[4], sum[5], sum[6], sum[7],
    ]
}

fn append(out: &mut Vec<u8>, kind: u32, name: &[u8], body: &[u8]) -> Result<(), NoMemory>
    requires { length name.now < 2 ^ 32 }
    ensures ok { OnOk result (out.new.items ≡ out.old.items ++ frame_of kind name.now body.now) }
    ensures err { OnErr result (out.new.items ≡ out.old.items) }
{
    let start = out.len();
    if let Err(error) = append_parts(out, kind, name, body) {
        out.truncate(start);
        return Err(error);
    }
    Ok(())
}

#[tactic(auto, unfolding(crate::specs::Frame::frame_of))]
fn append_parts(out: &mut Vec<u8>, kind: u32, name: &[u8], body: &[u8]) -> Result<(), NoMemory>
    requires { length name.now < 2 ^ 32 }
    ensures ok { OnOk result (out.new.items ≡ out.old.items ++ frame_of kind name.now body.now) }
    ensures grows { StartsWith out.new.items out.old.items }
{
    put_u32(out, kind)?;
    put_u32(out, name.len() as u32)?;
    put_u64(out, body.len() as u64)?;
    out.extend_from_slice(name)?;
    out.extend_from_slice(body)?;
    Ok(())
}

#[tactic(auto, unfolding(crate::specs::Frame::be32))]
fn put_u32(out: &mut Vec<u8>, number: u32) -> Result<(), NoMemory>
    ensures ok { OnOk result (out.new.items ≡ out.old.items ++ be32 number) }
    ensures grows { StartsWith out.new.items out.old.items }
{
    out.extend_from_slice(&number.to_be_bytes())?;
    Ok(())
}

#[tactic(auto, unfolding(crate::specs::Frame::be64))]
fn put_u64(out: &mut Vec<u8>, number: u64) -> Result<(), NoMemory>
    ensures ok { OnOk result (out.new.items ≡ out.old.items ++ be64 number) }
    ensures grows { StartsWith out.new.items out.old.items }
{
    out.extend_from_slice(&number.to_be_bytes())?;
    Ok(())
}
