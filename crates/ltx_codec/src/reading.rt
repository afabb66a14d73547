ghost use Rattle.std.specs.Prelude.{◌≤◌, ◌<◌, length, take, IfOk, IfErr};
ghost use Rattle.ltx_codec.specs.Format.{IsLtx};
ghost use Rattle.ltx_codec.specs.Places.{IsEarliest, IsRefused, StandsInside};

use crate::fault::LtxFault;
use crate::file::Ltx;
use crate::file_reader::FileReader;
use std::alloc::Global;

/// The file whose encoding stands at the front of the bytes, and how many bytes it takes.
pub fn decode_first(alloc: Global, bytes: &[u8]) -> Result<(Ltx, usize), LtxFault>
    ensures ok { IfOk result (λ first. IsLtx (take first.1 bytes.now) first.0) }
    ensures within { IfOk result (λ first. first.1 ≤ length bytes.now) }
    ensures behind { IfOk result (λ first. first.1 < length bytes.now → IsEarliest bytes.now LtxFault.Tail) }
    ensures fault { IfErr result (IsRefused bytes.now) }
    ensures inside { IfErr result StandsInside }
{
    let mut reader = FileReader::new(alloc)?;
    match reader.feed(bytes) {
        Ok(Some(first)) => Ok(first),
        Ok(None) => Err(LtxFault::Short),
        Err(fault) => Err(fault),
    }
}

/// The file that all of the bytes are. Of the faults the one that stands earliest is answered.
pub fn decode(alloc: Global, bytes: &[u8]) -> Result<Ltx, LtxFault>
    ensures ok { IfOk result (IsLtx bytes.now) }
    ensures fault { IfErr result (IsRefused bytes.now) }
{
    let (file, used) = decode_first(alloc, bytes)?;
    if used < bytes.len() {
        return Err(LtxFault::Tail);
    }
    Ok(file)
}
