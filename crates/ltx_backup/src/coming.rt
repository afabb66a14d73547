//! A transaction file whose bytes come in pieces, up to its end.
ghost use Rattle.std.specs.Prelude.{◌<◌, ◌≤◌, ◌++◌, List, ℕ, [], length, take, IfOk, IfErr};
ghost use Rattle.ltx_codec.specs.Fields.{AreBytes};
ghost use Rattle.ltx_codec.specs.Format.{IsLtx};
ghost use Rattle.ltx_codec.specs.Places.{IsRefused};
ghost use Rattle.ltx_codec.specs.Reading.{HasBegun};
ghost use Rattle.ltx_backup.specs.Coming.{HasCome};

use lf_base::NoMemory;
use ltx_codec::{FileReader, Ltx, LtxFault};
use std::alloc::Global;

/// What the bytes so far are.
#[derive(Drop)]
pub enum Coming {
    /// The front of a file.
    Begun(FileReader),
    /// A file.
    Whole(Ltx),
    /// They have this fault, and what stands behind it is passed over.
    Faulty(LtxFault),
}

/// A file ended behind so many bytes of a piece.
fn ended(file: Ltx, used: usize, piece: &[u8]) -> Coming
    ensures { (bytes : List ℕ) → AreBytes bytes → used ≤ length piece.now → IsLtx (bytes ++ take used piece.now) file → HasCome result (bytes ++ piece.now) }
{
    if used < piece.len() {
        return Coming::Faulty(LtxFault::Tail);
    }
    Coming::Whole(file)
}

/// A file that is begun goes on with these bytes.
fn fed(reader: FileReader, piece: &[u8]) -> Coming
    ensures { (bytes : List ℕ) → HasBegun reader bytes → HasCome result (bytes ++ piece.now) }
{
    let mut reader = reader;
    match reader.feed(piece) {
        Ok(None) => Coming::Begun(reader),
        Ok(Some((file, used))) => ended(file, used, piece),
        Err(fault) => Coming::Faulty(fault),
    }
}

impl Coming {
    /// No byte came yet.
    pub fn new(alloc: Global) -> Result<Coming, NoMemory>
        ensures { IfOk result (λ coming. HasCome coming []) }
    {
        match FileReader::new(alloc) {
            Ok(reader) => Ok(Coming::Begun(reader)),
            Err(why) => Err(why),
        }
    }

    /// Takes the next bytes.
    pub fn take(self, piece: &[u8]) -> Coming
        requires { 0 < length piece.now }
        ensures { (bytes : List ℕ) → HasCome self bytes → HasCome result (bytes ++ piece.now) }
    {
        match self {
            Coming::Begun(reader) => fed(reader, piece),
            Coming::Whole(_) => Coming::Faulty(LtxFault::Tail),
            Coming::Faulty(fault) => Coming::Faulty(fault),
        }
    }

    /// The file, where no byte follows.
    pub fn finish(self) -> Result<Ltx, LtxFault>
        ensures file { (bytes : List ℕ) → HasCome self bytes → IfOk result (IsLtx bytes) }
        ensures refused { (bytes : List ℕ) → HasCome self bytes → IfErr result (IsRefused bytes) }
    {
        match self {
            Coming::Begun(_) => Err(LtxFault::Short),
            Coming::Whole(file) => Ok(file),
            Coming::Faulty(fault) => Err(fault),
        }
    }
}
