//! LTX files that are gathered as their bytes come.
ghost use Rattle.std.specs.Prelude.{◌≡◌, ◌≢◌, ◌<◌, ◌≤◌, ◌++◌, List, ℕ, [], All, length, take, IfOk, IfErr, OnOk};
ghost use Rattle.ltx_codec.specs.Format.{IsFile};
ghost use Rattle.litefs_tool.specs.Compaction.{AreEncodings, MayRefuse};
ghost use Rattle.litefs_tool.specs.steps.Gathering.{HasGathered, EndsOneMore, IsGathering};

use crate::compact_refusal::CompactRefusal;
use crate::input::Consumer;
use lf_base::NoMemory;
use ltx_codec::{FileReader, Ltx, LtxFault};
use std::alloc::Global;

/// Files that are gathered as their bytes come.
#[derive(Drop)]
pub enum Gathering {
    /// The encoding of each file so far was read.
    Sound(Gathered),
    /// An encoding has this fault, and what stands behind it is passed over.
    Broken(LtxFault),
}

/// The files so far, and the one that is begun.
#[derive(Drop)]
pub struct Gathered {
    pub reader: FileReader,
    pub files: Vec<Ltx>,
}

impl Consumer for Gathering {
    ghost has_consumed = { IsGathering };

    fn consume_prefix(self, bytes: &[u8]) -> Result<(Gathering, usize), NoMemory> {
        match self {
            Gathering::Sound(gathered) => gathered.consume_prefix(bytes),
            Gathering::Broken(fault) => Ok((Gathering::Broken(fault), bytes.len())),
        }
    }
}

impl Gathering {
    pub fn new(alloc: Global) -> Result<Gathering, NoMemory>
        ensures { IfOk result (λ gathering. IsGathering gathering []) }
    {
        Ok(Gathering::Sound(Gathered {
            reader: FileReader::new(alloc)?,
            files: Vec::new(alloc),
        }))
    }

    /// The files, where nothing follows.
    pub fn finish(self) -> Result<Vec<Ltx>, CompactRefusal>
        requires { (bytes : List ℕ) × IsGathering self bytes }
        ensures encodings { (bytes : List ℕ) → IsGathering self bytes → IfOk result (λ files. AreEncodings bytes files.items) }
        ensures valid { IfOk result (λ files. All IsFile files.items) }
        ensures refused { (bytes : List ℕ) → IsGathering self bytes → IfErr result (MayRefuse bytes) }
    {
        match self {
            Gathering::Sound(gathered) => gathered.finish(),
            Gathering::Broken(fault) => Err(CompactRefusal::Ltx(fault)),
        }
    }
}

impl Gathered {
    fn consume_prefix(self, bytes: &[u8]) -> Result<(Gathering, usize), NoMemory>
        requires begun { (before : List ℕ) × HasGathered self before }
        requires more { 0 < length bytes.now }
        ensures some { IfOk result (λ next. 0 < next.1) }
        ensures within { IfOk result (λ next. next.1 ≤ length bytes.now) }
        ensures consumed { (before : List ℕ) → HasGathered self before → IfOk result (λ next. IsGathering next.0 (before ++ take next.1 bytes.now)) }
    {
        let mut gathered = self;
        match gathered.reader.feed(bytes) {
            Ok(None) => Ok((Gathering::Sound(gathered), bytes.len())),
            Ok(Some((file, used))) => Ok((gathered.add(file)?, used)),
            Err(fault) => Ok((kept(fault)?, bytes.len())),
        }
    }

    /// Adds the file that ended.
    fn add(self, file: Ltx) -> Result<Gathering, NoMemory>
        ensures { (bytes part : List ℕ) → EndsOneMore self bytes part file → IfOk result (λ gathering. IsGathering gathering (bytes ++ part)) }
    {
        let mut gathered = self;
        gathered.files.push(file)?;
        Ok(Gathering::Sound(gathered))
    }

    fn finish(self) -> Result<Vec<Ltx>, CompactRefusal>
        requires { (bytes : List ℕ) × HasGathered self bytes }
        ensures encodings { (bytes : List ℕ) → HasGathered self bytes → IfOk result (λ files. AreEncodings bytes files.items) }
        ensures valid { IfOk result (λ files. All IsFile files.items) }
        ensures refused { (bytes : List ℕ) → HasGathered self bytes → IfErr result (MayRefuse bytes) }
    {
        if !self.reader.is_between() {
            return Err(CompactRefusal::Ltx(LtxFault::Short));
        }
        let Gathered { files, .. } = self;
        Ok(files)
    }
}

/// A fault that is kept. Want of memory is not.
fn kept(fault: LtxFault) -> Result<Gathering, NoMemory>
    ensures kept { IfOk result (λ gathering. gathering ≡ Gathering.Broken fault) }
    ensures not_memory { OnOk result (fault ≢ LtxFault.NoMemory) }
{
    match fault {
        LtxFault::NoMemory => Err(NoMemory),
        _ => Ok(Gathering::Broken(fault)),
    }
}
