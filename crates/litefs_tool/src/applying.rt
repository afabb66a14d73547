//! LTX files that are applied as their bytes come.
ghost use Rattle.std.specs.Prelude.{◌≡◌, ◌≢◌, ◌<◌, ◌≤◌, ◌++◌, List, ℕ, [], length, take, IfOk, IfErr, OnOk};
ghost use Rattle.ltx_codec.specs.Format.{IsFile};
ghost use Rattle.litefs_tool.specs.steps.Applying.{HasSum, HasApplied, EndsFile, IsApplying};
ghost use Rattle.litefs_tool.specs.Files.{MakesOf};

use crate::database::Database;
use crate::input::{Consumer, consume_all};
use crate::refusal::Refusal;
use lf_base::NoMemory;
use lf_sqlite_pages::Image;
use ltx_codec::{FileReader, Ltx, LtxFault};
use std::alloc::Global;

/// Files that are applied as their bytes come.
#[derive(Drop)]
pub enum Applying {
    /// Each file so far was applied.
    Sound(Progress),
    /// Of the files one was refused, and what stands behind it is passed over.
    Refused(Refusal),
}

/// How far the files were applied.
#[derive(Drop)]
pub struct Progress {
    pub alloc: Global,
    pub reader: FileReader,
    pub database: Database,
    /// No file was whole yet.
    pub is_first: bool,
}

impl Consumer for Applying {
    ghost has_consumed = { IsApplying };

    fn consume_prefix(self, bytes: &[u8]) -> Result<(Applying, usize), NoMemory> {
        match self {
            Applying::Sound(progress) => progress.consume_prefix(bytes),
            Applying::Refused(why) => Ok((Applying::Refused(why), bytes.len())),
        }
    }
}

impl Applying {
    pub fn new(alloc: Global) -> Result<Applying, NoMemory>
        ensures { IfOk result (λ applying. IsApplying applying []) }
    {
        Ok(Applying::Sound(Progress {
            alloc,
            reader: FileReader::new(alloc)?,
            database: Database::new(alloc),
            is_first: true,
        }))
    }

    /// What the files come to, where nothing follows.
    pub fn finish(self) -> Result<Image, Refusal>
        ensures { (bytes : List ℕ) → IsApplying self bytes → MakesOf bytes result }
    {
        match self {
            Applying::Sound(progress) => progress.finish(),
            Applying::Refused(why) => Err(why),
        }
    }
}

impl Progress {
    fn consume_prefix(self, bytes: &[u8]) -> Result<(Applying, usize), NoMemory>
        requires begun { (before : List ℕ) × HasApplied self before }
        requires more { 0 < length bytes.now }
        ensures some { IfOk result (λ next. 0 < next.1) }
        ensures within { IfOk result (λ next. next.1 ≤ length bytes.now) }
        ensures consumed { (before : List ℕ) → HasApplied self before → IfOk result (λ next. IsApplying next.0 (before ++ take next.1 bytes.now)) }
    {
        let mut progress = self;
        match progress.reader.feed(bytes) {
            Ok(None) => Ok((Applying::Sound(progress), bytes.len())),
            Ok(Some((file, used))) => Ok((progress.apply(file)?, used)),
            Err(fault) => Ok((kept(Refusal::from(fault))?, bytes.len())),
        }
    }

    /// Applies the file that ended.
    fn apply(self, file: Ltx) -> Result<Applying, NoMemory>
        requires valid { IsFile file }
        requires sum { HasSum self.database }
        ensures { (bytes part : List ℕ) → EndsFile self bytes part file → IfOk result (λ applying. IsApplying applying (bytes ++ part)) }
    {
        let Progress {
            alloc,
            reader,
            database,
            ..
        } = self;
        match database.apply(alloc, file) {
            Ok(database) => Ok(Applying::Sound(Progress {
                alloc,
                reader,
                database,
                is_first: false,
            })),
            Err(why) => kept(why),
        }
    }

    fn finish(self) -> Result<Image, Refusal>
        ensures { (bytes : List ℕ) → HasApplied self bytes → MakesOf bytes result }
    {
        let is_between = self.reader.is_between();
        if self.is_first || !is_between {
            return Err(Refusal::Ltx(LtxFault::Short));
        }
        let Progress { database, .. } = self;
        let Database { image, pos: _ } = database;
        Ok(image)
    }
}

/// The database that LTX files make, one after another. The first is a snapshot, and each next joins
/// the one before.
pub fn apply_files(alloc: Global, bytes: &[u8]) -> Result<Image, Refusal>
    ensures { MakesOf bytes.now result }
{
    consume_all(Applying::new(alloc)?, bytes)?.finish()
}

/// A refusal that is kept. Want of memory is not.
fn kept(why: Refusal) -> Result<Applying, NoMemory>
    ensures kept { IfOk result (λ applying. applying ≡ Applying.Refused why) }
    ensures not_memory { OnOk result (why ≢ Refusal.NoMemory) }
{
    match why {
        Refusal::NoMemory => Err(NoMemory),
        _ => Ok(Applying::Refused(why)),
    }
}
