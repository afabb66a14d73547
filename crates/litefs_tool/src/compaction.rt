//! LTX files that become one.
ghost use Rattle.std.specs.Prelude.{List, ℕ, All, IfOk, IfErr, MatchOption};
ghost use Rattle.ltx_codec.specs.Format.{IsFile};
ghost use Rattle.ltx_compact.specs.Compaction.{IsFileButSum};
ghost use Rattle.litefs_tool.specs.Compaction.{AreEncodings, Become, MayRefuse, BecomesEncoding, SaysOtherSum};

use crate::compact_refusal::CompactRefusal;
use crate::gathering::Gathering;
use crate::input::consume_all;
use ltx_codec::{Ltx, encode, sum_of_writes};
use ltx_compact::compact_owned;
use std::alloc::Global;

/// The encoding of the one file that LTX files become, one after another.
pub fn compact_files(alloc: Global, bytes: &[u8]) -> Result<Vec<u8>, CompactRefusal>
    ensures ok { IfOk result (λ out. BecomesEncoding bytes.now out.items) }
    ensures refused { IfErr result (MayRefuse bytes.now) }
{
    let files = consume_all(Gathering::new(alloc)?, bytes)?.finish()?;
    let file = one_file(alloc, files)?;
    let mut out = Vec::new(alloc);
    encode(&file, &mut out)?;
    Ok(out)
}

/// The one file that files become. The sum of a snapshot is looked at.
pub fn one_file(alloc: Global, files: Vec<Ltx>) -> Result<Ltx, CompactRefusal>
    requires { All IsFile files.items }
    ensures ok { (bytes : List ℕ) → AreEncodings bytes files.items → IfOk result (Become bytes) }
    ensures valid { IfOk result IsFile }
    ensures refused { (bytes : List ℕ) → AreEncodings bytes files.items → IfErr result (MayRefuse bytes) }
{
    let file = join(alloc, files)?;
    if let Some((want, got)) = other_sum(&file) {
        return Err(CompactRefusal::SumDiffers { want, got });
    }
    Ok(file)
}

/// The one file that files become. Their pages move into it.
fn join(alloc: Global, files: Vec<Ltx>) -> Result<Ltx, CompactRefusal>
    requires { All IsFile files.items }
    ensures ok { (bytes : List ℕ) → AreEncodings bytes files.items → IfOk result (Become bytes) }
    ensures sound { IfOk result IsFileButSum }
    ensures refused { (bytes : List ℕ) → AreEncodings bytes files.items → IfErr result (MayRefuse bytes) }
{
    Ok(compact_owned(alloc, files)?)
}

/// The sum that a snapshot says and that of its pages, where they differ.
fn other_sum(file: &Ltx) -> Option<(u64, u64)>
    requires { IsFileButSum file.now }
    ensures { MatchOption result (IsFile file.now) (λ sums. SaysOtherSum file.now sums.0 sums.1) }
{
    if file.header.min != 1 {
        return None;
    }
    let want = file.post;
    let got = sum_of_writes(file.change.pages());
    if want == got { None } else { Some((want, got)) }
}
