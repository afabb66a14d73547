//! Whether files join one another.
ghost use Rattle.std.specs.Prelude.{◌≤◌, All, OnOk, IfErr};
ghost use Rattle.ltx_codec.specs.Format.{IsFile};
ghost use Rattle.ltx_compact.specs.Joining.{Joins, DoNotJoin, AllJoin, IsWhy};

use crate::fault::CompactFault;
use ltx_codec::Ltx;

/// Checks that there is a file, and that each joins the one before it.
pub fn check_all(files: &[Ltx]) -> Result<(), CompactFault>
    requires { All IsFile files.now }
    ensures ok { OnOk result (AllJoin files.now) }
    ensures fault { IfErr result (IsWhy files.now) }
{
    if files.is_empty() {
        return Err(CompactFault::Empty);
    }
    for index in 1..files.len() {
        check(&files[index - 1], &files[index], index + 1)?;
    }
    Ok(())
}

/// Checks that the file at a place joins the one before it.
fn check(before: &Ltx, file: &Ltx, at: usize) -> Result<(), CompactFault>
    requires { 1 ≤ file.now.header.min }
    ensures ok { OnOk result (Joins before.now file.now) }
    ensures fault { IfErr result (DoNotJoin before.now file.now at) }
{
    if file.header.min - 1 != before.header.max {
        return Err(CompactFault::Gap { at });
    }
    let want = before.post;
    let got = file.header.pre;
    if want != got {
        return Err(CompactFault::SumGap { at, want, got });
    }
    if file.header.page_size != before.header.page_size {
        return Err(CompactFault::PageSize { at });
    }
    Ok(())
}
