ghost use Rattle.std.specs.Prelude.{◌≡◌, All, IfOk, OnOk, IfErr};
ghost use Rattle.ltx_codec.specs.Format.{IsFile};
ghost use Rattle.ltx_compact.specs.Compaction.{Compacts, HoldsWhatIsLeft, IsFileButSum};
ghost use Rattle.ltx_compact.specs.Joining.{AllJoin, IsWhy};
ghost use Rattle.ltx_compact.specs.Application.{DoesAsFiles};

use crate::fault::CompactFault;
use crate::joining::check_all;
use crate::leaving::{change_of, change_of_owned};
use ltx_codec::{Header, Ltx};
use std::alloc::Global;

/// One file that does what files do that join one another: its data pages are those that the files
/// leave. Of what `encode` asks, it meets the rules of the header and of the page block, and those
/// of the sum where it is no snapshot or says the sum of its pages: whether the last file says the
/// right sum is not looked at. A page that was cut off comes back as zeros, so its size is bounded
/// by the last file's number of pages alone.
pub fn compact(alloc: Global, files: &[Ltx]) -> Result<Ltx, CompactFault>
    requires { All IsFile files.now }
    ensures ok { IfOk result (Compacts files.now) }
    ensures pages { IfOk result (λ file. HoldsWhatIsLeft files.now file.change) }
    ensures same { IfOk result (λ file. DoesAsFiles files.now file.change) }
    ensures encodes { IfOk result IsFileButSum }
    ensures joined { OnOk result (AllJoin files.now) }
    ensures fault { IfErr result (IsWhy files.now) }
{
    check_all(files)?;
    let first = &files[0];
    let last = &files[files.len() - 1];
    let header = header_of(&first.header, &last.header);
    let change = change_of(alloc, files, header.page_size, header.commit)?;
    Ok(Ltx {
        header,
        change,
        post: last.post,
    })
}

/// The same of files that are given up: their pages move into the one file, and those that it does not
/// hold are let go file by file, so that no page is held twice.
pub fn compact_owned(alloc: Global, files: Vec<Ltx>) -> Result<Ltx, CompactFault>
    requires { All IsFile files.items }
    ensures ok { IfOk result (Compacts files.items) }
    ensures pages { IfOk result (λ file. HoldsWhatIsLeft files.items file.change) }
    ensures same { IfOk result (λ file. DoesAsFiles files.items file.change) }
    ensures encodes { IfOk result IsFileButSum }
    ensures joined { OnOk result (AllJoin files.items) }
    ensures fault { IfErr result (IsWhy files.items) }
{
    let list = files.as_slice();
    check_all(list)?;
    let first = &list[0];
    let last = &list[list.len() - 1];
    let header = header_of(&first.header, &last.header);
    let post = last.post;
    let change = change_of_owned(alloc, files, header.page_size, header.commit)?;
    Ok(Ltx {
        header,
        change,
        post,
    })
}

/// The header of the one file, of those of the first and the last.
fn header_of(first: &Header, last: &Header) -> Header
    ensures { result ≡ record last.now { min = first.now.min; pre = first.now.pre; wal_offset = 0; wal_size = 0; wal_salt1 = 0; wal_salt2 = 0 } }
{
    Header {
        min: first.min,
        pre: first.pre,
        wal_offset: 0,
        wal_size: 0,
        wal_salt1: 0,
        wal_salt2: 0,
        ..*last
    }
}
