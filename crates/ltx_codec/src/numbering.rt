//! The rules of page numbers.
ghost use Rattle.std.specs.Prelude.{◌≡◌, ◌<◌, OnOk, IfErr};
ghost use Rattle.lf_sqlite_pages.specs.LockPage.{data_page_after as page_behind};
ghost use Rattle.ltx_codec.specs.Numbering.{MayFollow, BreaksNumbering};

use crate::fault::LtxFault;
use crate::header::Header;
use lf_sqlite_pages::lock_page;

/// Checks a page number behind the number before it, 0 before the first. A number of 0 ends the
/// pages.
pub fn check_number(header: &Header, before: u32, number: u32) -> Result<(), LtxFault>
    requires { 0 < header.now.page_size }
    ensures ok { OnOk result (MayFollow header.now before number) }
    ensures fault { IfErr result (BreaksNumbering header.now before number) }
{
    if number == 0 {
        return check_end(header, before);
    }
    if number <= before {
        return Err(LtxFault::PageOrder);
    }
    if number > header.commit || number == lock_page(header.page_size) {
        return Err(LtxFault::PageRange);
    }
    if header.min == 1 && u64::from(number) != data_page_after(header.page_size, before) {
        return Err(LtxFault::NotWhole);
    }
    Ok(())
}

/// Checks that the pages may end here.
fn check_end(header: &Header, before: u32) -> Result<(), LtxFault>
    requires { 0 < header.now.page_size }
    ensures ok { OnOk result (MayFollow header.now before 0) }
    ensures fault { IfErr result (BreaksNumbering header.now before 0) }
{
    if header.min == 1 && data_page_after(header.page_size, before) <= u64::from(header.commit) {
        return Err(LtxFault::NotWhole);
    }
    Ok(())
}

/// The first data page after a page number.
fn data_page_after(page_size: u32, before: u32) -> u64
    requires { 0 < page_size }
    ensures { result ≡ page_behind page_size before }
{
    let next = u64::from(before) + 1;
    if next == u64::from(lock_page(page_size)) {
        next + 1
    } else {
        next
    }
}
