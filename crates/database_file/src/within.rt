//! The pages of a change within a number of pages.
ghost use Rattle.std.specs.Prelude.{◌≡◌, ◌++◌, ◌≤◌, ◌<◌, length, None, Some, [], OnOk, nat_le, if◌then◌else◌};
ghost use Rattle.lf_sqlite_pages.specs.LockPage.{IsDataPage};
ghost use Rattle.lf_sqlite_pages.specs.Change.{last_number, written};
ghost use Rattle.database_file.specs.CommitParts.{WritesTo, one_write};

use lf_base::NoMemory;
use lf_sqlite_pages::{Change, PageWrite};

/// Adds the pages of a change within the first `count` pages.
pub fn push_within(news: &Change, change: &mut Change, count: u32) -> Result<(), NoMemory>
    requires empty { change.old.pages ≡ [] }
    requires size { change.old.page_size ≡ news.now.page_size }
    requires commit { change.old.commit ≡ news.now.commit }
    ensures size { OnOk result (change.new.page_size ≡ change.old.page_size) }
    ensures commit { OnOk result (change.new.commit ≡ change.old.commit) }
    ensures last { OnOk result (last_number change.new.pages ≤ count) }
    ensures writes { OnOk result (WritesTo (written news.now.pages) count change.new.pages) }
{
    let pages = news.pages();
    for at in 0..pages.len() {
        push_one(change, &pages[at], count)?;
    }
    Ok(())
}

/// Adds a page, if it lies within the first `count` pages.
fn push_one(change: &mut Change, write: &PageWrite, count: u32) -> Result<(), NoMemory>
    requires ascending { last_number change.old.pages < write.now.number }
    requires within { write.now.number ≤ change.old.commit }
    requires holds_data { IsDataPage change.old.page_size write.now.number }
    requires whole { length write.now.bytes ≡ change.old.page_size }
    ensures ok { OnOk result (change.new ≡ record change.old { pages = change.old.pages ++ one_write write.now.number (if nat_le write.now.number count then Some write.now.bytes else None) }) }
    ensures last { OnOk result (last_number change.new.pages ≤ write.now.number) }
    ensures low { OnOk result (last_number change.old.pages ≤ count → last_number change.new.pages ≤ count) }
{
    if write.number > count {
        return Ok(());
    }
    change.push(write.number, write.bytes.as_slice())
}
