//! Pages that the file keeps so that it stays as it reads once a commit is done.
ghost use Rattle.std.specs.Prelude.{◌≡◌, ◌≢◌, ℕ, ◌+◌, ◌++◌, ◌≤◌, ◌<◌, ◌^◌, [], length, None, Some, IsSome, OnOk, IfSome, IfErr};
ghost use Rattle.std.specs.Option.{option_copied};
ghost use Rattle.std.specs.FinMap as pages;
ghost use Rattle.lf_sqlite_pages.specs.LockPage.{IsDataPage};
ghost use Rattle.lf_sqlite_pages.specs.Change.{written};
ghost use Rattle.database_file.specs.DatabaseFile.{FitsShape, KeepsDifferences, count_over, size_over, page_of};
ghost use Rattle.database_file.specs.Fault.{HasCause, SameBase};
ghost use Rattle.database_file.specs.WritingParts.{Pages};
ghost use Rattle.database_under_log.specs.Staying.{without};
ghost use Rattle.database_under_log.specs.HoldingParts.{is_left, IsNoted, IsBack, ReadsOn, StaysTo};

use database_file::{DatabaseFile, FileFault};
use lf_base::NoMemory;
use lf_sqlite_pages::{Change, PageStore, lock_page, sound_store};
use std::alloc::Global;

/// The numbers of the pages that were kept for a commit, and of those kept before that the image has
/// after it.
#[derive(Drop)]
pub(crate) struct Held {
    pub(crate) added: Vec<u32>,
    pub(crate) same: Vec<u32>,
}

impl Held {
    /// No numbers.
    pub(crate) fn new(alloc: Global) -> Held
        ensures added { result.added.items ≡ [] }
        ensures same { result.same.items ≡ [] }
    {
        Held {
            added: Vec::new(alloc),
            same: Vec::new(alloc),
        }
    }
}

/// Whether a page is left as it is by another one in its place, if there is one.
fn is_left(new: Option<&[u8]>, page: &[u8]) -> bool
    ensures { result ≡ is_left (option_copied new.entry) page.now }
{
    match new {
        Some(other) => other == page,
        None => false,
    }
}

/// Keeps page `n`, as the file reads, unless it is kept already or left by the commit.
fn note(
    file: &mut DatabaseFile,
    held: &mut Held,
    n: u32,
    page: &[u8],
    left: bool,
) -> Result<(), NoMemory>
    requires small { length page.now < 2 ^ 32 }
    ensures noted { OnOk result (IsNoted file.old held.old n page.now left file.new held.new) }
    ensures back { (m : Pages) → IsBack m file.old.kept held.old.added.items → IsBack m file.new.kept held.new.added.items }
    ensures page_size { file.new.page_size ≡ file.old.page_size }
    ensures count { file.new.count ≡ file.old.count }
{
    if file.kept(n).is_some() {
        if left {
            held.same.push(n)?;
        }
        return Ok(());
    }
    if left {
        return Ok(());
    }
    held.added.push(n)?;
    file.keep(n, page)
}

/// Keeps page `n`, as the file reads, unless it is kept already or left by the commit: `new` is the
/// image's page after that, if it has one. The page is read into a buffer of its size.
fn hold<S: PageStore>(
    file: &mut DatabaseFile,
    base: &mut S,
    held: &mut Held,
    n: u32,
    new: Option<&[u8]>,
    page: &mut [u8],
) -> Result<(), FileFault>
    requires fits { FitsShape file.old (S.page_size base.old) (S.commit base.old) }
    requires first { 1 ≤ n }
    requires whole { length page.old ≡ size_over file.old (S.page_size base.old) (S.commit base.old) }
    requires small { length page.old < 2 ^ 32 }
    ensures noted { OnOk result (IsNoted file.old held.old n page.new (is_left (option_copied new.entry) page.new) file.new held.new) }
    ensures page { OnOk result (IfSome (S.image base.old) (λ i. page.new ≡ page_of file.old i n)) }
    ensures back { (m : Pages) → IsBack m file.old.kept held.old.added.items → IsBack m file.new.kept held.new.added.items }
    ensures shape { (file.new.page_size ≡ file.old.page_size) × (file.new.count ≡ file.old.count) }
    ensures faults { OnOk result (S.faults base.new ≡ S.faults base.old) }
    ensures cause { IfErr result (HasCause (S.faults base.old) (S.faults base.new)) }
    ensures base { SameBase S.PageStore base.old base.new }
{
    file.read_page(base, n, page)?;
    let left = is_left(new, page);
    note(file, held, n, page, left)?;
    Ok(())
}

/// Keeps the pages that let the file stay as it reads once a change is made of the image: those that
/// the change writes, and those past its end. Pages are read into a buffer of their size.
pub(crate) fn hold_pages<S: PageStore>(
    file: &mut DatabaseFile,
    base: &mut S,
    held: &mut Held,
    change: &Change,
    page: &mut [u8],
) -> Result<(), FileFault>
    requires fits { FitsShape file.old (S.page_size base.old) (S.commit base.old) }
    requires added { held.old.added.items ≡ [] }
    requires same { held.old.same.items ≡ [] }
    requires whole { length page.old ≡ change.now.page_size }
    requires sized { 0 < count_over file.old (S.commit base.old) → size_over file.old (S.page_size base.old) (S.commit base.old) ≡ change.now.page_size }
    requires complete { (n : ℕ) → S.commit base.old < n → n ≤ change.now.commit → IsDataPage change.now.page_size n → IsSome (written change.now.pages n) }
    ensures fits { OnOk result (FitsShape file.new (S.page_size base.old) (S.commit base.old)) }
    ensures told { OnOk result (IfSome (S.image base.old) (λ i. KeepsDifferences file.old i → ReadsOn file.old file.new i
        × StaysTo file.old file.new held.new.same.items i change.now (count_over file.old (length i.pages)))) }
    ensures back { IsBack file.old.kept file.new.kept held.new.added.items }
    ensures shape { (file.new.page_size ≡ file.old.page_size) × (file.new.count ≡ file.old.count) }
    ensures faults { OnOk result (S.faults base.new ≡ S.faults base.old) }
    ensures cause { IfErr result (HasCause (S.faults base.old) (S.faults base.new)) }
    ensures base { SameBase S.PageStore base.old base.new }
{
    sound_store(base);
    let commit = base.commit();
    let count = file.count_over(commit);
    let lock_page = lock_page(change.page_size());
    let pages = change.pages();
    for at in 0..pages.len() {
        let write = &pages[at];
        if write.number <= count {
            let new = Some(write.bytes.as_slice());
            hold(file, base, held, write.number, new, page)?;
        }
    }
    for before in change.commit()..count.min(commit) {
        if before + 1 != lock_page {
            hold(file, base, held, before + 1, None, page)?;
        }
    }
    Ok(())
}

/// Keeps nothing of the pages of these numbers. It takes no memory.
pub(crate) fn let_go(file: &mut DatabaseFile, numbers: &[u32])
    ensures { file.new ≡ record file.old { kept = without file.old.kept numbers.now } }
{
    for n in numbers {
        file.let_go(*n);
    }
}
