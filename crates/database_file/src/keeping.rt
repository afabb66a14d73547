//! Pages kept over those of the committed image.
ghost use Rattle.std.specs.Prelude.{◌≡◌, ◌≢◌, ◌+◌, ◌-◌, ◌/◌, ◌≤◌, ◌<◌, ◌^◌, length, Some, Ok, true, IfSome, IfOk, IfErr, OnOk, OnErr, ℕ, List, replicate, if◌then◌else◌};
ghost use Rattle.std.specs.FinMap as pages;
ghost use Rattle.lf_base.specs.Faults.{CountsFaults};
ghost use Rattle.lf_sqlite_pages.specs.LockPage.{lock_page_of, IsDataPage};
ghost use Rattle.database_file.specs.Fault.{HasCause, SameBase};
ghost use Rattle.database_file.specs.WritingParts.{counted, HasRooms, ArePut, MayKeepZeros, KeepsZeros, KeepsZero, TellsSame};

use crate::comparing::{is_committed, page_in};
use crate::fault::FileFault;
use crate::span::PageSpan;
use lf_base::Failed;
use lf_sqlite_pages::{Overlay, PageStore, lock_page, sound_store};

/// The number of pages as it is kept: only where it isn't the image's.
pub(crate) fn counted(count: u32, commit: u32) -> Option<u32>
    ensures { result ≡ counted count commit }
{
    if count == commit { None } else { Some(count) }
}

/// Keeps the pages of `bytes` from page `first` on, and drops those that the image has: `same` says
/// which. Room was reserved.
pub(crate) fn put_all(kept: &mut Overlay, first: u32, bytes: &[u8], size: usize, same: &[bool])
    requires some { 0 < size }
    requires count { length same.now ≡ length bytes.now / size }
    requires numbered { first + length same.now ≤ 2 ^ 32 }
    requires room { HasRooms kept.old (length same.now) size }
    ensures { ArePut kept.old.pages first bytes.now size (length same.now) same.now kept.new.pages }
{
    for at in 0..same.len() {
        put(kept, first + at as u32, page_in(bytes, size, at), same[at]);
    }
}

/// Keeps page `n`, or drops it where the image has the same. Room was reserved.
fn put(kept: &mut Overlay, n: u32, page: &[u8], same: bool)
    requires { HasRooms kept.old 1 (length page.now) }
    ensures pages { kept.new.pages ≡ (if same then pages.remove kept.old.pages n else pages.insert kept.old.pages n page.now) }
    ensures size { kept.new.size ≡ kept.old.size }
    ensures spare { kept.old.spare ≤ kept.new.spare + 1 }
{
    if same {
        kept.remove(n);
    } else {
        kept.put(n, page);
    }
}

/// Keeps zeros for the pages of a span where the committed image has other bytes, and reserves room
/// for `more` pages. After a fault nothing changed.
pub(crate) fn keep_zeros<S: PageStore>(
    kept: &mut Overlay,
    base: &mut S,
    span: PageSpan,
    blank: &[u8],
    standing: &mut [u8],
    more: u32,
) -> Result<(), FileFault>
    requires none { (n : ℕ) → (page : List ℕ) → pages.get kept.old.pages n ≡ Some page → n ≤ span.before }
    requires within { span.after ≤ S.commit base.old }
    requires size { span.before < span.after → length blank.now ≡ S.page_size base.old }
    requires some { 0 < length blank.now }
    requires small { length blank.now < 2 ^ 32 }
    requires blank { blank.now ≡ replicate (length blank.now) 0 }
    requires buffer { length standing.old ≡ length blank.now }
    requires few { more < 2 ^ 32 - 1 }
    ensures zeros { OnOk result (MayKeepZeros kept.old.pages span.before span.after (length blank.now) kept.new.pages) }
    ensures told { OnOk result (IfSome (S.image base.old) (KeepsZeros kept.new.pages span.before span.after (length blank.now))) }
    ensures room { OnOk result (HasRooms kept.new more (length blank.now)) }
    ensures err { OnErr result (kept.new.pages ≡ kept.old.pages) }
    ensures faults { OnOk result (S.faults base.new ≡ S.faults base.old) }
    ensures cause { IfErr result (HasCause (S.faults base.old) (S.faults base.new)) }
    ensures base { SameBase S.PageStore base.old base.new }
{
    match fill(kept, base, span, blank, standing, more) {
        Ok(()) => Ok(()),
        Err(fault) => {
            kept.cut(span.before);
            Err(fault)
        }
    }
}

/// The same, with the pages so far left there after a fault.
fn fill<S: PageStore>(
    kept: &mut Overlay,
    base: &mut S,
    span: PageSpan,
    blank: &[u8],
    standing: &mut [u8],
    more: u32,
) -> Result<(), FileFault>
    requires within { span.after ≤ S.commit base.old }
    requires size { span.before < span.after → length blank.now ≡ S.page_size base.old }
    requires some { 0 < length blank.now }
    requires small { length blank.now < 2 ^ 32 }
    requires blank { blank.now ≡ replicate (length blank.now) 0 }
    requires buffer { length standing.old ≡ length blank.now }
    requires few { more < 2 ^ 32 - 1 }
    ensures before { (n : ℕ) → n ≤ span.before → pages.get kept.new.pages n ≡ pages.get kept.old.pages n }
    ensures zeros { OnOk result (MayKeepZeros kept.old.pages span.before span.after (length blank.now) kept.new.pages) }
    ensures told { OnOk result (IfSome (S.image base.old) (KeepsZeros kept.new.pages span.before span.after (length blank.now))) }
    ensures room { OnOk result (HasRooms kept.new more (length blank.now)) }
    ensures faults { OnOk result (S.faults base.new ≡ S.faults base.old) }
    ensures cause { IfErr result (HasCause (S.faults base.old) (S.faults base.new)) }
    ensures base { SameBase S.PageStore base.old base.new }
{
    kept.reserve(more, blank.len() as u32)?;
    for number in span.before..span.after {
        keep_blank(kept, base, number + 1, blank, standing, more)?;
    }
    Ok(())
}

/// Keeps zeros for page `n`, unless the committed image has zeros there. The lock page is zeros.
fn keep_blank<S: PageStore>(
    kept: &mut Overlay,
    base: &mut S,
    n: u32,
    blank: &[u8],
    standing: &mut [u8],
    more: u32,
) -> Result<(), FileFault>
    requires first { 1 ≤ n }
    requires last { n ≤ S.commit base.old }
    requires size { length blank.now ≡ S.page_size base.old }
    requires some { 0 < length blank.now }
    requires small { length blank.now < 2 ^ 32 }
    requires blank { blank.now ≡ replicate (length blank.now) 0 }
    requires buffer { length standing.old ≡ length blank.now }
    requires few { more < 2 ^ 32 - 1 }
    requires room { HasRooms kept.old more (length blank.now) }
    ensures others { (k : ℕ) → k ≢ n → pages.get kept.new.pages k ≡ pages.get kept.old.pages k }
    ensures zeros { OnOk result ((page : List ℕ) → pages.get kept.new.pages n ≡ Some page → (page ≡ replicate (length blank.now) 0) × IsDataPage (length blank.now) n) }
    ensures told { OnOk result (IfSome (S.image base.old) (KeepsZero kept.new.pages n (length blank.now))) }
    ensures room { OnOk result (HasRooms kept.new more (length blank.now)) }
    ensures faults { OnOk result (S.faults base.new ≡ S.faults base.old) }
    ensures cause { IfErr result (HasCause (S.faults base.old) (S.faults base.new)) }
    ensures base { SameBase S.PageStore base.old base.new }
{
    let same = is_blank(base, n, blank, standing)?;
    kept.reserve(more + 1, blank.len() as u32)?;
    put(kept, n, blank, same);
    Ok(())
}

/// Whether page `n` of the committed image is zeros, as the lock page is.
#[tactic(auto, using(crate::proofs::ZeroLemmas::lock_page_same))]
fn is_blank<S: PageStore>(
    base: &mut S,
    n: u32,
    blank: &[u8],
    standing: &mut [u8],
) -> Result<bool, Failed>
    requires first { 1 ≤ n }
    requires last { n ≤ S.commit base.old }
    requires size { length blank.now ≡ S.page_size base.old }
    requires some { 0 < length blank.now }
    requires small { length blank.now < 2 ^ 32 }
    requires blank { blank.now ≡ replicate (length blank.now) 0 }
    requires buffer { length standing.old ≡ length blank.now }
    ensures same { IfOk result (TellsSame (S.image base.old) n blank.now) }
    ensures lock_page { n ≡ lock_page_of (length blank.now) → result ≡ Ok true }
    ensures cause { CountsFaults (S.faults base.old) (S.faults base.new) result }
    ensures base { SameBase S.PageStore base.old base.new }
{
    sound_store(base);
    if n == lock_page(blank.len() as u32) {
        return Ok(true);
    }
    is_committed(base, n, blank, standing)
}
