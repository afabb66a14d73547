//! The database file read over the committed image.
ghost use Rattle.std.specs.Prelude.{◌≡◌, ◌+◌, ◌-◌, ◌*◌, ◌≤◌, length, map, IfSome, ◌++◌, [], IfOk, IfErr, OnOk, replicate};
ghost use Rattle.std.specs.List.{concat, range_with_len};
ghost use Rattle.lf_base.specs.Faults.{CountsFaults};
ghost use Rattle.lf_sqlite_pages.specs.Image.{image_bytes};
ghost use Rattle.std.specs.Option.{option_copied};
ghost use Rattle.std.specs.FinMap as pages;
ghost use Rattle.database_file.specs.DatabaseFile.{size_over, page_of, as_read, without_pages, FitsShape, bytes_from};
ghost use Rattle.database_file.specs.Fault.{HasCause, SameBase};

use crate::database_file::DatabaseFile;
use crate::fault::FileFault;
use crate::span::{PageSpan, span};
use lf_base::{Failed, NoMemory};
use lf_sqlite_pages::{PageStore, sound_store};
use std::alloc::Global;

/// A page of zeros.
pub(crate) fn zeros(alloc: Global, size: usize) -> Result<Vec<u8>, NoMemory>
    ensures zeros { IfOk result (λ page. page.items ≡ replicate size 0) }
    ensures size { IfOk result (λ page. length page.items ≡ size) }
{
    let bytes = vec![in alloc; 0; size]?;
    Ok(bytes)
}

/// An empty text with room for some pages.
fn room(alloc: Global, pages: u32, page_size: u32) -> Result<Vec<u8>, NoMemory>
    ensures { IfOk result (λ text. text.items ≡ []) }
{
    let bytes = u64::from(pages) * u64::from(page_size);
    let text = Vec::with_capacity(alloc, bytes as usize)?;
    Ok(text)
}

/// The bytes of a text from one place to another: the text itself, cut short, where they are its first.
fn part(alloc: Global, mut text: Vec<u8>, from: usize, to: usize) -> Result<Vec<u8>, NoMemory>
    requires order { from ≤ to }
    requires within { to ≤ length text.items }
    ensures { IfOk result (λ bytes. bytes.items ≡ bytes_from text.items from (to - from)) }
{
    text.truncate(to);
    if from == 0 {
        return Ok(text);
    }
    let bytes = Vec::from_slice(alloc, &text.as_slice()[from..])?;
    Ok(bytes)
}

impl DatabaseFile {
    /// The bytes that are kept of page `n`, passing over some pages.
    fn kept_without(&self, passed: &[u32], n: u32) -> Option<&[u8]>
        ensures { option_copied result ≡ pages.get (without_pages self.now passed.now).kept n }
    {
        if passed.contains(&n) {
            return None;
        }
        self.kept(n)
    }

    /// Puts page `n` into `out`, which is one page long, as the file reads: a kept page, else the
    /// image's, else zeros.
    pub fn read_page<S: PageStore>(
        &self,
        base: &mut S,
        n: u32,
        out: &mut [u8],
    ) -> Result<(), Failed>
        requires fits { FitsShape self.now (S.page_size base.old) (S.commit base.old) }
        requires first { 1 ≤ n }
        requires whole { length out.old ≡ size_over self.now (S.page_size base.old) (S.commit base.old) }
        ensures bytes { OnOk result (IfSome (S.image base.old) (λ i. out.new ≡ page_of self.now i n)) }
        ensures cause { CountsFaults (S.faults base.old) (S.faults base.new) result }
        ensures base { SameBase S.PageStore base.old base.new }
    {
        self.read_page_without(&[], base, n, out)
    }

    /// The same as if nothing were kept of some pages.
    fn read_page_without<S: PageStore>(
        &self,
        passed: &[u32],
        base: &mut S,
        n: u32,
        out: &mut [u8],
    ) -> Result<(), Failed>
        requires fits { FitsShape (without_pages self.now passed.now) (S.page_size base.old) (S.commit base.old) }
        requires first { 1 ≤ n }
        requires whole { length out.old ≡ size_over self.now (S.page_size base.old) (S.commit base.old) }
        ensures bytes { OnOk result (IfSome (S.image base.old) (λ i. out.new ≡ page_of (without_pages self.now passed.now) i n)) }
        ensures cause { CountsFaults (S.faults base.old) (S.faults base.new) result }
        ensures base { SameBase S.PageStore base.old base.new }
    {
        sound_store(base);
        let commit = base.commit();
        if let Some(page) = self.kept_without(passed, n) {
            out.copy_from_slice(page);
            return Ok(());
        }
        if n <= commit {
            return base.page(n, out);
        }
        out.fill(0);
        Ok(())
    }

    /// Puts page `n`, as the file reads without what it keeps of some pages, behind a text. The page is
    /// read where it is to stand.
    fn append<S: PageStore>(
        &self,
        passed: &[u32],
        base: &mut S,
        n: u32,
        page_size: u32,
        text: &mut Vec<u8>,
    ) -> Result<(), FileFault>
        requires fits { FitsShape (without_pages self.now passed.now) (S.page_size base.old) (S.commit base.old) }
        requires first { 1 ≤ n }
        requires whole { page_size ≡ size_over self.now (S.page_size base.old) (S.commit base.old) }
        ensures bytes { OnOk result (IfSome (S.image base.old) (λ i. text.new.items ≡ text.old.items ++ page_of (without_pages self.now passed.now) i n)) }
        ensures length { OnOk result (length text.new.items ≡ length text.old.items + page_size) }
        ensures faults { OnOk result (S.faults base.new ≡ S.faults base.old) }
        ensures cause { IfErr result (HasCause (S.faults base.old) (S.faults base.new)) }
        ensures base { SameBase S.PageStore base.old base.new }
    {
        let start = text.len();
        text.resize(start + page_size as usize, 0)
            .map_err(NoMemory::from)?;
        let (_, page) = text.as_mut_slice().split_at_mut(start);
        self.read_page_without(passed, base, n, page)?;
        Ok(())
    }

    /// Puts the pages of a span, as the file reads without what it keeps of some pages, behind an empty
    /// text, one after another.
    fn append_all<S: PageStore>(
        &self,
        passed: &[u32],
        base: &mut S,
        span: PageSpan,
        page_size: u32,
        text: &mut Vec<u8>,
    ) -> Result<(), FileFault>
        requires fits { FitsShape (without_pages self.now passed.now) (S.page_size base.old) (S.commit base.old) }
        requires order { span.before ≤ span.after }
        requires whole { page_size ≡ size_over self.now (S.page_size base.old) (S.commit base.old) }
        requires empty { text.old.items ≡ [] }
        ensures bytes { OnOk result (IfSome (S.image base.old) (λ i. text.new.items ≡ concat (map (page_of (without_pages self.now passed.now) i) (range_with_len (span.before + 1) (span.after - span.before))))) }
        ensures length { OnOk result (length text.new.items ≡ (span.after - span.before) * page_size) }
        ensures faults { OnOk result (S.faults base.new ≡ S.faults base.old) }
        ensures cause { IfErr result (HasCause (S.faults base.old) (S.faults base.new)) }
        ensures base { SameBase S.PageStore base.old base.new }
    {
        for number in span.before..span.after {
            self.append(passed, base, number + 1, page_size, text)?;
        }
        Ok(())
    }

    /// Reads as many bytes from `at` on as there are, at most `size`.
    pub fn read<S: PageStore>(
        &self,
        alloc: Global,
        base: &mut S,
        at: u64,
        size: u32,
    ) -> Result<Vec<u8>, FileFault>
        requires fits { FitsShape self.now (S.page_size base.old) (S.commit base.old) }
        ensures bytes { IfOk result (λ bytes. IfSome (S.image base.old) (λ i. bytes.items ≡ bytes_from (image_bytes (as_read self.now i)) at size)) }
        ensures faults { OnOk result (S.faults base.new ≡ S.faults base.old) }
        ensures cause { IfErr result (HasCause (S.faults base.old) (S.faults base.new)) }
        ensures base { SameBase S.PageStore base.old base.new }
    {
        self.read_without(alloc, &[], base, at, size)
    }

    /// The same as if nothing were kept of the pages of some numbers, which are few: each page that is
    /// read is looked for among them.
    pub fn read_without<S: PageStore>(
        &self,
        alloc: Global,
        passed: &[u32],
        base: &mut S,
        at: u64,
        size: u32,
    ) -> Result<Vec<u8>, FileFault>
        requires fits { FitsShape (without_pages self.now passed.now) (S.page_size base.old) (S.commit base.old) }
        ensures bytes { IfOk result (λ bytes. IfSome (S.image base.old) (λ i. bytes.items ≡ bytes_from (image_bytes (as_read (without_pages self.now passed.now) i)) at size)) }
        ensures faults { OnOk result (S.faults base.new ≡ S.faults base.old) }
        ensures cause { IfErr result (HasCause (S.faults base.old) (S.faults base.new)) }
        ensures base { SameBase S.PageStore base.old base.new }
    {
        let commit = base.commit();
        let page_size = self.size_over(base.page_size(), commit);
        let count = self.count_over(commit);
        let length = u64::from(count) * u64::from(page_size);
        let end = at.saturating_add(u64::from(size)).min(length);
        if at >= end {
            return Ok(Vec::new(alloc));
        }
        let (before, after) = span(at, end, u64::from(page_size), u64::from(count));
        let mut text = room(alloc, (after - before) as u32, page_size)?;
        self.append_all(
            passed,
            base,
            PageSpan {
                before: before as u32,
                after: after as u32,
            },
            page_size,
            &mut text,
        )?;
        let from = (at - before * u64::from(page_size)) as usize;
        let bytes = part(alloc, text, from, from + (end - at) as usize)?;
        Ok(bytes)
    }
}
