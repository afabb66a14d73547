//! The sum of an image after a change, from its sum before: the pages that stay are not summed.
ghost use Rattle.std.specs.Prelude.{◌≡◌, ◌+◌, ◌-◌, ◌<◌, ◌≤◌, ◌⊎◌, [], IfOk, replicate};
ghost use Rattle.page_checksum.specs.Sums.{flagged};
ghost use Rattle.lf_sqlite_pages.specs.Apply.{Fits, apply};
ghost use Rattle.lf_sqlite_pages.specs.Change.{IsChange};
ghost use Rattle.ltx_codec.specs.Format.{IsFile};
ghost use Rattle.ltx_codec.specs.Sums.{sum_of_writes as sum_of_all, image_sum};
ghost use Rattle.ltx_codec.specs.Positions.{sum_after as sum_behind};
ghost use Rattle.ltx_codec.specs.steps.ChangedSum.{joined_over, standing_sum as sum_standing, rewriting_sum};

use crate::file::Ltx;
use lf_base::NoMemory;
use lf_sqlite_pages::{Change, Image, PageWrite, lock_page};
use page_checksum::{CHECKSUM_FLAG, page_sum};
use std::alloc::Global;

/// The sum of a database of these pages, each with its number.
pub fn sum_of_writes(pages: &[PageWrite]) -> u64
    ensures { result ≡ sum_of_all pages.now }
{
    let mut sum = 0;
    for w in pages {
        sum ^= page_sum(w.number, w.bytes.as_slice());
    }
    sum | CHECKSUM_FLAG
}

/// The sum of an image after a file that fits it. `sum` is that of the image, bit 63 aside.
pub fn sum_after(alloc: Global, sum: u64, image: &Image, file: &Ltx) -> Result<u64, NoMemory>
    requires valid { IsFile file.now }
    requires fits { Fits image.now file.now.change }
    requires sum { flagged sum ≡ image_sum image.now }
    ensures { IfOk result (λ after. after ≡ sum_behind image.now file.now) }
{
    if file.header.min == 1 {
        // A snapshot is one only where its sum is that of its pages.
        return Ok(file.post);
    }
    changed_sum(alloc, sum, image, &file.change)
}

/// The sum of an image after a change that fits it. `sum` is that of the image, bit 63 aside.
pub fn changed_sum(alloc: Global, sum: u64, image: &Image, change: &Change) -> Result<u64, NoMemory>
    requires fits { Fits image.now change.now }
    requires sum { flagged sum ≡ image_sum image.now }
    ensures { IfOk result (λ after. after ≡ image_sum (apply image.now change.now)) }
{
    let size = change.page_size();
    if image.page_size() != size && image.commit() > 0 {
        // The change writes every data page, so no page stays.
        return Ok(sum_of_writes(change.pages()));
    }
    let zeros = zero_page(alloc, size as usize)?;
    Ok(resized_sum(sum, image, zeros.as_slice(), change))
}

fn zero_page(alloc: Global, size: usize) -> Result<Vec<u8>, NoMemory>
    ensures { IfOk result (λ page. page.items ≡ replicate size 0) }
{
    Ok(vec![in alloc; 0; size]?)
}

/// The pages between the two numbers of pages are cut off, or come in as zeros; then the pages of
/// the change stand in place of others.
fn resized_sum(sum: u64, image: &Image, zeros: &[u8], change: &Change) -> u64
    requires of_size { (image.now.page_size ≡ change.now.page_size) ⊎ (image.now.pages ≡ []) }
    requires zeros { zeros.now ≡ replicate change.now.page_size 0 }
    requires sum { flagged sum ≡ image_sum image.now }
    ensures { result ≡ image_sum (apply image.now change.now) }
{
    let size = change.page_size();
    let (before, after) = (image.commit(), change.commit());
    let resized = sum_between(image, size, zeros, before.min(after), before.max(after));
    (sum ^ resized ^ rewriting(image, size, zeros, change)) | CHECKSUM_FLAG
}

/// The sum of the page at `number`, or of a page of zeros where none stands there; 0 for the lock
/// page.
fn standing_sum(image: &Image, size: u32, zeros: &[u8], number: u32) -> u64
    requires first { 1 ≤ number }
    requires sized { 0 < size }
    requires zeros { zeros.now ≡ replicate size 0 }
    ensures { result ≡ sum_standing image.now size number }
{
    if number == lock_page(size) {
        0
    } else if number <= image.commit() {
        page_sum(number, image.page(number))
    } else {
        page_sum(number, zeros)
    }
}

/// The sums of the pages after `few` up to `many`, taken together.
fn sum_between(image: &Image, size: u32, zeros: &[u8], few: u32, many: u32) -> u64
    requires order { few ≤ many }
    requires sized { 0 < size }
    requires zeros { zeros.now ≡ replicate size 0 }
    ensures { result ≡ joined_over (sum_standing image.now size) (few + 1) (many - few) }
{
    let mut sum = 0;
    for number in few..many {
        sum ^= standing_sum(image, size, zeros, number + 1);
    }
    sum
}

/// What the writes of a change do to the sum: each takes out the sum of the page that stood there.
fn rewriting(image: &Image, size: u32, zeros: &[u8], change: &Change) -> u64
    requires sized { 0 < size }
    requires zeros { zeros.now ≡ replicate size 0 }
    ensures value { result ≡ rewriting_sum image.now size change.now.pages }
    ensures valid { IsChange change.now }
{
    let mut sum = 0;
    for w in change.pages() {
        let old = standing_sum(image, size, zeros, w.number);
        sum ^= old ^ page_sum(w.number, w.bytes.as_slice());
    }
    sum
}
