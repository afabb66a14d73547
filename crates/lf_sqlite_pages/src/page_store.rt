ghost use Rattle.std.specs.Prelude.{◌≡◌, ℕ, ◌<◌, ◌≤◌, Bool, false, Option, Some, IfSome, length, IsTrue, IsErr, OnOk};
ghost use Rattle.lf_base.specs.Faults.{CountsFaults};
ghost use Rattle.lf_sqlite_pages.specs.PageSize.{IsPageSize};
ghost use Rattle.lf_sqlite_pages.specs.Image.{DatabaseImage, IsImage};
ghost use Rattle.lf_sqlite_pages.specs.Header.{image_is_wal};
ghost use Rattle.lf_sqlite_pages.specs.Store.{TellsPage};

use crate::header::is_wal;
use crate::image::Image;
use lf_base::Failed;

/// A database of which one page after another can be read.
pub trait PageStore {
    /// The image, where the store tells it.
    ghost image: { Self → Option DatabaseImage };

    /// The size of each page in bytes, how many pages there are, and whether they are in WAL mode.
    ghost page_size: { Self → ℕ };

    ghost commit: { Self → ℕ };

    ghost wal_mode: { Self → Bool };

    /// Whether the store reads no page any more.
    ghost is_broken: { Self → Bool };

    /// How often a read of a page has failed.
    ghost faults: { Self → ℕ };

    /// The size of each page in bytes.
    fn page_size(&self) -> u32
        ensures value { result ≡ page_size self.now }
        ensures told { IfSome (image self.now) (λ i. result ≡ i.page_size) };

    /// How many pages there are.
    fn commit(&self) -> u32
        ensures value { result ≡ commit self.now }
        ensures sized { 0 < result → IsPageSize (page_size self.now) }
        ensures told { IfSome (image self.now) (λ i. result ≡ length i.pages) }
        ensures valid { IfSome (image self.now) IsImage };

    /// Whether page 1 says that the database is in WAL mode.
    fn wal_mode(&self) -> bool
        ensures value { result ≡ wal_mode self.now }
        ensures told { IfSome (image self.now) (λ i. result ≡ image_is_wal i) };

    /// Whether the store is broken. Then it refuses each read of a page.
    fn is_broken(&self) -> bool
        ensures { result ≡ is_broken self.now };

    /// Puts the bytes of page `n` into `out`, which is one page long. Pages are counted from 1.
    fn page(&mut self, n: u32, out: &mut [u8]) -> Result<(), Failed>
        requires first { 1 ≤ n }
        requires last { n ≤ commit self.old }
        requires whole { length out.old ≡ page_size self.old }
        ensures bytes { OnOk result (TellsPage (image self.old) n out.new) }
        ensures cause { CountsFaults (faults self.old) (faults self.new) result }
        ensures refused { IsTrue (is_broken self.old) → IsErr result }
        ensures same_image { image self.new ≡ image self.old }
        ensures same_shape { (page_size self.new ≡ page_size self.old) × (commit self.new ≡ commit self.old) × (wal_mode self.new ≡ wal_mode self.old) }
        ensures same_state { is_broken self.new ≡ is_broken self.old };
}

/// What is always true of a store. It does nothing: a caller's proof takes the facts from here.
pub fn sound_store<S: PageStore>(store: &S)
    ensures page_size { IfSome (S.image store.now) (λ i. S.page_size store.now ≡ i.page_size) }
    ensures commit { IfSome (S.image store.now) (λ i. S.commit store.now ≡ length i.pages) }
    ensures sized { 0 < S.commit store.now → IsPageSize (S.page_size store.now) }
    ensures valid { IfSome (S.image store.now) IsImage }
{
    store.page_size();
    store.commit();
}

/// An image in memory is never broken. Its count of faults stays 0, so no read of it fails.
impl PageStore for Image {
    ghost image = { λ i. Some i };

    ghost page_size = { λ i. i.page_size };

    ghost commit = { λ i. length i.pages };

    ghost wal_mode = { λ i. image_is_wal i };

    ghost is_broken = { λ _. false };

    ghost faults = { λ _. 0 };

    fn page_size(&self) -> u32 {
        Image::page_size(self)
    }

    fn commit(&self) -> u32 {
        Image::commit(self)
    }

    fn wal_mode(&self) -> bool {
        Image::commit(self) > 0 && is_wal(Image::page(self, 1))
    }

    fn is_broken(&self) -> bool {
        false
    }

    fn page(&mut self, n: u32, out: &mut [u8]) -> Result<(), Failed> {
        out.copy_from_slice(Image::page(self, n));
        Ok(())
    }
}
