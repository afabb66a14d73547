//! Laws of the definitions, each the contract of a function that does nothing else.
ghost use Rattle.std.specs.Prelude.{◌≡◌, ◌≤◌, ◌*◌, ◌^◌, length};
ghost use Rattle.lf_sqlite_pages.specs.Change.{PageChange, IsChange, HoldsEveryPage};
ghost use Rattle.lf_sqlite_pages.specs.Image.{DatabaseImage, IsImage, SameImage};
ghost use Rattle.lf_sqlite_pages.specs.Header.{image_is_wal, image_header_pages};
ghost use Rattle.lf_sqlite_pages.specs.Apply.{Fits, apply};
ghost use Rattle.lf_sqlite_pages.specs.Complete.{complete};
ghost use Rattle.lf_sqlite_pages.specs.Writes.{all_writes, data_writes};

/// An image of at most 2^30 bytes has no lock page: its data pages are all its pages.
pub fn small_image_has_no_lock_page()
    ensures { (image : DatabaseImage) → IsImage image → length image.pages * image.page_size ≤ 2 ^ 30
        → data_writes image ≡ all_writes image }
{}

/// The data pages of an image that a change writes whole are the pages of that change.
pub fn whole_change_is_the_image()
    ensures { (image : DatabaseImage) (change : PageChange) → IsChange change → HoldsEveryPage change
        → data_writes (apply image change) ≡ change.pages }
{}

/// The complete change writes each data page past the old size: it is a change that leads to the
/// same image, fits wherever the change does, and is whole where the image has no pages. A change
/// that is whole is complete.
pub fn complete_change_leads_to_the_same_image()
    ensures valid { (image : DatabaseImage) (change : PageChange) → IsChange change → IsChange (complete image change) }
    ensures same { (image : DatabaseImage) (change : PageChange) → apply image (complete image change) ≡ apply image change }
    ensures fits { (image : DatabaseImage) (change : PageChange) → IsChange change → Fits image change → Fits image (complete image change) }
    ensures first { (image : DatabaseImage) (change : PageChange) → length image.pages ≡ 0 → HoldsEveryPage (complete image change) }
    ensures whole { (image : DatabaseImage) (change : PageChange) → IsChange change → HoldsEveryPage change → complete image change ≡ change }
{}

/// Images of the same pages are one image to every change, sum and mode, whatever page size an
/// image without pages states.
pub fn same_images_are_alike()
    ensures after { (one other : DatabaseImage) (change : PageChange) → SameImage one other → apply one change ≡ apply other change }
    ensures data_pages { (one other : DatabaseImage) → IsImage one → IsImage other → SameImage one other → data_writes one ≡ data_writes other }
    ensures mode { (one other : DatabaseImage) → SameImage one other → image_is_wal one ≡ image_is_wal other }
    ensures header { (one other : DatabaseImage) → SameImage one other → image_header_pages one ≡ image_header_pages other }
{}
