//! Laws of the sums of images, each the contract of a function that does nothing.
ghost use Rattle.std.specs.Prelude.{◌≡◌, bit_xor};
ghost use Rattle.page_checksum.specs.Sums.{flagged, joined};
ghost use Rattle.lf_sqlite_pages.specs.Image.{DatabaseImage};
ghost use Rattle.lf_sqlite_pages.specs.Change.{PageChange, IsChange, HoldsEveryPage};
ghost use Rattle.lf_sqlite_pages.specs.Apply.{apply};
ghost use Rattle.ltx_codec.specs.Format.{IsFile};
ghost use Rattle.ltx_codec.specs.Sums.{image_sum, sum_of_writes, sum_table, sum_between};
ghost use Rattle.ltx_codec.specs.declared.file.Ltx.{Ltx};

/// The sum of an image is that of its table of page sums. From one image to another the sum of each
/// page that goes is taken out, and that of each page that comes is taken in.
pub fn sums_page_by_page()
    ensures table { (image : DatabaseImage) → image_sum image ≡ flagged (joined (sum_table image)) }
    ensures between { (old new : DatabaseImage) → image_sum new ≡ flagged (bit_xor (image_sum old) (sum_between old new)) }
{}

/// A change that writes each data page leaves the sum of what it writes, and so does a snapshot.
pub fn sum_of_a_whole_change()
    ensures change { (image : DatabaseImage) (change : PageChange) → IsChange change → HoldsEveryPage change
        → image_sum (apply image change) ≡ sum_of_writes change.pages }
    ensures snapshot { (image : DatabaseImage) (file : Ltx) → IsFile file → file.header.min ≡ 1
        → image_sum (apply image file.change) ≡ file.post }
{}
