//! Laws of the definitions, each the contract of a function that does nothing else.
ghost use Rattle.std.specs.Prelude.{◌≡◌, ℕ, ◌≤◌, ◌<◌, ◌^◌, ◌↔◌, IsTrue, length};
ghost use Rattle.lf_sqlite_pages.specs.Image.{DatabaseImage, IsImage, SameImage};
ghost use Rattle.lf_sqlite_pages.specs.Change.{PageChange};
ghost use Rattle.lf_sqlite_pages.specs.Apply.{apply};
ghost use Rattle.database_file.specs.DatabaseFile.{DatabaseFile, FitsShape, KeepsDifferences, as_read, clean, count_of, is_clean, size_of};
ghost use Rattle.database_file.specs.Commit.{change_to, cut_to, difference};
ghost use Rattle.database_file.specs.WalCommit.{change_over, under_log};

/// A file that keeps nothing reads as the image, whatever that is; and of a file that keeps
/// differences alone, that is the only way to read so.
pub fn clean_file_is_the_image()
    ensures reads { (file : DatabaseFile) (image : DatabaseImage) → SameImage (as_read (clean file) image) image }
    ensures exact { (file : DatabaseFile) (image : DatabaseImage) → FitsShape file image.page_size (length image.pages) → KeepsDifferences file image
        → (IsTrue (is_clean file) ↔ SameImage (as_read file image) image) }
{}

/// A file that has pages reads as an image.
pub fn file_reads_as_an_image()
    ensures { (file : DatabaseFile) (image : DatabaseImage) → FitsShape file image.page_size (length image.pages) → IsImage image
        → 0 < count_of file image → count_of file image < 2 ^ 32 → IsImage (as_read file image) }
{}

/// The difference between two images leads from the one to the other.
pub fn difference_leads_to_the_other_image()
    ensures { (image other : DatabaseImage) → IsImage other → SameImage (apply image (difference image other)) other }
{}

/// The change of a count of pages leads, over each image whose shape the file fits and from which it
/// keeps differences alone, from that image to the file cut to that count.
pub fn change_leads_to_the_file()
    ensures is { (file : DatabaseFile) (image : DatabaseImage) (count : ℕ) → KeepsDifferences file image → count ≤ count_of file image
        → change_to file image.page_size (length image.pages) count ≡ difference image (cut_to (as_read file image) count) }
    ensures leads { (file : DatabaseFile) (image : DatabaseImage) (count : ℕ) → FitsShape file image.page_size (length image.pages) → IsImage image
        → count ≤ count_of file image → SameImage (apply image (difference image (cut_to (as_read file image) count))) (cut_to (as_read file image) count) }
{}

/// The change of a commit in the log leads from the image to the database under the log's pages:
/// within the image what the image has, past it what the file has.
pub fn log_change_leads_to_the_database_under_the_log()
    ensures { (file : DatabaseFile) (image : DatabaseImage) (news : PageChange) → FitsShape file image.page_size (length image.pages)
        → (0 < count_of file image → news.page_size ≡ size_of file image)
        → apply image (change_over file news (length image.pages)) ≡ under_log file image news }
{}
