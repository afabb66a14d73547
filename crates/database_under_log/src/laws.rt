//! Laws of the database file under its log, each the contract of a function that does nothing else.
ghost use Rattle.std.specs.Prelude.{◌≡◌, ◌≢◌, ◌<◌, ◌↔◌, IsTrue, ℕ, true, length, take, List, [], None};
ghost use Rattle.lf_base.specs.FileBytes.{resized};
ghost use Rattle.lf_sqlite_pages.specs.Image.{DatabaseImage};
ghost use Rattle.lf_sqlite_pages.specs.Apply.{apply};
ghost use Rattle.wal_watch.specs.Frames.{page_size_in, committed_count};
ghost use Rattle.wal_watch.specs.News.{last_size, change_between, first_new};
ghost use Rattle.wal_watch.specs.Refusals.{KeepsCommitted, IsSoundCut};
ghost use Rattle.database_file.specs.DatabaseFile.{DatabaseFile, FitsShape, KeepsDifferences, as_read, count_of, size_of, is_clean, new_file};
ghost use Rattle.database_file.specs.Writing.{with_pages, sized};
ghost use Rattle.database_under_log.specs.Over.{over, Agrees, AreFrames};
ghost use Rattle.database_under_log.specs.LogChange.{log_change};

/// A new file and an absent log agree over every image.
pub fn new_file_agrees()
    ensures { (image : DatabaseImage) → Agrees new_file image [] }
{}

/// A file that is the image agrees with every log without committed frames; and with such a log only
/// that file does, which is the one that keeps nothing.
pub fn clean_file_keeps_the_database()
    ensures agrees { (file : DatabaseFile) (image : DatabaseImage) (contents : List ℕ) → committed_count contents ≡ 0 → is_clean file ≡ true → Agrees file image contents }
    ensures exact { (file : DatabaseFile) (image : DatabaseImage) (contents : List ℕ) → committed_count contents ≡ 0 → FitsShape file image.page_size (length image.pages)
        → KeepsDifferences file image → (IsTrue (is_clean file) ↔ Agrees file image contents) }
{}

/// A write of pages, each of which a committed frame of that page holds, keeps the database.
pub fn frames_keep_the_database()
    ensures { (contents bytes : List ℕ) (first : ℕ) (file : DatabaseImage) → AreFrames contents first bytes
        → over (with_pages file (page_size_in contents) first bytes) contents ≡ over file contents }
{}

/// So does a resize of the file to the last commit's size.
pub fn resize_keeps_the_database()
    ensures { (contents : List ℕ) (file : DatabaseImage) → 0 < committed_count contents
        → over (sized file (page_size_in contents) (last_size contents)) contents ≡ over file contents }
{}

/// So does a write to the log that commits nothing, where it changes the header only over a file that
/// is the image.
pub fn stored_write_keeps_the_database()
    ensures { (old new : List ℕ) (file : DatabaseFile) (image : DatabaseImage) → KeepsCommitted old new → change_between old new ≡ None
        → (take 32 new ≢ take 32 old → is_clean file ≡ true) → Agrees file image old → Agrees file image new }
{}

/// So does a cut of the log, to nothing only over a file that is the image. The removal of the log is
/// a cut to nothing.
pub fn cut_keeps_the_database()
    ensures { (contents : List ℕ) (len : ℕ) (file : DatabaseFile) (image : DatabaseImage) → IsSoundCut contents len → (len ≡ 0 → 0 < committed_count contents → is_clean file ≡ true)
        → Agrees file image contents → Agrees file image (resized len contents) }
{}

/// The change of a commit in the log leads from the image to the file under the new log, over each
/// image whose shape the file fits.
pub fn commit_leads_to_the_database_under_the_log()
    ensures { (old new : List ℕ) (file : DatabaseFile) (image : DatabaseImage) → KeepsCommitted old new → first_new old new < committed_count new
        → (take 32 new ≢ take 32 old → is_clean file ≡ true) → FitsShape file image.page_size (length image.pages)
        → (0 < count_of file image → page_size_in new ≡ size_of file image) → Agrees file image old
        → apply image (log_change file old new (length image.pages)) ≡ over (as_read file image) new }
{}
