//! What holds of every contents, as the contracts of calls that do nothing.
ghost use Rattle.std.specs.Prelude.{◌≡◌, ◌≤◌, ◌<◌, ℕ, List, Some, None, true, length, take};
ghost use Rattle.wal_watch.specs.Frames.{are_valid, commits_among, committed_count, committed_end, frame_place, page_size_in, sums_after};
ghost use Rattle.wal_watch.specs.News.{HasSameFrames, changed_page, last_size, latest_frame, latest_pages};
ghost use Rattle.lf_sqlite_pages.specs.PageSize.{IsPageSize};
ghost use Rattle.lf_sqlite_pages.specs.Writes.{writes_of};
ghost use Rattle.wal_watch.specs.Scanning.{AreMarks, AreFinal, committed_from};

use crate::scan::Marks;

/// Whatever follows the committed end, the committed frames before it stay: the contents of a log that agrees with
/// another up to its committed end has at least its committed frames, and these are the same.
pub fn keep_committed_frames()
    ensures count { (old new : List ℕ) → take (committed_end old) new ≡ take (committed_end old) old → committed_count old ≤ committed_count new }
    ensures frames { (old new : List ℕ) → take (committed_end old) new ≡ take (committed_end old) old → HasSameFrames old new }
    ensures page_size { (old new : List ℕ) → take (committed_end old) new ≡ take (committed_end old) old → 0 < committed_count old → page_size_in new ≡ page_size_in old }
{}

/// A log with committed frames has a page size, and its last commit leaves at least one page. A contents
/// that is shorter than a header has no committed frames.
pub fn committed_frames_say()
    ensures size { (contents : List ℕ) → 0 < committed_count contents → 0 < last_size contents }
    ensures page_size { (contents : List ℕ) → 0 < committed_count contents → IsPageSize (page_size_in contents) }
    ensures short { (contents : List ℕ) → length contents < 32 → committed_count contents ≡ 0 }
{}

/// A scan goes on: marks of one contents are marks of another that agrees with it up to the last of them,
/// and where no valid frame follows the last, the frames before the committed one are those that are
/// committed.
pub fn scans_go_on(marks: &Marks)
    ensures stay { (old new : List ℕ) → AreMarks old marks.now → take marks.now.last.place new ≡ take marks.now.last.place old → marks.now.last.place ≤ length new → AreMarks new marks.now }
    ensures count { (contents : List ℕ) → AreFinal contents marks.now → marks.now.committed.frames ≡ committed_count contents }
{}

/// A scan that begins behind valid frames of the contents of a log, with the sums there, finds how many frames are
/// committed in any contents that agrees with it up to there.
pub fn scans_begin_at_a_place()
    ensures { (old new : List ℕ) (k : ℕ) → are_valid old k ≡ true → take (frame_place old k) new ≡ take (frame_place old k) old
        → committed_count new ≡ committed_from new (commits_among old k) k (frame_place old k) (sums_after old k) (length new) }
{}

/// The latest frame of a page splits at a frame number: it is that of the frames from there on, where
/// there is one, else that of the frames before.
pub fn latest_frame_splits()
    ensures behind { (contents : List ℕ) (page first n k : ℕ) → latest_frame contents page first n ≡ Some k → latest_frame contents page 0 n ≡ Some k }
    ensures before { (contents : List ℕ) (page first n : ℕ) → first ≤ n → latest_frame contents page first n ≡ None → latest_frame contents page 0 n ≡ latest_frame contents page 0 first }
{}

/// The pages of a change, as what is written at each number.
pub fn latest_pages_are_writes()
    ensures { (contents : List ℕ) (first n count : ℕ) → latest_pages contents first n count ≡ writes_of (changed_page contents first n) count }
{}
