//! Laws, each the contract of a function that does nothing.
ghost use Rattle.std.specs.Prelude.{◌≡◌, List, ℕ};
ghost use Rattle.lf_sqlite_pages.specs.Change.{PageChange, IsChange};
ghost use Rattle.ltx_codec.specs.Sums.{sum_table};
ghost use Rattle.node_recovery.specs.Summing.{sums_left, restored_image};

/// The sums that are taken before a change is written are those of the pages afterwards.
pub fn sums_are_known()
    ensures { (change : PageChange) (bytes : List ℕ) → IsChange change → sums_left change bytes ≡ sum_table (restored_image change bytes) }
{}
