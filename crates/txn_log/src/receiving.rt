//! A transaction file on its way into the staged file.
ghost use Rattle.std.specs.Prelude.{◌+◌, ◌*◌, ◌≤◌};
ghost use Rattle.lf_sqlite_pages.specs.PageSize.{IsPageSize};

use crate::staging::Staging;
use ltx_codec::Header;

/// A file on its way into the staged file.
#[derive(Clone, Copy, Debug)]
pub struct Receiving {
    pub header: Header,
    pub staging: Staging,
    /// The page that was passed last.
    pub passed: u32,
    /// The sums of the pages up to there, taken together.
    pub total: u64,
    ghost sized: { IsPageSize header.page_size },
    ghost short: { staging.len ≤ 100 + passed * 65540 },
}
