ghost use Rattle.std.specs.Prelude.{◌≡◌};
ghost use Rattle.lf_sqlite_pages.specs.PageSize.{is_page_size};

/// Whether a SQLite database may have this page size: a power of two from 512 to 65,536
/// (SQLite file format, section 1.3.2).
#[tactic(auto, unfolding(crate::specs::PageSize::is_page_size))]
pub fn is_page_size(size: u32) -> bool
    ensures { result ≡ is_page_size size }
{
    matches!(
        size,
        512 | 1024 | 2048 | 4096 | 8192 | 16384 | 32768 | 65536
    )
}
