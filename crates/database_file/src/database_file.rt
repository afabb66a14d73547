ghost use Rattle.std.specs.Prelude.{◌≡◌};
ghost use Rattle.std.specs.Option.{option_copied};
ghost use Rattle.std.specs.FinMap as pages;
ghost use Rattle.database_file.specs.DatabaseFile.{KeepsNothing, new_file, clean, is_clean, size_over, count_over};

use lf_sqlite_pages::Overlay;
use std::alloc::Global;
use std::marker::Model;

/// The database file: the pages that differ from the committed image, and the number of pages where
/// that isn't the image's. So the file is the image exactly where it keeps nothing.
#[derive(Drop)]
pub struct DatabaseFile {
    pub(crate) kept: Overlay,
    pub(crate) page_size: u32,
    pub(crate) count: Option<u32>,
}

impl Model for DatabaseFile {
    ghost use Rattle.database_file.specs.DatabaseFile.{DatabaseFile, database_code};

    ghost Value = { DatabaseFile };

    ghost coded = { database_code };

    ghost view = { λ d. record { kept = d.kept.pages; page_size = d.page_size; count = d.count } };
}

impl DatabaseFile {
    /// A file that keeps nothing: it is the committed image, whatever that is.
    #[tactic(auto, using(crate::proofs::CleanLemmas::new_keeps_nothing))]
    pub fn new(alloc: Global) -> DatabaseFile
        ensures value { result ≡ new_file }
        ensures fits { KeepsNothing result }
    {
        DatabaseFile {
            kept: Overlay::new(alloc),
            page_size: 0,
            count: None,
        }
    }

    /// Whether it is the committed image.
    pub fn is_clean(&self) -> bool
        ensures { result ≡ is_clean self.now }
    {
        self.kept.is_empty() && self.count.is_none()
    }

    /// How many pages are kept: those that differ from the committed image.
    pub fn kept_pages(&self) -> usize
        ensures { result ≡ pages.len self.now.kept }
    {
        self.kept.len()
    }

    /// The bytes of page `n`, if it differs from the committed image.
    pub fn kept(&self, n: u32) -> Option<&[u8]>
        ensures { option_copied result ≡ pages.get self.now.kept n }
    {
        self.kept.get(n)
    }

    /// The size of its pages in bytes over a committed image of `commit` pages of `page_size` bytes.
    pub fn size_over(&self, page_size: u32, commit: u32) -> u32
        ensures { result ≡ size_over self.now page_size commit }
    {
        if commit == 0 {
            self.page_size
        } else {
            page_size
        }
    }

    /// Its number of pages over a committed image of `commit` pages.
    pub fn count_over(&self, commit: u32) -> u32
        ensures { result ≡ count_over self.now commit }
    {
        self.count.unwrap_or(commit)
    }

    /// Makes it the committed image, whatever that is: after a commit of what it kept, or to drop
    /// what is not committed.
    pub fn clear(&mut self)
        ensures value { self.new ≡ clean self.old }
        ensures fits { KeepsNothing self.new }
    {
        self.kept.clear();
        self.count = None;
    }
}
