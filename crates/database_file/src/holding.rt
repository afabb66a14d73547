//! Single pages kept or let go, whatever the committed image has there: for who keeps a page as it was
//! while the image goes on.
ghost use Rattle.std.specs.Prelude.{◌≡◌, ◌<◌, ◌^◌, length, OnOk, OnErr};
ghost use Rattle.std.specs.FinMap as pages;
ghost use Rattle.database_file.specs.WritingParts.{counted};

use crate::database_file::DatabaseFile;
use crate::keeping::counted;
use lf_base::NoMemory;

impl DatabaseFile {
    /// Keeps page `n` with these bytes.
    pub fn keep(&mut self, n: u32, page: &[u8]) -> Result<(), NoMemory>
        requires { length page.now < 2 ^ 32 }
        ensures ok { OnOk result (self.new ≡ record self.old { kept = pages.insert self.old.kept n page.now }) }
        ensures err { OnErr result (self.new ≡ self.old) }
    {
        self.kept.reserve(1, page.len() as u32)?;
        self.kept.put(n, page);
        Ok(())
    }

    /// Keeps nothing of page `n`. It takes no memory.
    pub fn let_go(&mut self, n: u32)
        ensures { self.new ≡ record self.old { kept = pages.remove self.old.kept n } }
    {
        self.kept.remove(n);
    }

    /// Notes the number of pages over an image of `commit` pages.
    pub fn set_count(&mut self, count: u32, commit: u32)
        ensures { self.new ≡ record self.old { count = counted count commit } }
    {
        self.count = counted(count, commit);
    }
}
