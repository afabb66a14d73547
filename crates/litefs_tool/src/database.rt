//! A database while LTX files are applied to it, one after another.
ghost use Rattle.std.specs.Prelude.{◌≡◌, ◌⊎◌, IfOk, OnOk, IfErr};
ghost use Rattle.ltx_codec.specs.Format.{IsFile};
ghost use Rattle.litefs_tool.specs.Files.{never_written, JoinsTo, after, Refuses};
ghost use Rattle.litefs_tool.specs.steps.Applying.{HasSum};

use crate::refusal::Refusal;
use lf_base::Pos;
use lf_sqlite_pages::Image;
use ltx_codec::{Ltx, sum_after};
use std::alloc::Global;

/// A database and its position.
#[derive(Drop)]
pub struct Database {
    pub image: Image,
    pub pos: Pos,
}

impl Database {
    pub fn new(alloc: Global) -> Database
        ensures value { result ≡ never_written }
        ensures sum { HasSum result }
    {
        Database {
            image: Image::empty(alloc),
            pos: Pos { txid: 0, sum: 0 },
        }
    }

    /// The database after a file. Its sum comes from the sum before, and the pages of the file are
    /// moved into it.
    pub fn apply(self, alloc: Global, file: Ltx) -> Result<Database, Refusal>
        requires valid { IsFile file }
        requires sum { HasSum self }
        ensures joins { OnOk result (JoinsTo self file) }
        ensures ok { IfOk result (λ database. database ≡ after self file) }
        ensures sum { IfOk result HasSum }
        ensures refused { IfErr result (λ why. (why ≡ Refusal.NoMemory) ⊎ Refuses self file why) }
    {
        let have = self.pos;
        let want = file.before();
        if want != have {
            return Err(Refusal::NotNext { have, want });
        }
        if !self.image.fits(&file.change) {
            return Err(Refusal::PageSize);
        }
        let want = file.post;
        let got = sum_after(alloc, self.pos.sum, &self.image, &file)?;
        if want != got {
            return Err(Refusal::SumDiffers { want, got });
        }
        let pos = file.after();
        let Database { image, pos: _ } = self;
        let image = image.after(file.change)?;
        Ok(Database { image, pos })
    }
}
