//! A database while files are applied to it.
ghost use Rattle.std.specs.Prelude.{◌≡◌};
ghost use Rattle.ltx_codec.specs.Sums.{image_sum};

use crate::fault::BackupFault;
use lf_sqlite_pages::Image;
use ltx_codec::{Ltx, sum_after};
use page_checksum::CHECKSUM_FLAG;
use std::alloc::Global;

/// A database while files are applied to it: its pages, their sum, and the sum that the last file says.
#[derive(Drop)]
pub struct Restored {
    pub image: Image,
    pub sum: u64,
    pub post: u64,
    ghost summed: { sum ≡ image_sum image },
}

impl Restored {
    ghost use Rattle.std.specs.Prelude.{IfOk, IfErr, OnOk};
    ghost use Rattle.lf_sqlite_pages.specs.Apply.{Fits, apply};
    ghost use Rattle.lf_sqlite_pages.specs.Image.{empty_image};
    ghost use Rattle.ltx_codec.specs.Format.{IsFile};
    ghost use Rattle.ltx_backup.specs.Applying.{IsOtherSum};

    /// A database that was never written.
    pub fn nothing(alloc: Global) -> Restored
        ensures { result.image ≡ empty_image }
    {
        Restored {
            image: Image::empty(alloc),
            sum: CHECKSUM_FLAG,
            post: CHECKSUM_FLAG,
        }
    }

    /// The database after a file that fits it.
    pub fn after(self, alloc: Global, file: Ltx) -> Result<Restored, BackupFault>
        requires valid { IsFile file }
        requires fits { Fits self.image file.change }
        ensures image { IfOk result (λ next. next.image ≡ apply self.image file.change) }
        ensures post { IfOk result (λ next. next.post ≡ file.post) }
        ensures full { IfErr result (λ why. why ≡ BackupFault.NoMemory) }
    {
        let post = file.post;
        let sum = match sum_after(alloc, self.sum, &self.image, &file) {
            Ok(sum) => sum,
            Err(_) => return Err(BackupFault::NoMemory),
        };
        let Restored { image, .. } = self;
        match image.after(file.change) {
            Ok(image) => Ok(Restored { image, sum, post }),
            Err(_) => Err(BackupFault::NoMemory),
        }
    }

    /// The pages, where they have the sum that the last file says.
    pub fn finish(self) -> Result<Image, BackupFault>
        ensures image { IfOk result (λ image. image ≡ self.image) }
        ensures sum { OnOk result (self.post ≡ image_sum self.image) }
        ensures other { IfErr result (IsOtherSum self) }
    {
        let want = self.post;
        let got = self.sum;
        if want != got {
            return Err(BackupFault::SumDiffers { want, got });
        }
        let Restored { image, .. } = self;
        Ok(image)
    }
}
