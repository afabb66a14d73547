//! A transaction file is staged part by part. Each part is written behind those before it.
ghost use Rattle.std.specs.Prelude.{◌≡◌, ◌+◌, ◌<◌, ◌^◌, ◌++◌, [], ◌∷◌, ℕ, List, length, IsTrue, IfOk, OnOk, OnErr};
ghost use Rattle.lf_base.specs.Faults.{CountsFaults};
ghost use Rattle.lf_disk.specs.Folder.{Folder, SameBut};
ghost use Rattle.lf_disk.specs.History.{now, EachMoment, IsSettledBut};
ghost use Rattle.lf_disk.specs.Publish.{IsStaged};
ghost use Rattle.lf_disk.specs.declared.name.FileName.{FileName as Name};
ghost use Rattle.lf_sqlite_pages.specs.declared.page_write.PageWrite.{PageWrite};
ghost use Rattle.page_checksum.specs.Crc.{after_bytes};
ghost use Rattle.ltx_codec.specs.Format.{no_meaning, file_encoding};
ghost use Rattle.ltx_codec.specs.declared.file.Ltx.{Ltx as File};
ghost use Rattle.ltx_codec.specs.declared.header.Header.{Header as HeaderOf};
ghost use Rattle.txn_log.specs.Staging.{HoldsSoFar, front_encoding, IsStaging};

use lf_base::Failed;
use lf_disk::{Disk, FileName};
use ltx_codec::{Header, header_bytes, sealed, trailer_bytes};
use page_checksum::{FIRST_REGISTER, crc_feed};

/// How far a file was staged.
#[derive(Clone, Copy, Debug)]
pub struct Staging {
    /// The number of bytes that were written.
    pub len: u64,
    /// The checksum's register after them.
    pub register: u64,
}

/// Cuts off what was left in the staged file before.
pub fn clear<D: Disk>(disk: &mut D) -> Result<(), Failed>
    requires { IsTrue (D.honest disk.old) → IsSettledBut Name.Staged (D.history disk.old) }
    ensures moments { IsTrue (D.honest disk.old)
        → EachMoment (D.history disk.old) (D.history disk.new) (SameBut Name.Staged (now (D.history disk.old))) }
    ensures staged { IsTrue (D.honest disk.old) → OnOk result
        (HoldsSoFar (now (D.history disk.old)) [] (D.history disk.new)) }
    ensures honest { D.honest disk.new ≡ D.honest disk.old }
    ensures cause { CountsFaults (D.faults disk.old) (D.faults disk.new) result }
{
    let left = disk.size(FileName::Staged)?.unwrap_or(0);
    if left == 0 {
        return Ok(());
    }
    disk.cut(FileName::Staged, 0)
}

/// Stages some bytes behind those before.
fn append<D: Disk>(disk: &mut D, staging: &mut Staging, bytes: &[u8]) -> Result<(), Failed>
    requires { staging.old.len + length bytes.now < 2 ^ 64 }
    ensures moments { IsTrue (D.honest disk.old) → (before : Folder) (encoding : List ℕ)
        → staging.old.len ≡ length encoding → HoldsSoFar before encoding (D.history disk.old)
        → EachMoment (D.history disk.old) (D.history disk.new) (SameBut Name.Staged before) }
    ensures staged { IsTrue (D.honest disk.old) → OnOk result ((before : Folder) (encoding : List ℕ)
        → staging.old.len ≡ length encoding → HoldsSoFar before encoding (D.history disk.old)
        → HoldsSoFar before (encoding ++ bytes.now) (D.history disk.new)) }
    ensures counts { OnOk result ((staging.new.len ≡ staging.old.len + length bytes.now)
        × (staging.new.register ≡ after_bytes staging.old.register bytes.now)) }
    ensures honest { D.honest disk.new ≡ D.honest disk.old }
    ensures cause { CountsFaults (D.faults disk.old) (D.faults disk.new) result }
{
    disk.write(FileName::Staged, staging.len, bytes)?;
    staging.len += bytes.len() as u64;
    staging.register = crc_feed(staging.register, bytes);
    Ok(())
}

/// Stages a header, as the first part.
pub fn stage_header<D: Disk>(disk: &mut D, header: &Header) -> Result<Staging, Failed>
    requires { IsTrue (D.honest disk.old) → IsSettledBut Name.Staged (D.history disk.old) }
    ensures moments { IsTrue (D.honest disk.old)
        → EachMoment (D.history disk.old) (D.history disk.new) (SameBut Name.Staged (now (D.history disk.old))) }
    ensures staged { IsTrue (D.honest disk.old) → OnOk result
        (HoldsSoFar (now (D.history disk.old)) (front_encoding header.now []) (D.history disk.new)) }
    ensures counts { IfOk result (λ staging. IsStaging staging header.now []) }
    ensures honest { D.honest disk.new ≡ D.honest disk.old }
    ensures cause { CountsFaults (D.faults disk.old) (D.faults disk.new) result }
{
    clear(disk)?;
    let mut staging = Staging {
        len: 0,
        register: FIRST_REGISTER,
    };
    append(disk, &mut staging, &header_bytes(header))?;
    Ok(staging)
}

/// Stages a page behind the pages before it.
pub fn stage_page<D: Disk>(
    disk: &mut D,
    staging: &mut Staging,
    number: u32,
    page: &[u8],
) -> Result<(), Failed>
    requires { staging.old.len + (4 + length page.now) < 2 ^ 64 }
    ensures moments { IsTrue (D.honest disk.old) → (before : Folder) (header : HeaderOf) (pages : List PageWrite)
        → IsStaging staging.old header pages → HoldsSoFar before (front_encoding header pages) (D.history disk.old)
        → EachMoment (D.history disk.old) (D.history disk.new) (SameBut Name.Staged before) }
    ensures staged { IsTrue (D.honest disk.old) → OnOk result ((before : Folder) (header : HeaderOf) (pages : List PageWrite)
        → IsStaging staging.old header pages → HoldsSoFar before (front_encoding header pages) (D.history disk.old)
        → HoldsSoFar before (front_encoding header (pages ++ record { number = number; bytes = page.now } ∷ [])) (D.history disk.new)) }
    ensures counts { OnOk result ((header : HeaderOf) (pages : List PageWrite) → IsStaging staging.old header pages
        → IsStaging staging.new header (pages ++ record { number = number; bytes = page.now } ∷ [])) }
    ensures len { OnOk result (staging.new.len ≡ staging.old.len + (4 + length page.now)) }
    ensures kept { OnErr result (staging.new ≡ staging.old) }
    ensures honest { D.honest disk.new ≡ D.honest disk.old }
    ensures cause { CountsFaults (D.faults disk.old) (D.faults disk.new) result }
{
    let mut next = *staging;
    append(disk, &mut next, &number.to_be_bytes())?;
    append(disk, &mut next, page)?;
    *staging = next;
    Ok(())
}

/// Stages the trailer, with the sum of the pages and the file sum, and syncs the file.
pub fn seal<D: Disk>(disk: &mut D, staging: &mut Staging, post: u64) -> Result<(), Failed>
    requires { staging.old.len + 20 < 2 ^ 64 }
    ensures moments { IsTrue (D.honest disk.old) → (before : Folder) (header : HeaderOf) (pages : List PageWrite)
        → IsStaging staging.old header pages → HoldsSoFar before (front_encoding header pages) (D.history disk.old)
        → EachMoment (D.history disk.old) (D.history disk.new) (SameBut Name.Staged before) }
    ensures staged { IsTrue (D.honest disk.old) → OnOk result ((before : Folder) (file : File)
        → IsStaging staging.old file.header file.change.pages → post ≡ file.post
        → HoldsSoFar before (front_encoding file.header file.change.pages) (D.history disk.old)
        → IsStaged before (file_encoding file no_meaning) (D.history disk.new)) }
    ensures honest { D.honest disk.new ≡ D.honest disk.old }
    ensures cause { CountsFaults (D.faults disk.old) (D.faults disk.new) result }
{
    let sum = post.to_be_bytes();
    append(disk, staging, &[0; 4])?;
    let register = crc_feed(staging.register, &sum);
    let file_sum = sealed(register);
    append(disk, staging, &trailer_bytes(post, file_sum))?;
    disk.sync(FileName::Staged)?;
    Ok(())
}
