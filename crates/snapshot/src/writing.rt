//! The parts of a snapshot, written one after another under the checksum's register.
ghost use Rattle.std.specs.Prelude.{◌≡◌, ◌<◌, ◌≤◌, ◌^◌, ℕ, length, false, IsTrue, IfOk, OnOk, OnErr};
ghost use Rattle.std.specs.Io.KnownBytes.{Appends};
ghost use Rattle.lf_base.specs.Faults.{CountsFaults};
ghost use Rattle.page_checksum.specs.Crc.{after_bytes};
ghost use Rattle.lf_disk.specs.History.{now, Rests};
ghost use Rattle.lf_sqlite_pages.specs.Writes.{data_writes};
ghost use Rattle.ltx_codec.specs.Encoding.{trailer_encoding};
ghost use Rattle.ltx_codec.specs.Format.{end_encoding, page_encoding, pages_encoding};
ghost use Rattle.txn_log.specs.Store.{image_in};
ghost use Rattle.snapshot.specs.Causes.{WritesWith};
ghost use Rattle.snapshot.specs.Output.{AppendsPrefix, AppendsSome};
ghost use Rattle.snapshot.specs.Pages.{HasPages, WritesPage};

use crate::fault::IntoFault;
use crate::output::write_whole;
use crate::reading::read_page;
use lf_base::{Failed, Sink};
use lf_disk::Disk;
use lf_sqlite_pages::lock_page;
use ltx_codec::sealed;
use page_checksum::crc_feed;
use txn_log::StoreFault;

/// Writes some bytes, and answers the register after them.
pub fn write_part<K: Sink>(sink: &mut K, bytes: &[u8], register: u64) -> Result<u64, Failed>
    ensures whole { OnOk result (Appends (K.taken sink.old) (K.taken sink.new) bytes.now) }
    ensures register { IfOk result (λ after. after ≡ after_bytes register bytes.now) }
    ensures prefix { OnErr result (AppendsPrefix (K.taken sink.old) (K.taken sink.new) bytes.now) }
    ensures cause { CountsFaults (K.faults sink.old) (K.faults sink.new) result }
{
    write_whole(sink, bytes)?;
    Ok(crc_feed(register, bytes))
}

/// Writes a page behind its number, and answers the register after it.
fn write_page<K: Sink>(sink: &mut K, number: u32, page: &[u8], register: u64) -> Result<u64, Failed>
    ensures whole { OnOk result (Appends (K.taken sink.old) (K.taken sink.new) (page_encoding number page.now)) }
    ensures register { IfOk result (λ after. after ≡ after_bytes register (page_encoding number page.now)) }
    ensures prefix { OnErr result (AppendsPrefix (K.taken sink.old) (K.taken sink.new) (page_encoding number page.now)) }
    ensures cause { CountsFaults (K.faults sink.old) (K.faults sink.new) result }
{
    let register = write_part(sink, &number.to_be_bytes(), register)?;
    write_part(sink, page, register)
}

/// Reads page `n` of the database file and writes it.
fn copy_page<D: Disk, K: Sink>(
    disk: &mut D,
    n: u32,
    page: &mut [u8],
    sink: &mut K,
    register: u64,
) -> Result<u64, IntoFault>
    requires first { 1 ≤ n }
    requires some { 0 < length page.old }
    requires size { length page.old < 2 ^ 32 }
    ensures written { IsTrue (D.honest disk.old) → (commit : ℕ) → n ≤ commit → HasPages (length page.old) commit (now (D.history disk.old))
        → WritesPage (image_in (length page.old) commit (now (D.history disk.old))) n register (K.taken sink.old) (K.taken sink.new) result }
    ensures grows { AppendsSome (K.taken sink.old) (K.taken sink.new) }
    ensures length { length page.new ≡ length page.old }
    ensures rests { Rests (D.history disk.old) (D.history disk.new) }
    ensures honest { D.honest disk.new ≡ D.honest disk.old }
    ensures cause { WritesWith false (D.faults disk.old) (D.faults disk.new) (K.faults sink.old) (K.faults sink.new) result }
{
    match read_page(disk, n, page) {
        Ok(()) => {}
        Err(_) => return Err(IntoFault::Store(StoreFault::Disk)),
    }
    match write_page(sink, n, page, register) {
        Ok(register) => Ok(register),
        Err(_) => Err(IntoFault::Sink),
    }
}

/// Writes the data pages of a database file, and answers the register after them.
pub fn write_pages<D: Disk, K: Sink>(
    disk: &mut D,
    commit: u32,
    page: &mut [u8],
    sink: &mut K,
    register: u64,
) -> Result<u64, IntoFault>
    requires some { 0 < commit → 0 < length page.old }
    requires size { length page.old < 2 ^ 32 }
    ensures whole { IsTrue (D.honest disk.old) → HasPages (length page.old) commit (now (D.history disk.old))
        → OnOk result (Appends (K.taken sink.old) (K.taken sink.new) (pages_encoding (data_writes (image_in (length page.old) commit (now (D.history disk.old)))))) }
    ensures register { IsTrue (D.honest disk.old) → HasPages (length page.old) commit (now (D.history disk.old))
        → IfOk result (λ after. after ≡ after_bytes register (pages_encoding (data_writes (image_in (length page.old) commit (now (D.history disk.old)))))) }
    ensures prefix { IsTrue (D.honest disk.old) → HasPages (length page.old) commit (now (D.history disk.old))
        → OnErr result (AppendsPrefix (K.taken sink.old) (K.taken sink.new) (pages_encoding (data_writes (image_in (length page.old) commit (now (D.history disk.old)))))) }
    ensures grows { AppendsSome (K.taken sink.old) (K.taken sink.new) }
    ensures rests { Rests (D.history disk.old) (D.history disk.new) }
    ensures honest { D.honest disk.new ≡ D.honest disk.old }
    ensures cause { WritesWith false (D.faults disk.old) (D.faults disk.new) (K.faults sink.old) (K.faults sink.new) result }
{
    let mut register = register;
    let mut number = 0;
    while number < commit {
        number += 1;
        if number != lock_page(page.len() as u32) {
            match copy_page(disk, number, page, sink, register) {
                Ok(after) => register = after,
                Err(fault) => return Err(fault),
            }
        }
    }
    Ok(register)
}

/// Writes the end of the pages, the sum of the database, and the file sum.
pub fn write_end<K: Sink>(sink: &mut K, post: u64, register: u64) -> Result<(), Failed>
    ensures whole { OnOk result (Appends (K.taken sink.old) (K.taken sink.new) (trailer_encoding register post)) }
    ensures prefix { OnErr result (AppendsPrefix (K.taken sink.old) (K.taken sink.new) (trailer_encoding register post)) }
    ensures cause { CountsFaults (K.faults sink.old) (K.faults sink.new) result }
{
    let register = write_part(sink, &end_bytes(post), register)?;
    let sum = sealed(register);
    write_whole(sink, &sum.to_be_bytes())
}

/// The number 0 that ends the pages, and the sum of the database.
fn end_bytes(post: u64) -> [u8; 12]
    ensures { result ≡ end_encoding post }
{
    let mut bytes = [0; 12];
    bytes[4..].copy_from_slice(&post.to_be_bytes());
    bytes
}
