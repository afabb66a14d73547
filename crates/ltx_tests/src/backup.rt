//! Backups on disks in memory. The sums and lengths that stand here are of another program.
mod levels;
mod opening;
mod stops;

ghost use Rattle.std.specs.Prelude.{◌≤◌};
ghost use Rattle.lf_disk.specs.declared.name.FileName.TheVariants as name;
ghost use Rattle.lf_disk.specs.History.{IsSettledBut};
ghost use Rattle.lf_disk.specs.MemDisk.{history_of};
ghost use Rattle.ltx_codec.specs.Format.{IsFile};

use crate::same::same;
use crate::sample::header;
use lf_base::Pos;
use lf_disk::MemDisk;
use lf_sqlite_pages::Image;
use ltx_backup::{Backup, BackupFault};
use ltx_codec::{Encoder, Header, Ltx, decode};
use page_checksum::page_sum;
use std::alloc::Global;
use std::process::Abort;
use test_base::{DELTA, ONE_PAGE, SNAPSHOT, TWO_PAGES, encoding};

const FLAG: u64 = 1 << 63;

/// The sum of a database of one page of 512 bytes, all of them this one.
fn sum_of(byte: u8) -> u64 {
    page_sum(1, &[byte; 512]) | FLAG
}

/// The encoding of a file of these transactions: page 1 full of a byte, over a database with this sum.
fn encoded(
    rt: &impl Abort,
    alloc: Global,
    (min, max): (u64, u64),
    pre: u64,
    byte: u8,
    post: u64,
) -> Vec<u8> {
    let mut out = Vec::new(alloc);
    let header = Header {
        max,
        ..header(512, 1, min, pre)
    };
    let mut encoder = Encoder::start(&header, &mut out).expect(rt, "memory");
    encoder.page(1, &[byte; 512], &mut out).expect(rt, "memory");
    assert!(rt; encoder.finish(post, &mut out).is_ok());
    out
}

/// The file of one transaction.
fn file(rt: &impl Abort, alloc: Global, txid: u64, pre: u64, byte: u8, post: u64) -> Ltx
    ensures { IsFile result }
{
    let bytes = encoded(rt, alloc, (txid, txid), pre, byte, post);
    decode(alloc, bytes.as_slice()).expect(rt, "a file")
}

/// The file of a transaction: full of t - 1.
fn nth(rt: &impl Abort, alloc: Global, txid: u64) -> Ltx
    ensures { IsFile result }
{
    let byte = (txid.wrapping_sub(1) % 256) as u8;
    let pre = if txid == 1 {
        0
    } else {
        sum_of(byte.wrapping_sub(1))
    };
    file(rt, alloc, txid, pre, byte, sum_of(byte))
}

/// What a crash leaves of a disk.
fn crashed(rt: &impl Abort, disk: MemDisk, choice: u64) -> MemDisk
    ensures { IsSettledBut name.Staged (history_of result) }
{
    match disk.reopen_as(choice) {
        Ok(disk) => disk,
        Err(_) => panic!(rt; "memory"),
    }
}

/// An empty disk.
fn blank(rt: &impl Abort, alloc: Global) -> MemDisk
    ensures { IsSettledBut name.Staged (history_of result) }
{
    MemDisk::new(alloc, Vec::new(alloc), None).expect(rt, "a disk")
}

fn empty(rt: &impl Abort, alloc: Global) -> Backup<MemDisk> {
    let low = blank(rt, alloc);
    let middle = blank(rt, alloc);
    let high = blank(rt, alloc);
    opened(rt, Backup::open(alloc, low, middle, high))
}

type Opened = Result<Backup<MemDisk>, (BackupFault, MemDisk, MemDisk, MemDisk)>;

/// A backup that was opened.
fn opened(rt: &impl Abort, opening: Opened) -> Backup<MemDisk> {
    match opening {
        Ok(backup) => backup,
        Err((why, _, _, _)) => panic!(rt; "{why:?}"),
    }
}

/// A backup with the files of the first transactions.
fn filled(rt: &impl Abort, alloc: Global, last: u64) -> Backup<MemDisk> {
    let mut backup = empty(rt, alloc);
    for txid in 1..=last {
        let end = backup
            .add(alloc, &nth(rt, alloc, txid))
            .expect(rt, "a file that joins");
        same(rt, end.txid, txid);
    }
    backup
}

/// A page of a database, which has it.
fn page_of<'a>(rt: &impl Abort, image: &'a Image, number: u32) -> &'a [u8]
    requires { 1 ≤ number }
{
    let commit = image.commit();
    assert!(rt; number <= commit);
    image.page(number)
}

/// The byte of which page 1 is full, where the database is one page.
fn byte_at(
    rt: &impl Abort,
    alloc: Global,
    backup: &mut Backup<MemDisk>,
    txid: u64,
) -> Result<u8, BackupFault> {
    let image = backup.restore(alloc, txid)?;
    same(rt, (image.commit(), image.page_size()), (1, 512));
    let page = page_of(rt, &image, 1);
    let byte = page.first().copied().unwrap_or(0);
    assert!(rt; page.iter().all(|other| *other == byte));
    Ok(byte)
}

#[test]
fn a_file_that_does_not_join(rt: HostRuntime) {
    let alloc = rt.alloc();
    let first = decode(
        alloc,
        encoding(alloc, &SNAPSHOT).expect(&rt, "memory").as_slice(),
    )
    .expect(&rt, "a file");
    let second = decode(
        alloc,
        encoding(alloc, &DELTA).expect(&rt, "memory").as_slice(),
    )
    .expect(&rt, "a file");
    let mut backup = empty(&rt, alloc);
    let have = Pos { txid: 0, sum: 0 };
    let want = Pos {
        txid: 1,
        sum: ONE_PAGE,
    };
    same(
        &rt,
        backup.add(alloc, &second),
        Err(BackupFault::NotNext { have, want }),
    );
    same(&rt, backup.add(alloc, &first), Ok(want));
    same(
        &rt,
        backup.add(alloc, &second),
        Ok(Pos {
            txid: 2,
            sum: TWO_PAGES,
        }),
    );
    let image = backup.restore(alloc, 2).expect(&rt, "a database");
    same(&rt, (image.commit(), image.page_size()), (2, 512));
    for number in 1..3 {
        let page = page_of(&rt, &image, number);
        assert!(&rt; page.iter().all(|byte| *byte == 0));
    }
}

#[test]
fn a_sum_that_is_not_the_pages(rt: HostRuntime) {
    let alloc = rt.alloc();
    let mut backup = filled(&rt, alloc, 2);
    let wrong = file(&rt, alloc, 3, sum_of(1), 7, FLAG);
    same(
        &rt,
        backup.add(alloc, &wrong),
        Ok(Pos { txid: 3, sum: FLAG }),
    );
    same(
        &rt,
        byte_at(&rt, alloc, &mut backup, 3),
        Err(BackupFault::SumDiffers {
            want: FLAG,
            got: sum_of(7),
        }),
    );
    same(&rt, byte_at(&rt, alloc, &mut backup, 2), Ok(1));
}
