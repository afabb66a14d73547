//! Folders that are damaged: each is recovered, and nothing of it is changed.
ghost use Rattle.std.specs.Prelude.{◌≡◌, [], IfSome};

use crate::copies::write_file;
use crate::samples::{A, B, Sample, encoding_of};
use crate::stores::crashed;
use lf_disk::{Disk, FileName, ListFault, MemDisk};
use node_recovery::{RecoverFault, recover};
use std::alloc::Global;
use std::io;
use test_base::TWO_PAGES;

/// A file of the log: the numbers of its name, what it has, and how many bytes it lacks at its end.
type Kept = (u64, u64, Sample, usize);

/// A folder: the files of its log, and how many bytes of 1 its database file has.
#[derive(Clone, Copy)]
struct Folder {
    title: &'static str,
    log: &'static [Kept],
    database: usize,
}

/// A third file of two pages of zeros, and a second one that follows another first one.
const THIRD: Sample = Sample {
    min: 3,
    max: 3,
    pre: TWO_PAGES,
    ..B
};

const STRANGE: Sample = Sample {
    pre: TWO_PAGES,
    ..B
};

const FOLDERS: &[Folder] = &[
    Folder {
        title: "a file that is cut off",
        log: &[(1, 1, A, 1)],
        database: 0,
    },
    Folder {
        title: "a file of another minimum",
        log: &[(2, 2, A, 0)],
        database: 0,
    },
    Folder {
        title: "a file of another maximum",
        log: &[(1, 2, A, 0)],
        database: 0,
    },
    Folder {
        title: "a gap",
        log: &[(1, 1, A, 0), (3, 3, THIRD, 0)],
        database: 512,
    },
    Folder {
        title: "a file of another database",
        log: &[(1, 1, A, 0), (2, 2, STRANGE, 0)],
        database: 512,
    },
    Folder {
        title: "other pages",
        log: &[(1, 1, A, 0), (2, 2, B, 0)],
        database: 512,
    },
    Folder {
        title: "a database without a log",
        log: &[],
        database: 512,
    },
];

fn write_kept<D: Disk>(alloc: Global, disk: &mut D, kept: &Kept) -> Option<()> {
    let (min, max, sample, cut) = *kept;
    let encoding = encoding_of(alloc, &sample)?;
    let bytes = encoding.as_slice();
    let front = bytes.get(..bytes.len().saturating_sub(cut))?;
    write_file(disk, FileName::Ltx { min, max }, front)
}

/// Writes the files of a folder.
fn write_all<D: Disk>(alloc: Global, disk: &mut D, folder: &Folder) -> Option<()> {
    for kept in folder.log {
        write_kept(alloc, disk, kept)?;
    }
    let pages = [1u8; 512];
    match pages.get(..folder.database) {
        Some([]) | None => Some(()),
        Some(bytes) => write_file(disk, FileName::Database, bytes),
    }
}

/// The disk of a folder, as it is found after a stop.
fn disk_of(alloc: Global, folder: &Folder) -> Option<MemDisk>
    ensures { IfSome result (λ disk. disk.calls ≡ []) }
{
    let mut disk = MemDisk::new(alloc, Vec::new(alloc), None).ok()?;
    if write_all(alloc, &mut disk, folder).is_some() {
        return crashed(disk, 0);
    }
    drop(disk);
    None
}

/// Why a disk is not recovered, and how many of its calls changed something.
fn refused(alloc: Global, disk: MemDisk) -> Option<(RecoverFault, u64)>
    requires { disk.calls ≡ [] }
{
    match recover(alloc, disk) {
        Ok(store) => {
            drop(store);
            None
        }
        Err((why, disk)) => {
            let changes = disk.moment();
            drop(disk);
            Some((why, changes))
        }
    }
}

fn print_refused(rt: HostRuntime, title: &str, disk: Option<MemDisk>) -> io::Result<()>
    requires { IfSome disk (λ disk. disk.calls ≡ []) }
{
    let Some(disk) = disk else {
        return println!(rt; "  {title}: no disk");
    };
    match refused(rt.alloc(), disk) {
        Some((why, changes)) => println!(rt; "  {title}: {why:?}, {changes} changes"),
        None => println!(rt; "  {title}: recovered"),
    }
}

/// An empty disk of which every call fails.
fn failing(alloc: Global) -> Option<MemDisk>
    ensures { IfSome result (λ disk. disk.calls ≡ []) }
{
    MemDisk::new(alloc, Vec::new(alloc), Some(0)).ok()
}

/// What it says when it is to list its files.
fn print_list(rt: HostRuntime) -> io::Result<()> {
    let listed = match failing(rt.alloc()) {
        Some(mut disk) => {
            let listed = disk.list().err();
            drop(disk);
            listed
        }
        None => Some(ListFault::NoMemory),
    };
    println!(rt; "  a list: {listed:?}")
}

pub fn print_damaged(rt: HostRuntime) -> io::Result<()> {
    println!(rt; "folders that are not recovered")?;
    for folder in FOLDERS {
        print_refused(rt, folder.title, disk_of(rt.alloc(), folder))?;
    }
    print_refused(rt, "a disk that fails", failing(rt.alloc()))?;
    print_list(rt)
}
