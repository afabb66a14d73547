//! A store in a folder of the system.
use crate::samples::{A, B, Sample, encoding_of};
use crate::script::{STAGES, STEPS};
use crate::stages::{Stage, is_just};
use crate::steps::{Step, Way, Went, does, run};
use lf_disk::DirDisk;
use node_recovery::recover;
use std::{fs, io};
use txn_log::Store;

const TOP: &str = "store_rows_folder";

const FOLDER: &str = "store_rows_folder/x";

const FIRST: &str = "store_rows_folder/x/ltx/0000000000000001-0000000000000001.ltx";

const SECOND: &str = "store_rows_folder/x/ltx/0000000000000002-0000000000000002.ltx";

type FolderStore = Store<DirDisk<HostRuntime>>;

/// The store of the folder.
fn in_folder(rt: HostRuntime) -> Option<FolderStore> {
    match DirDisk::open(rt, FOLDER) {
        Ok(disk) => recover(rt.alloc(), disk).ok(),
        Err(_) => None,
    }
}

/// Looks whether a store is at a stage, and does a step.
fn does_at(rt: HostRuntime, store: &mut FolderStore, stage: &Stage, step: &Step) -> bool {
    is_just(store, stage) && matches!(does(rt.alloc(), store, Way::Whole, step), Went::Done)
}

/// Opens the folder, looks whether its store is at a stage, and does a step.
fn goes_on(rt: HostRuntime, stage: &Stage, step: &Step) -> bool {
    match in_folder(rt) {
        Some(mut store) => {
            let done = does_at(rt, &mut store, stage, step);
            drop(store);
            done
        }
        None => false,
    }
}

/// The script on a folder that is opened anew before each step.
pub fn print_script(rt: HostRuntime) -> io::Result<()> {
    let _ = fs::remove_dir_all(&rt, TOP);
    for (place, step) in STEPS.iter().enumerate() {
        let held = match STAGES.get(place) {
            Some(stage) => goes_on(rt, stage, step),
            None => false,
        };
        println!(rt; "folder: step {place}: {held}")?;
    }
    fs::remove_dir_all(&rt, TOP)
}

/// Whether a file of the folder has the encoding of a sample.
fn has_encoding(rt: HostRuntime, path: &str, sample: &Sample) -> bool {
    match (fs::read(&rt, path), encoding_of(rt.alloc(), sample)) {
        (Ok(found), Some(encoding)) => found.as_slice() == encoding.as_slice(),
        _ => false,
    }
}

/// Two files.
const TWO: &[Step] = &[Step::Commit(1, &[(1, 0)]), Step::Apply(B)];

/// How many of them are published.
fn publishes(rt: HostRuntime) -> usize {
    match in_folder(rt) {
        Some(mut store) => {
            let (done, _) = run(rt.alloc(), &mut store, Way::Whole, TWO);
            drop(store);
            done
        }
        None => 0,
    }
}

/// Two files are published, and the first stays as it was.
pub fn print_two_files(rt: HostRuntime) -> io::Result<()> {
    let done = publishes(rt);
    println!(rt; "folder: two files: {} {}", done > 0, done > 1)?;
    let (first, second) = (has_encoding(rt, FIRST, &A), has_encoding(rt, SECOND, &B));
    println!(rt; "folder: their encodings: {first} {second}")?;
    fs::remove_dir_all(&rt, TOP)
}
