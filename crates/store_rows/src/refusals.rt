//! What a store refuses: files that don't fit its pages or say another sum, and commits past a limit.
ghost use Rattle.ltx_codec.specs.Format.{IsFile};

use crate::samples::{A, B, ONE_AND_TWO, Sample, encoding_of, file_of};
use crate::sources::take_from;
use crate::steps::{Step, Taking, Way};
use crate::stores::{MemStore, made};
use lf_base::Pos;
use lf_sqlite_pages::{Change, is_page_size};
use ltx_codec::Ltx;
use std::alloc::Global;
use std::io;
use test_base::ONE_PAGE;
use txn_log::{FromFault, StoreFault};

/// What comes behind a file of one page of zeros: one that holds no page of its other size, and one that
/// says another sum.
const BEHIND: &[(&str, Sample)] = &[
    (
        "another page size",
        Sample {
            page_size: 1_024,
            commit: 1,
            pages: &[],
            post: ONE_PAGE,
            ..B
        },
    ),
    (
        "another sum",
        Sample {
            post: ONE_AND_TWO,
            ..B
        },
    ),
];

/// A page of zeros, as all transactions that there are numbers for.
const LAST: Sample = Sample { max: u64::MAX, ..A };

/// One page more than a database of pages of 512 bytes has.
const TOO_MANY: u32 = 4_161_791;

/// The commits that are refused: the file that the store has, and how many pages there would be then.
const COMMITS: &[(&str, Sample, u32)] = &[
    ("too many pages", A, TOO_MANY),
    ("no further transaction", LAST, 1),
];

/// The store of a file.
fn store_of(alloc: Global, step: Step) -> Option<MemStore> {
    made(alloc, Way::Whole, &[step])
}

/// What a store answers to a file, and to a source of it.
fn answers(
    alloc: Global,
    store: &mut MemStore,
    sample: &Sample,
) -> Option<(Result<Pos, StoreFault>, Result<Pos, FromFault>)> {
    let whole = applies(store, file_of(alloc, sample)?);
    let encoding = encoding_of(alloc, sample)?;
    let bytes = encoding.as_slice();
    let given = take_from(alloc, store, Taking::Apply, sample.commit, bytes, None)?;
    Some((whole, given))
}

fn applies(store: &mut MemStore, file: Ltx) -> Result<Pos, StoreFault>
    requires { IsFile file }
{
    let applied = store.apply(&file);
    drop(file);
    applied
}

fn print_behind(
    rt: HostRuntime,
    title: &str,
    store: &mut MemStore,
    sample: &Sample,
) -> io::Result<()> {
    match answers(rt.alloc(), store, sample) {
        Some((whole, given)) => println!(rt; "  {title}: {whole:?}\n    from a source: {given:?}"),
        None => println!(rt; "  no memory"),
    }
}

/// What a store answers to a commit of no pages, after which there are so many.
fn commits(
    alloc: Global,
    store: &mut MemStore,
    page_size: u32,
    pages: u32,
) -> Option<Result<Pos, StoreFault>> {
    if !is_page_size(page_size) {
        return None;
    }
    let change = Change::new(alloc, page_size, pages);
    Some(store.commit(change, 0, 0))
}

fn print_commit(rt: HostRuntime, title: &str, store: &mut MemStore, pages: u32) -> io::Result<()> {
    match commits(rt.alloc(), store, 512, pages) {
        Some(answer) => println!(rt; "  {title}: {answer:?}"),
        None => println!(rt; "  no page size"),
    }
}

/// What a new store answers to a file.
fn print_file(rt: HostRuntime, title: &str, sample: &Sample) -> io::Result<()> {
    match store_of(rt.alloc(), Step::Apply(A)) {
        Some(mut store) => {
            let printed = print_behind(rt, title, &mut store, sample);
            drop(store);
            printed
        }
        None => println!(rt; "  no store"),
    }
}

fn print_files(rt: HostRuntime) -> io::Result<()> {
    for (title, sample) in BEHIND {
        print_file(rt, title, sample)?;
    }
    Ok(())
}

/// What a store of a file answers to a commit after which there are so many pages.
fn print_pages(rt: HostRuntime, title: &str, sample: &Sample, pages: u32) -> io::Result<()> {
    match store_of(rt.alloc(), Step::Install(*sample)) {
        Some(mut store) => {
            let printed = print_commit(rt, title, &mut store, pages);
            drop(store);
            printed
        }
        None => println!(rt; "  no store"),
    }
}

pub fn print_refusals(rt: HostRuntime) -> io::Result<()> {
    println!(rt; "what a store refuses")?;
    print_files(rt)?;
    for (title, sample, pages) in COMMITS {
        print_pages(rt, title, sample, *pages)?;
    }
    Ok(())
}
