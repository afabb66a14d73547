//! One call on a store.
ghost use Rattle.ltx_codec.specs.Format.{IsFile};

use crate::samples::{Filled, Sample, encoding_of, file_of};
use crate::sources::take_from;
use lf_base::Pos;
use lf_disk::Disk;
use ltx_codec::{Ltx, encode};
use snapshot::{EncodedFile, install};
use std::alloc::Global;
use test_base::NO_PAGES;
use txn_log::{FromFault, Store, StoreFault};

/// A call on a store.
#[derive(Clone, Copy)]
pub enum Step {
    /// These pages are committed, and there are so many then.
    Commit(u32, &'static [Filled]),
    Apply(Sample),
    Install(Sample),
    Prune,
    Drop,
}

/// How the files of others come.
#[derive(Clone, Copy)]
pub enum Way {
    Whole,
    /// From a source.
    Source,
}

/// What is done with the file of another.
#[derive(Clone, Copy)]
pub enum Taking {
    Apply,
    Install,
}

/// How a step went.
#[derive(Clone, Copy)]
pub enum Went {
    Done,
    /// The disk failed.
    Stopped,
    /// It had failed before.
    Broken,
    /// There was no memory, or the store refused for another reason.
    Refused,
}

fn outcome_of<T: Drop>(outcome: Result<T, StoreFault>) -> Went {
    match outcome {
        Ok(_) => Went::Done,
        Err(StoreFault::Disk) => Went::Stopped,
        Err(StoreFault::Broken) => Went::Broken,
        Err(_) => Went::Refused,
    }
}

/// How it went with a file that a source gives, for which there is room.
fn outcome_from(outcome: Option<Result<Pos, FromFault>>) -> Went {
    match outcome {
        Some(Ok(_)) => Went::Done,
        Some(Err(FromFault::Store(StoreFault::Disk))) => Went::Stopped,
        _ => Went::Refused,
    }
}

/// The file of a change, of which the numbers and sums do not matter.
const CHANGE: Sample = Sample {
    page_size: 512,
    min: 2,
    max: 2,
    commit: 0,
    pre: NO_PAGES,
    pages: &[],
    post: NO_PAGES,
};

fn commits<D: Disk>(
    alloc: Global,
    store: &mut Store<D>,
    commit: u32,
    pages: &'static [Filled],
) -> Went {
    let sample = Sample {
        commit,
        pages,
        ..CHANGE
    };
    match file_of(alloc, &sample) {
        Some(file) => outcome_of(store.commit(file.change, 0, 0)),
        None => Went::Refused,
    }
}

/// Installs a file from its bytes.
fn installs<D: Disk>(alloc: Global, store: &mut Store<D>, bytes: &[u8]) -> Went {
    let Ok(file) = EncodedFile::read(alloc, bytes) else {
        return Went::Refused;
    };
    if file.header().min != 1 {
        return Went::Refused;
    }
    outcome_of(install(store, &file))
}

/// Takes a file.
pub fn takes_file<D: Disk>(alloc: Global, store: &mut Store<D>, taking: Taking, file: &Ltx) -> Went
    requires { IsFile file.now }
{
    match taking {
        Taking::Apply => outcome_of(store.apply(file)),
        Taking::Install => {
            let mut bytes = Vec::new(alloc);
            match encode(file, &mut bytes) {
                Ok(()) => installs(alloc, store, bytes.as_slice()),
                Err(_) => Went::Refused,
            }
        }
    }
}

fn takes_whole<D: Disk>(
    alloc: Global,
    store: &mut Store<D>,
    taking: Taking,
    sample: &Sample,
) -> Went {
    match file_of(alloc, sample) {
        Some(file) => {
            let went = takes_file(alloc, store, taking, &file);
            drop(file);
            went
        }
        None => Went::Refused,
    }
}

fn takes_from<D: Disk>(
    alloc: Global,
    store: &mut Store<D>,
    taking: Taking,
    sample: &Sample,
) -> Went {
    let Some(encoding) = encoding_of(alloc, sample) else {
        return Went::Refused;
    };
    let bytes = encoding.as_slice();
    outcome_from(take_from(alloc, store, taking, sample.commit, bytes, None))
}

fn takes<D: Disk>(
    alloc: Global,
    store: &mut Store<D>,
    way: Way,
    taking: Taking,
    sample: &Sample,
) -> Went {
    match way {
        Way::Whole => takes_whole(alloc, store, taking, sample),
        Way::Source => takes_from(alloc, store, taking, sample),
    }
}

fn drops<D: Disk>(store: &mut Store<D>) -> Went {
    if store.pos().txid == 0 {
        return Went::Refused;
    }
    outcome_of(store.drop_all())
}

pub fn prunes<D: Disk>(store: &mut Store<D>) -> Went {
    outcome_of(store.prune(2))
}

/// Does a step.
pub fn does<D: Disk>(alloc: Global, store: &mut Store<D>, way: Way, step: &Step) -> Went {
    match step {
        Step::Commit(commit, pages) => commits(alloc, store, *commit, *pages),
        Step::Apply(sample) => takes(alloc, store, way, Taking::Apply, sample),
        Step::Install(sample) => takes(alloc, store, way, Taking::Install, sample),
        Step::Prune => prunes(store),
        Step::Drop => drops(store),
    }
}

/// Does some steps, and answers how many were done before one was not, and how that went.
pub fn run<D: Disk>(
    alloc: Global,
    store: &mut Store<D>,
    way: Way,
    steps: &[Step],
) -> (usize, Went) {
    for (done, step) in steps.iter().enumerate() {
        match does(alloc, store, way, step) {
            Went::Done => {}
            went => return (done, went),
        }
    }
    (steps.len(), Went::Done)
}
