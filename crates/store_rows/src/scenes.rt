//! Scripts that are stopped at each call of their last step.
use crate::samples::{FILLED_TO_6, ONE_AND_TWO, Sample, ZEROS_TO_8};
use crate::stages::{NEVER_WRITTEN, Stage};
use crate::steps::{Step, Way};
use crate::stores::calls_of;
use crate::trials::{Script, trial};
use std::alloc::Global;
use std::io;
use test_base::{Failing, TWO_PAGES};

#[derive(Clone, Copy)]
struct Scene {
    title: &'static str,
    script: Script,
}

/// A commit of two pages of zeros where there are none, and of nothing where they are there.
const ZEROS: Step = Step::Commit(2, &[]);

/// Two pages of zeros.
const ZEROS_AT_1: Stage = Stage {
    txid: 1,
    sum: TWO_PAGES,
    pages: &[0, 0],
    files: 1,
    dropped: false,
};

/// A page of 1 and one of 2.
const FILLED_AT_2: Stage = Stage {
    txid: 2,
    sum: ONE_AND_TWO,
    pages: &[1, 2],
    files: 2,
    dropped: false,
};

/// Pages 1 and 2 are written over two pages of zeros.
const OVER_ZEROS: &[Stage] = &[NEVER_WRITTEN, ZEROS_AT_1, FILLED_AT_2];

/// Pages 1 and 2 as a file.
const PAGES: Sample = Sample {
    page_size: 512,
    min: 2,
    max: 2,
    commit: 2,
    pre: TWO_PAGES,
    pages: &[(1, 1), (2, 2)],
    post: ONE_AND_TWO,
};

/// A snapshot to 6 over a store at 9, whose log has two files.
const OVER_9: &[Step] = &[Step::Apply(ZEROS_TO_8), ZEROS, Step::Install(FILLED_TO_6)];

const FROM_9_TO_6: &[Stage] = &[
    NEVER_WRITTEN,
    Stage {
        txid: 8,
        ..ZEROS_AT_1
    },
    Stage {
        txid: 9,
        files: 2,
        ..ZEROS_AT_1
    },
    Stage {
        txid: 6,
        files: 1,
        ..FILLED_AT_2
    },
];

const SCENES: &[Scene] = &[
    Scene {
        title: "a commit of pages 1 and 2",
        script: Script {
            way: Way::Whole,
            steps: &[ZEROS, Step::Commit(2, &[(1, 1), (2, 2)])],
            stages: OVER_ZEROS,
        },
    },
    Scene {
        title: "a snapshot to 6 over a store at 9",
        script: Script {
            way: Way::Whole,
            steps: OVER_9,
            stages: FROM_9_TO_6,
        },
    },
    Scene {
        title: "pages 1 and 2 from a source",
        script: Script {
            way: Way::Source,
            steps: &[ZEROS, Step::Apply(PAGES)],
            stages: OVER_ZEROS,
        },
    },
    Scene {
        title: "a snapshot to 6 from a source, over a store at 9",
        script: Script {
            way: Way::Source,
            steps: OVER_9,
            stages: FROM_9_TO_6,
        },
    },
];

/// Which store is recovered after a stop.
fn place(alloc: Global, script: &Script, stop: u64, choice: u64) -> &'static str {
    match trial(alloc, script, Failing::From, stop, choice) {
        Some((_, place)) => place,
        None => "neither",
    }
}

/// Prints which store is recovered after a stop, where of what is pending nothing, a part or all is left.
fn print_places(rt: HostRuntime, script: &Script, number: u64, stop: u64) -> io::Result<()> {
    let nothing = place(rt.alloc(), script, stop, 0);
    let part = place(rt.alloc(), script, stop, u64::MAX / 3);
    let all = place(rt.alloc(), script, stop, u64::MAX);
    println!(rt; "  {number}: {nothing} {part} {all}")
}

fn print_scene(rt: HostRuntime, scene: &Scene) -> io::Result<()> {
    let script = &scene.script;
    let first = script.steps.len().saturating_sub(1);
    let first = script.steps.get(..first).unwrap_or(&[]);
    let (Some((begin, before)), Some((end, after))) = (
        calls_of(rt.alloc(), script.way, first),
        calls_of(rt.alloc(), script.way, script.steps),
    ) else {
        return println!(rt; "{}: not done", scene.title);
    };
    let changing = after.saturating_sub(before);
    println!(rt; "{}: {changing} changing calls", scene.title)?;
    for stop in begin..end {
        print_places(rt, script, stop - begin, stop)?;
    }
    Ok(())
}

pub fn print_scenes(rt: HostRuntime) -> io::Result<()> {
    for scene in SCENES {
        print_scene(rt, scene)?;
    }
    Ok(())
}
