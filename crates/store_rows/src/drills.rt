//! The script on disks that stop, or fail once, at each of their calls.
use crate::script::{STAGES, STEPS};
use crate::steps::Way;
use crate::trials::{Script, trial};
use std::io;
use test_base::Failing;

/// What is left of each call that is pending: nothing, a part, a part and all in turns, all.
const CHOICES: [u64; 4] = [0, u64::MAX / 3, 0x6666_6666_6666_6666, u64::MAX];

/// More calls than the script makes of its disk.
pub const ENOUGH: u64 = 140;

/// How the script is played.
#[derive(Clone, Copy)]
struct Drill {
    title: &'static str,
    way: Way,
    failing: Failing,
}

const DRILLS: &[Drill] = &[
    Drill {
        title: "the script, stopped at each call of the disk",
        way: Way::Whole,
        failing: Failing::From,
    },
    Drill {
        title: "the script, with a fault at each call of the disk",
        way: Way::Whole,
        failing: Failing::At,
    },
    Drill {
        title: "the script with files from sources, stopped at each call of the disk",
        way: Way::Source,
        failing: Failing::From,
    },
    Drill {
        title: "the script with files from sources, with a fault at each call of the disk",
        way: Way::Source,
        failing: Failing::At,
    },
];

/// Prints how many steps were done at the last of many calls that failed, and each call that does not
/// leave the store before a step or after it.
fn print_with(rt: HostRuntime, script: &Script, failing: Failing, choice: u64) -> io::Result<()> {
    let mut last = 0;
    for call in 0..ENOUGH {
        match trial(rt.alloc(), script, failing, call, choice) {
            Some((done, _)) => last = done,
            None => println!(rt; "  call {call}, choice {choice}: neither")?,
        }
    }
    println!(rt; "  {last} of {} steps", script.steps.len())
}

fn print_drill(rt: HostRuntime, drill: &Drill) -> io::Result<()> {
    let script = Script {
        way: drill.way,
        steps: STEPS,
        stages: STAGES,
    };
    println!(rt; "{}", drill.title)?;
    for choice in CHOICES {
        print_with(rt, &script, drill.failing, choice)?;
    }
    Ok(())
}

pub fn print_drills(rt: HostRuntime) -> io::Result<()> {
    for drill in DRILLS {
        print_drill(rt, drill)?;
    }
    Ok(())
}
