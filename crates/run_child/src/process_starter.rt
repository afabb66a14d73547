ghost use Rattle.std.specs.Prelude.{◌≡◌, ℤ, pos, Option, None, MatchOption};
ghost use Rattle.std.specs.Process.{exit_code};

use crate::starter::{ReadyStarter, Starter};
use lf_base::{Failed, Link, Text};
use std::alloc::Global;
use std::io;
use std::process::{Command, ExitStatus, Processes};

/// Starts programs of the system. They have the caller's standard streams, environment and folder. It
/// tells its count alone: what a program does no contract knows.
#[derive(Drop)]
pub struct ProcessStarter {
    alloc: Global,
    faults: u64,
}

impl ProcessStarter {
    pub fn new(alloc: Global) -> ProcessStarter
        ensures { result.faults ≡ 0 }
    {
        ProcessStarter { alloc, faults: 0 }
    }
}

impl Starter for ProcessStarter {
    ghost starts = { λ _. None };

    ghost faults = { λ s. s.faults };

    /// No words name no program, which is a fault too.
    fn start<R: Processes, L: Link>(
        &mut self,
        rt: &R,
        link: &L,
        words: &[Text],
    ) -> Result<u8, Failed> {
        match run_words(self.alloc, rt, words) {
            Ok(Some(status)) => Ok(status_number(status)),
            _ => {
                self.faults = self.faults.saturating_add(1);
                Err(Failed)
            }
        }
    }
}

impl ReadyStarter for ProcessStarter {
    ghost ready = { λ _ _. tt };
}

/// Runs the program of the first word to its end; nothing where there are no words.
fn run_words<R: Processes>(
    alloc: Global,
    rt: &R,
    words: &[Text],
) -> io::Result<Option<ExitStatus>> {
    let Some((program, more)) = words.split_first() else {
        return Ok(None);
    };
    let mut command = Command::new(alloc, program.as_str())?;
    for word in more {
        command.arg(word.as_str())?;
    }
    let status = command.status(rt)?;
    Ok(Some(status))
}

/// The exit status, and 255 where a signal ended the program.
fn status_number(status: ExitStatus) -> u8
    ensures { MatchOption (exit_code status) (result ≡ 255) (λ code. code ≡ pos result) }
{
    match status.code() {
        Some(code) => u8::try_from(code).unwrap_or(255),
        None => 255,
    }
}
