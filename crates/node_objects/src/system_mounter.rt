//! The program that mounts a node's files, as the system runs it.
ghost use Rattle.std.specs.Prelude.{None};

use crate::mount_call::MountCall;
use crate::mounter::{Mounter, ProgramEnd};
use crate::obstacle::errno_of;
use crate::system::System;
use lf_base::{Errno, NoMemory};
use std::env;
use std::io::{self, ErrorKind};
use std::os::unix::process::ExitStatusExt;
use std::path::PathBuf;
use std::process::{Child, Command, ExitStatus, Stdio};

/// What the program is called that lies beside the node's own.
const PROGRAM: &str = "litefs-fuse";

/// Runs a program of the system. Its standard input is a pipe that ends with this object, and with the process, however that
/// ends. Its other streams, its environment and its working directory are those of the process.
#[derive(Drop)]
pub struct SystemMounter<R: System> {
    rt: R,
    /// None where memory ran out when it was made.
    call: Option<MountCall>,
    child: Option<Child>,
}

impl<R: System> SystemMounter<R> {
    pub fn new(rt: R, call: Result<MountCall, NoMemory>) -> SystemMounter<R> {
        SystemMounter {
            rt,
            call: call.ok(),
            child: None,
        }
    }
}

impl<R: System> Mounter for SystemMounter<R> {
    /// What the system did is not told.
    ghost news = { λ _. None };

    fn start(&mut self) -> Result<(), Option<Errno>> {
        self.child = None;
        let Some(call) = &self.call else {
            return Err(None);
        };
        match run(self.rt, call) {
            Ok(child) => {
                self.child = Some(child);
                Ok(())
            }
            Err(error) => Err(errno_of(&error)),
        }
    }

    fn look(&mut self) -> Option<ProgramEnd> {
        let Some(child) = &mut self.child else {
            return None;
        };
        match child.try_wait() {
            Ok(status) => Some(end_of(status?)),
            // Somebody else has waited for it.
            Err(_) => Some(ProgramEnd::Status(255)),
        }
    }
}

fn run<R: System>(rt: R, call: &MountCall) -> io::Result<Child> {
    let Ok(words) = call.words(rt.alloc()) else {
        return Err(io::Error::from(ErrorKind::OutOfMemory));
    };
    let mut command = command_of(rt, call)?;
    for word in words.as_slice() {
        command.arg(word.as_str())?;
    }
    command.stdin(Stdio::piped());
    command.spawn(&rt)
}

fn command_of<R: System>(rt: R, call: &MountCall) -> io::Result<Command> {
    match &call.program {
        Some(program) => Ok(Command::new(rt.alloc(), program.as_str())?),
        None => Ok(Command::new(rt.alloc(), beside(rt)?.as_str())?),
    }
}

/// The path of the program that lies beside the node's own.
fn beside<R: System>(rt: R) -> io::Result<PathBuf> {
    let own = env::current_exe(&rt)?;
    Ok(own.with_file_name(rt.alloc(), PROGRAM)?)
}

fn end_of(status: ExitStatus) -> ProgramEnd {
    match (status.code(), status.signal()) {
        (Some(code), _) => ProgramEnd::Status(u8::try_from(code).unwrap_or(255)),
        (None, Some(signal)) => ProgramEnd::Signal(u8::try_from(signal).unwrap_or(255)),
        (None, None) => ProgramEnd::Status(255),
    }
}
