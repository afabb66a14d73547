//! The program `litefs`: standard input, output and error, the arguments of the command line, and for
//! a node its configuration and the system's objects, and what starts programs, given to `litefs_tool`.
#![tactic(auto)]

mod config_file;

use config_file::ConfigFile;
use lf_base::{Closing, NoMemory, Status, StdSink, StdSource, Text};
use litefs_tool::{Host, run};
use node_objects::{System, SystemMaker};
use run_child::ProcessStarter;
use std::process::ExitCode;
use std::{env, io};

/// The configuration of a node, in the working directory.
const CONFIG: &str = "litefs.toml";

fn main(rt: HostRuntime) -> ExitCode {
    let status = match (arguments(&rt), maker(rt)) {
        (Ok(arguments), Ok(make)) => {
            let mut host = Host {
                input: StdSource::new(rt.stdin()),
                output: StdSink::new(rt.stdout()),
                errors: StdSink::new(rt.stderr()),
                config: ConfigFile::new(rt, CONFIG),
                make,
                child: ProcessStarter::new(rt.alloc()),
            };
            run(rt, rt.alloc(), arguments.as_slice(), &mut host)
        }
        _ => {
            let _ = eprintln!(rt; "litefs: out of memory");
            Status::NoMemory
        }
    };
    ExitCode::from(status.number())
}

/// What makes the system's objects. Nobody closes its word: a node goes on until it is stopped.
fn maker<R: System + Send + 'static>(rt: R) -> Result<SystemMaker<R>, NoMemory> {
    let closing = Closing::new(rt.alloc())?;
    SystemMaker::new(rt, closing)
}

/// The arguments after the program's name. Arguments that are no text are read as none, which no
/// command has.
fn arguments(rt: &HostRuntime) -> Result<Vec<Text>, NoMemory> {
    let mut arguments = Vec::new(rt.alloc());
    let given = match env::args(rt) {
        Ok(given) => given,
        Err(error) if error.kind() == io::ErrorKind::OutOfMemory => return Err(NoMemory),
        Err(_) => return Ok(arguments),
    };
    for argument in given.skip(1) {
        arguments.push(Text::of(rt.alloc(), argument.as_str())?)?;
    }
    Ok(arguments)
}
