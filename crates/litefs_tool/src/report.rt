//! What standard error says of a run that failed.
ghost use Rattle.std.specs.Prelude.{◌++◌, OnOk, OnErr};
ghost use Rattle.std.specs.Io.KnownBytes.{Appends};
ghost use Rattle.lf_base.specs.Faults.{CountsFaults};
ghost use Rattle.litefs_tool.specs.Output.{AppendsPrefix};
ghost use Rattle.litefs_tool.specs.Run.{line, line_of};
ghost use Rattle.litefs_tool.specs.steps.Failure.{status_of_failure, name_of_failure};

use crate::failure::Failure;
use crate::output::write_whole;
use lf_base::{Failed, Sink, Status};

/// Says in one line why a run failed, and nothing of a program that has ended. After a fault of the sink, it took a prefix of the line.
pub fn report<E: Sink>(errors: &mut E, failure: Failure) -> Result<(), Failed>
    ensures whole { OnOk result (Appends (E.taken errors.old) (E.taken errors.new) (line_of (status_of_failure failure) (name_of_failure failure))) }
    ensures prefix { OnErr result (AppendsPrefix (E.taken errors.old) (E.taken errors.new) (line_of (status_of_failure failure) (name_of_failure failure))) }
    ensures cause { CountsFaults (E.faults errors.old) (E.faults errors.new) result }
{
    match failure.status() {
        Status::Program(_) => Ok(()),
        status => write_line(errors, status.text(), failure.fault_name()),
    }
}

fn write_line<E: Sink>(errors: &mut E, text: &str, name: &str) -> Result<(), Failed>
    ensures whole { OnOk result (Appends (E.taken errors.old) (E.taken errors.new) (line (text.now ++ name.now))) }
    ensures prefix { OnErr result (AppendsPrefix (E.taken errors.old) (E.taken errors.new) (line (text.now ++ name.now))) }
    ensures cause { CountsFaults (E.faults errors.old) (E.faults errors.new) result }
{
    write_whole(errors, b"litefs: ")?;
    write_whole(errors, text.as_bytes())?;
    write_whole(errors, name.as_bytes())?;
    write_whole(errors, b"\n")
}
