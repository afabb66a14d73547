//! The command that plays a drill.
ghost use Rattle.std.specs.Prelude.{◌≡◌};
ghost use Rattle.litefs_tool.specs.Streams.{IsStill, Stream, stream};
ghost use Rattle.litefs_tool.specs.steps.Performing.{GoesDrilling};

use crate::failure::Failure;
use crate::output::write_whole;
use cluster_drill::play_drill;
use lf_base::Sink;
use std::alloc::Global;

/// The line of the drill of a number goes to the output. Nothing is written before the drill is played.
pub(crate) fn drill<O: Sink>(alloc: Global, number: u64, output: &mut O) -> Result<(), Failure>
    ensures { (input : Stream) → IsStill input → GoesDrilling number input (stream O.taken O.faults output.old output.new) result }
{
    let line = play_drill(alloc, number)?;
    write_whole(output, line.as_slice())?;
    Ok(())
}
