//! What is told of a configuration that is none.
ghost use Rattle.std.specs.Prelude.{◌≡◌, IfOk};
ghost use Rattle.node_objects.specs.Complaining.{complaint_line};

use crate::line::Line;
use crate::maker::Maker;
use crate::tell::Lines;
use lf_base::{Handles, NoMemory};
use node_settings::Complaint;
use std::alloc::Global;

/// The name of the configuration.
const FILE: &str = "litefs.toml";

/// Tells what is complained of, where anything is. No configuration is read that could turn it off.
pub fn tell_complaint<R: Handles, M: Maker>(
    rt: &R,
    alloc: Global,
    complaint: &Option<Complaint>,
    make: &mut M,
)
    ensures kept { (M.asked make.new ≡ M.asked make.old) × (M.number make.new ≡ M.number make.old) }
    ensures same { (M.counts make.new ≡ M.counts make.old) × (M.back make.new ≡ M.back make.old) }
{
    match complaint {
        Some(complaint) => {
            let mut lines = Lines::new(make.tell(), true);
            lines.say(rt, complaint_line(alloc, complaint));
        }
        None => {}
    }
}

/// The line of a complaint.
pub fn complaint_line(alloc: Global, complaint: &Complaint) -> Result<Line, NoMemory>
    ensures { IfOk result (λ line. line ≡ complaint_line complaint.now) }
{
    let text = complaint.text(alloc, FILE)?;
    Line::of(alloc, text.bytes())
}
