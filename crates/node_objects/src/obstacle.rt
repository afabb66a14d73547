//! What stands in the way where a node can't have what it runs on.
ghost use Rattle.std.specs.Prelude.{◌≡◌, ◌++◌, IfOk, OnOk};
ghost use Rattle.node_objects.specs.Lines.{shown};
ghost use Rattle.node_objects.specs.Obstacles.{obstacle_line as obstacle_line_of, obstacle_words};

use crate::broken::put_reason;
use crate::line::Line;
use crate::maker::Maker;
use crate::tell::Lines;
use lf_base::{Errno, Handles, NoMemory, Text};
use std::alloc::Global;
use std::io;

/// Why a maker could not make something.
#[derive(Clone, Copy, Debug, PartialEq, Eq)]
pub enum Obstacle {
    /// Another process has it.
    InUse,
    /// Another file than a socket has the path.
    NoSocket,
    /// The path is longer than a socket's may be.
    TooLong,
    /// The system said so.
    Error(Errno),
}

impl Obstacle {
    /// What the system said, where it gave a number.
    pub fn of(error: &io::Error) -> Option<Obstacle> {
        Some(Obstacle::Error(errno_of(error)?))
    }
}

/// The number that the system gave, where it gave one.
pub fn errno_of(error: &io::Error) -> Option<Errno> {
    match u32::try_from(error.raw_os_error()?) {
        Ok(number) => Some(Errno(number)),
        Err(_) => None,
    }
}

/// Tells what the maker could not make just now: `call` is what was to be done with the thing of this name.
pub fn tell_obstacle<R: Handles, M: Maker>(
    rt: &R,
    alloc: Global,
    call: &[u8],
    name: &[u8],
    log: bool,
    make: &mut M,
)
    ensures kept { (M.asked make.new ≡ M.asked make.old) × (M.number make.new ≡ M.number make.old) }
    ensures same { (M.counts make.new ≡ M.counts make.old) × (M.back make.new ≡ M.back make.old) }
{
    let line = obstacle_line(alloc, call, name, make.obstacle());
    let mut lines = Lines::new(make.tell(), log);
    lines.say(rt, line);
}

/// Tells that nobody can listen there.
pub fn tell_unheard<R: Handles, M: Maker>(
    rt: &R,
    alloc: Global,
    place: &Text,
    log: bool,
    make: &mut M,
)
    ensures kept { (M.asked make.new ≡ M.asked make.old) × (M.number make.new ≡ M.number make.old) }
    ensures same { (M.counts make.new ≡ M.counts make.old) × (M.back make.new ≡ M.back make.old) }
{
    tell_obstacle(rt, alloc, b"listen on ", place.bytes(), log, make);
}

/// The line of what could not be made.
fn obstacle_line(
    alloc: Global,
    call: &[u8],
    name: &[u8],
    why: Option<Obstacle>,
) -> Result<Line, NoMemory>
    ensures { IfOk result (λ line. line ≡ obstacle_line_of call.now name.now why) }
{
    let mut line = Line::of(alloc, b"cannot ")?;
    line.put(call)?;
    line.put(name)?;
    match why {
        Some(why) => put_obstacle(&mut line, why)?,
        None => {}
    }
    Ok(line)
}

/// Adds what stood in the way.
fn put_obstacle(line: &mut Line, why: Obstacle) -> Result<(), NoMemory>
    ensures { OnOk result (line.new ≡ line.old ++ shown (obstacle_words why)) }
{
    match why {
        Obstacle::InUse => line.put(b": another process has it"),
        Obstacle::NoSocket => line.put(b": a file that is no socket has the path"),
        Obstacle::TooLong => line.put(b": a socket's path has at most 107 bytes"),
        Obstacle::Error(number) => put_reason(line, Some(number)),
    }
}
