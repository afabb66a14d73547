//! A program is run that mounts a node's files at a folder.
ghost use Rattle.std.specs.Prelude.{List, Option};
ghost use Rattle.node_objects.specs.declared.mounter.ProgramNews.{ProgramNews};
ghost use Rattle.node_objects.specs.Making.{TakesBack};
ghost use Rattle.node_objects.specs.Mounters.{look_news, start_news};

use lf_base::Errno;

/// What came of a program that is started, or looked at.
#[derive(Clone, Copy, Debug, PartialEq, Eq)]
pub enum ProgramNews {
    /// It was started.
    Started,
    /// It could not be, as the system said by this number, where it gave one.
    NotStarted(Option<Errno>),
    /// It runs.
    Runs,
    /// It has ended.
    Ended(ProgramEnd),
}

/// How a program ended.
#[derive(Clone, Copy, Debug, PartialEq, Eq)]
pub enum ProgramEnd {
    /// With this status.
    Status(u8),
    /// By this signal.
    Signal(u8),
}

/// What runs the program that mounts a node's files. It is made for one call of the program.
pub trait Mounter {
    /// What came of its calls, in order, where it tells that.
    ghost news: { Self → Option (List ProgramNews) };

    /// Starts the program. That is told the end of this object, or of the process, and ends then.
    fn start(&mut self) -> Result<(), Option<Errno>>
        ensures { TakesBack (start_news result) (news self.old) (news self.new) };

    /// How the program ended that was started last, where it has.
    fn look(&mut self) -> Option<ProgramEnd>
        ensures { TakesBack (look_news result) (news self.old) (news self.new) };
}
