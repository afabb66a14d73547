//! A program in memory.
ghost use Rattle.std.specs.Prelude.{◌≡◌, [], Some};
ghost use Rattle.node_objects.specs.Making.{TakesBack};
ghost use Rattle.node_objects.specs.Mounters.{look_news, start_news};

use crate::mounter::{Mounter, ProgramEnd, ProgramNews};
use lf_base::Errno;
use std::alloc::Global;
use std::marker::Model;

/// What becomes of a program in memory.
#[derive(Clone, Copy, Debug, PartialEq, Eq)]
pub enum MemProgram {
    /// It starts, and runs for good.
    Runs,
    /// It starts, and has ended so at the first look.
    Ends(ProgramEnd),
    /// It can't be started, as the system says by this number.
    Fails(Option<Errno>),
}

/// A mounter that runs nothing. It is seen as what came of its calls, while there was memory for that.
#[derive(Drop)]
pub struct MemMounter {
    program: MemProgram,
    told: Vec<ProgramNews>,
    lost: bool,
}

impl Model for MemMounter {
    ghost use Rattle.std.specs.Prelude.{List, Option, None, Some, if◌then◌else◌};
    ghost use Rattle.node_objects.specs.declared.mounter.ProgramNews.{ProgramNews};

    ghost Value = { Option (List ProgramNews) };

    ghost view = { λ m. if m.lost then None else Some m.told.items };
}

impl MemMounter {
    /// This becomes of its program.
    pub fn new(alloc: Global, program: MemProgram) -> MemMounter
        ensures { result ≡ Some [] }
    {
        MemMounter {
            program,
            told: Vec::new(alloc),
            lost: false,
        }
    }

    fn note(&mut self, news: ProgramNews)
        ensures { TakesBack news self.old self.new }
    {
        if self.lost {
            return;
        }
        match self.told.push(news) {
            Ok(()) => {}
            Err(_) => self.lost = true,
        }
    }
}

impl Mounter for MemMounter {
    ghost news = { λ m. m };

    fn start(&mut self) -> Result<(), Option<Errno>>
        ensures { TakesBack (start_news result) self.old self.new }
    {
        if let MemProgram::Fails(why) = self.program {
            self.note(ProgramNews::NotStarted(why));
            return Err(why);
        }
        self.note(ProgramNews::Started);
        Ok(())
    }

    fn look(&mut self) -> Option<ProgramEnd>
        ensures { TakesBack (look_news result) self.old self.new }
    {
        if let MemProgram::Ends(end) = self.program {
            self.note(ProgramNews::Ended(end));
            return Some(end);
        }
        self.note(ProgramNews::Runs);
        None
    }
}
