//! The program that mounts a node's files is kept running: started, looked at, and started again where it ended.
ghost use Rattle.std.specs.Fmt.{decimal};
ghost use Rattle.std.specs.Prelude.{◌≡◌, ◌++◌, IfOk, OnOk, Some, codes};
ghost use Rattle.node_objects.specs.Breaking.{reason};
ghost use Rattle.node_objects.specs.Lines.{shown};
ghost use Rattle.node_objects.specs.Making.{TakesBack};
ghost use Rattle.node_mount.specs.MountKeeping.{IsAsked, IsNewKeeper, Keeps, end_words, mount_front as front_words, mount_note as note_of_mount, news_words, program_name as name_of_program, runs_after as runs_by, tries_after as tries_by, wait_of as wait_by};

use crate::notes::{Note, NoteKind};
use lf_base::{Errno, NoMemory, Text};
use node_objects::{Line, Mounter, ProgramEnd, ProgramNews, put_reason};
use node_settings::MountSettings;
use std::alloc::Global;

/// How many milliseconds lie between two looks at the program, and at least between its end and its next start.
const SECOND: u64 = 1000;

/// How many seconds more lie there at most.
const MORE: u64 = 59;

/// What keeps the program running that mounts a node's files.
#[derive(Drop)]
pub struct MountKeeper<N> {
    mounter: N,
    /// What stands in front of what is told of the program.
    front: Line,
    /// Whether it runs, as it was found last.
    runs: bool,
    /// When it was last started or looked at, and for how many milliseconds nothing is done since then.
    last: u64,
    wait: u64,
    /// How often it has ended, or was not started, since it was seen running.
    tries: u64,
}

impl<N: Mounter + Drop> MountKeeper<N> {
    /// Of a program that was not started yet, for this folder.
    pub fn new(alloc: Global, mounter: N, mount: &MountSettings) -> Result<MountKeeper<N>, NoMemory>
        ensures { IfOk result (IsNewKeeper mount.now) }
    {
        let front = front_of(alloc, mount)?;
        Ok(MountKeeper {
            mounter,
            front,
            runs: false,
            last: 0,
            wait: 0,
            tries: 0,
        })
    }
}

impl<N: Mounter> MountKeeper<N> {
    /// Keeps the program running at this moment: it is started where it does not run, and else looked at. Answers what
    /// came of that, and nothing where it is too early for either.
    pub fn keep(&mut self, now: u64) -> Option<ProgramNews>
        ensures { Keeps N.news self.old self.new now result }
    {
        if now.saturating_sub(self.last) < self.wait {
            return None;
        }
        let news = self.ask();
        self.runs = runs_after(news);
        self.last = now;
        self.wait = wait_of(news, self.tries);
        self.tries = tries_after(news, self.tries);
        Some(news)
    }

    fn ask(&mut self) -> ProgramNews
        ensures asked { IsAsked self.old.runs result }
        ensures told { TakesBack result (N.news self.old.mounter) (N.news self.new.mounter) }
        ensures rest { self.new ≡ record self.old { mounter = self.new.mounter } }
    {
        if self.runs {
            match self.mounter.look() {
                Some(end) => ProgramNews::Ended(end),
                None => ProgramNews::Runs,
            }
        } else {
            match self.mounter.start() {
                Ok(()) => ProgramNews::Started,
                Err(why) => ProgramNews::NotStarted(why),
            }
        }
    }

    /// What is noted of that.
    pub fn note(&self, alloc: Global, news: ProgramNews) -> Result<Option<Note>, NoMemory>
        ensures { IfOk result (λ note. note ≡ note_of_mount self.now.front news) }
    {
        mount_note(alloc, &self.front, news)
    }
}

fn runs_after(news: ProgramNews) -> bool
    ensures { result ≡ runs_by news }
{
    match news {
        ProgramNews::Started | ProgramNews::Runs => true,
        ProgramNews::NotStarted(_) | ProgramNews::Ended(_) => false,
    }
}

/// For how long nothing is done after that: a second more each time that the program doesn't stay.
fn wait_of(news: ProgramNews, tries: u64) -> u64
    ensures { result ≡ wait_by news tries }
{
    match news {
        ProgramNews::Started | ProgramNews::Runs => SECOND,
        ProgramNews::NotStarted(_) | ProgramNews::Ended(_) => SECOND + SECOND * tries.min(MORE),
    }
}

fn tries_after(news: ProgramNews, tries: u64) -> u64
    ensures { result ≡ tries_by news tries }
{
    match news {
        ProgramNews::Started => tries,
        ProgramNews::Runs => 0,
        ProgramNews::NotStarted(_) | ProgramNews::Ended(_) => tries.saturating_add(1),
    }
}

/// What stands in front of what is told of the program.
fn front_of(alloc: Global, mount: &MountSettings) -> Result<Line, NoMemory>
    ensures { IfOk result (λ line. line ≡ front_words mount.now) }
{
    let mut line = Line::of(alloc, b"mount at ")?;
    line.put(mount.dir.bytes())?;
    line.put(b" by ")?;
    line.put(program_name(&mount.program))?;
    line.put(b": ")?;
    Ok(line)
}

fn program_name(program: &Option<Text>) -> &[u8]
    ensures { result.now ≡ name_of_program program.now }
{
    match program {
        Some(program) => program.bytes(),
        None => b"litefs-fuse",
    }
}

fn mount_note(alloc: Global, front: &Line, news: ProgramNews) -> Result<Option<Note>, NoMemory>
    ensures { IfOk result (λ note. note ≡ note_of_mount front.now news) }
{
    match news {
        ProgramNews::Runs => Ok(None),
        ProgramNews::Started => noted(alloc, NoteKind::Mounts, front, news),
        ProgramNews::NotStarted(_) | ProgramNews::Ended(_) => noted(
            alloc,
            NoteKind::Unmounts,
            front,
            news,
        ),
    }
}

fn noted(
    alloc: Global,
    kind: NoteKind,
    front: &Line,
    news: ProgramNews,
) -> Result<Option<Note>, NoMemory>
    ensures { IfOk result (λ note. note ≡ Some (record { kind = kind; line = front.now ++ news_words news })) }
{
    let mut line = front.copy(alloc)?;
    put_news(alloc, &mut line, news)?;
    Ok(Some(Note { kind, line }))
}

fn put_news(alloc: Global, line: &mut Line, news: ProgramNews) -> Result<(), NoMemory>
    ensures { OnOk result (line.new ≡ line.old ++ news_words news) }
{
    match news {
        ProgramNews::Started => line.put(b"started"),
        ProgramNews::NotStarted(why) => put_reason_of(line, why),
        ProgramNews::Runs => line.put(b"runs"),
        ProgramNews::Ended(end) => put_end(alloc, line, end),
    }
}

fn put_reason_of(line: &mut Line, why: Option<Errno>) -> Result<(), NoMemory>
    ensures { OnOk result (line.new ≡ line.old ++ (codes "cannot start" ++ shown (reason why))) }
{
    line.put(b"cannot start")?;
    put_reason(line, why)
}

fn put_end(alloc: Global, line: &mut Line, end: ProgramEnd) -> Result<(), NoMemory>
    ensures { OnOk result (line.new ≡ line.old ++ end_words end) }
{
    match end {
        ProgramEnd::Status(status) => put_number(alloc, line, b"ended with status ", status),
        ProgramEnd::Signal(signal) => put_number(alloc, line, b"ended by signal ", signal),
    }
}

fn put_number(alloc: Global, line: &mut Line, words: &[u8], number: u8) -> Result<(), NoMemory>
    ensures { OnOk result (line.new ≡ line.old ++ (shown words.now ++ (shown (decimal number) ++ codes ", is started again"))) }
{
    let digits = number.to_string(alloc)?;
    line.put(words)?;
    line.put(digits.as_bytes())?;
    line.put(b", is started again")
}
