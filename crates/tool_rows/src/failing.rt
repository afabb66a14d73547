//! Each call of each object of a run fails in turn, up to the first run of which none fails.

use crate::asks::{EXPORT, IMPORT, IMPORTED, PAGES};
use crate::nodes::{CONFIG, ROOM};
use crate::objects::{Calls, NONE, Object, asker_on, node_on};
use crate::running::{host_failing, run_line};
use lf_base::{Handles, SliceSource, VecSink};
use node_objects::Maker;
use std::alloc::Global;
use std::fs;
use std::io::Print;
use std::process::Processes;
use std::rt::Files;
use test_base::{Fault, one};

/// What runs.
#[derive(Clone, Copy)]
enum Course {
    Apply,
    Export,
    Import,
    Mount,
}

/// The object of a run that fails.
type Row = (Course, Object, &'static str);

const ROWS: &[Row] = &[
    (Course::Apply, Object::Input, "apply, its input"),
    (Course::Apply, Object::Output, "apply, its output"),
    (Course::Export, Object::Output, "export, its output"),
    (Course::Export, Object::Dialer, "export, its dialer"),
    (Course::Export, Object::Link, "export, its link"),
    (Course::Import, Object::Input, "import, its input"),
    (Course::Import, Object::Output, "import, its output"),
    (Course::Import, Object::Dialer, "import, its dialer"),
    (Course::Import, Object::Link, "import, its link"),
    (
        Course::Mount,
        Object::Configuration,
        "mount, its configuration",
    ),
    (Course::Mount, Object::Maker, "mount, its maker"),
    (Course::Mount, Object::Disk, "mount, its disk"),
    (
        Course::Mount,
        Object::FileAcceptor,
        "mount, its acceptor of file links",
    ),
    (
        Course::Mount,
        Object::HttpAcceptor,
        "mount, its acceptor of HTTP links",
    ),
    (Course::Mount, Object::Spawner, "mount, its spawner"),
    (Course::Mount, Object::FileLink, "mount, its file link"),
    (Course::Mount, Object::HttpLink, "mount, its HTTP link"),
];

/// More calls than an object here has, but for the spawner: of that the first ones fail.
const MOST: u64 = 100;

/// The status of a run, and all that it wrote: on its output, and on its links.
#[derive(Drop)]
struct Ran {
    status: u8,
    output: Vec<u8>,
    first: Vec<u8>,
    second: Vec<u8>,
}

impl Ran {
    /// Whether it wrote a front of what another run wrote.
    fn is_front_of(&self, whole: &Ran) -> bool {
        let (output, first, second) = (&whole.output, &whole.first, &whole.second);
        output.as_slice().starts_with(self.output.as_slice())
            && first.as_slice().starts_with(self.first.as_slice())
            && second.as_slice().starts_with(self.second.as_slice())
    }

    fn is_as(&self, whole: &Ran) -> bool {
        self.status == whole.status
            && self.output.as_slice() == whole.output.as_slice()
            && self.first.as_slice() == whole.first.as_slice()
            && self.second.as_slice() == whole.second.as_slice()
    }
}

/// The status of a run by this line, and what it wrote on its output.
fn runs<R: Handles + Processes + Copy + Send + 'static, M: Maker + Drop>(
    rt: R,
    alloc: Global,
    line: &str,
    input: &[u8],
    (calls, make): (Calls, M),
) -> Result<(u8, Vec<u8>), Fault> {
    let input = SliceSource::new(input, one(alloc, calls.input)?).unwrap();
    let config = SliceSource::new(CONFIG, one(alloc, calls.config)?).unwrap();
    let output = VecSink::new(alloc, ROOM, one(alloc, calls.output)?)?;
    let mut host = host_failing(alloc, input, config, output, make)?;
    let status = run_line(rt, alloc, line, &mut host)?;
    Ok((
        status.number(),
        Vec::from_slice(alloc, host.output.taken())?,
    ))
}

/// A run that dials one link, or none, which gives a reply.
fn asks<R: Handles + Processes + Copy + Send + 'static>(
    rt: R,
    alloc: Global,
    line: &str,
    (input, reply): (&[u8], &[u8]),
    calls: Calls,
) -> Result<Ran, Fault> {
    let (make, link) = asker_on(alloc, reply, calls)?;
    let (status, output) = runs(rt, alloc, line, input, (calls, make))?;
    Ok(Ran {
        status,
        output,
        first: link.bytes()?,
        second: Vec::new(alloc),
    })
}

/// A run of a node over a disk with this file.
fn mounts<R: Handles + Processes + Copy + Send + 'static>(
    rt: R,
    alloc: Global,
    file: &[u8],
    calls: Calls,
) -> Result<Ran, Fault> {
    let (make, files, http) = node_on(alloc, file, calls)?;
    let (status, output) = runs(rt, alloc, "litefs mount", b"left alone", (calls, make))?;
    Ok(Ran {
        status,
        output,
        first: files.bytes()?,
        second: http.bytes()?,
    })
}

/// A run of which these calls fail.
fn goes<R: Handles + Processes + Copy + Send + 'static>(
    rt: R,
    alloc: Global,
    course: Course,
    file: &[u8],
    calls: Calls,
) -> Result<Ran, Fault> {
    match course {
        Course::Apply => asks(rt, alloc, "litefs apply", (file, b""), calls),
        Course::Export => asks(rt, alloc, EXPORT, (b"left alone", PAGES), calls),
        Course::Import => asks(rt, alloc, IMPORT, (b"pages!", IMPORTED), calls),
        Course::Mount => mounts(rt, alloc, file, calls),
    }
}

/// How many runs ended with each status, and whether each wrote a front of the whole.
#[derive(Drop)]
struct Outcome {
    ends: Vec<(u8, u64)>,
    fronts: bool,
}

impl Outcome {
    fn count(&mut self, status: u8) -> Result<(), Fault> {
        for (known, number) in &mut self.ends {
            if *known == status {
                *number = number.saturating_add(1);
                return Ok(());
            }
        }
        self.ends.push((status, 1))?;
        Ok(())
    }

    fn add(&mut self, ran: &Ran, whole: &Ran) -> Result<(), Fault> {
        self.fronts = self.fronts && ran.is_front_of(whole);
        self.count(ran.status)
    }

    fn print(&self, rt: &impl Print) -> Result<(), Fault> {
        for (status, number) in &self.ends {
            print!(rt; ", status {status}: {number}")?;
        }
        println!(rt; ", each wrote a front: {}", self.fronts)?;
        Ok(())
    }
}

/// A run for each call that fails.
fn each<R: Handles + Processes + Copy + Send + 'static>(
    rt: R,
    alloc: Global,
    row: &Row,
    file: &[u8],
    outcome: &mut Outcome,
) -> Result<(), Fault> {
    let (course, object, _) = *row;
    let whole = goes(rt, alloc, course, file, NONE)?;
    for call in 0..MOST {
        let ran = goes(rt, alloc, course, file, object.fails(call))?;
        if ran.is_as(&whole) {
            return Ok(());
        }
        outcome.add(&ran, &whole)?;
    }
    Ok(())
}

fn play_row<R: Handles + Processes + Print + Copy + Send + 'static>(
    rt: R,
    alloc: Global,
    row: &Row,
    file: &[u8],
) -> Result<(), Fault> {
    let mut outcome = Outcome {
        ends: Vec::new(alloc),
        fronts: true,
    };
    each(rt, alloc, row, file, &mut outcome)?;
    print!(&rt; "each call fails: {}", row.2)?;
    outcome.print(&rt)
}

/// Each object's calls.
pub fn play_failing<R: Handles + Processes + Files + Print + AllocGlobal + Copy + Send + 'static>(
    rt: R,
) -> Result<(), Fault> {
    let file = fs::read(&rt, "snapshot.ltx")?;
    for row in ROWS {
        play_row(rt, rt.alloc(), row, &file)?;
    }
    Ok(())
}
