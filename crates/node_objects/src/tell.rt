//! Where the lines of a node go.
use crate::line::Line;
use crate::system::System;
use lf_base::NoMemory;
use std::alloc::Global;
use std::sync::{Arc, Mutex, Wait};

/// Tells the lines of a node. Threads share where they go, so no clause says what was told; but what is told is a `Line`.
pub trait Tell {
    /// Tells the whole line. Where that fails nothing comes of it.
    fn tell<R: Wait>(&mut self, rt: &R, line: &Line);

    /// From now on it tells nothing, and nor does any other that tells at the same place.
    fn close<R: Wait>(&mut self, rt: &R);
}

/// Whether standard error is told lines. Its copies share the word.
#[derive(Drop)]
pub struct ErrorPlace {
    open: Arc<Mutex<bool>, Global>,
}

impl ErrorPlace {
    pub fn new(alloc: Global) -> Result<ErrorPlace, NoMemory> {
        let open = Arc::new(alloc, Mutex::new(true))?;
        Ok(ErrorPlace { open })
    }

    /// A second hold of the same word.
    pub fn another(&self) -> Result<ErrorPlace, NoMemory> {
        let open = Arc::try_clone(&self.open)?;
        Ok(ErrorPlace { open })
    }
}

/// Tells them on standard error, each in one piece.
#[derive(Drop)]
pub struct ErrorLines<R: System> {
    rt: R,
    /// None where memory ran out when it was made.
    place: Option<ErrorPlace>,
}

impl<R: System> ErrorLines<R> {
    pub fn new(rt: R, place: &ErrorPlace) -> ErrorLines<R> {
        ErrorLines {
            rt,
            place: place.another().ok(),
        }
    }
}

impl<R: System> Tell for ErrorLines<R> {
    fn tell<Q: Wait>(&mut self, rt: &Q, line: &Line) {
        if let (Some(place), Ok(bytes)) = (&self.place, line.whole(self.rt.alloc())) {
            let open = place.open.lock(rt);
            if *open {
                write_bytes(&self.rt, bytes.as_slice());
            }
        }
    }

    fn close<Q: Wait>(&mut self, rt: &Q) {
        if let Some(place) = &self.place {
            let mut open = place.open.lock(rt);
            *open = false;
        }
    }
}

/// Bytes that are no text are not written.
fn write_bytes<R: System>(rt: &R, bytes: &[u8]) {
    if let Ok(text) = str::from_utf8(bytes) {
        let _ = rt.eprint(text);
    }
}

/// Lines that were told.
#[derive(Drop)]
struct Told {
    bytes: Vec<u8>,
    open: bool,
}

/// Where lines are kept that are told in memory. Its copies share them.
#[derive(Drop)]
pub struct KeptPlace {
    told: Arc<Mutex<Told>, Global>,
}

impl KeptPlace {
    pub fn new(alloc: Global) -> Result<KeptPlace, NoMemory> {
        let told = Told {
            bytes: Vec::new(alloc),
            open: true,
        };
        let told = Arc::new(alloc, Mutex::new(told))?;
        Ok(KeptPlace { told })
    }

    /// A second hold of the same lines.
    pub fn another(&self) -> Result<KeptPlace, NoMemory> {
        let told = Arc::try_clone(&self.told)?;
        Ok(KeptPlace { told })
    }

    /// A copy of the lines, as standard error would have them.
    pub fn bytes(&self, rt: &impl Wait, alloc: Global) -> Result<Vec<u8>, NoMemory> {
        let told = self.told.lock(rt);
        let mut copy = Vec::new(alloc);
        copy.extend_from_slice(told.bytes.as_slice())?;
        Ok(copy)
    }
}

/// Keeps them in memory.
#[derive(Drop)]
pub struct KeptLines {
    alloc: Global,
    /// None where memory ran out when it was made.
    place: Option<KeptPlace>,
}

impl KeptLines {
    pub fn new(alloc: Global, place: &KeptPlace) -> KeptLines {
        KeptLines {
            alloc,
            place: place.another().ok(),
        }
    }
}

impl Tell for KeptLines {
    fn tell<R: Wait>(&mut self, rt: &R, line: &Line) {
        if let (Some(place), Ok(bytes)) = (&self.place, line.whole(self.alloc)) {
            let mut told = place.told.lock(rt);
            if told.open {
                let _ = told.bytes.extend_from_slice(bytes.as_slice());
            }
        }
    }

    fn close<R: Wait>(&mut self, rt: &R) {
        if let Some(place) = &self.place {
            let mut told = place.told.lock(rt);
            told.open = false;
        }
    }
}

/// Where a node's lines go, unless they are turned off.
#[derive(Drop)]
pub struct Lines<E> {
    tell: E,
    on: bool,
}

impl<E: Tell> Lines<E> {
    pub fn new(tell: E, on: bool) -> Lines<E> {
        Lines { tell, on }
    }

    /// Tells a line. One for which memory ran out is left out.
    pub fn say<R: Wait>(&mut self, rt: &R, line: Result<Line, NoMemory>) {
        match line {
            Ok(line) if self.on => self.tell.tell(rt, &line),
            _ => {}
        }
    }

    /// From now on nothing is told.
    pub fn close<R: Wait>(&mut self, rt: &R) {
        self.tell.close(rt);
    }
}
