//! The configuration of a node as a source.
ghost use Rattle.std.specs.Prelude.{◌≡◌, None};
ghost use Rattle.std.specs.Io.{ReadsAtMost};

use lf_base::{Failed, Source};
use std::fs::{self, File};
use std::io::{self, Read};
use std::rt::Files;

/// A file that is opened at the first read. What it has left is not told.
#[derive(Drop)]
pub struct ConfigFile<R: Files<File = File>> {
    rt: R,
    path: &'static str,
    file: Option<File>,
    faults: u64,
}

impl<R: Files<File = File>> ConfigFile<R> {
    pub fn new(rt: R, path: &'static str) -> ConfigFile<R> {
        ConfigFile {
            rt,
            path,
            file: None,
            faults: 0,
        }
    }

    fn read_on(&mut self, out: &mut [u8]) -> io::Result<usize>
        ensures count { ReadsAtMost result out.new }
        ensures faults { self.new.faults ≡ self.old.faults }
    {
        let mut file = match self.file.take() {
            Some(file) => file,
            None => fs::open(&self.rt, self.path)?,
        };
        let count = file.read(out);
        self.file = Some(file);
        count
    }
}

impl<R: Files<File = File>> Source for ConfigFile<R> {
    ghost left = { λ _. None };

    ghost faults = { λ s. s.faults };

    /// A file that is not there, or cannot be opened, is a fault.
    fn read(&mut self, out: &mut [u8]) -> Result<usize, Failed> {
        match self.read_on(out) {
            Ok(count) => Ok(count),
            Err(_) => {
                self.faults = self.faults.saturating_add(1);
                Err(Failed)
            }
        }
    }
}
