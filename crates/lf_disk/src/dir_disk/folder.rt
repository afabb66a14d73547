//! The calls of the system.
ghost use Rattle.std.specs.Prelude.{◌≤◌, length, IfOk};
ghost use Rattle.lf_disk.specs.Kept.{IsClosed};

use super::kept::Kept;
use super::places::Places;
use super::whole::{read_from, write_to};
use crate::name::FileName;
use lf_base::read_hex16;
use std::alloc::{AllocError, Global};
use std::fs::{self, File, OpenOptions};
use std::io::{self, ErrorKind};
use std::rt::Files;

/// A folder with its path, and with the handles of its database file, its staged file and the folders that have the
/// names. Where a call failed, its file is opened anew by the next one.
#[derive(Drop)]
pub(super) struct Folder<R: Files<File = File> + AllocGlobal + Copy> {
    rt: R,
    path: String,
    kept: Kept,
    places: Places,
}

impl<R: Files<File = File> + AllocGlobal + Copy> Folder<R> {
    pub(super) fn open(rt: R, path: &str) -> io::Result<Folder<R>> {
        let path = String::from_str(rt.alloc(), path)?;
        let transactions = format!(in rt.alloc(); "{path}/ltx")?;
        make_folders(&rt, transactions.as_str())?;
        let places = Places::open(&rt, path.as_str(), transactions.as_str())?;
        places.sync_all()?;
        Ok(Folder {
            rt,
            path,
            kept: Kept::new(),
            places,
        })
    }

    /// The path of what has this name in the folder, which begins with a slash.
    fn path_of(&self, name: &str) -> Result<String, AllocError> {
        let mut path = self.path.clone()?;
        path.push_str(name)?;
        Ok(path)
    }

    fn path_to(&self, name: FileName) -> Result<String, AllocError> {
        match name {
            FileName::Database => self.path_of("/database"),
            FileName::Staged => self.path_of("/ltx/.staged"),
            FileName::Snapshot => self.path_of("/snapshot.ltx"),
            FileName::Dropped => self.path_of("/dropped"),
            FileName::Ltx { min, max } => {
                let name = format!(in self.rt.alloc(); "/ltx/{min:016x}-{max:016x}.ltx")?;
                self.path_of(name.as_str())
            }
        }
    }

    /// The length of a file, None where there is none.
    pub(super) fn size(&self, name: FileName) -> io::Result<Option<u64>> {
        if let Some(file) = self.kept.get(name) {
            return Ok(Some(file.metadata()?.len()));
        }
        let path = self.path_to(name)?;
        match fs::metadata(&self.rt, path.as_str()) {
            Ok(metadata) => Ok(Some(metadata.len())),
            Err(error) if error.kind() == ErrorKind::NotFound => Ok(None),
            Err(error) => Err(error),
        }
    }

    /// Opens a file, which is made where it is missing if `makes` says so.
    fn open_file(&self, name: FileName, makes: bool) -> io::Result<File> {
        let path = self.path_to(name)?;
        let mut options = OpenOptions::new();
        options.read(true).write(true).create(makes);
        options.open(&self.rt, path.as_str())
    }

    /// Takes the handle of a file that is kept, and else opens it. None where there is no file.
    fn file(&mut self, name: FileName) -> io::Result<Option<File>> {
        if let Some(file) = self.kept.take(name) {
            return Ok(Some(file));
        }
        match self.open_file(name, false) {
            Ok(file) => Ok(Some(file)),
            Err(error) if error.kind() == ErrorKind::NotFound => Ok(None),
            Err(error) => Err(error),
        }
    }

    /// The same, but it makes a file where there is none, and syncs its name.
    fn file_or_new(&mut self, name: FileName) -> io::Result<File> {
        if name == FileName::Staged {
            return self.staged();
        }
        if let Some(file) = self.file(name)? {
            return Ok(file);
        }
        let file = self.open_file(name, true)?;
        self.places.sync(name)?;
        Ok(file)
    }

    /// The staged file, made where there is none. Its name is synced where it is renamed.
    fn staged(&mut self) -> io::Result<File> {
        match self.kept.take(FileName::Staged) {
            Some(file) => Ok(file),
            None => self.open_file(FileName::Staged, true),
        }
    }

    /// Reads until `out` is full or the file ends. A file that isn't there has no bytes.
    pub(super) fn read(&mut self, name: FileName, at: u64, out: &mut [u8]) -> io::Result<usize>
        ensures { IfOk result (λ n. n ≤ length out.new) }
    {
        let Some(file) = self.file(name)? else {
            return Ok(0);
        };
        let count = read_from(&file, at, out)?;
        self.kept.keep(name, file);
        Ok(count)
    }

    /// Writes all bytes. Without any, it makes sure that the file is there and as long as `at`.
    pub(super) fn write(&mut self, name: FileName, at: u64, bytes: &[u8]) -> io::Result<()> {
        let file = self.file_or_new(name)?;
        if bytes.is_empty() && file.metadata()?.len() < at {
            file.set_len(at)?;
        }
        write_to(&file, at, bytes)?;
        self.kept.keep(name, file);
        Ok(())
    }

    pub(super) fn cut(&mut self, name: FileName, len: u64) -> io::Result<()> {
        let file = self.file_or_new(name)?;
        file.set_len(len)?;
        self.kept.keep(name, file);
        Ok(())
    }

    /// Syncs the bytes of a file and its length.
    pub(super) fn sync(&mut self, name: FileName) -> io::Result<()> {
        let Some(file) = self.file(name)? else {
            return Ok(());
        };
        file.sync_data()?;
        self.kept.keep(name, file);
        Ok(())
    }

    /// Closes what is kept of both names, and syncs each folder that has one of them once.
    pub(super) fn rename(&mut self, from: FileName, to: FileName) -> io::Result<()>
        ensures from { IsClosed from self.new.kept }
        ensures to { IsClosed to self.new.kept }
    {
        let _ = self.kept.take(from);
        let _ = self.kept.take(to);
        let old = self.path_to(from)?;
        let new = self.path_to(to)?;
        fs::rename(&self.rt, old.as_str(), new.as_str())?;
        self.places.sync_both(to, from)
    }

    /// Closes what is kept of the name, and syncs the folder that had it.
    pub(super) fn remove(&mut self, name: FileName) -> io::Result<()>
        ensures { IsClosed name self.new.kept }
    {
        let _ = self.kept.take(name);
        let path = self.path_to(name)?;
        match fs::remove_file(&self.rt, path.as_str()) {
            Ok(()) => self.places.sync(name),
            Err(error) if error.kind() == ErrorKind::NotFound => Ok(()),
            Err(error) => Err(error),
        }
    }

    /// The names of its files.
    pub(super) fn list(&self) -> io::Result<Vec<FileName>> {
        let mut names = Vec::new(self.rt.alloc());
        for name in [
            FileName::Database,
            FileName::Staged,
            FileName::Snapshot,
            FileName::Dropped,
        ] {
            if self.size(name)?.is_some() {
                names.push(name)?;
            }
        }
        let transactions = self.path_of("/ltx")?;
        for entry in fs::read_dir(&self.rt, transactions.as_str())? {
            if let Some(name) = transaction_name(entry?.file_name()) {
                names.push(name)?;
            }
        }
        Ok(names)
    }
}

/// Makes the folders of a path that are missing, the outermost first.
fn make_folders<R: Files<File = File> + AllocGlobal + Copy>(rt: &R, path: &str) -> io::Result<()> {
    for end in 1..path.len() {
        if let Some((outer, rest)) = path.split_at_checked(end)
            && rest.starts_with('/')
        {
            make_folder(rt, outer)?;
        }
    }
    make_folder(rt, path)
}

/// Makes a folder where it is missing, and syncs the folder that has its name.
fn make_folder<R: Files<File = File> + AllocGlobal + Copy>(rt: &R, path: &str) -> io::Result<()> {
    if fs::exists(rt, path)? {
        return Ok(());
    }
    fs::create_dir(rt, path)?;
    let outer = format!(in rt.alloc(); "{path}/..")?;
    fs::open(rt, outer.as_str())?.sync_all()
}

/// The name of a transaction file, None where the text is none.
fn transaction_name(text: &str) -> Option<FileName> {
    let (min, max) = text.strip_suffix(".ltx")?.split_once('-')?;
    Some(FileName::Ltx {
        min: read_hex16(min.as_bytes())?,
        max: read_hex16(max.as_bytes())?,
    })
}
