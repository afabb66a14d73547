//! The file of the shared memory.
ghost use Rattle.std.specs.Prelude.{◌≡◌, ◌+◌, ◌≤◌, length, None, [], IsSome, OnOk, OnErr};
ghost use Rattle.std.specs.Option.{option_map};
ghost use Rattle.lf_base.specs.FileBytes.{written, resized, Reads};
ghost use Rattle.shm_index.specs.Shared.{no_shared, bytes_of, with_bytes};

use lf_base::NoMemory;
use lf_sqlite_pages::Blocks;
use std::alloc::Global;
use std::marker::Model;

/// How many bytes the file may have.
pub const SHM_LIMIT: u64 = 8_388_608;

/// How many bytes the header of an index has, with what SQLite keeps of its checkpoints behind it.
pub const INDEX_SIZE: u64 = 136;

/// The `-shm` file: absent, or its bytes. It knows the last change number that it was given in an index
/// header. The room for that header is kept while the file is there.
#[derive(Drop)]
pub struct SharedMemory {
    pub(crate) exists: bool,
    pub(crate) blocks: Blocks,
    pub(crate) last_change: u32,
}

impl Model for SharedMemory {
    ghost use Rattle.shm_index.specs.Shared.{Shared};

    ghost Value = { Shared };

    ghost use Rattle.shm_index.specs.SharedParts.{shared_of, IsKept};

    ghost view = { shared_of };

    ghost invariant = { IsKept };
}

impl SharedMemory {
    /// No file; no index header was written.
    pub fn new(alloc: Global) -> SharedMemory
        ensures { result ≡ no_shared }
    {
        SharedMemory {
            exists: false,
            blocks: Blocks::new(alloc),
            last_change: 0,
        }
    }

    /// Makes the file, without bytes. After want of memory nothing changed.
    pub fn create(&mut self) -> Result<(), NoMemory>
        requires { self.old.file ≡ None }
        ensures ok { OnOk result (self.new ≡ with_bytes self.old []) }
        ensures err { OnErr result (self.new ≡ self.old) }
    {
        self.blocks.reserve(0, INDEX_SIZE)?;
        self.exists = true;
        Ok(())
    }

    /// Removes the file, if it is there.
    pub fn remove(&mut self)
        ensures { self.new ≡ record { file = None; last_change = self.old.last_change } }
    {
        self.exists = false;
        self.blocks.clear();
    }

    /// How many bytes the file has, if it is there.
    pub fn len(&self) -> Option<u64>
        ensures { result ≡ option_map length self.now.file }
    {
        if self.exists {
            Some(self.blocks.len())
        } else {
            None
        }
    }

    /// Reads as many bytes from `at` on as there are and `out` has room for, and answers how many.
    pub fn read(&self, at: u64, out: &mut [u8]) -> usize
        ensures { Reads (bytes_of self.now) at out.old out.new result }
    {
        self.blocks.read(at, out)
    }

    /// Writes bytes at a place; a gap holds zeros. After want of memory nothing changed.
    pub fn write(&mut self, at: u64, bytes: &[u8]) -> Result<(), NoMemory>
        requires there { IsSome self.old.file }
        requires short { at + length bytes.now ≤ SHM_LIMIT }
        ensures ok { OnOk result (self.new ≡ with_bytes self.old (written at bytes.now (bytes_of self.old))) }
        ensures err { OnErr result (self.new ≡ self.old) }
    {
        let end = at + bytes.len() as u64;
        let room = end.max(self.blocks.len()).max(INDEX_SIZE);
        self.blocks.reserve(0, room)?;
        self.blocks.write_within(at, bytes);
        Ok(())
    }

    /// Cuts the file to a length, or grows it with zeros. It takes no memory.
    pub fn cut(&mut self, len: u64)
        requires there { IsSome self.old.file }
        requires short { len ≤ SHM_LIMIT }
        ensures { self.new ≡ with_bytes self.old (resized len (bytes_of self.old)) }
    {
        self.blocks.cut(len).unwrap();
    }
}
