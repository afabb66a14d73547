//! A file of the disk that is read piece by piece, up to its end. A fault that is found in it is
//! kept, and the bytes behind it are passed over.
ghost use Rattle.std.specs.Prelude.{◌≡◌, ◌≤◌, ◌<◌, ◌⊎◌, ℕ, List, [], length, vec_capacity, true, false, None, IsSome, IsTrue, IfOk, OnOk};
ghost use Rattle.lf_base.specs.Faults.{CountsFaults};
ghost use Rattle.lf_disk.specs.Folder.{bytes_of};
ghost use Rattle.lf_disk.specs.History.{now, Rests};
ghost use Rattle.lf_sqlite_pages.specs.Change.{PageChange};
ghost use Rattle.ltx_codec.specs.Decoding.{header_shown, page_shown, page_limit_of};
ghost use Rattle.ltx_codec.specs.Fields.{AreBytes};
ghost use Rattle.ltx_codec.specs.WholePages.{largest_page};

use crate::outline::Outline;
use crate::part::{Part, ends_file, part_of, used_in};
use lf_base::{Failed, NoMemory};
use lf_disk::{Disk, FileName};
use ltx_codec::{Decoder, Header, LtxFault, Seen};
use std::alloc::Global;

/// The size of SQLite's largest page, in bytes. At most so many bytes are read at once.
const LARGEST_PAGE: u32 = 65_536;

/// The numbers in a piece are bytes.
fn are_bytes(piece: &[u8])
    ensures { AreBytes piece.now }
{}

/// A file that is read. Its room serves one file after another.
#[derive(Drop)]
pub struct PieceReader {
    pub(crate) decoder: Decoder,
    /// The bytes that were read last, of which the first `taken` were taken.
    pub(crate) buffer: Vec<u8>,
    pub(crate) taken: usize,
    /// How many bytes the file has, and how many of them were read.
    pub(crate) size: u64,
    pub(crate) read: u64,
    /// The file was whole with the last byte taken.
    pub(crate) whole: bool,
    /// The first fault of the file.
    pub(crate) fault: Option<LtxFault>,
    ghost room: { largest_page ≤ vec_capacity buffer },
    ghost order: { (taken ≤ length buffer.items) × (read ≤ size) },
    ghost widest: { page_limit_of decoder ≡ largest_page },
}

impl PieceReader {
    ghost use Rattle.node_recovery.specs.Reading.{to_come, IsIn, IsFilled, HasCome, IsOpen, Comes, Ends};

    /// Room for files of any page size. No later call takes memory.
    pub fn new(alloc: Global) -> Result<PieceReader, NoMemory>
        ensures { IfOk result (λ reader. reader.buffer.items ≡ []) }
    {
        Ok(PieceReader {
            decoder: Decoder::new(alloc, LARGEST_PAGE)?,
            buffer: Vec::with_capacity(alloc, LARGEST_PAGE as usize)?,
            taken: 0,
            size: 0,
            read: 0,
            whole: false,
            fault: None,
        })
    }

    /// Begins a file.
    pub fn open<D: Disk>(&mut self, disk: &mut D, name: FileName) -> Result<(), Failed>
        ensures begins { OnOk result ((change : PageChange) → HasCome self.new [] change) }
        ensures here { IsTrue (D.honest disk.old) → OnOk result (IsIn self.new [] (bytes_of (now (D.history disk.old) name))) }
        ensures rests { Rests (D.history disk.old) (D.history disk.new) }
        ensures honest { D.honest disk.new ≡ D.honest disk.old }
        ensures cause { CountsFaults (D.faults disk.old) (D.faults disk.new) result }
    {
        let size = disk.size(name)?.unwrap_or(0);
        self.read = 0;
        self.size = size;
        self.taken = 0;
        self.buffer.clear();
        self.decoder.restart();
        self.whole = false;
        self.fault = None;
        Ok(())
    }

    /// Reads the next bytes of the file where none are left over, and says whether there are any.
    /// What a read lacks reads as zeros.
    pub fn refill<D: Disk>(&mut self, disk: &mut D, name: FileName) -> Result<bool, Failed>
        ensures filled { IfOk result (IsFilled self.new) }
        ensures here { IsTrue (D.honest disk.old) → OnOk result ((encoding : List ℕ) → IsIn self.old encoding (bytes_of (now (D.history disk.old) name))
            → IsIn self.new encoding (bytes_of (now (D.history disk.old) name))) }
        ensures as_many { OnOk result (to_come self.new ≡ to_come self.old) }
        ensures same { (self.new.decoder ≡ self.old.decoder) × (self.new.whole ≡ self.old.whole) × (self.new.fault ≡ self.old.fault) }
        ensures rests { Rests (D.history disk.old) (D.history disk.new) }
        ensures honest { D.honest disk.new ≡ D.honest disk.old }
        ensures cause { CountsFaults (D.faults disk.old) (D.faults disk.new) result }
    {
        if self.taken < self.buffer.len() {
            return Ok(true);
        }
        let len = (self.size - self.read).min(u64::from(LARGEST_PAGE));
        if len == 0 {
            return Ok(false);
        }
        self.taken = 0;
        self.buffer.clear();
        self.buffer.resize(len as usize, 0u8).unwrap();
        disk.read(name, self.read, self.buffer.as_mut_slice())?;
        self.read += len;
        Ok(true)
    }

    /// Takes some of the bytes that are left over, up to the end of a part.
    pub fn step(&mut self) -> Part
        requires open_ { IsOpen self.old }
        requires more { self.old.taken < length self.old.buffer.items }
        ensures comes { (encoding : List ℕ) (change : PageChange) → HasCome self.old encoding change → Comes self.old self.new encoding change result }
        ensures fewer { to_come self.new < to_come self.old }
        ensures same { (self.new.size ≡ self.old.size) × (self.new.read ≡ self.old.read) }
    {
        if self.whole || self.fault.is_some() {
            self.pass_over();
            return Part::More;
        }
        self.feed()
    }

    /// Passes over what stands behind a file or a fault. Bytes behind a file are a fault.
    fn pass_over(&mut self)
        requires ended { (self.old.whole ≡ true) ⊎ IsSome self.old.fault }
        requires more { self.old.taken < length self.old.buffer.items }
        ensures comes { (encoding : List ℕ) (change : PageChange) → HasCome self.old encoding change → Comes self.old self.new encoding change Part.More }
        ensures fewer { to_come self.new < to_come self.old }
        ensures same { (self.new.size ≡ self.old.size) × (self.new.read ≡ self.old.read) }
    {
        let (_, left) = self.buffer.as_slice().split_at(self.taken);
        are_bytes(left);
        let fault = self.fault.unwrap_or(LtxFault::Tail);
        self.taken = self.buffer.len();
        self.fault = Some(fault);
    }

    /// Hands the decoder what is left over.
    fn feed(&mut self) -> Part
        requires open_ { IsOpen self.old }
        requires begun { (self.old.whole ≡ false) × (self.old.fault ≡ None) }
        requires more { self.old.taken < length self.old.buffer.items }
        ensures comes { (encoding : List ℕ) (change : PageChange) → HasCome self.old encoding change → Comes self.old self.new encoding change result }
        ensures fewer { to_come self.new < to_come self.old }
        ensures same { (self.new.size ≡ self.old.size) × (self.new.read ≡ self.old.read) }
    {
        let (_, left) = self.buffer.as_slice().split_at(self.taken);
        are_bytes(left);
        match self.decoder.feed(left) {
            Ok(seen) => {
                self.taken += used_in(seen, left.len());
                self.whole = ends_file(seen);
                part_of(seen)
            }
            Err(fault) => {
                self.taken = self.buffer.len();
                self.fault = Some(fault);
                Part::More
            }
        }
    }

    /// The header that was come to.
    pub fn header(&self) -> Header
        ensures { result ≡ header_shown self.now.decoder }
    {
        self.decoder.header()
    }

    /// The page that was come to.
    pub fn page(&self) -> &[u8]
        ensures { result.now ≡ page_shown self.now.decoder }
    {
        self.decoder.page()
    }

    /// What the file is, once all its bytes were taken.
    pub fn finish(&self) -> Result<Outline, LtxFault>
        ensures { (encoding : List ℕ) (change : PageChange) → HasCome self.now encoding change → Ends encoding change result }
    {
        if let Some(fault) = self.fault {
            return Err(fault);
        }
        if !self.whole {
            return Err(LtxFault::Short);
        }
        Ok(Outline {
            header: self.decoder.header(),
            post: self.decoder.post(),
        })
    }
}
