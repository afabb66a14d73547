//! A file without its pages.
ghost use Rattle.std.specs.Prelude.{◌≡◌, ◌≤◌};
ghost use Rattle.lf_disk.specs.declared.name.FileName.{FileName as Name};

use lf_base::Pos;
use lf_disk::FileName;
use ltx_codec::Header;
use txn_log::Entry;

/// What is kept of a file: its header, and the sum that it leads to.
#[derive(Clone, Copy, Debug)]
pub struct Outline {
    pub header: Header,
    pub post: u64,
}

impl Outline {
    ghost use Rattle.node_recovery.specs.Outline.{position_before, position_after, entry_of};

    /// The position that the file follows.
    pub fn before(&self) -> Pos
        requires { 1 ≤ self.now.header.min }
        ensures { result ≡ position_before self.now }
    {
        Pos {
            txid: self.header.min - 1,
            sum: self.header.pre,
        }
    }

    /// The position that the file leads to.
    pub fn after(&self) -> Pos
        ensures { result ≡ position_after self.now }
    {
        Pos {
            txid: self.header.max,
            sum: self.post,
        }
    }

    /// The name of a transaction file of these numbers.
    pub fn name(&self) -> FileName
        ensures { result ≡ Name.Ltx self.now.header.min self.now.header.max }
    {
        FileName::Ltx {
            min: self.header.min,
            max: self.header.max,
        }
    }

    /// The entry of the file in the log.
    pub fn entry(&self) -> Entry
        requires { 1 ≤ self.now.header.min }
        ensures { result ≡ entry_of self.now }
    {
        Entry {
            min: self.header.min,
            max: self.header.max,
            pre: self.before(),
            post: self.after(),
        }
    }
}
