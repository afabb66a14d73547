ghost use Rattle.std.specs.Prelude.{◌≡◌, ◌≤◌};
ghost use Rattle.ltx_codec.specs.Positions as position;

use crate::header::Header;
use lf_base::Pos;
use lf_sqlite_pages::Change;

/// An LTX file: what its transactions do to a database, and between which positions.
#[derive(Drop)]
pub struct Ltx {
    pub header: Header,
    pub change: Change,
    /// The sum of the database after the file's transactions.
    pub post: u64,
}

impl Ltx {
    /// The position that the file follows.
    pub fn before(&self) -> Pos
        requires { 1 ≤ self.now.header.min }
        ensures { result ≡ position.before self.now }
    {
        Pos {
            txid: self.header.min - 1,
            sum: self.header.pre,
        }
    }

    /// The position that the file leads to.
    pub fn after(&self) -> Pos
        ensures { result ≡ position.after self.now }
    {
        Pos {
            txid: self.header.max,
            sum: self.post,
        }
    }
}
