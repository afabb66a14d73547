//! What a follower says of the last file of its log.

ghost use Rattle.std.specs.Prelude.{◌≡◌, ◌++◌, OnOk};
ghost use Rattle.std.specs.Io.{StartsWith};
ghost use Rattle.stream_wire.specs.LastFile.{last_file_text, ReadsLastFile};

use crate::head_writing::put;
use crate::numbers::{number_then, put_number};
use crate::stream_line::is_same;
use lf_base::{NoMemory, read_hex16};

/// The last file of a follower's log, or that a primary is not to rely on that log.
#[derive(Clone, Copy, Debug, PartialEq, Eq)]
pub enum LastFile {
    /// The file of the transactions from `min` to `max`, with the checksum of its trailer.
    File { min: u64, max: u64, sum: u64 },
    /// The follower's position counts as unknown.
    Unknown,
}

/// Appends it in print: `min-max/sum`, each number as 16 digits, or the word `unknown`.
pub fn write_last_file(last: LastFile, out: &mut Vec<u8>) -> Result<(), NoMemory>
    ensures ok { OnOk result (out.new.items ≡ out.old.items ++ last_file_text last) }
    ensures grows { StartsWith out.new.items out.old.items }
{
    match last {
        LastFile::File { min, max, sum } => {
            put_number(min, b"-", out)?;
            put_number(max, b"/", out)?;
            put_number(sum, b"", out)
        }
        LastFile::Unknown => put(out, b"unknown"),
    }
}

/// The last file whose print the bytes are, and nothing of other bytes: upper case, blanks, another
/// length and another word are refused.
pub fn read_last_file(bytes: &[u8]) -> Option<LastFile>
    ensures { ReadsLastFile bytes.now result }
{
    if is_same(bytes, b"unknown") {
        return Some(LastFile::Unknown);
    }
    let Some((min, rest)) = number_then(bytes, b'-') else {
        return None;
    };
    let Some((max, rest)) = number_then(rest, b'/') else {
        return None;
    };
    let Some(sum) = read_hex16(rest) else {
        return None;
    };
    Some(LastFile::File { min, max, sum })
}
