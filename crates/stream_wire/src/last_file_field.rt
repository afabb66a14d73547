//! The field of a request's head that says the last file of a follower's log.

ghost use Rattle.std.specs.Prelude.{◌≡◌, All, Option, length, map, None};
ghost use Rattle.std.specs.Char.{to_ascii_lowercase};
ghost use Rattle.httparse.specs.Spans.{IsHeaderWithin, header_bytes};
ghost use Rattle.stream_wire.specs.Head.{is_called};
ghost use Rattle.stream_wire.specs.LastFile.{values_of, GoesOn, Values, TellsLastFile};

use crate::framing::is_called;
use crate::head_ends::FIELDS_MAX;
use crate::{LastFile, read_last_file};
use httparse::Status;
use httparse::spans::{EMPTY_HEADER_SPAN, HeaderSpan, parse_request};

/// What the request's head at the front of the bytes says of the last file, in its field
/// `Litefs-Last-File`: nothing without one, and `Unknown` where several have the name or the value is
/// no print of a last file.
pub fn last_file_in(bytes: &[u8]) -> Option<LastFile>
    ensures { TellsLastFile bytes.now result }
{
    let mut headers = [EMPTY_HEADER_SPAN; FIELDS_MAX];
    match parse_request(bytes, &mut headers) {
        Ok(Status::Complete(spans)) => said(bytes, &headers[..spans.headers], None),
        Ok(Status::Partial) | Err(_) => None,
    }
}

/// What the fields say behind what those in front of them said.
fn said(bytes: &[u8], headers: &[HeaderSpan], before: Option<LastFile>) -> Option<LastFile>
    requires { All (IsHeaderWithin (length bytes.now)) headers.now }
    ensures { GoesOn before (values_of (map (header_bytes bytes.now) headers.now)) result }
{
    let [first, rest @ ..] = headers else {
        return before;
    };
    if !is_called(b"litefs-last-file", first.name.of(bytes)) {
        return said(bytes, rest, before);
    }
    let next = with_value(before, first.value.of(bytes));
    said(bytes, rest, Some(next))
}

/// What a value says behind what those in front of it said.
fn with_value(before: Option<LastFile>, value: &[u8]) -> LastFile
    ensures { Values before value.now result }
{
    if before.is_some() {
        return LastFile::Unknown;
    }
    match read_last_file(value) {
        Some(last) => last,
        None => LastFile::Unknown,
    }
}
