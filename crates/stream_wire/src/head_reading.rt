//! Heads read, by `httparse`.

ghost use Rattle.std.specs.Prelude.{◌≡◌, length};
ghost use Rattle.httparse.specs.Spans.{IsRequestWithin, IsRequestOf, IsResponseWithin, IsResponseOf};
ghost use Rattle.stream_wire.specs.Head.{HearsRequest, HearsResponse};

use crate::framing::framing;
use crate::head_ends::{FIELDS_MAX, HEAD_MAX, HeadKind, may_come};
use crate::naming::call_of;
use crate::{Heard, Told, WireFault};
use httparse::Status;
use httparse::spans::{
    EMPTY_HEADER_SPAN, HeaderSpan, RequestSpans, ResponseSpans, parse_request, parse_response,
};
use std::alloc::Global;

/// The head of a request at the front of the bytes. Empty lines may stand before it.
pub fn read_request(alloc: Global, bytes: &[u8]) -> Result<Heard, WireFault>
    ensures { HearsRequest bytes.now result }
{
    let mut headers = [EMPTY_HEADER_SPAN; FIELDS_MAX];
    match parse_request(bytes, &mut headers) {
        Ok(Status::Complete(spans)) => heard(alloc, bytes, &headers, spans),
        Ok(Status::Partial) => {
            if may_come(HeadKind::Request, bytes) {
                Ok(Heard::Part)
            } else {
                Err(WireFault::Head)
            }
        }
        Err(_) => Err(WireFault::Head),
    }
}

fn heard(
    alloc: Global,
    bytes: &[u8],
    headers: &[HeaderSpan],
    spans: RequestSpans,
) -> Result<Heard, WireFault>
    requires room { length headers.now ≡ 128 }
    requires within { IsRequestWithin bytes.now headers.now spans }
    requires head { IsRequestOf bytes.now headers.now spans }
    ensures { HearsRequest bytes.now result }
{
    if spans.len > HEAD_MAX {
        return Err(WireFault::Head);
    }
    let Some(length) = framing(bytes, &headers[..spans.headers], None) else {
        return Err(WireFault::Head);
    };
    let call = call_of(alloc, spans.method.of(bytes), spans.path.of(bytes))?;
    Ok(Heard::Whole {
        used: spans.len,
        call,
        length: length.unwrap_or(0),
    })
}

/// The head of a response at the front of the bytes. Empty lines may stand before it.
pub fn read_response(bytes: &[u8]) -> Result<Told, WireFault>
    ensures { HearsResponse bytes.now result }
{
    let mut headers = [EMPTY_HEADER_SPAN; FIELDS_MAX];
    match parse_response(bytes, &mut headers) {
        Ok(Status::Complete(spans)) => told(bytes, &headers, spans),
        Ok(Status::Partial) => {
            if may_come(HeadKind::Response, bytes) {
                Ok(Told::Part)
            } else {
                Err(WireFault::Head)
            }
        }
        Err(_) => Err(WireFault::Head),
    }
}

fn told(bytes: &[u8], headers: &[HeaderSpan], spans: ResponseSpans) -> Result<Told, WireFault>
    requires room { length headers.now ≡ 128 }
    requires within { IsResponseWithin bytes.now headers.now spans }
    requires head { IsResponseOf bytes.now headers.now spans }
    ensures { HearsResponse bytes.now result }
{
    if spans.len > HEAD_MAX {
        return Err(WireFault::Head);
    }
    let Some(length) = framing(bytes, &headers[..spans.headers], None) else {
        return Err(WireFault::Head);
    };
    Ok(Told::Whole {
        used: spans.len,
        status: spans.code,
        length,
    })
}
