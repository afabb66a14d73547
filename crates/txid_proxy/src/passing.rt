//! The head that the target is sent.
ghost use Rattle.std.specs.Prelude.{◌≡◌, ◌<◌, ◌++◌, ◌∷◌, [], All, List, MatchBool, OnOk, length};
ghost use Rattle.std.specs.List.{filter, flat_map};
ghost use Rattle.httparse.specs.Grammar.{Field, IsField, IsRequestHead, LineEnd, RequestHead, print_field, print_request, print_section};
ghost use Rattle.txid_proxy.specs.Lines.{IsEmptyLine};
ghost use Rattle.txid_proxy.specs.Passing.{close_field, is_passed, passed_head};

use crate::lines::{line_length, start_length};
use crate::put::put;
use crate::words::{find, is_called};
use lf_base::NoMemory;

/// Appends what the target is sent for this head of a request.
pub(crate) fn put_passed(head: &[u8], out: &mut Vec<u8>) -> Result<(), NoMemory>
    ensures { OnOk result ((h : RequestHead) → IsRequestHead h → head.now ≡ print_request h → out.new.items ≡ out.old.items ++ print_request (passed_head h)) }
{
    let (start, section) = head.split_at(start_length(head));
    put(out, start)?;
    put_fields(section, out)
}

/// Appends the lines of the fields that are passed on, the one that ends the link, and the empty line.
fn put_fields(section: &[u8], out: &mut Vec<u8>) -> Result<(), NoMemory>
    ensures { OnOk result ((fields : List Field) (last : LineEnd) → All IsField fields → section.now ≡ print_section fields last
        → out.new.items ≡ out.old.items ++ print_section (filter is_passed fields ++ close_field ∷ []) last) }
{
    let (line, rest) = section.split_at(line_length(section));
    if is_last(line) {
        put(out, b"Connection: close\r\n")?;
        return put(out, line);
    }
    put_field(line, out)?;
    put_fields(rest, out)
}

/// Appends a field's line, if it is passed on.
fn put_field(line: &[u8], out: &mut Vec<u8>) -> Result<(), NoMemory>
    ensures { OnOk result ((f : Field) → IsField f → line.now ≡ print_field f → out.new.items ≡ out.old.items ++ flat_map print_field (filter is_passed (f ∷ []))) }
{
    if is_passed(line) {
        return put(out, line);
    }
    Ok(())
}

/// Whether a line is the empty one.
fn is_last(line: &[u8]) -> bool
    ensures { MatchBool result (IsEmptyLine line.now) (IsEmptyLine line.now → ⊥) }
{
    matches!(line, [] | [b'\n'] | [b'\r', b'\n'])
}

/// Whether a field's line is passed on.
fn is_passed(line: &[u8]) -> bool
    ensures { (f : Field) → IsField f → line.now ≡ print_field f → result ≡ is_passed f }
{
    let name = name_of(line);
    if is_called(b"connection", name) {
        return false;
    }
    !is_called(b"expect", name)
}

/// The name in a field's line.
fn name_of(line: &[u8]) -> &[u8]
    ensures { (f : Field) → IsField f → line.now ≡ print_field f → result.now ≡ f.name }
{
    match find(line, b':') {
        Some(at) => {
            let (name, _) = line.split_at(at);
            name
        }
        None => line,
    }
}
