//! Bytes put behind others.
ghost use Rattle.std.specs.Prelude.{◌≡◌, ◌++◌, OnOk};
ghost use Rattle.stream_wire.specs.Writing.{line};

use lf_base::NoMemory;

pub(crate) fn put(out: &mut Vec<u8>, bytes: &[u8]) -> Result<(), NoMemory>
    ensures { OnOk result (out.new.items ≡ out.old.items ++ bytes.now) }
{
    out.extend_from_slice(bytes)?;
    Ok(())
}

/// Appends a field's line.
#[tactic(auto, unfolding(stream_wire::specs::Writing::line))]
pub(crate) fn put_line(out: &mut Vec<u8>, name: &[u8], value: &[u8]) -> Result<(), NoMemory>
    ensures { OnOk result (out.new.items ≡ out.old.items ++ line name.now value.now) }
{
    put(out, name)?;
    put(out, b": ")?;
    put(out, value)?;
    put(out, b"\r\n")
}
