//! The numbers of a request, little-endian.

ghost use Rattle.std.specs.Prelude.{◌≡◌, ◌≤◌, ◌++◌, OnOk};
ghost use Rattle.lf_base.specs.Endian.{le32, le64};
ghost use Rattle.fuse_msgs.specs.Fields.{zeros};

use lf_base::{NoMemory, le32_bytes, le64_bytes};

/// The longest run of zero bytes that a request has.
const ZEROS: [u8; 56] = [0; 56];

pub fn put_bytes(out: &mut Vec<u8>, bytes: &[u8]) -> Result<(), NoMemory>
    ensures { OnOk result (out.new.items ≡ out.old.items ++ bytes.now) }
{
    out.extend_from_slice(bytes)?;
    Ok(())
}

pub fn put_u32(out: &mut Vec<u8>, number: u32) -> Result<(), NoMemory>
    ensures { OnOk result (out.new.items ≡ out.old.items ++ le32 number) }
{
    put_bytes(out, &le32_bytes(number))
}

pub fn put_u64(out: &mut Vec<u8>, number: u64) -> Result<(), NoMemory>
    ensures { OnOk result (out.new.items ≡ out.old.items ++ le64 number) }
{
    put_bytes(out, &le64_bytes(number))
}

/// Appends so many zero bytes, at most 56.
pub fn put_zeros(out: &mut Vec<u8>, count: usize) -> Result<(), NoMemory>
    requires { count ≤ 56 }
    ensures { OnOk result (out.new.items ≡ out.old.items ++ zeros count) }
{
    put_bytes(out, zero_bytes(count))
}

fn zero_bytes(count: usize) -> &'static [u8]
    requires { count ≤ 56 }
    ensures { result.now ≡ zeros count }
{
    &ZEROS[..count]
}
