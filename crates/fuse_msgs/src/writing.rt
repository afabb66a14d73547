//! The numbers of a reply, little-endian.

ghost use Rattle.std.specs.Prelude.{◌≡◌, ◌≤◌, ◌++◌, OnOk};
ghost use Rattle.lf_base.specs.Endian.{le16, le32, le64};
ghost use Rattle.fuse_msgs.specs.Fields.{zeros};

use lf_base::{NoMemory, le16_bytes, le32_bytes, le64_bytes};

/// The longest run of zero bytes that a reply has.
const ZEROS: [u8; 36] = [0; 36];

pub fn put_u16(out: &mut Vec<u8>, number: u16) -> Result<(), NoMemory>
    ensures { OnOk result (out.new.items ≡ out.old.items ++ le16 number) }
{
    out.extend_from_slice(&le16_bytes(number))?;
    Ok(())
}

pub fn put_u32(out: &mut Vec<u8>, number: u32) -> Result<(), NoMemory>
    ensures { OnOk result (out.new.items ≡ out.old.items ++ le32 number) }
{
    out.extend_from_slice(&le32_bytes(number))?;
    Ok(())
}

pub fn put_u64(out: &mut Vec<u8>, number: u64) -> Result<(), NoMemory>
    ensures { OnOk result (out.new.items ≡ out.old.items ++ le64 number) }
{
    out.extend_from_slice(&le64_bytes(number))?;
    Ok(())
}

/// Appends so many zero bytes, at most 36.
pub fn put_zeros(out: &mut Vec<u8>, count: usize) -> Result<(), NoMemory>
    requires { count ≤ 36 }
    ensures { OnOk result (out.new.items ≡ out.old.items ++ zeros count) }
{
    out.extend_from_slice(zero_bytes(count))?;
    Ok(())
}

fn zero_bytes(count: usize) -> &'static [u8]
    requires { count ≤ 36 }
    ensures { result.now ≡ zeros count }
{
    &ZEROS[..count]
}
