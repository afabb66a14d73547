//! Numbers of two, four and eight bytes: read at places of a list of bytes in both byte orders, and as
//! little-endian bytes.
ghost use Rattle.std.specs.Prelude.{◌≡◌, ◌+◌, ◌≤◌, length};
ghost use Rattle.lf_base.specs.Endian.{be16_at, be32_at, be64_at, le16_at, le32_at, le64_at, le16, le32, le64};

/// The big-endian number of the two bytes from `place` on.
#[tactic(auto, unfolding(crate::specs::Endian::be16_at))]
pub fn be16_at(bytes: &[u8], place: usize) -> u16
    requires { place + 2 ≤ length bytes.now }
    ensures { result ≡ be16_at place bytes.now }
{
    let (_, rest) = bytes.split_at(place);
    let (field, _) = rest.split_at(2);
    u16::from_be_bytes([field[0], field[1]])
}

/// The big-endian number of the four bytes from `place` on.
#[tactic(auto, unfolding(crate::specs::Endian::be32_at))]
pub fn be32_at(bytes: &[u8], place: usize) -> u32
    requires { place + 4 ≤ length bytes.now }
    ensures { result ≡ be32_at place bytes.now }
{
    let (_, rest) = bytes.split_at(place);
    let (field, _) = rest.split_at(4);
    u32::from_be_bytes([field[0], field[1], field[2], field[3]])
}

/// The big-endian number of the eight bytes from `place` on.
#[tactic(auto, unfolding(crate::specs::Endian::be64_at))]
pub fn be64_at(bytes: &[u8], place: usize) -> u64
    requires { place + 8 ≤ length bytes.now }
    ensures { result ≡ be64_at place bytes.now }
{
    let (_, rest) = bytes.split_at(place);
    let (field, _) = rest.split_at(8);
    u64::from_be_bytes([
        field[0], field[1], field[2], field[3], field[4], field[5], field[6], field[7],
    ])
}

/// The little-endian number of the two bytes from `place` on.
#[tactic(auto, unfolding(crate::specs::Endian::le16_at))]
pub fn le16_at(bytes: &[u8], place: usize) -> u16
    requires { place + 2 ≤ length bytes.now }
    ensures { result ≡ le16_at place bytes.now }
{
    let (_, rest) = bytes.split_at(place);
    let (field, _) = rest.split_at(2);
    u16::from_le_bytes([field[0], field[1]])
}

/// The little-endian number of the four bytes from `place` on.
#[tactic(auto, unfolding(crate::specs::Endian::le32_at))]
pub fn le32_at(bytes: &[u8], place: usize) -> u32
    requires { place + 4 ≤ length bytes.now }
    ensures { result ≡ le32_at place bytes.now }
{
    let (_, rest) = bytes.split_at(place);
    let (field, _) = rest.split_at(4);
    u32::from_le_bytes([field[0], field[1], field[2], field[3]])
}

/// The little-endian number of the eight bytes from `place` on.
#[tactic(auto, unfolding(crate::specs::Endian::le64_at))]
pub fn le64_at(bytes: &[u8], place: usize) -> u64
    requires { place + 8 ≤ length bytes.now }
    ensures { result ≡ le64_at place bytes.now }
{
    let (_, rest) = bytes.split_at(place);
    let (field, _) = rest.split_at(8);
    u64::from_le_bytes([
        field[0], field[1], field[2], field[3], field[4], field[5], field[6], field[7],
    ])
}

/// The two bytes of a number, the lowest first.
#[tactic(auto, unfolding(crate::specs::Endian::le16))]
pub fn le16_bytes(number: u16) -> [u8; 2]
    ensures value { result ≡ le16 number }
    ensures len { length (le16 number) ≡ 2 }
{
    number.to_le_bytes()
}

/// The four bytes of a number, the lowest first.
#[tactic(auto, unfolding(crate::specs::Endian::le32))]
pub fn le32_bytes(number: u32) -> [u8; 4]
    ensures value { result ≡ le32 number }
    ensures len { length (le32 number) ≡ 4 }
{
    number.to_le_bytes()
}

/// The eight bytes of a number, the lowest first.
#[tactic(auto, unfolding(crate::specs::Endian::le64))]
pub fn le64_bytes(number: u64) -> [u8; 8]
    ensures value { result ≡ le64 number }
    ensures len { length (le64 number) ≡ 8 }
{
    number.to_le_bytes()
}
