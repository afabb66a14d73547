//! The header of a log and the head of a frame as bytes, from their fields (SQLite file format, section 4.1).

use lf_base::overwrite;

/// The magic number of a log with sums of little-endian words, and of one with big-endian words.
pub const LITTLE_ENDIAN: u32 = 0x377f_0682;

pub const BIG_ENDIAN: u32 = 0x377f_0683;

/// The header of a log; the sums are those of the other fields.
#[derive(Clone, Copy)]
pub struct Header {
    pub magic: u32,
    pub version: u32,
    pub page_size: u32,
    /// How often the log began anew.
    pub checkpoints: u32,
    pub salts: u64,
    pub sums: u64,
}

impl Header {
    pub fn bytes(&self) -> [u8; 32] {
        let mut bytes = [0; 32];
        overwrite(&mut bytes, 0, &self.magic.to_be_bytes());
        overwrite(&mut bytes, 4, &self.version.to_be_bytes());
        overwrite(&mut bytes, 8, &self.page_size.to_be_bytes());
        overwrite(&mut bytes, 12, &self.checkpoints.to_be_bytes());
        overwrite(&mut bytes, 16, &self.salts.to_be_bytes());
        overwrite(&mut bytes, 24, &self.sums.to_be_bytes());
        bytes
    }
}

/// What stands before a page: its number, and the size of the database where the frame commits, else 0.
#[derive(Clone, Copy)]
pub struct Head {
    pub number: u32,
    pub commit: u32,
    pub salts: u64,
    pub sums: u64,
}

impl Head {
    pub fn bytes(&self) -> [u8; 24] {
        let mut bytes = [0; 24];
        overwrite(&mut bytes, 0, &self.number.to_be_bytes());
        overwrite(&mut bytes, 4, &self.commit.to_be_bytes());
        overwrite(&mut bytes, 8, &self.salts.to_be_bytes());
        overwrite(&mut bytes, 16, &self.sums.to_be_bytes());
        bytes
    }
}
