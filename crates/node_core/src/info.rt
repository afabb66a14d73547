use file_view::Role;
use lf_base::{Pos, Text};

/// What a node is, and where it stands.
#[derive(Debug, Drop)]
pub struct NodeInfo {
    pub role: Role,
    pub pos: Pos,
    /// The first transaction in its log, 0 where that is empty. The last one is the position's.
    pub first: u64,
    /// How many files are in its log.
    pub files: u64,
    /// The bytes of a page of the database and how many pages it has, 0 where there is none.
    pub page_size: u32,
    pub commit: u32,
    /// Its disk failed, and nothing is committed any more.
    pub broken: bool,
    /// The primary's host that it was told last.
    pub primary: Option<Text>,
}
