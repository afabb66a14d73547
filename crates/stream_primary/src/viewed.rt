use lf_base::{Pos, Text};

/// What a reader of events was told.
#[derive(Debug, Drop)]
pub struct Viewed {
    /// The position behind the last transaction.
    pub pos: Pos,
    pub is_primary: bool,
    /// The primary's host.
    pub host: Option<Text>,
}
