/// Where a feed stands. It exists in contracts alone.
pub enum Stage {
    /// It takes pieces.
    Open,
    /// A message is whole.
    Whole,
    /// It has met what no message begins.
    Refused,
}
