/// What a piece of a file's encoding ended. `used` counts the bytes of the piece that were taken.
#[derive(Clone, Copy, Debug, PartialEq, Eq)]
pub enum Seen {
    /// The whole piece was taken, and none of the others ended in it.
    More,
    Header { used: usize },
    Page { used: usize, number: u32 },
    /// The file is whole, and the next byte begins another.
    Whole { used: usize },
}
