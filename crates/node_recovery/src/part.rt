ghost use Rattle.std.specs.Prelude.{◌≡◌};
ghost use Rattle.node_recovery.specs.Parts.{used_in as used, ends_file as ends, part_of as part};

use ltx_codec::Seen;

/// What some bytes of a file ended.
#[derive(Clone, Copy, Debug)]
pub enum Part {
    Header,
    Page { number: u32 },
    /// Neither of them.
    More,
}

/// How many bytes of a piece the decoder took.
pub fn used_in(seen: Seen, len: usize) -> usize
    ensures { result ≡ used seen len }
{
    match seen {
        Seen::More => len,
        Seen::Header { used } | Seen::Page { used, .. } | Seen::Whole { used } => used,
    }
}

/// Whether the file is whole.
pub fn ends_file(seen: Seen) -> bool
    ensures { result ≡ ends seen }
{
    matches!(seen, Seen::Whole { .. })
}

/// The part that ended.
pub fn part_of(seen: Seen) -> Part
    ensures { result ≡ part seen }
{
    match seen {
        Seen::Header { .. } => Part::Header,
        Seen::Page { number, .. } => Part::Page { number },
        Seen::More | Seen::Whole { .. } => Part::More,
    }
}
