use lf_base::Pos;

/// Why the table refused. But for its moment it is then as before.
#[derive(Clone, Copy, Debug, PartialEq, Eq)]
pub enum HaltFault {
    /// A permit is out, whichever node has it.
    HaltHeld { number: u64, until: u64 },
    /// That permit is not out.
    HaltGone { number: u64 },
    /// The file follows `want`, and the database is at `have`.
    Behind { have: Pos, want: Pos },
    /// The end of the permit, or its number, would pass 2^64 - 1.
    Limit,
}
