//! The line of a drill.
ghost use Rattle.std.specs.Prelude.{◌≡◌, ◌++◌, ◌∷◌, [], ◌≤◌, List, ℕ, IfOk, OnOk, OnErr};
ghost use Rattle.std.specs.Io.{StartsWith};
ghost use Rattle.cluster_drill.specs.Drill.{Counts, IsCount, IsLooked, TellsLine};
ghost use Rattle.cluster_drill.specs.Line.{drill_line};

use crate::drill::Drill;
use crate::nodes::position;
use crate::shown::{Shown, look};
use lf_base::{NoMemory, hex16};
use std::alloc::Global;

/// 1 where a node shows what the primary shows.
fn counted(primary: &Option<Shown>, node: &Option<Shown>) -> u64
    ensures counts { Counts primary.now node.now result }
    ensures most { result ≤ 1 }
{
    match (primary, node) {
        (Some(primary), Some(node)) => u64::from(node.is_as(primary)),
        _ => 0,
    }
}

/// Appends the line of a number, where so many nodes show what the primary shows, at a transaction.
fn put_line(
    alloc: Global,
    number: u64,
    count: u64,
    txid: u64,
    out: &mut Vec<u8>,
) -> Result<(), NoMemory>
    ensures ok { OnOk result (out.new.items ≡ out.old.items ++ drill_line number txid count) }
    ensures err { OnErr result (out.new.items ≡ out.old.items) }
{
    let text = format!(in alloc; "drill {number}: {txid} transactions, {count} of 3 nodes at ")?;
    let start = out.len();
    if let Err(want) = put_all(out, text.as_bytes(), &hex16(txid)) {
        out.truncate(start);
        return Err(want);
    }
    Ok(())
}

/// Appends both, and a newline.
fn put_all(out: &mut Vec<u8>, text: &[u8], digits: &[u8]) -> Result<(), NoMemory>
    ensures ok { OnOk result (out.new.items ≡ out.old.items ++ (text.now ++ (digits.now ++ 10 ∷ []))) }
    ensures grows { StartsWith out.new.items out.old.items }
{
    out.extend_from_slice(text)?;
    out.extend_from_slice(digits)?;
    out.extend_from_slice(b"\n")?;
    Ok(())
}

impl Drill {
    /// How many of the nodes show what the primary shows.
    fn count(&mut self) -> Result<u64, NoMemory>
        ensures counted { IfOk result (IsCount self.old self.new) }
        ensures looked { IsLooked self.old self.new }
    {
        let primary = look(self.alloc, &mut self.primary)?;
        let left = look(self.alloc, &mut self.left.node)?;
        let right = look(self.alloc, &mut self.right.node)?;
        Ok(counted(&primary, &primary) + counted(&primary, &left) + counted(&primary, &right))
    }

    /// Appends the line of these nodes, and leaves them as they are. A node with a page that can't be read is not counted. Where the
    /// primary's disk doesn't tell where it stands, that is as want of memory.
    pub fn line(&mut self, out: &mut Vec<u8>) -> Result<(), NoMemory>
        ensures told { OnOk result ((line : List ℕ) × (out.new.items ≡ out.old.items ++ line) × TellsLine self.old self.new line) }
        ensures err { OnErr result (out.new.items ≡ out.old.items) }
        ensures looked { IsLooked self.old self.new }
    {
        let Some(at) = position(&mut self.primary) else {
            return Err(NoMemory);
        };
        let count = self.count()?;
        put_line(self.alloc, self.number, count, at.txid, out)?;
        Ok(())
    }
}
