//! What a node is, as lines tell it.
ghost use Rattle.std.specs.Prelude.{◌≡◌, ◌≢◌, IfOk, MatchOption};
ghost use Rattle.node_mount.specs.RoleLines.{replica_of as replica_of_host, role_line as role_line_of, role_words as role_words_of, ChangesRole};

use file_view::Role;
use lf_base::{NoMemory, Pos, Text, pos_text};
use node_core::NodeInfo;
use node_objects::Line;
use std::alloc::Global;

/// What was told last of a node's role.
#[derive(Drop)]
pub struct RoleTold {
    words: Line,
}

impl RoleTold {
    /// This was told.
    pub fn new(words: Line) -> RoleTold
        ensures { result ≡ record { words = words } }
    {
        RoleTold { words }
    }

    /// The line of a node that is so, where its role is not the one told last.
    pub fn next(&mut self, alloc: Global, info: &NodeInfo) -> Result<Option<Line>, NoMemory>
        ensures { IfOk result (λ line. ChangesRole info.now self.old.words line self.new.words) }
    {
        let words = role_words(alloc, info)?;
        if words.text() == self.words.text() {
            return Ok(None);
        }
        let line = role_line(alloc, &words, info.pos)?;
        self.words = words;
        Ok(Some(line))
    }
}

/// What it is.
pub fn role_words(alloc: Global, info: &NodeInfo) -> Result<Line, NoMemory>
    ensures { IfOk result (λ words. words ≡ role_words_of info.now.role info.now.primary) }
{
    match info.role {
        Role::Primary => Line::of(alloc, b"primary"),
        Role::Replica => replica_of(alloc, &info.primary),
        Role::Halted => Line::of(alloc, b"halted"),
    }
}

fn replica_of(alloc: Global, host: &Option<Text>) -> Result<Line, NoMemory>
    ensures { IfOk result (λ words. words ≡ replica_of_host host.now) }
{
    match host {
        Some(host) if !host.bytes().is_empty() => {
            let mut words = Line::of(alloc, b"replica of ")?;
            words.put(host.bytes())?;
            Ok(words)
        }
        _ => Line::of(alloc, b"replica"),
    }
}

fn role_line(alloc: Global, words: &Line, pos: Pos) -> Result<Line, NoMemory>
    ensures { IfOk result (λ line. line ≡ role_line_of words.now pos) }
{
    let mut line = Line::of(alloc, b"role ")?;
    line.put_line(words)?;
    line.put(b" at ")?;
    line.put(&pos_text(pos))?;
    Ok(line)
}
