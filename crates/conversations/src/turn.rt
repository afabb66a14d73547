//! One line of a recorded conversation.

use file_view::Role;
use serde_json::Value;
use std::alloc::Global;
use test_base::{Fault, copied, decoded, number, read_line, text};

/// A database of pages of zeros.
#[derive(Clone, Copy)]
pub struct Start {
    pub page_size: u32,
    pub pages: u32,
    pub transactions: u64,
}

/// What was recorded of a commit: its change made complete, and where the database stood after it.
#[derive(Drop)]
pub struct Commit {
    pub page_size: u64,
    pub pages: u64,
    pub numbers: Vec<u64>,
    /// The SHA-256 of the pages one after another, as hex.
    pub digest: String,
    pub position: String,
}

/// A message and its reply.
#[derive(Drop)]
pub struct Message {
    pub link: u64,
    pub role: Role,
    pub request: Vec<u8>,
    /// As hex.
    pub reply: String,
    pub commit: Option<Commit>,
}

#[derive(Drop)]
pub enum Turn {
    /// A conversation begins.
    Start(Start),
    /// Another image is applied.
    Applied(Start),
    /// The node is no longer one that writes.
    Lost,
    Message(Message),
    /// A link ends.
    End { link: u64 },
}

/// A number, 0 where there is none.
fn count(value: &Value, name: &str) -> u64 {
    number(value, name).unwrap_or(0)
}

/// A number of 32 bits.
fn small_number(value: &Value, name: &str) -> u32 {
    u32::try_from(count(value, name)).unwrap_or(0)
}

fn numbers_of(alloc: Global, commit: &Value) -> Result<Vec<u64>, Fault> {
    let mut numbers = Vec::new(alloc);
    if let Some(found) = commit.get("pages").and_then(Value::as_array) {
        for number in found {
            numbers.push(number.as_u64().unwrap_or(0))?;
        }
    }
    Ok(numbers)
}

fn commit_of(alloc: Global, value: &Value) -> Result<Option<Commit>, Fault> {
    let Some(commit) = value.get("commit") else {
        return Ok(None);
    };
    Ok(Some(Commit {
        page_size: count(commit, "page_size"),
        pages: count(commit, "commit"),
        numbers: numbers_of(alloc, commit)?,
        digest: copied(alloc, commit, "sha256")?,
        position: copied(alloc, value, "position")?,
    }))
}

fn start_of(value: &Value) -> Start {
    Start {
        page_size: small_number(value, "page_size"),
        pages: small_number(value, "pages"),
        transactions: count(value, "transactions"),
    }
}

/// What the node is in this turn: the primary, unless it is said.
fn role_of(value: &Value) -> Role {
    match text(value, "role") {
        Some("replica") => Role::Replica,
        _ => Role::Primary,
    }
}

impl Turn {
    pub fn read(alloc: Global, line: &str) -> Result<Turn, Fault> {
        let value = read_line(alloc, line)?;
        if value.get("start").is_some() {
            return Ok(Turn::Start(start_of(&value)));
        }
        if value.get("applied").is_some() {
            return Ok(Turn::Applied(start_of(&value)));
        }
        if value.get("lost").is_some() {
            return Ok(Turn::Lost);
        }
        let link = count(&value, "link");
        if text(&value, "request").is_none() {
            return Ok(Turn::End { link });
        }
        Ok(Turn::Message(Message {
            link,
            role: role_of(&value),
            request: decoded(alloc, &value, "request")?,
            reply: copied(alloc, &value, "reply")?,
            commit: commit_of(alloc, &value)?,
        }))
    }
}
