ghost use Rattle.std.specs.Prelude.{◌≡◌, ◌++◌, Some, IfOk, option_map, string_bytes};
ghost use Rattle.node_settings.specs.Complaints.{key_of, line_of, place_text, said_of, text_of, wanted_by};

use crate::Rule;
use crate::rule::words_of;
use lf_base::{NoMemory, Text};
use std::alloc::Global;

/// Why a text is no configuration.
#[derive(Debug, Drop)]
pub enum Complaint {
    /// It has more than 65,536 bytes.
    Size,
    /// It is no TOML: the statement that begins on this line is none.
    Toml {
        line: usize,
    },
    /// It breaks a rule.
    Rule {
        rule: Rule,
        /// The key that the rule is about, with its table.
        key: Text,
        /// The line on which the statement begins that says the key. A key that is missing has none.
        line: Option<usize>,
    },
}

impl Complaint {
    /// The key that is complained of, with its table. None is where the text is no TOML.
    pub fn key(&self) -> Option<&str>
        ensures { option_map (λ k. k.now) result ≡ key_of self.now }
    {
        match self {
            Complaint::Rule { key, .. } => Some(key.as_str()),
            _ => None,
        }
    }

    /// What was wanted, in words.
    pub fn wanted(&self) -> &'static str
        ensures { result.now ≡ wanted_by self.now }
    {
        match self {
            Complaint::Size => "at most 65536 bytes",
            Complaint::Toml { .. } => "TOML in UTF-8",
            Complaint::Rule { rule, .. } => words_of(*rule),
        }
    }

    /// The line that it is about, where one is. The first line is 1.
    pub fn line(&self) -> Option<usize>
        ensures { result ≡ line_of self.now }
    {
        match self {
            Complaint::Size => None,
            Complaint::Toml { line } => Some(*line),
            Complaint::Rule { line, .. } => *line,
        }
    }

    /// All of it in words, behind the name of the file: `FILE:LINE: KEY: wanted WORDS`. The line is left out
    /// where there is none, and so is the key.
    pub fn text(&self, alloc: Global, file: &str) -> Result<Text, NoMemory>
        ensures { IfOk result (λ text. text ≡ text_of file.now self.now) }
    {
        let place = place_text(alloc, file, self.line())?;
        let said = said_of(alloc, place.as_str(), self.key())?;
        let whole = joined(alloc, said.as_str(), ": wanted ", self.wanted())?;
        let text = Text::of(alloc, whole.as_str())?;
        Ok(text)
    }
}

fn place_text(alloc: Global, file: &str, line: Option<usize>) -> Result<String, NoMemory>
    ensures { IfOk result (λ text. string_bytes text ≡ place_text file.now line) }
{
    match line {
        Some(line) => numbered(alloc, file, line),
        None => Ok(String::from_str(alloc, file)?),
    }
}

fn numbered(alloc: Global, file: &str, line: usize) -> Result<String, NoMemory>
    ensures { IfOk result (λ text. string_bytes text ≡ place_text file.now (Some line)) }
{
    let digits = line.to_string(alloc)?;
    joined(alloc, file, ":", digits.as_str())
}

fn said_of(alloc: Global, place: &str, key: Option<&str>) -> Result<String, NoMemory>
    ensures { IfOk result (λ text. string_bytes text ≡ said_of place.now (option_map (λ k. k.now) key.entry)) }
{
    match key {
        Some(key) => joined(alloc, place, ": ", key),
        None => Ok(String::from_str(alloc, place)?),
    }
}

/// A text, a mark and another text.
fn joined(alloc: Global, text: &str, mark: &str, more: &str) -> Result<String, NoMemory>
    ensures { IfOk result (λ whole. string_bytes whole ≡ (text.now ++ mark.now) ++ more.now) }
{
    let mut whole = String::from_str(alloc, text)?;
    whole.push_str(mark)?;
    whole.push_str(more)?;
    Ok(whole)
}
