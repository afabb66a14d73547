//! What is complained of, where a text is refused.
ghost use Rattle.std.specs.Prelude.{◌≡◌, ◌≤◌, [], IfOk, IfErr, length};
ghost use Rattle.std.specs.List.{list_all};
ghost use Rattle.toml.specs.Data.{Members};
ghost use Rattle.toml.specs.View.{table_view};
ghost use Rattle.node_settings.specs.Complaints.{Complains, Refuses, is_bare, is_bare_byte, key_text, shown};
ghost use Rattle.node_settings.specs.Lines.{IsDocument};
ghost use Rattle.node_settings.specs.Rules.{AllKept};

use crate::keeping::first_broken;
use crate::lines::{broken_line, line_of};
use crate::place::prefix_of;
use crate::rule::{name_of_rule, place_of_rule};
use crate::{Complaint, Place, Rule, SettingsRefusal};
use lf_base::{NoMemory, Text};
use std::alloc::Global;
use toml::Table;

/// The most bytes of a configuration.
const SIZE_MAX: usize = 65_536;

/// The table that a text is.
pub(crate) fn document(alloc: Global, text: &[u8]) -> Result<Table, SettingsRefusal>
    ensures ok { IfOk result (λ root. (length text.now ≤ 65536) × IsDocument text.now (table_view root)) }
    ensures refused { IfErr result (Refuses [] text.now) }
{
    if text.len() > SIZE_MAX {
        return Err(SettingsRefusal::Config(Complaint::Size));
    }
    match toml::table_from_slice(alloc, text) {
        Ok(root) => Ok(root),
        Err(error) if error.is_memory() => Err(SettingsRefusal::NoMemory),
        Err(_) => Err(no_toml(alloc, text)),
    }
}

fn no_toml(alloc: Global, text: &[u8]) -> SettingsRefusal
    requires fits { length text.now ≤ 65536 }
    requires none { (root : Members) → IsDocument text.now root → ⊥ }
    ensures { Refuses [] text.now result }
{
    match broken_line(alloc, text) {
        Ok(line) => SettingsRefusal::Config(Complaint::Toml { line }),
        Err(NoMemory) => SettingsRefusal::NoMemory,
    }
}

/// What is complained of in a table of which these rules are asked, and one is broken.
pub(crate) fn refused(alloc: Global, text: &[u8], root: &Table, rules: &[Rule]) -> SettingsRefusal
    requires fits { length text.now ≤ 65536 }
    requires is_document { IsDocument text.now (table_view root.now) }
    requires broken { AllKept rules.now (table_view root.now) → ⊥ }
    ensures { Refuses rules.now text.now result }
{
    match complaint_of(alloc, text, root, rules) {
        Ok(complaint) => SettingsRefusal::Config(complaint),
        Err(NoMemory) => SettingsRefusal::NoMemory,
    }
}

fn complaint_of(
    alloc: Global,
    text: &[u8],
    root: &Table,
    rules: &[Rule],
) -> Result<Complaint, NoMemory>
    requires fits { length text.now ≤ 65536 }
    requires is_document { IsDocument text.now (table_view root.now) }
    requires broken { AllKept rules.now (table_view root.now) → ⊥ }
    ensures { IfOk result (Complains rules.now text.now) }
{
    let Some(rule) = first_broken(alloc, rules, root)? else {
        unreachable!()
    };
    let place = place_of_rule(rule);
    let name = name_of_rule(rule, root);
    let key = key_text(alloc, place, name)?;
    let line = line_of(alloc, text, root, place, name)?;
    Ok(Complaint::Rule { rule, key, line })
}

/// A key with its table.
fn key_text(alloc: Global, place: Place, name: &str) -> Result<Text, NoMemory>
    ensures { IfOk result (λ key. key ≡ key_text place name.now) }
{
    let mut key = String::from_str(alloc, prefix_of(place))?;
    key.push_str(shown(name))?;
    Text::of(alloc, key.as_str())
}

/// The name of a key, where it needs no quotation marks.
fn shown(name: &str) -> &str
    ensures { result.now ≡ shown name.now }
{
    if is_bare(name) { name } else { "?" }
}

fn is_bare(name: &str) -> bool
    ensures { result ≡ is_bare name.now }
{
    !name.is_empty() && are_bare(name.as_bytes())
}

fn are_bare(name: &[u8]) -> bool
    ensures { result ≡ list_all is_bare_byte name.now }
{
    name.iter().all(|byte| is_bare_byte(*byte))
}

fn is_bare_byte(byte: u8) -> bool
    ensures { result ≡ is_bare_byte byte }
{
    byte.is_ascii_alphanumeric() || matches!(byte, b'-' | b'_')
}
