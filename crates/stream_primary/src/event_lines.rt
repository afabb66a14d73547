//! The lines that a reader of events is told, and what it was told then. Nothing is written here.
ghost use Rattle.std.specs.Prelude.{◌≡◌, ◌++◌, Bool, List, ℕ, IfOk, OnOk, Some};
ghost use Rattle.serde_json.specs.View.{view};
ghost use Rattle.stream_primary.specs.EventLines.{came_to, change_line, change_unless, changed_line, file_data, host_text, init_line, is_lost, is_same_primary, last_post, later_lines, lost_line, rest_lines, role_data, same_bool, same_host, same_place, short_data, stays, told_host, tx_data, tx_line, tx_lines, viewed_of, whole_data};
ghost use Rattle.stream_primary.specs.MetricsText.{is_primary};
ghost use Rattle.stream_primary.specs.JsonLine.{json_line};

use crate::json_line::{as_str, put_json_line};
use crate::metrics_text::is_primary;
use crate::viewed::Viewed;
use lf_base::{Name, NoMemory, Pos, Text, hex16};
use node_core::NodeInfo;
use serde_json::{Value, json};
use std::alloc::Global;
use txn_log::Entry;

/// Appends the first line.
pub fn put_init(alloc: Global, info: &NodeInfo, out: &mut Vec<u8>) -> Result<(), NoMemory>
    ensures { OnOk result (out.new.items ≡ out.old.items ++ init_line info.now) }
{
    let value = role_value(alloc, "init", is_primary(info.role), &info.primary)?;
    put_json_line(alloc, &value, out)
}

/// Appends the lines of a reader that was told this.
pub fn put_later(
    alloc: Global,
    name: &Name,
    viewed: &Viewed,
    info: &NodeInfo,
    files: &[Entry],
    out: &mut Vec<u8>,
) -> Result<(), NoMemory>
    ensures { OnOk result (out.new.items ≡ out.old.items ++ later_lines name.now viewed.now info.now files.now) }
{
    put_change(alloc, viewed, info, out)?;
    put_rest(
        alloc,
        is_lost(viewed.pos, info, files),
        name,
        info,
        files,
        out,
    )
}

/// Appends that it is lost, or the line of each file.
fn put_rest(
    alloc: Global,
    lost: bool,
    name: &Name,
    info: &NodeInfo,
    files: &[Entry],
    out: &mut Vec<u8>,
) -> Result<(), NoMemory>
    ensures { OnOk result (out.new.items ≡ out.old.items ++ rest_lines lost name.now info.now files.now) }
{
    match lost {
        true => put_lost(alloc, out),
        false => put_files(alloc, name, info, files, out),
    }
}

/// Appends that another is the primary, or was told to be it.
fn put_change(
    alloc: Global,
    viewed: &Viewed,
    info: &NodeInfo,
    out: &mut Vec<u8>,
) -> Result<(), NoMemory>
    ensures { OnOk result (out.new.items ≡ out.old.items ++ change_line viewed.now info.now) }
{
    put_change_unless(alloc, is_same_primary(viewed, info), info, out)
}

fn put_change_unless(
    alloc: Global,
    same: bool,
    info: &NodeInfo,
    out: &mut Vec<u8>,
) -> Result<(), NoMemory>
    ensures { OnOk result (out.new.items ≡ out.old.items ++ change_unless same info.now) }
{
    match same {
        true => Ok(()),
        false => put_changed(alloc, info, out),
    }
}

#[tactic(auto, unfolding(crate::specs::EventLines::changed_line))]
fn put_changed(alloc: Global, info: &NodeInfo, out: &mut Vec<u8>) -> Result<(), NoMemory>
    ensures { OnOk result (out.new.items ≡ out.old.items ++ changed_line info.now) }
{
    put_primary(alloc, "primaryChange", info, out)
}

fn put_primary(
    alloc: Global,
    kind: &str,
    info: &NodeInfo,
    out: &mut Vec<u8>,
) -> Result<(), NoMemory>
    ensures { OnOk result (out.new.items ≡ out.old.items ++ json_line (role_data kind.now (is_primary info.now.role) info.now.primary)) }
{
    let value = role_value(alloc, kind, is_primary(info.role), &info.primary)?;
    put_json_line(alloc, &value, out)
}

fn role_value(
    alloc: Global,
    kind: &str,
    primary: bool,
    host: &Option<Text>,
) -> Result<Value, NoMemory>
    ensures { IfOk result (λ value. view value ≡ role_data kind.now primary host.now) }
{
    let host = told_host(primary, host);
    let value = json!(in alloc; {
        "data": {"hostname": host, "isPrimary": primary},
        "type": kind
    })?;
    Ok(value)
}

/// The host of another node that is primary. The primary names none.
fn told_host(primary: bool, host: &Option<Text>) -> &str
    ensures { result.now ≡ told_host primary host.now }
{
    match primary {
        true => "",
        false => host_text(host),
    }
}

/// The primary's host. It is empty where none is known.
fn host_text(host: &Option<Text>) -> &str
    ensures { result.now ≡ host_text host.now }
{
    match host {
        Some(host) => host.as_str(),
        None => "",
    }
}

/// Whether nothing changed of what was told of the primary.
fn is_same_primary(viewed: &Viewed, info: &NodeInfo) -> bool
    ensures { result ≡ is_same_primary viewed.now info.now }
{
    same_bool(viewed.is_primary, is_primary(info.role)) && same_host(&viewed.host, &info.primary)
}

fn same_bool(one: bool, other: bool) -> bool
    ensures { result ≡ same_bool one other }
{
    if one { other } else { !other }
}

fn same_host(host: &Option<Text>, other: &Option<Text>) -> bool
    ensures { result ≡ same_host host.now other.now }
{
    match (host, other) {
        (None, None) => true,
        (Some(host), Some(other)) => host.bytes() == other.bytes(),
        (None, Some(_)) => false,
        (Some(_), None) => false,
    }
}

/// Appends a line of each file.
fn put_files(
    alloc: Global,
    name: &Name,
    info: &NodeInfo,
    files: &[Entry],
    out: &mut Vec<u8>,
) -> Result<(), NoMemory>
    ensures { OnOk result (out.new.items ≡ out.old.items ++ tx_lines name.now info.now files.now) }
{
    for file in files {
        put_file(alloc, name, info, *file, out)?;
    }
    Ok(())
}

/// Appends the line of a file.
#[tactic(auto, unfolding(crate::specs::EventLines::tx_line))]
fn put_file(
    alloc: Global,
    name: &Name,
    info: &NodeInfo,
    file: Entry,
    out: &mut Vec<u8>,
) -> Result<(), NoMemory>
    ensures { OnOk result (out.new.items ≡ out.old.items ++ tx_line name.now info.now file) }
{
    let value = tx_value(alloc, name, info, file)?;
    put_json_line(alloc, &value, out)
}

fn tx_value(alloc: Global, name: &Name, info: &NodeInfo, file: Entry) -> Result<Value, NoMemory>
    ensures { IfOk result (λ value. view value ≡ tx_data name.now (file_data info.now file)) }
{
    let inner = file_value(alloc, info, file)?;
    named_value(alloc, name, inner)
}

fn named_value(alloc: Global, name: &Name, inner: Value) -> Result<Value, NoMemory>
    ensures { IfOk result (λ value. view value ≡ tx_data name.now (view inner)) }
{
    let name = as_str(name.bytes())?;
    let value = json!(in alloc; {"data": inner, "db": name, "type": "tx"})?;
    Ok(value)
}

/// The transactions of a file, and of the last one the size of the database.
fn file_value(alloc: Global, info: &NodeInfo, file: Entry) -> Result<Value, NoMemory>
    ensures { IfOk result (λ value. view value ≡ file_data info.now file) }
{
    if same_place(file.post, info.pos) {
        whole_value(alloc, info, file)
    } else {
        short_value(alloc, file)
    }
}

fn short_value(alloc: Global, file: Entry) -> Result<Value, NoMemory>
    ensures { IfOk result (λ value. view value ≡ short_data file) }
{
    let min = hex16(file.min);
    let min = as_str(&min)?;
    let sum = hex16(file.post.sum);
    let sum = as_str(&sum)?;
    let max = hex16(file.max);
    let max = as_str(&max)?;
    let value = json!(in alloc; {"minTxID": min, "postApplyChecksum": sum, "txID": max})?;
    Ok(value)
}

fn whole_value(alloc: Global, info: &NodeInfo, file: Entry) -> Result<Value, NoMemory>
    ensures { IfOk result (λ value. view value ≡ whole_data info.now file) }
{
    let min = hex16(file.min);
    let min = as_str(&min)?;
    let sum = hex16(file.post.sum);
    let sum = as_str(&sum)?;
    let max = hex16(file.max);
    let max = as_str(&max)?;
    let commit = info.commit;
    let page_size = info.page_size;
    let value = json!(in alloc; {
        "commit": commit,
        "minTxID": min,
        "pageSize": page_size,
        "postApplyChecksum": sum,
        "txID": max
    })?;
    Ok(value)
}

/// Appends that the reader can't be brought on.
#[tactic(auto, unfolding(crate::specs::EventLines::lost_line))]
fn put_lost(alloc: Global, out: &mut Vec<u8>) -> Result<(), NoMemory>
    ensures { OnOk result (out.new.items ≡ out.old.items ++ lost_line) }
{
    let value = json!(in alloc; {"type": "lost"})?;
    put_json_line(alloc, &value, out)
}

/// Whether it can't: no file follows its position, and the node is elsewhere.
fn is_lost(pos: Pos, info: &NodeInfo, files: &[Entry]) -> bool
    ensures { result ≡ is_lost pos info.now files.now }
{
    match files.first() {
        None => !same_place(pos, info.pos),
        Some(_) => false,
    }
}

fn same_place(pos: Pos, other: Pos) -> bool
    ensures { result ≡ same_place pos other }
{
    pos.txid == other.txid && pos.sum == other.sum
}

/// Whether the reader can be brought on.
pub fn stays(told: &Option<Viewed>, info: &NodeInfo, files: &[Entry]) -> bool
    ensures { result ≡ stays told.now info.now files.now }
{
    match told {
        None => true,
        Some(viewed) => !is_lost(viewed.pos, info, files),
    }
}

/// What it was told then.
pub fn viewed_of(
    told: &Option<Viewed>,
    info: &NodeInfo,
    files: &[Entry],
) -> Result<Viewed, NoMemory>
    ensures { IfOk result (λ viewed. viewed ≡ viewed_of told.now info.now files.now) }
{
    let host = copy_of(&info.primary)?;
    Ok(Viewed {
        pos: came_to(told, info, files),
        is_primary: is_primary(info.role),
        host,
    })
}

/// The same host once more.
fn copy_of(host: &Option<Text>) -> Result<Option<Text>, NoMemory>
    ensures { IfOk result (λ copy. copy ≡ host.now) }
{
    match host {
        Some(host) => Ok(Some(host.copy()?)),
        None => Ok(None),
    }
}

fn came_to(told: &Option<Viewed>, info: &NodeInfo, files: &[Entry]) -> Pos
    ensures { result ≡ came_to told.now info.now files.now }
{
    match told {
        None => info.pos,
        Some(viewed) => last_post(viewed.pos, files),
    }
}

/// The position behind these files.
fn last_post(pos: Pos, files: &[Entry]) -> Pos
    ensures { result ≡ last_post pos files.now }
{
    match files.last() {
        Some(file) => file.post,
        None => pos,
    }
}
