//! What a node says of itself, as JSON.
ghost use Rattle.std.specs.Prelude.{◌≡◌, ◌++◌, codes, OnOk};
ghost use Rattle.stream_primary.specs.InfoText.{info_text, info_type, place_members, primary_member, reader_members, role_name, size_members, version_front, who_members};

use crate::json_text::{put_number, put_quoted, put_text, put_truth};
use crate::metric::put;
use crate::metrics_text::is_primary;
use file_view::Role;
use lf_base::{Name, NoMemory, Text, hex16, pos_text};
use node_core::NodeInfo;
use node_figures::Figures;
use std::alloc::Global;

/// The media type.
#[tactic(auto, unfolding(crate::specs::InfoText::info_type))]
pub fn info_type() -> &'static [u8]
    ensures { result.now ≡ info_type }
{
    b"application/json"
}

/// Appends it, a line.
#[tactic(auto, unfolding(crate::specs::InfoText::info_text))]
pub fn put_info(
    alloc: Global,
    name: &Name,
    info: &NodeInfo,
    figures: &Figures,
    out: &mut Vec<u8>,
) -> Result<(), NoMemory>
    ensures { OnOk result (out.new.items ≡ out.old.items ++ info_text name.now info.now figures.now) }
{
    put(out, version_front())?;
    put_who(alloc, name, info, figures, out)?;
    put_place(alloc, info, out)?;
    put_size(alloc, info, out)?;
    put_readers(alloc, figures, out)?;
    put(out, b"}\n")
}

/// The version of the program, as the file VERSION says it.
#[tactic(auto, unfolding(crate::specs::InfoText::version_front))]
fn version_front() -> &'static [u8]
    ensures { result.now ≡ version_front }
{
    b"{\"version\":\"0.1.0\""
}

#[tactic(auto, unfolding(crate::specs::InfoText::who_members))]
fn put_who(
    alloc: Global,
    name: &Name,
    info: &NodeInfo,
    figures: &Figures,
    out: &mut Vec<u8>,
) -> Result<(), NoMemory>
    ensures { OnOk result (out.new.items ≡ out.old.items ++ who_members name.now info.now figures.now) }
{
    put_quoted(b"name", name.bytes(), out)?;
    put_quoted(b"node", &hex16(figures.node), out)?;
    put_quoted(b"role", role_name(info.role), out)?;
    put_primary(alloc, is_primary(info.role), &info.primary, out)?;
    put_text(alloc, b"primaryUrl", &figures.primary_url, out)
}

/// The host of another node that is primary. The primary names none.
#[tactic(auto, unfolding(crate::specs::InfoText::primary_member))]
fn put_primary(
    alloc: Global,
    primary: bool,
    host: &Option<Text>,
    out: &mut Vec<u8>,
) -> Result<(), NoMemory>
    ensures { OnOk result (out.new.items ≡ out.old.items ++ primary_member primary host.now) }
{
    match primary {
        true => put_text(alloc, b"primary", &None, out),
        false => put_text(alloc, b"primary", host, out),
    }
}

#[tactic(auto, unfolding(crate::specs::InfoText::place_members))]
fn put_place(alloc: Global, info: &NodeInfo, out: &mut Vec<u8>) -> Result<(), NoMemory>
    ensures { OnOk result (out.new.items ≡ out.old.items ++ place_members info.now) }
{
    put_quoted(b"pos", &pos_text(info.pos), out)?;
    put_quoted(b"first", &hex16(info.first), out)?;
    put_quoted(b"last", &hex16(info.pos.txid), out)?;
    put_number(alloc, b"files", info.files, out)
}

#[tactic(auto, unfolding(crate::specs::InfoText::size_members))]
fn put_size(alloc: Global, info: &NodeInfo, out: &mut Vec<u8>) -> Result<(), NoMemory>
    ensures { OnOk result (out.new.items ≡ out.old.items ++ size_members info.now) }
{
    put_number(alloc, b"pageSize", u64::from(info.page_size), out)?;
    put_number(alloc, b"commit", u64::from(info.commit), out)?;
    put_truth(b"broken", info.broken, out)
}

#[tactic(auto, unfolding(crate::specs::InfoText::reader_members))]
fn put_readers(alloc: Global, figures: &Figures, out: &mut Vec<u8>) -> Result<(), NoMemory>
    ensures { OnOk result (out.new.items ≡ out.old.items ++ reader_members figures.now) }
{
    put_number(alloc, b"followers", figures.counts.followers, out)?;
    put_number(alloc, b"watchers", figures.counts.watchers, out)?;
    put_number(alloc, b"uptime", figures.uptime_ms / 1000, out)
}

fn role_name(role: Role) -> &'static [u8]
    ensures { result.now ≡ role_name role }
{
    match role {
        Role::Primary => b"primary",
        Role::Replica => b"replica",
        Role::Halted => b"halted",
    }
}
