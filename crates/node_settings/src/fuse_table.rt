//! The table `fuse`.

ghost use Rattle.std.specs.Prelude.{◌≡◌, Some, None, codes, IsSomeAnd, OnOk, IfErr};
ghost use Rattle.toml.specs.View.{table_view};
ghost use Rattle.node_settings.specs.declared.settings_fault.SettingsFault.TheVariants as fault;
ghost use Rattle.node_settings.specs.Answers.{Reads};
ghost use Rattle.node_settings.specs.Configuration.{IsFuse, IsFuseTable, dir_of, fuse_keys, program_of};
ghost use Rattle.node_settings.specs.Values.{HasOnly, HoldsOr, IsPath, IsSomeOf, IsText, members_at, section as section_at};

use crate::place::keys_of;
use crate::table::{check_keys, section, value_at};
use crate::values::{path, text};
use crate::{MountSettings, Place, SettingsFault};
use lf_base::Text;
use std::alloc::Global;
use toml::Table;

/// What the keys of the table say.
#[derive(Drop)]
pub(crate) struct FuseTable {
    socket: Text,
    dir: Option<Text>,
    program: Option<Text>,
}

/// The socket, and where the database is mounted.
#[derive(Drop)]
pub(crate) struct FuseSettings {
    pub(crate) socket: Text,
    pub(crate) mount: Option<MountSettings>,
}

pub(crate) fn fuse(alloc: Global, root: &Table) -> Result<FuseSettings, SettingsFault>
    ensures { Reads (λ fuse. IsSomeAnd (section_at (codes "fuse") (table_view root.now)) (λ t. IsFuse t fuse.socket fuse.mount)) result }
{
    let table = fuse_table(alloc, root)?;
    let mount = mount_of(table.dir, table.program)?;
    Ok(FuseSettings {
        socket: table.socket,
        mount,
    })
}

/// A program is only there to mount a folder.
fn mount_of(
    dir: Option<Text>,
    program: Option<Text>,
) -> Result<Option<MountSettings>, SettingsFault>
    ensures { Reads (λ mount. (dir_of mount ≡ dir) × (program_of mount ≡ program)) result }
{
    match dir {
        Some(dir) => Ok(Some(MountSettings { dir, program })),
        None if program.is_some() => Err(SettingsFault::Config),
        None => Ok(None),
    }
}

pub(crate) fn fuse_table(alloc: Global, root: &Table) -> Result<FuseTable, SettingsFault>
    ensures { Reads (λ fuse. IsSomeAnd (section_at (codes "fuse") (table_view root.now)) (λ t. IsFuseTable t fuse.socket fuse.dir fuse.program)) result }
{
    let table = section(root, "fuse")?;
    fuse_keys_of(alloc, table)
}

fn fuse_keys_of(alloc: Global, table: Option<&Table>) -> Result<FuseTable, SettingsFault>
    ensures { Reads (λ fuse. IsFuseTable (members_at table.entry) fuse.socket fuse.dir fuse.program) result }
{
    check_fuse_keys(table)?;
    let socket = socket(alloc, table)?;
    let dir = path_at(alloc, table, "dir")?;
    let program = path_at(alloc, table, "program")?;
    Ok(FuseTable {
        socket,
        dir,
        program,
    })
}

fn check_fuse_keys(table: Option<&Table>) -> Result<(), SettingsFault>
    ensures ok { OnOk result (HasOnly fuse_keys (members_at table.entry)) }
    ensures fault { IfErr result (λ f. (f ≡ fault.Config) × (HasOnly fuse_keys (members_at table.entry) → ⊥)) }
{
    check_keys(table, keys_of(Place::Fuse))
}

fn socket(alloc: Global, table: Option<&Table>) -> Result<Text, SettingsFault>
    ensures { Reads (HoldsOr (codes "listen") IsText (codes "litefs.sock") (members_at table.entry)) result }
{
    match value_at(table, "listen") {
        Some(value) => text(alloc, value),
        None => Ok(Text::of(alloc, "litefs.sock")?),
    }
}

/// The path under a key, which may be missing.
fn path_at(alloc: Global, table: Option<&Table>, key: &str) -> Result<Option<Text>, SettingsFault>
    ensures { Reads (HoldsOr key.now (IsSomeOf IsPath) None (members_at table.entry)) result }
{
    match value_at(table, key) {
        Some(value) => Ok(Some(path(alloc, value)?)),
        None => Ok(None),
    }
}
