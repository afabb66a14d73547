ghost use Rattle.std.specs.Prelude.{◌≡◌, IfOk};
ghost use Rattle.node_objects.specs.Mounters.{mount_call};
ghost use Rattle.node_objects.specs.declared.asked.Wanted.TheVariants as wants;

use crate::mount_call::MountCall;
use lf_base::{Name, NoMemory, Text};
use node_settings::MountSettings;

/// What a maker is asked for.
#[derive(Drop)]
pub enum Wanted {
    /// The data directory of this database.
    Disk(Name),
    /// File links, from a socket of this path.
    Files(Text),
    /// HTTP links, at this address.
    Http(Text),
    /// What mounts its files, by this call.
    Mount(MountCall),
}

/// What a maker was asked for, and whether it gave it.
#[derive(Drop)]
pub struct Asked {
    pub wanted: Wanted,
    pub given: bool,
}

impl Wanted {
    pub fn disk(name: &Name) -> Result<Wanted, NoMemory>
        ensures { IfOk result (λ made. made ≡ wants.Disk name.now) }
    {
        let name = name.copy()?;
        Ok(Wanted::Disk(name))
    }

    pub fn files(path: &Text) -> Result<Wanted, NoMemory>
        ensures { IfOk result (λ made. made ≡ wants.Files path.now) }
    {
        let path = path.copy()?;
        Ok(Wanted::Files(path))
    }

    pub fn http(address: &Text) -> Result<Wanted, NoMemory>
        ensures { IfOk result (λ made. made ≡ wants.Http address.now) }
    {
        let address = address.copy()?;
        Ok(Wanted::Http(address))
    }

    pub fn mount(database: &Name, socket: &Text, mount: &MountSettings) -> Result<Wanted, NoMemory>
        ensures { IfOk result (λ made. made ≡ wants.Mount (mount_call database.now socket.now mount.now)) }
    {
        let call = MountCall::of(database, socket, mount)?;
        Ok(Wanted::Mount(call))
    }
}
