//! What a node's files are mounted by.
ghost use Rattle.std.specs.Prelude.{◌≡◌, IfOk};
ghost use Rattle.node_objects.specs.Mounters.{mount_call as call_of, mount_options as options_of, mount_words as words_of};

use lf_base::{Name, NoMemory, Text};
use node_settings::MountSettings;
use std::alloc::Global;

/// At which folder, and by which program, the files of a database are mounted that are served on a socket.
#[derive(Drop)]
pub struct MountCall {
    pub database: Name,
    pub socket: Text,
    /// The path of the folder.
    pub dir: Text,
    /// The path of the program. None is the one that lies beside the node's own.
    pub program: Option<Text>,
}

impl MountCall {
    pub fn of(database: &Name, socket: &Text, mount: &MountSettings) -> Result<MountCall, NoMemory>
        ensures { IfOk result (λ call. call ≡ call_of database.now socket.now mount.now) }
    {
        let database = database.copy()?;
        let socket = socket.copy()?;
        let dir = mount.dir.copy()?;
        let program = copy_of(&mount.program)?;
        Ok(MountCall {
            database,
            socket,
            dir,
            program,
        })
    }

    /// What stands behind the program's name.
    pub fn words(&self, alloc: Global) -> Result<Vec<Text>, NoMemory>
        ensures { IfOk result (λ words. words.items ≡ words_of self.now) }
    {
        let options = options_of(alloc, &self.database)?;
        let socket = self.socket.copy()?;
        let dir = self.dir.copy()?;
        let mark = Text::of(alloc, "-o")?;
        let end = Text::of(alloc, "--until-stdin-ends")?;
        Ok(vec![in alloc; socket, dir, mark, options, end]?)
    }
}

fn copy_of(text: &Option<Text>) -> Result<Option<Text>, NoMemory>
    ensures { IfOk result (λ copy. copy ≡ text.now) }
{
    match text {
        Some(text) => Ok(Some(text.copy()?)),
        None => Ok(None),
    }
}

fn options_of(alloc: Global, database: &Name) -> Result<Text, NoMemory>
    ensures { IfOk result (λ options. options ≡ options_of database.now) }
{
    let name = String::from_utf8_lossy(alloc, database.bytes())?;
    let mut options = String::from_str(alloc, "mkdir,name=")?;
    options.push_str(name.as_str())?;
    Text::of(alloc, options.as_str())
}
