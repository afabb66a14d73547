//! The names of the served files.
ghost use Rattle.std.specs.Prelude.{◌≡◌, ◌++◌};
ghost use Rattle.std.specs.Str.{bytes_eq};
ghost use Rattle.file_handles.specs.Names.{every_file, is_named, file_named};

use byte_locks::FileKind;
use lf_base::Name;

/// Every file.
#[tactic(auto, unfolding(crate::specs::Names::every_file))]
fn all() -> [FileKind; 7]
    ensures { result ≡ every_file }
{
    [
        FileKind::Database,
        FileKind::Journal,
        FileKind::Wal,
        FileKind::Shm,
        FileKind::PosFile,
        FileKind::LockFile,
        FileKind::Primary,
    ]
}

/// Whether bytes are a front and an ending.
fn is_joined(bytes: &[u8], front: &[u8], ending: &[u8]) -> bool
    ensures { result ≡ bytes_eq bytes.now (front.now ++ ending.now) }
{
    match bytes.strip_prefix(front) {
        Some(rest) => rest == ending,
        None => false,
    }
}

/// Whether a name is that of a file of the database.
fn is_named(database: &Name, name: &[u8], file: FileKind) -> bool
    ensures { result ≡ is_named database.now name.now file }
{
    let front = database.bytes();
    match file {
        FileKind::Database => name == front,
        FileKind::Journal => is_joined(name, front, b"-journal"),
        FileKind::Wal => is_joined(name, front, b"-wal"),
        FileKind::Shm => is_joined(name, front, b"-shm"),
        FileKind::PosFile => is_joined(name, front, b"-pos"),
        FileKind::LockFile => is_joined(name, front, b"-lock"),
        FileKind::Primary => name == b".primary".as_slice(),
    }
}

/// The file of a database that a name is the name of, if there is one.
pub fn file_named(database: &Name, name: &[u8]) -> Option<FileKind>
    ensures { result ≡ file_named database.now name.now }
{
    all()
        .iter()
        .copied()
        .find(|file| is_named(database, name, *file))
}
