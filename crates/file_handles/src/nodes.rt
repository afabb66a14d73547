//! The node numbers of the served files.
ghost use Rattle.std.specs.Prelude.{◌≡◌, Some};
ghost use Rattle.file_handles.specs.Nodes.{node_of, file_at};

use byte_locks::FileKind;

/// The node of the folder that the files stand in.
pub const ROOT: u64 = 1;

/// The node of a file.
pub fn node_of(file: FileKind) -> u64
    ensures value { result ≡ node_of file }
    ensures back { file_at result ≡ Some file }
{
    match file {
        FileKind::Database => 2,
        FileKind::Journal => 3,
        FileKind::Wal => 4,
        FileKind::Shm => 5,
        FileKind::PosFile => 6,
        FileKind::LockFile => 7,
        FileKind::Primary => 8,
    }
}

/// The file of a node. The root is none.
pub fn file_at(node: u64) -> Option<FileKind>
    ensures { result ≡ file_at node }
{
    match node {
        2 => Some(FileKind::Database),
        3 => Some(FileKind::Journal),
        4 => Some(FileKind::Wal),
        5 => Some(FileKind::Shm),
        6 => Some(FileKind::PosFile),
        7 => Some(FileKind::LockFile),
        8 => Some(FileKind::Primary),
        _ => None,
    }
}
