//! What a node runs on: its data directory, where links come from, its threads and its clock, and the lines that it tells.
//!
//! A `Maker` makes these objects and takes them back, so a run over objects in memory and one over
//! the system's differ in their maker alone.
#![tactic(auto)]

mod asked;
mod broken;
mod complaining;
mod counts;
mod data_directory;
mod failing;
mod keeping;
mod line;
mod listening;
mod maker;
mod mem_maker;
mod mem_mounter;
mod mem_spawn;
mod mount_call;
mod mounter;
mod noting_disk;
mod obstacle;
mod returned;
mod system;
mod system_dial;
mod system_line;
mod system_maker;
mod system_mounter;
mod tell;

pub use asked::{Asked, Wanted};
pub use broken::{broken_line, put_file, put_reason};
pub use complaining::tell_complaint;
pub use counts::Counts;
pub use failing::{DiskCall, FailedCall, Failing};
pub use keeping::Keeping;
pub use line::Line;
pub use maker::Maker;
pub use mem_maker::{MemMaker, MemParts, MemReturned};
pub use mem_mounter::{MemMounter, MemProgram};
pub use mem_spawn::MemSpawn;
pub use mount_call::MountCall;
pub use mounter::{Mounter, ProgramEnd, ProgramNews};
pub use noting_disk::NotingDisk;
pub use obstacle::{Obstacle, tell_obstacle, tell_unheard};
pub use returned::Returned;
pub use system::System;
pub use system_dial::SystemDial;
pub use system_line::SystemLine;
pub use system_maker::{SystemMaker, SystemReturned};
pub use system_mounter::SystemMounter;
pub use tell::{ErrorLines, KeptLines, KeptPlace, Lines, Tell};
