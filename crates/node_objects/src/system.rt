use lf_base::Handles;
use std::fs::File;
use std::io::Eprint;
use std::process::{Processes, SystemProcess};
use std::random::RandomSource;
use std::rt::Files;

/// The runtime of the system, as the objects take it that a node runs on.
pub trait System: Handles
    + Files<File = File>
    + AllocGlobal
    + RandomSource
    + Eprint
    + Processes<Started = SystemProcess>
    + Copy {}

impl<
    R: Handles
        + Files<File = File>
        + AllocGlobal
        + RandomSource
        + Eprint
        + Processes<Started = SystemProcess>
        + Copy,
> System for R {}
