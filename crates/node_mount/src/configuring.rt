//! The configuration read from its source.
ghost use Rattle.std.specs.Prelude.{◌≡◌, ◌<◌, [], length, IfOk, OnOk, vec_len};
ghost use Rattle.node_mount.specs.Complaining.{ComplainsOf, ComplainsOfRead};
ghost use Rattle.node_mount.specs.Configuring.{CountsSource, IsReading, ReadsConfiguration, ReadsPast, ReadsSettings, SaysSettings};
ghost use Rattle.node_mount.specs.Mounting.{IsOfReading};
ghost use Rattle.node_settings.specs.Rules.{node_rules};

use crate::configuration::Configuration;
use crate::mount_fault::MountFault;
use lf_base::Source;
use node_settings::{Complaint, SettingsRefusal, read_settings};
use std::alloc::{AllocError, Global};

/// The most bytes of a configuration.
pub const SIZE_MAX: usize = 65_536;

/// How many bytes are asked for at a time.
const PIECE: usize = 4_096;

/// The settings that a source says. It is read to its end, or until it is known to be too long. Of what is
/// no configuration it says what is complained of.
pub fn read_configuration<G: Source>(
    alloc: Global,
    source: &mut G,
    complaint: &mut Option<Complaint>,
) -> Result<Configuration, MountFault>
    ensures complaint { ComplainsOfRead node_rules (G.left source.old) (G.left source.new) result complaint.new }
    ensures config { ReadsConfiguration (G.left source.old) (G.left source.new) result }
    ensures settings { IfOk result (λ read. ReadsSettings (G.left source.old) (G.left source.new) read.settings) }
    ensures cause { CountsSource (G.faults source.old) (G.faults source.new) result }
    ensures kind { IsOfReading result }
{
    let Ok(mut piece) = new_piece(alloc) else {
        return Err(MountFault::NoMemory);
    };
    let mut bytes = Vec::new(alloc);
    read_pieces(source, SIZE_MAX, piece.as_mut_slice(), &mut bytes)?;
    configuration_in(alloc, &bytes, complaint)
}

/// Room for what is read at a time.
pub fn new_piece(alloc: Global) -> Result<Vec<u8>, AllocError>
    ensures { IfOk result (λ piece. vec_len piece ≡ PIECE) }
{
    vec![in alloc; 0u8; PIECE]
}

/// Reads on until the source is at its end, or has given more bytes than so many.
pub fn read_pieces<G: Source>(
    source: &mut G,
    most: usize,
    piece: &mut [u8],
    bytes: &mut Vec<u8>,
) -> Result<(), MountFault>
    requires some { 0 < length piece.old }
    requires none { bytes.old.items ≡ [] }
    ensures read { OnOk result (ReadsPast most (G.left source.old) (G.left source.new) bytes.new.items) }
    ensures cause { CountsSource (G.faults source.old) (G.faults source.new) result }
    ensures fault { IsReading result }
{
    let mut room = most;
    loop {
        let count = match source.read(piece) {
            Ok(count) => count,
            Err(_) => return Err(MountFault::Read),
        };
        if count == 0 {
            return Ok(());
        }
        match bytes.extend_from_slice(&piece[..count]) {
            Ok(()) => {}
            Err(_) => return Err(MountFault::NoMemory),
        }
        if room < count {
            return Ok(());
        }
        room -= count;
    }
}

fn configuration_in(
    alloc: Global,
    bytes: &Vec<u8>,
    complaint: &mut Option<Complaint>,
) -> Result<Configuration, MountFault>
    ensures says { SaysSettings bytes.now.items result }
    ensures complaint { ComplainsOf node_rules bytes.now.items result complaint.new }
{
    match read_settings(alloc, bytes.as_slice()) {
        Ok(settings) => Ok(Configuration::new(settings, bytes)),
        Err(SettingsRefusal::Config(found)) => {
            *complaint = Some(found);
            Err(MountFault::Config)
        }
        Err(SettingsRefusal::NoMemory) => Err(MountFault::NoMemory),
    }
}
