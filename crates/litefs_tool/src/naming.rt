//! The names of the commands, read as a command line by clap.
//!
//! clap refuses all that a command's name alone is not, but for the word `--`, which it passes over.
ghost use Rattle.std.specs.Prelude.{◌≡◌, ◌≢◌, IfOk, None, map};
ghost use Rattle.clap.specs.Words.{app_of, kind_of, subcommand_name_of};
ghost use Rattle.clap.specs.declared.error.kind.ErrorKind.TheVariants.{OutOfMemory};
ghost use Rattle.litefs_tool.specs.Words.{IsNamedBy};
ghost use Rattle.litefs_tool.specs.steps.CommandLine as spec;
ghost use Rattle.litefs_tool.specs.steps.CommandLine.{IsNameAlone, IsNamed};

use clap::ArgMatches;
use clap::error::ErrorKind;
use lf_base::{NoMemory, Text};
use std::alloc::Global;

/// The name of a command.
#[derive(Clone, Copy)]
pub enum CommandName {
    Apply,
    Compact,
    Mount,
    Lease,
    Export,
    Import,
    Drill,
    Backup,
    Restore,
    Run,
}

/// The command of this name, to the letter.
pub(crate) fn read_name(alloc: Global, word: &Text) -> Result<Option<CommandName>, NoMemory>
    ensures { IfOk result (IsNamedBy word.now) }
{
    read_words(alloc, &[word.as_str()])
}

fn read_words(alloc: Global, words: &[&str]) -> Result<Option<CommandName>, NoMemory>
    ensures { IfOk result (IsNameAlone (map (λ word. word.now) words.now)) }
{
    if words.contains(&"--") {
        return Ok(None);
    }
    let program = program(alloc)?;
    match program.try_get_matches_from(words) {
        Ok(matches) => Ok(name_matched(&matches)),
        Err(error) => refuse(&error),
    }
}

/// The program: a subcommand for each command, and nothing beside them.
fn program<'a>(alloc: Global) -> Result<clap::Command<'a>, NoMemory>
    ensures { IfOk result (λ program. app_of program ≡ spec.program) }
{
    let program = playing_program(alloc)?
        .subcommand(clap::Command::new(alloc, "restore"))?
        .subcommand(clap::Command::new(alloc, "run"))?;
    Ok(program)
}

/// The same without these two.
fn playing_program<'a>(alloc: Global) -> Result<clap::Command<'a>, NoMemory>
    ensures { IfOk result (λ program. app_of program ≡ spec.playing_program) }
{
    let program = asking_program(alloc)?
        .subcommand(clap::Command::new(alloc, "drill"))?
        .subcommand(clap::Command::new(alloc, "backup"))?;
    Ok(program)
}

/// The same without the drill and the first on a backup.
fn asking_program<'a>(alloc: Global) -> Result<clap::Command<'a>, NoMemory>
    ensures { IfOk result (λ program. app_of program ≡ spec.asking_program) }
{
    let program = serving_program(alloc)?
        .subcommand(clap::Command::new(alloc, "export"))?
        .subcommand(clap::Command::new(alloc, "import"))?;
    Ok(program)
}

/// The same without the commands that ask a node.
fn serving_program<'a>(alloc: Global) -> Result<clap::Command<'a>, NoMemory>
    ensures { IfOk result (λ program. app_of program ≡ spec.serving_program) }
{
    let program = files_program(alloc)?
        .subcommand(clap::Command::new(alloc, "mount"))?
        .subcommand(clap::Command::new(alloc, "lease"))?;
    Ok(program)
}

/// The same with the commands on LTX files alone.
fn files_program<'a>(alloc: Global) -> Result<clap::Command<'a>, NoMemory>
    ensures { IfOk result (λ program. app_of program ≡ spec.files_program) }
{
    let program = clap::Command::new(alloc, "litefs")
        .no_binary_name(true)
        .disable_help_flag(true)
        .disable_help_subcommand(true)
        .subcommand(clap::Command::new(alloc, "apply"))?
        .subcommand(clap::Command::new(alloc, "compact"))?;
    Ok(program)
}

/// The command whose name was matched, if one was.
fn name_matched(matches: &ArgMatches<'_>) -> Option<CommandName>
    ensures { IsNamed (subcommand_name_of matches.now) result }
{
    match matches.subcommand_name() {
        Some("apply") => Some(CommandName::Apply),
        Some("compact") => Some(CommandName::Compact),
        Some("mount") => Some(CommandName::Mount),
        Some("lease") => Some(CommandName::Lease),
        Some("export") => Some(CommandName::Export),
        Some("import") => Some(CommandName::Import),
        Some("drill") => Some(CommandName::Drill),
        Some("backup") => Some(CommandName::Backup),
        Some("restore") => Some(CommandName::Restore),
        Some("run") => Some(CommandName::Run),
        _ => None,
    }
}

/// Words that clap refuses are no command's. It refuses any for want of memory.
fn refuse(error: &clap::Error) -> Result<Option<CommandName>, NoMemory>
    ensures { IfOk result (λ name. (name ≡ None) × (kind_of error.now ≢ OutOfMemory)) }
{
    if error.kind() == ErrorKind::OutOfMemory {
        return Err(NoMemory);
    }
    Ok(None)
}
