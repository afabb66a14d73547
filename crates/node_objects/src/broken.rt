//! What is told of a store that broke.
ghost use Rattle.std.specs.Prelude.{◌≡◌, ◌++◌, IfOk, OnOk, Some};
ghost use Rattle.node_objects.specs.Breaking.{broken_line as broken_line_of, call_words as words_of, digit_of, digits_of, error_words as words_of_error, file_path, reason as reason_of};
ghost use Rattle.node_objects.specs.Lines.{shown};
ghost use Rattle.lf_disk.specs.declared.name.FileName.TheVariants as names;

use crate::failing::{DiskCall, FailedCall};
use crate::line::Line;
use lf_base::{Errno, Name, NoMemory, hex16};
use lf_disk::FileName;
use std::alloc::Global;

/// The line of a store that broke, by the call that failed, where it is known.
pub fn broken_line(
    alloc: Global,
    database: &Name,
    failed: Option<FailedCall>,
) -> Result<Line, NoMemory>
    ensures { IfOk result (λ line. line ≡ broken_line_of database.now failed) }
{
    match failed {
        Some(failed) => failed_line(alloc, database, failed),
        None => Line::of(alloc, b"store broken"),
    }
}

fn failed_line(alloc: Global, database: &Name, failed: FailedCall) -> Result<Line, NoMemory>
    ensures { IfOk result (λ line. line ≡ broken_line_of database.now (Some failed)) }
{
    let mut line = Line::of(alloc, b"store broken: cannot ")?;
    line.put(call_words(failed.call))?;
    line.put(b" dbs/")?;
    line.put(database.bytes())?;
    put_file(&mut line, failed.file)?;
    put_reason(&mut line, failed.error)?;
    Ok(line)
}

/// Adds what the system said.
pub fn put_reason(line: &mut Line, error: Option<Errno>) -> Result<(), NoMemory>
    ensures { OnOk result (line.new ≡ line.old ++ shown (reason_of error)) }
{
    match error {
        Some(number) => {
            line.put(b": ")?;
            line.put(error_words(number))?;
            line.put(b"errno ")?;
            line.put(&three_digits(number))
        }
        None => Ok(()),
    }
}

/// The words of the errors that a disk or a listener gives most often.
fn error_words(number: Errno) -> &'static [u8]
    ensures { result.now ≡ words_of_error number }
{
    match number.0 {
        2 => b"no such file or directory, ",
        5 => b"input/output error, ",
        13 => b"permission denied, ",
        20 => b"not a directory, ",
        24 => b"too many open files, ",
        28 => b"no space left, ",
        30 => b"read-only file system, ",
        98 => b"address in use, ",
        99 => b"no address of this machine, ",
        122 => b"quota exceeded, ",
        _ => b"",
    }
}

/// The last three digits of a number.
fn three_digits(number: Errno) -> [u8; 3]
    ensures { result ≡ digits_of number }
{
    [digit(number.0 / 100), digit(number.0 / 10), digit(number.0)]
}

/// The last digit of a number.
fn digit(number: u32) -> u8
    ensures { result ≡ digit_of number }
{
    b'0' + (number % 10) as u8
}

/// What a call is to do.
fn call_words(call: DiskCall) -> &'static [u8]
    ensures { result.now ≡ words_of call }
{
    match call {
        DiskCall::Size => b"look at",
        DiskCall::Read => b"read",
        DiskCall::Write => b"write",
        DiskCall::Cut => b"cut",
        DiskCall::Sync => b"sync",
        DiskCall::Rename => b"rename",
        DiskCall::Remove => b"remove",
        DiskCall::List => b"list",
    }
}

/// Adds the path of a file below the data directory.
pub fn put_file(line: &mut Line, file: Option<FileName>) -> Result<(), NoMemory>
    ensures { OnOk result (line.new ≡ line.old ++ file_path file) }
{
    match file {
        Some(FileName::Database) => line.put(b"/database"),
        Some(FileName::Staged) => line.put(b"/ltx/.staged"),
        Some(FileName::Snapshot) => line.put(b"/snapshot.ltx"),
        Some(FileName::Dropped) => line.put(b"/dropped"),
        Some(FileName::Ltx { min, max }) => put_transactions(line, min, max),
        None => Ok(()),
    }
}

/// Adds the path of the file of these transactions.
fn put_transactions(line: &mut Line, min: u64, max: u64) -> Result<(), NoMemory>
    ensures { OnOk result (line.new ≡ line.old ++ file_path (Some (names.Ltx min max))) }
{
    line.put(b"/ltx/")?;
    line.put(&hex16(min))?;
    line.put(b"-")?;
    line.put(&hex16(max))?;
    line.put(b".ltx")
}
