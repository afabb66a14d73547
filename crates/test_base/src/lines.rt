//! What is printed.

use crate::fault::Fault;
use std::io::Print;

/// One line.
pub fn print_line(rt: &impl Print, text: &str) -> Result<(), Fault> {
    println!(rt; "{text}")?;
    Ok(())
}

/// Whether something is so, in a line of its scene.
pub fn print_shown(rt: &impl Print, what: &str, so: bool) -> Result<(), Fault> {
    println!(rt; "  {what}: {so}")?;
    Ok(())
}
