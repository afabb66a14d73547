//! The commands: their words, and what the call behind `apply` makes of files.
mod apply;
mod command_line;
