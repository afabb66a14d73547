//! Laws of the served files, each the contract of a function that does nothing else.
ghost use Rattle.file_view.specs.LogLaws.{LogWriteKeeps};

/// A write to the log leaves the database under the log the committed image: over the same image where
/// it is done, and once it is committed over the image with its change, where the database file reads
/// as before.
pub fn log_write_keeps_the_database()
    ensures { LogWriteKeeps }
{}
