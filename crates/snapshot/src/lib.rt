//! Whole databases out of a store, and into one.
#![tactic(auto)]

mod comparing;
mod encoded;
mod exporting;
mod fault;
mod growing;
mod importing;
mod installing;
mod installing_from;
mod laws;
mod making;
mod output;
mod reading;
mod whole;
mod writing;

pub use encoded::EncodedFile;
pub use exporting::export;
pub use fault::{ImportFault, IntoFault};
pub use importing::import_change;
pub use installing::install;
pub use installing_from::install_from;
pub use laws::{snapshot_installs, snapshot_is_a_file};
pub use making::make_into;
pub use whole::make;
