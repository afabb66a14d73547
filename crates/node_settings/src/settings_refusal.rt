ghost use Rattle.std.specs.Prelude.{◌≡◌};
ghost use Rattle.node_settings.specs.declared.settings_refusal.SettingsRefusal.TheVariants as refusal;

use crate::Complaint;
use lf_base::NoMemory;

/// Why a text says no settings.
#[derive(Debug, Drop)]
pub enum SettingsRefusal {
    /// It is no configuration.
    Config(Complaint),
    /// Memory ran out.
    NoMemory,
}

impl From<NoMemory> for SettingsRefusal {
    ghost from_gives = { λ _ f. f ≡ refusal.NoMemory };

    fn from(_: NoMemory) -> SettingsRefusal {
        SettingsRefusal::NoMemory
    }
}
