ghost use Rattle.std.specs.Prelude.{◌≡◌};
ghost use Rattle.node_settings.specs.declared.settings_fault.SettingsFault.TheVariants as fault;

use lf_base::NoMemory;

/// Why there are no settings.
#[derive(Clone, Copy, Debug, PartialEq, Eq)]
pub enum SettingsFault {
    /// The bytes are no configuration.
    Config,
    /// Memory ran out.
    NoMemory,
}

impl From<NoMemory> for SettingsFault {
    ghost from_gives = { λ _ f. f ≡ fault.NoMemory };

    fn from(_: NoMemory) -> SettingsFault {
        SettingsFault::NoMemory
    }
}
