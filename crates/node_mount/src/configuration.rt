//! A configuration that was read.
ghost use Rattle.std.specs.Prelude.{◌≡◌};
ghost use Rattle.node_settings.specs.Configuration.{IsConfiguration};

use node_settings::Settings;
use std::snapshot::Snapshot;

/// The settings that a configuration says. There are none that its bytes do not say, so nobody changes
/// them on their way.
#[derive(Drop)]
pub struct Configuration {
    pub settings: Settings,
    bytes: Snapshot<Vec<u8>>,
    ghost said: { ∥ IsConfiguration bytes.value.items settings ∥₁ },
}

impl Configuration {
    pub fn new(settings: Settings, bytes: &Vec<u8>) -> Configuration
        requires { IsConfiguration bytes.now.items settings }
        ensures { result.settings ≡ settings }
    {
        Configuration {
            settings,
            bytes: Snapshot::of(bytes),
        }
    }
}
