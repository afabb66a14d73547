use crate::SettingsFault;
use crate::host::address_in;
use lf_base::Text;
use std::alloc::Global;
use std::marker::Model;

/// Where a node is found: `http://host:port`. It is seen as its bytes.
#[derive(Debug, Drop)]
pub struct Url {
    address: Text,
}

impl Model for Url {
    ghost use Rattle.std.specs.Prelude.{ℕ, List, codes, ◌++◌};

    ghost Value = { List ℕ };

    ghost view = { λ u. codes "http://" ++ u.address };
}

impl Url {
    ghost use Rattle.std.specs.Prelude.{◌≡◌, ◌++◌, codes};
    ghost use Rattle.node_settings.specs.Address.{IsUrl};
    ghost use Rattle.node_settings.specs.Answers.{Reads};

    pub fn read(alloc: Global, text: &str) -> Result<Url, SettingsFault>
        ensures { Reads (λ url. (url ≡ text.now) × IsUrl text.now) result }
    {
        let Some(address) = address_in(text) else {
            return Err(SettingsFault::Config);
        };
        let address = Text::of(alloc, address)?;
        Ok(Url { address })
    }

    /// What stands behind `http://`, which is what a dialer takes.
    pub fn address(&self) -> &Text
        ensures { self.now ≡ codes "http://" ++ result.now }
    {
        &self.address
    }
}
