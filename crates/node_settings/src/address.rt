use crate::SettingsFault;
use crate::host::is_address;
use lf_base::Text;
use std::alloc::Global;
use std::marker::Model;

/// Where a node listens: `host:port`, whose host may be empty. It is seen as its bytes.
#[derive(Debug, Drop)]
pub struct Address {
    text: Text,
}

impl Model for Address {
    ghost use Rattle.std.specs.Prelude.{ℕ, List};

    ghost Value = { List ℕ };

    ghost view = { λ a. a.text };
}

impl Address {
    ghost use Rattle.std.specs.Prelude.{◌≡◌};
    ghost use Rattle.node_settings.specs.Address.{IsAddress};
    ghost use Rattle.node_settings.specs.Answers.{Reads};

    pub fn read(alloc: Global, text: &str) -> Result<Address, SettingsFault>
        ensures { Reads (λ address. (address ≡ text.now) × IsAddress text.now) result }
    {
        if !is_address(text) {
            return Err(SettingsFault::Config);
        }
        let text = Text::of(alloc, text)?;
        Ok(Address { text })
    }

    pub fn text(&self) -> &Text
        ensures { result.now ≡ self.now }
    {
        &self.text
    }
}
