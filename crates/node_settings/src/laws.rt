//! Laws of the definitions, each proved as the contract of a function that does nothing.

ghost use Rattle.std.specs.Prelude.{◌≡◌, ◌≤◌, ◌↔◌, ℕ, List, length};
ghost use Rattle.toml.specs.Data.{Members};
ghost use Rattle.node_settings.specs.declared.settings.Settings.{Settings};
ghost use Rattle.node_settings.specs.declared.settings.ServiceSettings.{ServiceSettings};
ghost use Rattle.node_settings.specs.Configuration.{IsConfiguration, IsStaticConfiguration};
ghost use Rattle.node_settings.specs.Lines.{IsDocument};
ghost use Rattle.node_settings.specs.Rules.{AllKept, node_rules, service_rules, static_rules};
ghost use Rattle.node_settings.specs.Service.{IsServiceConfiguration};

/// A configuration says one thing.
pub fn one_configuration()
    ensures { (bytes : List ℕ) (s t : Settings) → IsConfiguration bytes s → IsConfiguration bytes t → s ≡ t }
{}

/// So it does to a lease service.
pub fn one_service_configuration()
    ensures { (bytes : List ℕ) (s t : ServiceSettings) → IsServiceConfiguration bytes s → IsServiceConfiguration bytes t → s ≡ t }
{}

/// A text that is not too long keeps all rules exactly where it says settings.
pub fn rules_decide()
    ensures { (bytes : List ℕ) (root : Members) → length bytes ≤ 65536 → IsDocument bytes root → AllKept node_rules root ↔ ((s : Settings) × IsConfiguration bytes s) }
{}

/// The same of a node that needs no lease service.
pub fn static_rules_decide()
    ensures { (bytes : List ℕ) (root : Members) → length bytes ≤ 65536 → IsDocument bytes root → AllKept static_rules root ↔ ((s : Settings) × IsStaticConfiguration bytes s) }
{}

/// The same of a lease service.
pub fn service_rules_decide()
    ensures { (bytes : List ℕ) (root : Members) → length bytes ≤ 65536 → IsDocument bytes root → AllKept service_rules root ↔ ((s : ServiceSettings) × IsServiceConfiguration bytes s) }
{}
