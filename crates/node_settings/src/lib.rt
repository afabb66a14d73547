//! The configuration of a node: the text of `litefs.toml` read into settings.
#![tactic(auto)]

mod address;
mod complaining;
mod complaint;
mod etcd_table;
mod fuse_table;
mod host;
mod keeping;
mod key;
mod laws;
mod lease_table;
mod lines;
mod place;
mod proxy_table;
mod reading;
mod rule;
mod rules;
mod service;
mod settings;
mod settings_fault;
mod settings_refusal;
mod table;
mod url;
mod url_array;
mod urls;
mod values;

pub use address::Address;
pub use complaint::Complaint;
pub use key::Key;
pub use laws::{
    one_configuration, one_service_configuration, rules_decide, service_rules_decide,
    static_rules_decide,
};
pub use place::Place;
pub use reading::{read_settings, read_static_settings};
pub use rule::{Rule, words_of};
pub use service::read_service_settings;
pub use settings::{
    EtcdPlace, LeaseSettings, LeaseType, MountSettings, ProxySettings, ServiceSettings, Settings,
};
pub use settings_fault::SettingsFault;
pub use settings_refusal::SettingsRefusal;
pub use url::Url;
pub use urls::Urls;
