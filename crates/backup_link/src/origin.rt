use lf_base::{Name, Text};

/// Where a database is found: its name, and the address at which its node is asked, as `host:port`.
#[derive(Drop)]
pub struct Origin<'a> {
    pub name: &'a Name,
    pub address: &'a Text,
}
