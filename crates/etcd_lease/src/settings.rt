use lf_base::Text;

/// Which key stands for the lease, and for how many seconds.
#[derive(Debug, Drop)]
pub struct EtcdSettings {
    /// In base64.
    pub key: Text,
    pub ttl: u64,
}
