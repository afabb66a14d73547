ghost use Rattle.std.specs.Prelude.{◌≡◌};
ghost use Rattle.etcd_wire.specs.Calls.{path_of};

use lf_base::Bytes;

/// What is asked of etcd, of the one key that stands for the lease.
#[derive(Debug, Drop)]
pub enum Call {
    /// What the key is now.
    Range,
    /// A lease of its own, for the key.
    Grant,
    /// The key is put with this lease and value, where there is none.
    Put { lease: u64, value: Bytes },
    /// The lease lasts for its time again.
    KeepAlive { lease: u64 },
    /// The lease ends, and its key with it.
    Revoke { lease: u64 },
}

impl Call {
    pub fn path(&self) -> &'static [u8]
        ensures { result.now ≡ path_of self.now }
    {
        match self {
            Call::Range => b"/v3/kv/range",
            Call::Grant => b"/v3/lease/grant",
            Call::Put { .. } => b"/v3/kv/txn",
            Call::KeepAlive { .. } => b"/v3/lease/keepalive",
            Call::Revoke { .. } => b"/v3/lease/revoke",
        }
    }
}
