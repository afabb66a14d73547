//! Who grants a node its lease.
ghost use Rattle.node_mount.specs.Sources.{by_source};

use crate::to_notes::ToNotes;
use etcd_lease::EtcdService;
use lease_core::LeaseAsk;
use lease_link::{Learned, OwnService, Service, Unlearned};
use lf_base::{Clock, Dialer, Handles};
use link_session::Turns;
use std::alloc::Global;

/// Who grants a node its lease.
#[derive(Drop)]
pub enum LeaseSource<C> {
    /// The lease service of another node.
    Own(OwnService),
    /// An etcd cluster, whose endpoints that gave no answer are noted.
    Etcd(EtcdService<C, ToNotes>),
}

impl<C: Clock> Service for LeaseSource<C> {
    ghost serves = { by_source ⟦<OwnService as Service>⟧.serves ⟦<EtcdService<C, ToNotes> as Service>⟧.serves };

    fn ask<R: Handles, T: Dialer>(
        &mut self,
        rt: &R,
        alloc: Global,
        dialer: &mut T,
        asked: &LeaseAsk,
        turns: &mut Turns,
    ) -> Result<Learned, Unlearned> {
        match self {
            LeaseSource::Own(own) => own.ask(rt, alloc, dialer, asked, turns),
            LeaseSource::Etcd(etcd) => etcd.ask(rt, alloc, dialer, asked, turns),
        }
    }
}
