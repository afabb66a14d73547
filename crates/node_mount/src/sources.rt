//! Who grants a node its lease, by its settings.
ghost use Rattle.std.specs.Prelude.{◌≡◌, ◌++◌, codes, map, IfOk};
ghost use Rattle.etcd_wire.specs.Calls.{coded as in_base64};
ghost use Rattle.node_mount.specs.Sources.{IsEtcd, IsSource, key_of as key_by, seconds_of as seconds, url_at};

use crate::lease_source::LeaseSource;
use crate::notes::Notes;
use crate::to_notes::ToNotes;
use etcd_lease::{EtcdService, EtcdSettings};
use etcd_wire::coded;
use lease_link::OwnService;
use lf_base::{Name, NoMemory, Text};
use node_settings::{EtcdPlace, LeaseType, Settings, Url};
use std::alloc::Global;

/// Who grants the lease, if it isn't static. `clock` tells when a key that was put stands for a lease; each endpoint that gives no
/// answer is noted.
pub fn source_of<C: Copy>(
    alloc: Global,
    settings: &Settings,
    clock: C,
    notes: &Notes,
) -> Result<Option<LeaseSource<C>>, NoMemory>
    ensures { IfOk result (IsSource settings.now) }
{
    match settings.lease.lease_type {
        LeaseType::Static => Ok(None),
        LeaseType::Service => match &settings.lease.service_url {
            Some(url) => Ok(Some(LeaseSource::Own(own_at(url)?))),
            None => Ok(None),
        },
        LeaseType::Etcd => match &settings.lease.etcd {
            Some(place) => {
                let etcd = etcd_at(alloc, settings, place, clock, notes)?;
                Ok(Some(LeaseSource::Etcd(etcd)))
            }
            None => Ok(None),
        },
    }
}

fn own_at(url: &Url) -> Result<OwnService, NoMemory>
    ensures { IfOk result (λ own. url.now ≡ url_at own.address) }
{
    let address = url.address().copy()?;
    Ok(OwnService { address })
}

/// The cluster at this place, asked for the lease of the database. No key is held.
fn etcd_at<C: Copy>(
    alloc: Global,
    settings: &Settings,
    place: &EtcdPlace,
    clock: C,
    notes: &Notes,
) -> Result<EtcdService<C, ToNotes>, NoMemory>
    ensures { IfOk result (IsEtcd settings.now place.now) }
{
    let key = key_of(alloc, &settings.database, &place.key)?;
    let endpoints = addresses_of(alloc, place.endpoints.as_slice())?;
    let notes = notes.another()?;
    Ok(EtcdService {
        settings: EtcdSettings {
            key,
            ttl: seconds_of(settings.lease.ttl),
        },
        endpoints,
        held: None,
        clock,
        notes: ToNotes { notes },
    })
}

/// The addresses of some URLs, in their order.
fn addresses_of(alloc: Global, urls: &[Url]) -> Result<Vec<Text>, NoMemory>
    ensures { IfOk result (λ addresses. urls.now ≡ map url_at addresses.items) }
{
    let mut addresses = Vec::new(alloc);
    for url in urls {
        addresses.push(url.address().copy()?)?;
    }
    Ok(addresses)
}

/// So many milliseconds in whole seconds, rounded up.
fn seconds_of(millis: u64) -> u64
    ensures { result ≡ seconds millis }
{
    millis.div_ceil(1000)
}

/// The key of a database in base64: this one, or else the one that is named by it.
fn key_of(alloc: Global, database: &Name, key: &Option<Text>) -> Result<Text, NoMemory>
    ensures { IfOk result (λ text. text ≡ in_base64 (key_by database.now key.now)) }
{
    match key {
        Some(key) => coded_text(alloc, key.bytes()),
        None => {
            let key = own_key(alloc, database)?;
            coded_text(alloc, key.as_slice())
        }
    }
}

fn own_key(alloc: Global, database: &Name) -> Result<Vec<u8>, NoMemory>
    ensures { IfOk result (λ key. key.items ≡ codes "litefs/" ++ database.now ++ codes "/primary") }
{
    let mut key = Vec::new(alloc);
    key.extend_from_slice(b"litefs/")?;
    key.extend_from_slice(database.bytes())?;
    key.extend_from_slice(b"/primary")?;
    Ok(key)
}

fn coded_text(alloc: Global, bytes: &[u8]) -> Result<Text, NoMemory>
    ensures { IfOk result (λ text. text ≡ in_base64 bytes.now) }
{
    let text = coded(alloc, bytes)?;
    Text::of(alloc, text.as_str())
}
