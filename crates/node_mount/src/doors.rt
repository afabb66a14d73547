//! Where the links of a node come from.
ghost use Rattle.std.specs.Prelude.{◌≡◌, IfOk};
ghost use Rattle.node_mount.specs.Doors.{AsksCalls, AsksDoors, AsksProxy, CallsBack, CountsMaking, DoorsBack, PassesOn};
ghost use Rattle.node_objects.specs.Making.{IsNew};

use crate::patience::HTTP_PATIENCE;
use crate::proxy_links::Proxy;
use lf_base::{Handles, NoMemory};
use node_objects::{Maker, tell_unheard};
use node_settings::{Address, Settings};
use std::alloc::Global;

/// Where the links of a node come from.
#[derive(Drop)]
pub struct Doors<F, H, T> {
    pub files: F,
    pub calls: Calls<H, T>,
}

/// Where its HTTP links come from: those to itself, and those of an application's clients where it has a proxy.
#[derive(Drop)]
pub struct Calls<H, T> {
    pub http: H,
    pub proxy: Option<Proxy<H, T>>,
}

/// Why it can't be had where links come from.
#[derive(Clone, Copy, Debug, PartialEq, Eq)]
pub enum Unmade {
    Network,
    NoMemory,
}

/// Makes where the links of a node of these settings come from: the socket of its files, the address of its HTTP
/// calls, and that of its proxy. Where one can't be had it is told, and those that were made come back.
#[tactic(auto, using(crate::proofs::BackLemmas::one_back))]
pub fn make_doors<R: Handles, M: Maker>(
    rt: &R,
    alloc: Global,
    settings: &Settings,
    make: &mut M,
) -> Result<Doors<M::FileAccept, M::HttpAccept, M::Dial>, Unmade>
    ensures asked { AsksDoors settings.now (M.asked make.old) (M.asked make.new) result }
    ensures back { DoorsBack settings.now (M.asked make.old) (M.asked make.new) (M.back make.old) (M.back make.new) result }
    ensures number { M.number make.new ≡ M.number make.old }
    ensures cause { CountsMaking (M.counts make.old) (M.counts make.new) result }
    ensures new { IfOk result (λ doors. IsNew (M.FileAccept.given doors.files) (M.FileAccept.faults doors.files) (M.FileAccept.ended doors.files)) }
    ensures passes { IfOk result (λ doors. PassesOn settings.now.proxy doors.calls.proxy) }
{
    let files = match make.files(&settings.socket) {
        Ok(files) => files,
        Err(_) => {
            tell_unheard(rt, alloc, &settings.socket, settings.log, make);
            return Err(Unmade::Network);
        }
    };
    match make_calls(rt, alloc, settings, make) {
        Ok(calls) => Ok(Doors { files, calls }),
        Err(why) => {
            make.back_files(files);
            Err(why)
        }
    }
}

#[tactic(auto, using(crate::proofs::BackLemmas::one_back))]
fn make_calls<R: Handles, M: Maker>(
    rt: &R,
    alloc: Global,
    settings: &Settings,
    make: &mut M,
) -> Result<Calls<M::HttpAccept, M::Dial>, Unmade>
    ensures asked { AsksCalls settings.now (M.asked make.old) (M.asked make.new) result }
    ensures back { CallsBack settings.now (M.asked make.old) (M.asked make.new) (M.back make.old) (M.back make.new) result }
    ensures number { M.number make.new ≡ M.number make.old }
    ensures cause { CountsMaking (M.counts make.old) (M.counts make.new) result }
    ensures passes { IfOk result (λ calls. PassesOn settings.now.proxy calls.proxy) }
{
    let http = match make.http(settings.http.text(), HTTP_PATIENCE) {
        Ok(http) => http,
        Err(_) => {
            tell_unheard(rt, alloc, settings.http.text(), settings.log, make);
            return Err(Unmade::Network);
        }
    };
    match make_proxy(rt, alloc, settings, make) {
        Ok(proxy) => Ok(Calls { http, proxy }),
        Err(why) => {
            make.back_http(http);
            Err(why)
        }
    }
}

/// An application whose requests are passed on, where the settings have one.
fn make_proxy<R: Handles, M: Maker>(
    rt: &R,
    alloc: Global,
    settings: &Settings,
    make: &mut M,
) -> Result<Option<Proxy<M::HttpAccept, M::Dial>>, Unmade>
    ensures asked { AsksProxy settings.now.proxy (M.asked make.old) (M.asked make.new) result }
    ensures back { M.back make.new ≡ M.back make.old }
    ensures number { M.number make.new ≡ M.number make.old }
    ensures cause { CountsMaking (M.counts make.old) (M.counts make.new) result }
    ensures passes { IfOk result (PassesOn settings.now.proxy) }
{
    let Some(proxy) = &settings.proxy else {
        return Ok(None);
    };
    match make.http(proxy.addr.text(), HTTP_PATIENCE) {
        Ok(accept) => match proxy_to(accept, make.dialer(HTTP_PATIENCE), &proxy.target) {
            Ok(proxy) => Ok(Some(proxy)),
            Err(_) => Err(Unmade::NoMemory),
        },
        Err(_) => {
            tell_unheard(rt, alloc, proxy.addr.text(), settings.log, make);
            Err(Unmade::Network)
        }
    }
}

fn proxy_to<A: Drop, T: Drop>(
    accept: A,
    dialer: T,
    target: &Address,
) -> Result<Proxy<A, T>, NoMemory>
    ensures { IfOk result (λ proxy. proxy.target ≡ target.now) }
{
    let target = target.text().copy()?;
    Ok(Proxy {
        accept,
        dialer,
        target,
    })
}
