//! Tests of the sessions of a node over links, of what `mount` runs on, and of the commands. They stand
//! apart, since a crate with tests is proved twice, with them and without.
#![tactic(auto)]

#[cfg(test)]
mod asking;
#[cfg(test)]
mod commands;
#[cfg(test)]
mod databases;
#[cfg(test)]
mod ended;
#[cfg(test)]
mod etcd_leased;
#[cfg(test)]
mod files;
#[cfg(test)]
mod following;
#[cfg(test)]
mod forwarding;
#[cfg(test)]
mod forwards;
#[cfg(test)]
mod halts;
#[cfg(test)]
mod leased;
#[cfg(test)]
mod leases;
#[cfg(test)]
mod links;
#[cfg(test)]
mod memory;
#[cfg(test)]
mod mounted;
#[cfg(test)]
mod permits;
#[cfg(test)]
mod programs;
#[cfg(test)]
mod proxied;
#[cfg(test)]
mod replies;
#[cfg(test)]
mod same;
#[cfg(test)]
mod sessions;
#[cfg(test)]
mod streams;
#[cfg(test)]
mod system;
