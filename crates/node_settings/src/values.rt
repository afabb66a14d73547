//! Values read by their rules.

ghost use Rattle.std.specs.Prelude.{◌≡◌, ℕ, List, IfOk, IfErr};
ghost use Rattle.toml.specs.Data.{string};
ghost use Rattle.toml.specs.View.{view};
ghost use Rattle.node_settings.specs.declared.settings_fault.SettingsFault.TheVariants as fault;
ghost use Rattle.node_settings.specs.Answers.{Reads};
ghost use Rattle.node_settings.specs.Values.{IsText, IsPath, IsKeyText, IsNameText, IsAddressText, IsTargetText, IsUrlText, IsFlag, IsOff, IsSwitch, IsNumber, IsLeaseType};

use crate::host::is_target;
use crate::{Address, LeaseType, SettingsFault, Url};
use lf_base::{Name, NameFault, Text};
use std::alloc::Global;
use toml::Value;

fn as_text(value: &Value) -> Result<&str, SettingsFault>
    ensures ok { IfOk result (λ text. view value.now ≡ string text.now) }
    ensures fault { IfErr result (λ f. (f ≡ fault.Config) × ((text : List ℕ) → view value.now ≡ string text → ⊥)) }
{
    value.as_str().ok_or(SettingsFault::Config)
}

pub(crate) fn text(alloc: Global, value: &Value) -> Result<Text, SettingsFault>
    ensures { Reads (IsText (view value.now)) result }
{
    let text = as_text(value)?;
    Ok(Text::of(alloc, text)?)
}

/// A text that is not empty.
pub(crate) fn path(alloc: Global, value: &Value) -> Result<Text, SettingsFault>
    ensures { Reads (IsPath (view value.now)) result }
{
    let path = as_text(value)?;
    if path.is_empty() {
        return Err(SettingsFault::Config);
    }
    Ok(Text::of(alloc, path)?)
}

/// A text of 1 to 1,000 bytes.
pub(crate) fn key_text(alloc: Global, value: &Value) -> Result<Text, SettingsFault>
    ensures { Reads (IsKeyText (view value.now)) result }
{
    let key = as_text(value)?;
    if key.is_empty() || key.len() > 1_000 {
        return Err(SettingsFault::Config);
    }
    Ok(Text::of(alloc, key)?)
}

pub(crate) fn name(alloc: Global, value: &Value) -> Result<Name, SettingsFault>
    ensures { Reads (IsNameText (view value.now)) result }
{
    let text = as_text(value)?;
    match Name::read(alloc, text.as_bytes()) {
        Ok(name) => Ok(name),
        Err(NameFault::NoMemory) => Err(SettingsFault::NoMemory),
        Err(_) => Err(SettingsFault::Config),
    }
}

pub(crate) fn address(alloc: Global, value: &Value) -> Result<Address, SettingsFault>
    ensures { Reads (IsAddressText (view value.now)) result }
{
    Address::read(alloc, as_text(value)?)
}

/// An address with a host.
pub(crate) fn target(alloc: Global, value: &Value) -> Result<Address, SettingsFault>
    ensures { Reads (IsTargetText (view value.now)) result }
{
    let text = as_text(value)?;
    if !is_target(text) {
        return Err(SettingsFault::Config);
    }
    Address::read(alloc, text)
}

pub(crate) fn url(alloc: Global, value: &Value) -> Result<Url, SettingsFault>
    ensures { Reads (IsUrlText (view value.now)) result }
{
    Url::read(alloc, as_text(value)?)
}

pub(crate) fn flag(value: &Value) -> Result<bool, SettingsFault>
    ensures { Reads (IsFlag (view value.now)) result }
{
    value.as_bool().ok_or(SettingsFault::Config)
}

/// Nothing but false.
pub(crate) fn off(value: &Value) -> Result<bool, SettingsFault>
    ensures { Reads (IsOff (view value.now)) result }
{
    match value.as_bool() {
        Some(false) => Ok(false),
        _ => Err(SettingsFault::Config),
    }
}

/// `on` or `off`.
pub(crate) fn switch(value: &Value) -> Result<bool, SettingsFault>
    ensures { Reads (IsSwitch (view value.now)) result }
{
    match as_text(value)? {
        "on" => Ok(true),
        "off" => Ok(false),
        _ => Err(SettingsFault::Config),
    }
}

pub(crate) fn number(value: &Value, least: u64, most: u64) -> Result<u64, SettingsFault>
    ensures { Reads (IsNumber least most (view value.now)) result }
{
    let Some(integer) = value.as_integer() else {
        return Err(SettingsFault::Config);
    };
    match u64::try_from(integer) {
        Ok(number) if least <= number && number <= most => Ok(number),
        _ => Err(SettingsFault::Config),
    }
}

pub(crate) fn lease_type(value: &Value) -> Result<LeaseType, SettingsFault>
    ensures { Reads (IsLeaseType (view value.now)) result }
{
    match as_text(value)? {
        "static" => Ok(LeaseType::Static),
        "service" => Ok(LeaseType::Service),
        "etcd" => Ok(LeaseType::Etcd),
        _ => Err(SettingsFault::Config),
    }
}
