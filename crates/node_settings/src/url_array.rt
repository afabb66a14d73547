//! An array of URLs read.

ghost use Rattle.std.specs.Prelude.{◌≡◌, ◌++◌, ℕ, List, IfOk, IfErr};
ghost use Rattle.toml.specs.Data.{Items, array};
ghost use Rattle.toml.specs.View.{items_view, view};
ghost use Rattle.node_settings.specs.declared.settings_fault.SettingsFault.TheVariants as fault;
ghost use Rattle.node_settings.specs.Answers.{Reads};
ghost use Rattle.node_settings.specs.Values.{AreUrls, IsUrls};

use crate::values::url;
use crate::{SettingsFault, Urls};
use std::alloc::Global;
use toml::Value;

/// The most URLs of an array.
const URLS_MAX: usize = 16;

/// One URL at least, and at most sixteen.
pub(crate) fn urls(alloc: Global, value: &Value) -> Result<Urls, SettingsFault>
    ensures { Reads (IsUrls (view value.now)) result }
{
    let values = as_array(value)?;
    if values.is_empty() || values.len() > URLS_MAX {
        return Err(SettingsFault::Config);
    }
    urls_behind(alloc, Urls::none(alloc), values)
}

fn as_array(value: &Value) -> Result<&[Value], SettingsFault>
    ensures ok { IfOk result (λ values. view value.now ≡ array (items_view values.now)) }
    ensures fault { IfErr result (λ f. (f ≡ fault.Config) × ((items : Items) → view value.now ≡ array items → ⊥)) }
{
    match value.as_array() {
        Some(values) => Ok(values.as_slice()),
        None => Err(SettingsFault::Config),
    }
}

/// Reads each of these values as a URL, and puts them behind those that were read before.
fn urls_behind(alloc: Global, mut urls: Urls, values: &[Value]) -> Result<Urls, SettingsFault>
    ensures { Reads (λ all. (more : List (List ℕ)) × AreUrls (items_view values.now) more × (all ≡ urls ++ more)) result }
{
    let Some((value, rest)) = values.split_first() else {
        return Ok(urls);
    };
    urls.push(url(alloc, value)?)?;
    urls_behind(alloc, urls, rest)
}
