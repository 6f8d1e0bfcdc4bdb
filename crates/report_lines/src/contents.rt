//! The JSON objects of a partition's contents.
ghost use Rattle.std.specs.Prelude.{◌≡◌, IfOk};
ghost use Rattle.serde_json.specs.View.{members_view};
ghost use Rattle.cache_model.specs.Shown.{caches_shown};
ghost use Rattle.report_lines.specs.Line.{pairs_data, caches_data};

use cache_key::{CacheName, Key, Value};
use serde_json::{Map, Value as Json, put};
use std::alloc::{AllocError, Global};
use std::collections::BTreeMap;

/// Each cache by its name, with its keys and values.
pub(crate) fn caches_members(
    alloc: Global,
    caches: &BTreeMap<CacheName, BTreeMap<Key, Value>>,
) -> Result<Map<String, Json>, AllocError>
    ensures { IfOk result (λ members. members_view members.entries ≡ caches_data (caches_shown caches.now)) }
{
    let mut members = Map::new(alloc);
    for (name, pairs) in caches.iter() {
        let object = Json::from(pairs_members(alloc, pairs)?);
        put(&mut members, alloc, name.text(), object)?;
    }
    Ok(members)
}

/// Each key of a cache with its value.
fn pairs_members(
    alloc: Global,
    pairs: &BTreeMap<Key, Value>,
) -> Result<Map<String, Json>, AllocError>
    ensures { IfOk result (λ members. members_view members.entries ≡ pairs_data pairs.now.entries) }
{
    let mut members = Map::new(alloc);
    for (key, value) in pairs.iter() {
        let name = key.text();
        let text = Json::try_from_str(alloc, value.text())?;
        put(&mut members, alloc, name, text)?;
    }
    Ok(members)
}
