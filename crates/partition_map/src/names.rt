//! The names of all caches that there ever were in the order of their numbers, each marked as there or not.
ghost use Rattle.std.specs.Prelude.{◌≡◌, ◌<◌, true, false, IfOk, if◌then◌else◌};
ghost use Rattle.indexmap.specs.IndexMap.{keys, spare};
ghost use Rattle.partition_map.specs.Marks.{is_marked, AreRemarked};
ghost use Rattle.partition_map.specs.Order.{with_name};

use cache_key::CacheName;
use indexmap::IndexMap;
use std::alloc::{AllocError, Global};

/// Marks the name after a change of its cache, which was there or not, and now is or isn't. One that comes has a number.
///
/// Looks the name up only where the cache comes or goes. Takes no memory.
pub(crate) fn mark_name(
    names: &mut IndexMap<CacheName, bool>,
    name: CacheName,
    was_present: bool,
    is_present: bool,
)
    requires room { was_present ≡ false → is_present ≡ true → 0 < spare names.old }
    requires marked { is_marked names.old.entries name ≡ was_present }
    ensures keys { keys names.new ≡ (if is_present then with_name (keys names.old) name else keys names.old) }
    ensures marks { AreRemarked name is_present names.old.entries names.new.entries }
{
    if is_present {
        if !was_present {
            mark_present(names, name);
        }
    } else if was_present {
        mark_absent(names, &name);
    }
}

// Marks the name as there, and gives it a number where it has none.
fn mark_present(names: &mut IndexMap<CacheName, bool>, name: CacheName)
    requires room { 0 < spare names.old }
    ensures keys { keys names.new ≡ with_name (keys names.old) name }
    ensures marks { AreRemarked name true names.old.entries names.new.entries }
{
    let marked: Result<_, _> = names.insert(name, true);
    marked.unwrap();
}

// Marks the name as absent, if it has a number.
fn mark_absent(names: &mut IndexMap<CacheName, bool>, name: &CacheName)
    ensures keys { keys names.new ≡ keys names.old }
    ensures marks { AreRemarked name.now false names.old.entries names.new.entries }
{
    match names.get_mut(name) {
        Some(mark) => *mark = false,
        None => (),
    }
}

/// The same names in the same order, with their marks. Takes memory.
pub(crate) fn copy_names(
    alloc: Global,
    names: &IndexMap<CacheName, bool>,
) -> Result<IndexMap<CacheName, bool>, AllocError>
    ensures { IfOk result (λ copied. copied.entries ≡ names.now.entries) }
{
    let mut copied = IndexMap::with_capacity(alloc, names.len())?;
    for (name, mark) in names {
        copied.insert(name.copy()?, *mark)?;
    }
    Ok(copied)
}
