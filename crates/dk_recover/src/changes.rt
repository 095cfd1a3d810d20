//! Changes of an ordered map by lists, which are tested on the way: what goes is to be there, what is set is to differ from
//! what is there, and nothing is to go and be set.
ghost use Rattle.std.specs.Prelude.{◌≡◌, ◌<◌, ◌≤◌, ◌+◌, true, not, length, Some, Ok, IfOk, vec_len};
ghost use Rattle.dk_types.specs.Values.{same_value};
ghost use Rattle.dk_map.specs.Entries.{find, put, IsOrdered};
ghost use Rattle.dk_recover.specs.Changes.{with_put, without_all, all_differ as differ_all, all_there as there_all, none_there as there_none, changed_by, is_change};

use dk_map::OrderedMap;
use dk_types::{Listed, NoMemory};

/// Whether each of these keys is there.
pub(crate) fn are_there<K: Ord, V>(map: &OrderedMap<K, V>, keys: &[K]) -> bool
    ensures { result ≡ there_all K.cmp map.now.entries keys.now }
{
    keys.iter().all(|key| map.contains_key(key))
}

/// Whether none of these keys is there.
fn are_absent<K: Ord, V>(map: &OrderedMap<K, V>, keys: &[K]) -> bool
    ensures { result ≡ there_none K.cmp map.now.entries keys.now }
{
    keys.iter().all(|key| !map.contains_key(key))
}

/// Whether this is another value than what stands at the key.
fn differs<K: Ord, V: PartialEq>(map: &OrderedMap<K, V>, key: &K, value: &V) -> bool
    ensures { result ≡ not (same_value V.eq (find K.cmp key.now map.now.entries) (Some value.now)) }
{
    match map.get(key) {
        None => true,
        Some(old) => *old != *value,
    }
}

fn all_differ<K: Ord, V: PartialEq>(map: &OrderedMap<K, V>, entries: &[(K, V)]) -> bool
    ensures { result ≡ differ_all K.cmp V.eq map.now.entries entries.now }
{
    entries.iter().all(|(key, value)| differs(map, key, value))
}

/// Puts an entry into its place, for which there is room. A value that is there is changed where it stands.
fn put_one<K: Ord + Drop, V: Drop>(map: &mut OrderedMap<K, V>, key: K, value: V)
    requires { 0 < map.old.spare }
    ensures entries { map.new.entries ≡ put K.cmp key value map.old.entries }
    ensures spare { map.old.spare ≤ map.new.spare + 1 }
{
    if map.contains_key(&key) {
        map.change(&key, |old| *old = value);
    } else {
        map.insert(key, value);
    }
}

/// Puts entries into their places. There is room for them.
pub(crate) fn put_all<K: Ord + Drop, V: Drop>(map: &mut OrderedMap<K, V>, entries: Vec<(K, V)>)
    requires { vec_len entries ≤ map.old.spare }
    ensures { map.new.entries ≡ with_put K.cmp entries.items map.old.entries }
{
    for (key, value) in entries {
        put_one(map, key, value);
    }
}

/// Takes the entries at these keys away.
pub(crate) fn remove_all<K: Ord + Drop, V: Drop>(map: &mut OrderedMap<K, V>, keys: &[K])
    ensures { map.new.entries ≡ without_all K.cmp keys.now map.old.entries }
{
    for key in keys {
        map.remove(key);
    }
}

// Makes a change, if it is one.
fn try_change<K: Ord + Drop, V: PartialEq + Drop>(
    map: &mut OrderedMap<K, V>,
    set: Listed<(K, V)>,
    gone: &[K],
) -> Result<bool, NoMemory>
    ensures fits { IfOk result (λ fits. fits ≡ is_change K.cmp V.eq set gone.now map.old.entries) }
    ensures entries { result ≡ Ok true → map.new.entries ≡ changed_by K.cmp set gone.now map.old.entries }
{
    if !are_there(map, gone) {
        return Ok(false);
    }
    remove_all(map, gone);
    if !all_differ(map, set.as_slice()) {
        return Ok(false);
    }
    map.reserve(set.as_slice().len())?;
    put_all(map, set.into_vec());
    Ok(are_absent(map, gone))
}

/// Makes a change, if it is one. Else the map is of no use any more, but that it is in order.
pub(crate) fn change<K: Ord + Drop, V: PartialEq + Drop>(
    map: &mut OrderedMap<K, V>,
    set: Listed<(K, V)>,
    gone: &[K],
) -> Result<bool, NoMemory>
    ensures fits { IfOk result (λ fits. fits ≡ is_change K.cmp V.eq set gone.now map.old.entries) }
    ensures entries { result ≡ Ok true → map.new.entries ≡ changed_by K.cmp set gone.now map.old.entries }
    ensures ordered { IsOrdered K.cmp map.new.entries }
{
    let made = try_change(map, set, gone);
    // The map tells that it is in order.
    let _ = map.len();
    made
}
