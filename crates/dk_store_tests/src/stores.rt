//! What the map and the stores have in common: a key and a stamp.

use dk_map::OrderedMap;
use dk_names::Names;
use dk_objects::Objects;
use dk_types::{Blob, Name, Object, ObjectId, RunNo};
use std::alloc::Global;

/// A key and what stands under it.
pub type Entry = (u64, u64);

/// A store of numbers under numbers below 676, whose room is made in advance.
pub trait Store {
    fn len(&self) -> u64;

    fn spare(&self) -> u64;

    /// Whether the room was made.
    fn reserve(&mut self, more: u64) -> bool;

    /// What stands under a key. None too where what is told of the object is another.
    fn get(&self, alloc: Global, key: u64) -> Option<u64>;

    /// Nothing where there is no room.
    fn put(&mut self, alloc: Global, key: u64, stamp: u64) -> Option<()>;

    fn remove(&mut self, alloc: Global, key: u64) -> Option<()>;

    /// The key after another or after none, where the store tells it.
    fn next(&self, alloc: Global, after: Option<u64>) -> Option<Option<u64>>;

    fn entries(&self, alloc: Global) -> Option<Vec<Entry>>;
}

impl Store for OrderedMap<u64, u64> {
    fn len(&self) -> u64 {
        OrderedMap::len(self) as u64
    }

    fn spare(&self) -> u64 {
        OrderedMap::spare(self) as u64
    }

    fn reserve(&mut self, more: u64) -> bool {
        OrderedMap::reserve(self, more as usize).is_ok()
    }

    fn get(&self, _alloc: Global, key: u64) -> Option<u64> {
        OrderedMap::get(self, &key).copied()
    }

    fn put(&mut self, _alloc: Global, key: u64, stamp: u64) -> Option<()> {
        if OrderedMap::spare(self) == 0 {
            return None;
        }
        let before = OrderedMap::get(self, &key).copied();
        let told = self.insert(key, stamp);
        if told == before { Some(()) } else { None }
    }

    fn remove(&mut self, _alloc: Global, key: u64) -> Option<()> {
        let before = OrderedMap::get(self, &key).copied();
        let told = OrderedMap::remove(self, &key);
        if told == before.map(|stamp| (key, stamp)) {
            Some(())
        } else {
            None
        }
    }

    fn next(&self, _alloc: Global, after: Option<u64>) -> Option<Option<u64>> {
        Some(self.next_after(after.as_ref()).map(|entry| *entry.0))
    }

    fn entries(&self, alloc: Global) -> Option<Vec<Entry>> {
        let mut list = Vec::new(alloc);
        for (key, stamp) in OrderedMap::entries(self, alloc).ok()? {
            list.push((*key, *stamp)).ok()?;
        }
        Some(list)
    }
}

/// A key stands for an id, in the same order.
fn id_of(key: u64) -> ObjectId {
    ObjectId {
        run: RunNo(key / 10),
        k: (key % 10) as u32,
    }
}

fn key_of(id: ObjectId) -> u64 {
    id.run.0.saturating_mul(10).saturating_add(u64::from(id.k))
}

/// An object that tells its stamp.
fn object_of(alloc: Global, stamp: u64) -> Option<Object> {
    let bytes = Blob::copy_of(alloc, &stamp.to_be_bytes()).ok()?;
    Some(Object {
        kind: (stamp % 9) as u16,
        bytes,
    })
}

impl Store for Objects {
    fn len(&self) -> u64 {
        Objects::len(self)
    }

    fn spare(&self) -> u64 {
        Objects::spare(self)
    }

    fn reserve(&mut self, more: u64) -> bool {
        Objects::reserve(self, more).is_ok()
    }

    fn get(&self, alloc: Global, key: u64) -> Option<u64> {
        let (object, stamp) = Objects::get(self, id_of(key))?;
        if *object == object_of(alloc, stamp)? {
            Some(stamp)
        } else {
            None
        }
    }

    fn put(&mut self, alloc: Global, key: u64, stamp: u64) -> Option<()> {
        if Objects::spare(self) == 0 {
            return None;
        }
        Objects::put(self, id_of(key), object_of(alloc, stamp)?, stamp);
        Some(())
    }

    fn remove(&mut self, _alloc: Global, key: u64) -> Option<()> {
        Objects::remove(self, id_of(key));
        Some(())
    }

    fn next(&self, _alloc: Global, _after: Option<u64>) -> Option<Option<u64>> {
        None
    }

    fn entries(&self, alloc: Global) -> Option<Vec<Entry>> {
        let mut list = Vec::new(alloc);
        for (id, stamped) in Objects::entries(self, alloc).ok()? {
            if stamped.0 != object_of(alloc, stamped.1)? {
                return None;
            }
            list.push((key_of(*id), stamped.1)).ok()?;
        }
        Some(list)
    }
}

/// A key stands for a name of two letters, in the same order.
fn name_of(alloc: Global, key: u64) -> Option<Name> {
    let letters = [b'a' + (key / 26 % 26) as u8, b'a' + (key % 26) as u8];
    Name::new(alloc, &letters).ok()
}

fn letters_of(name: &Name) -> Option<u64> {
    match name.as_slice() {
        [first, second] => {
            let high = u64::from(first.checked_sub(b'a')?);
            let low = u64::from(second.checked_sub(b'a')?);
            Some(high * 26 + low)
        }
        _ => None,
    }
}

fn bound_to(stamp: u64) -> ObjectId {
    ObjectId {
        run: RunNo(stamp),
        k: (stamp % 7) as u32,
    }
}

impl Store for Names {
    fn len(&self) -> u64 {
        Names::len(self)
    }

    fn spare(&self) -> u64 {
        Names::spare(self)
    }

    fn reserve(&mut self, more: u64) -> bool {
        Names::reserve(self, more).is_ok()
    }

    fn get(&self, alloc: Global, key: u64) -> Option<u64> {
        let (id, stamp) = Names::get(self, &name_of(alloc, key)?)?;
        if id == bound_to(stamp) {
            Some(stamp)
        } else {
            None
        }
    }

    fn put(&mut self, alloc: Global, key: u64, stamp: u64) -> Option<()> {
        if Names::spare(self) == 0 {
            return None;
        }
        Names::put(self, name_of(alloc, key)?, bound_to(stamp), stamp);
        Some(())
    }

    fn remove(&mut self, alloc: Global, key: u64) -> Option<()> {
        Names::remove(self, &name_of(alloc, key)?);
        Some(())
    }

    fn next(&self, alloc: Global, after: Option<u64>) -> Option<Option<u64>> {
        let after = match after {
            None => None,
            Some(key) => Some(name_of(alloc, key)?),
        };
        match self.next_after(after.as_ref()) {
            None => Some(None),
            Some(next) => Some(Some(letters_of(next)?)),
        }
    }

    fn entries(&self, alloc: Global) -> Option<Vec<Entry>> {
        let mut list = Vec::new(alloc);
        for (name, binding) in Names::entries(self, alloc).ok()? {
            if binding.0 != bound_to(binding.1) {
                return None;
            }
            list.push((letters_of(name)?, binding.1)).ok()?;
        }
        Some(list)
    }
}
