//! The plain list beside a store: it is kept in order by search and shift.

use crate::stores::{Entry, Store};
use std::alloc::Global;

fn place(list: &[Entry], key: u64) -> usize {
    list.iter().take_while(|entry| entry.0 < key).count()
}

fn put(list: &mut Vec<Entry>, key: u64, stamp: u64) -> Option<()> {
    let at = place(list, key);
    if at < list.len() && list[at].0 == key {
        list[at].1 = stamp;
    } else if at <= list.len() {
        list.insert(at, (key, stamp)).ok()?;
    }
    Some(())
}

fn remove(list: &mut Vec<Entry>, key: u64) {
    let at = place(list, key);
    if at < list.len() && list[at].0 == key {
        list.remove(at);
    }
}

fn get(list: &[Entry], key: u64) -> Option<u64> {
    Some(list.iter().find(|entry| entry.0 == key)?.1)
}

fn next(list: &[Entry], key: u64) -> Option<u64> {
    Some(list.iter().find(|entry| entry.0 > key)?.0)
}

/// One operation on both, chosen by its number. Whether both answer alike.
fn step<S: Store>(alloc: Global, store: &mut S, list: &mut Vec<Entry>, n: u64) -> Option<bool> {
    let key = (n % 1_000 * 37 + 11) % 101;
    if n % 5 < 3 {
        store.put(alloc, key, n)?;
        put(list, key, n)?;
    } else {
        store.remove(alloc, key)?;
        remove(list, key);
    }
    let told = store.next(alloc, Some(key));
    let is_next = told.is_none() || told == Some(next(list, key));
    let is_there = store.get(alloc, key) == get(list, key);
    Some(is_next && is_there && store.len() == list.len() as u64)
}

/// Whether both list the same.
fn is_same<S: Store>(alloc: Global, store: &S, list: &[Entry]) -> Option<bool> {
    let entries = store.entries(alloc)?;
    Some(entries.as_slice() == list)
}

/// The first of so many operations after which an empty store and the list differ; the number itself where none does.
pub fn first_difference<S: Store>(alloc: Global, store: &mut S, times: u64) -> Option<u64> {
    let mut list = Vec::new(alloc);
    for n in 0..times {
        if !step(alloc, store, &mut list, n)? {
            return Some(n);
        }
    }
    if is_same(alloc, store, list.as_slice())? {
        Some(times)
    } else {
        None
    }
}
