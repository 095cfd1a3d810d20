//! What a run has read, in the order in which it first asked.
ghost use Rattle.std.specs.Prelude.{◌≡◌, ◌≤◌, ◌++◌, ◌∷◌, [], OnOk, OnErr, IfOk, IfSome, IfNone};
ghost use Rattle.dk_types.specs.declared.item.Read.{Read};
ghost use Rattle.dk_overlay.specs.Asked.{WasRead, WasNotRead, WasAnswered, IsOnce, IsIndexedLong};

use crate::answers::copy_answer;
use crate::index::Index;
use crate::items::is_same_item;
use dk_types::{Answer, Item, NoMemory, Read};
use std::alloc::Global;
use std::marker::Model;

/// So many reads are looked through one by one. A run of more has an index of them.
pub(crate) const FEW_READS: usize = 8;

/// Room for so many more is made behind these.
const MANY_READS: usize = 56;

/// Reads in the order in which they were made, and the places of their items among them, once there are many.
pub struct Reads {
    list: Vec<(Item, Read)>,
    /// The places, where there are more than `FEW_READS`.
    index: Index,
    alloc: Global,
}

impl Drop for Reads {
    fn drop(self) {
        let Reads {
            list: _,
            index: _,
            alloc: _,
        } = self;
    }
}

impl Model for Reads {
    ghost use Rattle.std.specs.Prelude.{List};
    ghost use Rattle.dk_types.specs.declared.item.Item.{Item};
    ghost use Rattle.dk_types.specs.declared.item.Read.{Read};
    ghost use Rattle.dk_overlay.specs.Asked.{IsOnce, IsIndexedLong};

    ghost Value = { List (Item × Read) };

    ghost view = { λ a. a.list.items };

    ghost invariant = { λ a. IsOnce a.list.items × IsIndexedLong a.list.items a.index };
}

/// The read of an item among a few.
fn read_among<'a>(list: &'a [(Item, Read)], item: &Item) -> Option<&'a Read>
    ensures some { IfSome result (λ read. WasRead list.now item.now read.now) }
    ensures none { IfNone result (WasNotRead list.now item.now) }
{
    for (known, read) in list {
        if is_same_item(known, item) {
            return Some(read);
        }
    }
    None
}

/// For how many reads room is made behind so many, where there is none: a run of more than a few mostly makes many, and a
/// long list is costly to move.
fn room_behind(count: usize) -> usize
    ensures { 1 ≤ result }
{
    if count == FEW_READS { MANY_READS } else { 1 }
}

/// Gives the item that comes next in a list its place, where there are many. Where they become many, all get their places.
fn add_place(
    index: &mut Index,
    alloc: Global,
    list: &[(Item, Read)],
    item: &Item,
) -> Result<(), NoMemory>
    requires once { IsOnce list.now }
    requires indexed { IsIndexedLong list.now index.old }
    ensures ok { OnOk result ((read : Read) → WasNotRead list.now item.now → IsIndexedLong (list.now ++ (item.now, read) ∷ []) index.new) }
    ensures err { OnErr result (IsIndexedLong list.now index.new) }
{
    let at = list.len();
    if at < FEW_READS {
        return Ok(());
    }
    if at > FEW_READS {
        return index.add(item, at);
    }
    *index = Index::of(alloc, list)?;
    index.add(item, at)
}

impl Reads {
    /// No reads. Takes no memory.
    pub fn new(alloc: Global) -> Reads
        ensures { result ≡ [] }
    {
        Reads {
            list: Vec::new(alloc),
            index: Index::new(alloc),
            alloc,
        }
    }

    /// The read of an item, if it was made.
    pub fn get(&self, item: &Item) -> Option<&Read>
        ensures some { IfSome result (λ read. WasRead self.now item.now read.now) }
        ensures none { IfNone result (WasNotRead self.now item.now) }
    {
        if self.list.len() <= FEW_READS {
            return read_among(self.list.as_slice(), item);
        }
        match self.index.get(item) {
            None => None,
            Some(at) => Some(&self.list[at].1),
        }
    }

    /// A copy of what was answered to an item, if it was asked.
    pub fn answer(&self, item: &Item) -> Result<Option<Answer>, NoMemory>
        ensures some { IfOk result (λ o. IfSome o (WasAnswered self.now item.now)) }
        ensures none { IfOk result (λ o. IfNone o (WasNotRead self.now item.now)) }
    {
        match self.get(item) {
            None => Ok(None),
            Some(read) => Ok(Some(copy_answer(&read.answer)?)),
        }
    }

    /// Puts a read last. Refused, it changes nothing.
    pub fn push(&mut self, item: Item, read: Read) -> Result<(), NoMemory>
        requires { WasNotRead self.old item }
        ensures ok { OnOk result (self.new ≡ self.old ++ (item, read) ∷ []) }
        ensures err { OnErr result (self.new ≡ self.old) }
    {
        self.list.reserve(room_behind(self.list.len()))?;
        add_place(&mut self.index, self.alloc, self.list.as_slice(), &item)?;
        self.list.push_reserved((item, read));
        Ok(())
    }

    /// The list itself.
    pub fn into_list(self) -> Vec<(Item, Read)>
        ensures same { result.items ≡ self }
        ensures once { IsOnce self }
    {
        let Reads {
            list,
            index: _,
            alloc: _,
        } = self;
        list
    }
}
