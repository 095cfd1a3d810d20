//! The calls on names.
ghost use Rattle.std.specs.Prelude.{◌≡◌, OnErr, IfOk};
ghost use Rattle.std.specs.Option.{option_copied};
ghost use Rattle.dk_types.specs.declared.item.Item.TheVariants as ask;
ghost use Rattle.dk_types.specs.Names.{bytes_cmp};
ghost use Rattle.dk_model.specs.DurableWorlds.{is_above as above};
ghost use Rattle.dk_model.specs.Runs as act;
ghost use Rattle.dk_overlay.specs.Least.{lesser as least_of};
ghost use Rattle.dk_txn.specs.Bindings as bindings;
ghost use Rattle.dk_txn.specs.Refusals.{refusal_fault};

use crate::checks::is_reserved_name;
use crate::refusal::Refusal;
use crate::txn::Txn;
use crate::view::View;
use dk_overlay::{Change, copy_name, says_named, says_next};
use dk_types::{Item, Name, NoMemory, ObjectId};

/// Whether a name is above the given one, as each is where none is given.
fn is_above(after: &Option<Name>, name: &Name) -> bool
    ensures { result ≡ above after.now name.now }
{
    match after {
        None => true,
        Some(other) => name > other,
    }
}

/// The lesser of two names.
fn lesser(a: Option<Name>, b: Option<Name>) -> Option<Name>
    ensures { result ≡ least_of bytes_cmp a b }
{
    match (a, b) {
        (Some(m), Some(n)) => Some(if n < m { n } else { m }),
        (None, other) | (other, None) => other,
    }
}

/// A copy of a name that may be given.
fn copy_after(after: Option<&Name>) -> Result<Option<Name>, NoMemory>
    ensures { IfOk result (λ copy. copy ≡ option_copied after.entry) }
{
    match after {
        None => Ok(None),
        Some(name) => Ok(Some(name.clone()?)),
    }
}

impl<'a, V: View> Txn<'a, V> {
    ghost use Rattle.dk_txn.specs.Asks.{Asks, AsksOf, IsNext};
    ghost use Rattle.dk_txn.specs.Does.{Keeps, Does, SameChanges, KnownName, NextStanding};

    /// What a name was bound to before the run, and what it is bound to now.
    pub(crate) fn known_name(&mut self, name: &Name) -> Result<Change<ObjectId>, NoMemory>
        ensures keeps { Keeps V.sights self.old self.new }
        ensures asks { Asks (ask.Bound name.now) V.sights self.old self.new }
        ensures same_changes { SameChanges self.old.set self.new.set }
        ensures known { IfOk result (KnownName self.new.set name.now) }
    {
        match self.set.name(name) {
            Some(change) => Ok(change),
            None => {
                let item = Item::Bound(name.clone()?);
                let said = self.ask(item)?;
                let after = says_named(&said);
                Ok(Change {
                    before: after,
                    after,
                })
            }
        }
    }

    /// The object that the name is bound to (`DataManager.getBinding`). Refuses 1.
    pub fn bound(&mut self, name: &Name) -> Result<ObjectId, Refusal>
        ensures does { Does V.sights refusal_fault self.old self.new (act.bound name.now) result }
        ensures asks { Asks (ask.Bound name.now) V.sights self.old self.new }
        ensures refused { OnErr result (SameChanges self.old.set self.new.set) }
    {
        let known = self.known_name(name)?;
        known.after.ok_or(Refusal::NameNotBound)
    }

    /// What the name is bound to, where it is bound: `bound` for a caller to whom both are right. Refuses 7 alone.
    pub fn binding(&mut self, name: &Name) -> Result<Option<ObjectId>, Refusal>
        ensures does { Does V.sights refusal_fault self.old self.new (bindings.binding name.now) result }
        ensures asks { Asks (ask.Bound name.now) V.sights self.old self.new }
        ensures same_changes { SameChanges self.old.set self.new.set }
    {
        let known = self.known_name(name)?;
        Ok(known.after)
    }

    /// Binds the name to the object, whatever it was bound to (`DataManager.setBinding`). The object is not looked at.
    /// Refuses 6.
    pub fn bind(&mut self, name: &Name, id: ObjectId) -> Result<(), Refusal>
        ensures does { Does V.sights refusal_fault self.old self.new (act.bind name.now id) result }
        ensures asks { Asks (ask.Bound name.now) V.sights self.old self.new }
        ensures refused { OnErr result (SameChanges self.old.set self.new.set) }
    {
        if is_reserved_name(self.set.mode(), name) {
            return Err(Refusal::Reserved);
        }
        let known = self.known_name(name)?;
        let change = Change {
            before: known.before,
            after: Some(id),
        };
        self.set.change_name(name, change)?;
        Ok(())
    }

    /// Takes the name's binding away (`DataManager.removeBinding`). Refuses 6, 1.
    pub fn unbind(&mut self, name: &Name) -> Result<(), Refusal>
        ensures does { Does V.sights refusal_fault self.old self.new (act.unbind name.now) result }
        ensures asks { Asks (ask.Bound name.now) V.sights self.old self.new }
        ensures refused { OnErr result (SameChanges self.old.set self.new.set) }
    {
        if is_reserved_name(self.set.mode(), name) {
            return Err(Refusal::Reserved);
        }
        let known = self.known_name(name)?;
        if known.after.is_none() {
            return Err(Refusal::NameNotBound);
        }
        let change = Change {
            before: known.before,
            after: None,
        };
        self.set.change_name(name, change)?;
        Ok(())
    }

    /// The least name above the given one that was bound before the run and that the run has not touched.
    fn next_standing(&mut self, after: Option<&Name>) -> Result<Option<Name>, NoMemory>
        ensures keeps { Keeps V.sights self.old self.new }
        ensures asks { AsksOf (IsNext self.old.set (option_copied after.entry)) V.sights self.old self.new }
        ensures same_changes { SameChanges self.old.set self.new.set }
        ensures next { IfOk result (NextStanding self.new.set (option_copied after.entry)) }
    {
        let mut cursor = copy_after(after)?;
        'names: loop {
            let item = Item::NextAfter(copy_name(&cursor)?);
            let said = self.ask(item)?;
            match says_next(said) {
                None => return Ok(None),
                Some(name) => {
                    // A name that is not above is told by no world, and could be told for ever.
                    if !is_above(&cursor, &name) || self.set.name(&name).is_none() {
                        return Ok(Some(name));
                    }
                    cursor = Some(name);
                }
            }
        }
    }

    /// The least bound name above the given one, or the first (`DataManager.nextBoundName`). Names that begin with `$` are
    /// shown. Refuses 7 alone.
    pub fn next_bound(&mut self, after: Option<&Name>) -> Result<Option<Name>, Refusal>
        ensures does { Does V.sights refusal_fault self.old self.new (act.next_bound (option_copied after.entry)) result }
        ensures asks { AsksOf (IsNext self.old.set (option_copied after.entry)) V.sights self.old self.new }
        ensures refused { OnErr result (SameChanges self.old.set self.new.set) }
    {
        let standing = self.next_standing(after)?;
        let bound = copy_after(self.set.next_bound(after))?;
        Ok(lesser(standing, bound))
    }
}
