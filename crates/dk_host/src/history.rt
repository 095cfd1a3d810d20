//! The one history, and the events that are kept of it.
ghost use Rattle.std.specs.Prelude.{◌≡◌, ◌≤◌, ◌<◌, ◌++◌, [], ◌∷◌, length, true, false, Some, IfOk, IsTrue, OnOk, OnErr, if◌then◌else◌};
ghost use Rattle.dk_types.specs.declared.event.Event.{Event};
ghost use Rattle.dk_model.specs.Legal.{IsLegal};
ghost use Rattle.dk_host.specs.Keeping.{begins_one, ends_one, listed, new_places, owed_after as owed_after_one};

use crate::hosting::Hosting;
use dk_turn::{GhostList, NotingAll};
use dk_types::{ClaimReply, ConnectReply, Event, Input, NoMemory, PostReply};
use std::alloc::Global;
use std::marker::{Model, PhantomData};

/// The history that a host stands for, which contracts see. A host that keeps its events has them here in memory too, in
/// their order, with a place for each event that is to find one without memory: the end of each claim, and a Disconnect of
/// each connection that is not closed.
#[derive(Drop)]
pub(crate) struct History<W: Hosting> {
    events: GhostList<Event>,
    keeps: bool,
    // Empty where nothing is kept.
    kept: Vec<Event>,
    // How many places are kept for events to come.
    owed: usize,
    of: PhantomData<W>,
}

impl<W: Hosting> Model for History<W> {
    ghost use Rattle.std.specs.Prelude.{◌≡◌, ◌+◌, ◌-◌, length, vec_capacity};
    ghost use Rattle.dk_host.specs.Keeping.{KeptHistory, kept_history, IsKeptAs};

    ghost Value = { KeptHistory };

    ghost view = { λ h. kept_history h.events (vec_capacity h.kept - (length h.kept.items + h.owed)) };

    ghost invariant = { λ h. (h.keeps ≡ W.keeps) × IsKeptAs W.opened h.keeps h.events h.kept.items h.owed (vec_capacity h.kept) };
}

// Whether a later event will need a place.
fn begins(event: &Event) -> bool
    ensures { result ≡ begins_one event.now }
{
    match event {
        Event::Connect { reply, .. } => match reply {
            ConnectReply::Number(_) => true,
            ConnectReply::Exhausted { .. } => false,
        },
        Event::Claim { reply, .. } => match reply {
            ClaimReply::Granted { .. } => true,
            _ => false,
        },
        _ => false,
    }
}

// Whether its place is kept since an earlier event.
fn ends(event: &Event) -> bool
    ensures { result ≡ ends_one event.now }
{
    match event {
        Event::Post { input, reply, .. } => match input {
            Input::Disconnect { .. } => match reply {
                PostReply::Taken => true,
                _ => false,
            },
            _ => false,
        },
        Event::Release { .. } | Event::Commit { .. } => true,
        _ => false,
    }
}

// How many places are kept after the event.
fn owed_after(event: &Event, owed: usize) -> usize
    requires { owed < usize.MAX }
    ensures { result ≡ owed_after_one event.now owed }
{
    if ends(event) {
        owed.saturating_sub(1)
    } else if begins(event) {
        owed + 1
    } else {
        owed
    }
}

impl<W: Hosting> History<W> {
    // No events yet.
    pub(crate) fn new(alloc: Global, keeps: bool) -> Result<History<W>, NoMemory>
        requires keeps { W.keeps ≡ keeps }
        ensures { IfOk result (λ history. history.events ≡ []) }
    {
        let events = GhostList::new(alloc)?;
        Ok(History {
            events,
            keeps,
            kept: Vec::new(alloc),
            owed: 0,
            of: PhantomData,
        })
    }

    // Whether events are kept.
    pub(crate) fn keeps(&self) -> bool
        ensures { result ≡ W.keeps }
    {
        self.keeps
    }

    // How many events are kept.
    pub(crate) fn len(&self) -> u64
        ensures { W.keeps ≡ true → result ≡ length self.now.events }
    {
        self.kept.len() as u64
    }

    // Makes places for an event and for one that it begins, beside those that are kept.
    pub(crate) fn make_room(&mut self) -> Result<(), NoMemory>
        ensures events { self.new.events ≡ self.old.events }
        ensures room { OnOk result (W.keeps ≡ true → 2 ≤ self.new.spare) }
        ensures only { OnErr result (W.keeps ≡ true) }
    {
        if !self.keeps {
            return Ok(());
        }
        self.kept.reserve(self.owed + 2)?;
        Ok(())
    }

    // One event more, or none, made of `about`; `event` is the same to be kept. It takes no memory.
    pub(crate) fn enter<X, M: NotingAll<X, Event>>(&mut self, about: &X, event: Option<Event>)
        requires legal { IsLegal W.opened (self.old.events ++ M.entries about.now) }
        requires kept { W.keeps ≡ true → listed event ≡ M.entries about.now }
        requires room { W.keeps ≡ true → (e : Event) → event ≡ Some e → new_places e ≤ self.old.spare }
        ensures { self.new.events ≡ self.old.events ++ M.entries about.now }
    {
        self.events.note_all::<X, M>(about);
        if !self.keeps {
            return;
        }
        if let Some(event) = event {
            self.owed = owed_after(&event, self.owed);
            self.kept.push_reserved(event);
        }
    }

    // The history for contracts alone, and the events that were kept.
    pub(crate) fn into_parts(self) -> (GhostList<Event>, Vec<Event>)
        ensures history { result.0 ≡ self.events }
        ensures kept { W.keeps ≡ true → result.1.items ≡ self.events }
        ensures none { W.keeps ≡ false → result.1.items ≡ [] }
    {
        let History {
            events,
            keeps: _,
            kept,
            owed: _,
            of: _,
        } = self;
        (events, kept)
    }
}
