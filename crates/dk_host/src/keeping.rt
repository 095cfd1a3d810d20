//! Each event as it is kept, from what was asked and what was answered.
ghost use Rattle.std.specs.Prelude.{◌≡◌, ◌≤◌, ◌⊎◌, ℕ, List, true, false, Some, IfOk, IfErr, OnOk, OnErr, take};
ghost use Rattle.dk_types.specs.declared.job.Input.{Input};
ghost use Rattle.dk_model.specs.declared.waiting.Waiting.TheVariants as waits;
ghost use Rattle.dk_model.specs.Deliveries.{is_disconnect};
ghost use Rattle.dk_model.specs.Events.{is_open, outbox};
ghost use Rattle.dk_model.specs.Picks.{pick};
ghost use Rattle.dk_core.specs.Cores.{world_of};
ghost use Rattle.dk_core.specs.Picking.{AreMarks};
ghost use Rattle.dk_host.specs.Calls.{connect_events, post_events};
ghost use Rattle.dk_host.specs.Kept.{kept_claim, kept_hand};
ghost use Rattle.dk_host.specs.Keeping.{listed};

use crate::history::History;
use crate::hosting::Hosting;
use dk_core::{ClaimRefused, Claimed, ConnectRefused, Core, Handed, PostRefused};
use dk_types::{
    ClaimReply, ConnNo, ConnectReply, Event, Input, Job, Listed, Name, NoMemory, Out, PostReply,
};

// A copy of a name, where events are kept.
pub(crate) fn kept_name<W: Hosting>(
    history: &History<W>,
    name: &Name,
) -> Result<Option<Name>, NoMemory>
    ensures { IfOk result (λ copy. W.keeps ≡ true → copy ≡ Some name.now) }
{
    if history.keeps() {
        return Ok(Some(name.clone()?));
    }
    Ok(None)
}

// A copy of an input, where events are kept. That of a Disconnect takes no memory.
pub(crate) fn kept_input<W: Hosting>(
    history: &History<W>,
    input: &Input,
) -> Result<Option<Input>, NoMemory>
    ensures copy { IfOk result (λ copy. W.keeps ≡ true → copy ≡ Some input.now) }
    ensures spared { IfErr result (λ _. is_disconnect (waits.Input input.now) ≡ false) }
{
    if let Input::Disconnect { graceful } = input {
        return Ok(Some(Input::Disconnect {
            graceful: *graceful,
        }));
    }
    if history.keeps() {
        return Ok(Some(input.clone()?));
    }
    Ok(None)
}

// Makes the places of an input's event. A Disconnect that ends a session has its place.
pub(crate) fn room_for_post<W: Hosting>(
    history: &mut History<W>,
    core: &Core,
    conn: ConnNo,
    input: &Input,
) -> Result<(), NoMemory>
    ensures events { history.new.events ≡ history.old.events }
    ensures room { OnOk result (W.keeps ≡ true → (2 ≤ history.new.spare) ⊎ ((is_disconnect (waits.Input input.now) ≡ true) × (is_open (world_of core.now) conn ≡ true))) }
    ensures only { OnErr result (W.keeps ≡ true) }
    ensures spared { OnErr result (is_disconnect (waits.Input input.now) ≡ true → is_open (world_of core.now) conn ≡ false) }
{
    if is_end(input) && core.is_open(conn) {
        return Ok(());
    }
    history.make_room()
}

// The job that is claimed next, where events are kept.
pub(crate) fn kept_job<W: Hosting>(
    history: &History<W>,
    core: &Core,
) -> Result<Option<Job>, NoMemory>
    ensures { IfOk result (λ job. W.keeps ≡ true → AreMarks core.now → pick (world_of core.now) ≡ job) }
{
    if history.keeps() {
        return core.next_job();
    }
    Ok(None)
}

// Copies of the messages that are handed next, where events are kept.
pub(crate) fn kept_messages<W: Hosting>(
    history: &History<W>,
    core: &Core,
    conn: ConnNo,
    most: u32,
) -> Result<Option<Listed<Out>>, NoMemory>
    ensures { IfOk result (λ outs. W.keeps ≡ true → outs ≡ Some (take most (outbox (world_of core.now) conn))) }
{
    if history.keeps() {
        return Ok(Some(core.copy_messages(conn, most)?));
    }
    Ok(None)
}

// Whether an input is the end of its session.
pub(crate) fn is_end(input: &Input) -> bool
    ensures { result ≡ is_disconnect (waits.Input input.now) }
{
    match input {
        Input::Disconnect { .. } => true,
        Input::Message(_) | Input::Channel { .. } => false,
    }
}

pub(crate) fn connect_event(
    pass: u32,
    name: Option<Name>,
    reply: &Result<ConnNo, ConnectRefused>,
) -> Option<Event>
    ensures { (n : List ℕ) → name ≡ Some n → listed result ≡ connect_events pass n reply.now }
{
    let Some(name) = name else {
        return None;
    };
    let reply = match reply {
        Ok(conn) => ConnectReply::Number(*conn),
        Err(ConnectRefused::Exhausted { next }) => ConnectReply::Exhausted { next: *next },
        Err(ConnectRefused::NoMemory) => return None,
    };
    Some(Event::Connect { pass, name, reply })
}

pub(crate) fn post_event(
    pass: u32,
    conn: ConnNo,
    input: Option<Input>,
    reply: &Result<(), PostRefused>,
) -> Option<Event>
    ensures { (i : Input) → input ≡ Some i → listed result ≡ post_events pass conn i reply.now }
{
    let Some(input) = input else {
        return None;
    };
    let reply = match reply {
        Ok(()) => PostReply::Taken,
        Err(PostRefused::Closed) => PostReply::Closed,
        Err(PostRefused::QueueFull { waiting }) => PostReply::QueueFull { waiting: *waiting },
        Err(PostRefused::NoMemory) => return None,
    };
    Some(Event::Post {
        pass,
        conn,
        input,
        reply,
    })
}

// The job of a claim that was granted is handed in as a copy.
pub(crate) fn claim_event(
    pass: u32,
    job: Option<Job>,
    reply: &Result<Option<Claimed>, ClaimRefused>,
) -> Option<Event>
    ensures { listed result ≡ kept_claim pass job reply.now }
{
    let reply = match reply {
        Ok(Some(claimed)) => {
            let Some(job) = job else {
                return None;
            };
            ClaimReply::Granted {
                run: claimed.run(),
                at: claimed.at(),
                job,
            }
        }
        Ok(None) => ClaimReply::Nothing,
        Err(ClaimRefused::Spent { granted }) => ClaimReply::Spent { granted: *granted },
        Err(ClaimRefused::Exhausted { next }) => ClaimReply::Exhausted { next: *next },
        Err(ClaimRefused::NoMemory) => return None,
    };
    Some(Event::Claim { pass, reply })
}

// The messages that were handed are handed in as copies.
pub(crate) fn hand_event(
    pass: u32,
    conn: ConnNo,
    most: u32,
    outs: Option<Listed<Out>>,
    reply: &Result<Handed, NoMemory>,
) -> Option<Event>
    ensures { listed result ≡ kept_hand pass conn most outs reply.now }
{
    let Ok(handed) = reply else {
        return None;
    };
    let Some(outs) = outs else {
        return None;
    };
    Some(Event::Hand {
        pass,
        conn,
        most,
        outs,
        end: handed.end,
    })
}
