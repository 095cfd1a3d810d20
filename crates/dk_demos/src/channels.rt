//! Two channels, which each client joins: one whose messages are sent on, and one to which the game listens.
ghost use Rattle.std.specs.Prelude.{◌≡◌, IfOk};
ghost use Rattle.dk_txn.specs.Does.{Does};
ghost use Rattle.dk_game.specs.Halted.{halt_fault};
ghost use Rattle.dk_model.specs.Steps.{of_session};
ghost use Rattle.dk_demos.specs.ChannelsRules as rules;

use crate::commands::{message, session_of};
use dk_channels::{Channel, Delivery, create_channel, join, send};
use dk_game::{Game, Halt};
use dk_model::Rules;
use dk_txn::{Txn, View};
use dk_types::{Blob, ConnNo, GameId, Job, Name, NoMemory};
use std::alloc::Global;

/// The game. It keeps nothing outside the world.
#[derive(Clone, Copy, Debug)]
pub struct Channels;

/// The channel whose messages are sent on.
fn foo(alloc: Global) -> Result<Channel, NoMemory>
    ensures { IfOk result (λ channel. channel.name ≡ rules.foo) }
{
    let name = Name::from_text(alloc, "Foo")?;
    Ok(Channel { name })
}

/// The channel to which the game listens.
fn bar(alloc: Global) -> Result<Channel, NoMemory>
    ensures { IfOk result (λ channel. channel.name ≡ rules.bar) }
{
    let name = Name::from_text(alloc, "Bar")?;
    Ok(Channel { name })
}

fn begin<V: View>(alloc: Global, txn: &mut Txn<'_, V>) -> Result<(), Halt>
    ensures { Does V.sights halt_fault txn.old txn.new rules.begin result }
{
    let foo = foo(alloc)?;
    let bar = bar(alloc)?;
    create_channel(alloc, txn, &foo.name, false, Delivery::Reliable)?;
    create_channel(alloc, txn, &bar.name, true, Delivery::Reliable)?;
    Ok(())
}

fn login<V: View>(
    alloc: Global,
    txn: &mut Txn<'_, V>,
    conn: ConnNo,
    name: &Name,
) -> Result<(), Halt>
    ensures { Does V.sights halt_fault txn.old txn.new (rules.login (of_session conn name.now)) result }
{
    let session = session_of(conn, name)?;
    let foo = foo(alloc)?;
    let bar = bar(alloc)?;
    join(alloc, txn, &foo, &session)?;
    join(alloc, txn, &bar, &session)?;
    Ok(())
}

/// What the members are told of a client's message.
fn heard(alloc: Global, body: &Blob) -> Result<Blob, NoMemory>
    ensures { IfOk result (λ text. text ≡ rules.heard body.now) }
{
    let mut text = Vec::from_slice(alloc, b"heard: ")?;
    text.extend_from_slice(body.as_slice())?;
    Ok(Blob::from_vec(text))
}

fn hear<V: View>(alloc: Global, txn: &mut Txn<'_, V>, name: &Name, body: &Blob) -> Result<(), Halt>
    ensures { Does V.sights halt_fault txn.old txn.new (rules.hear name.now body.now) result }
{
    let copy = name.clone()?;
    let text = heard(alloc, body)?;
    let channel = Channel { name: copy };
    Ok(send(alloc, txn, &channel, None, &text)?)
}

impl Rules for Channels {
    ghost use Rattle.dk_demos.specs.ChannelsRules.{channels_rules};
    ghost use Rattle.dk_demos.specs.ChannelsLawful.{channels_lawful};

    ghost rules = { λ _ job. channels_rules job };

    ghost lawful = { λ _. channels_lawful };
}

impl Game for Channels {
    ghost use Rattle.std.specs.Prelude.{codes};

    ghost id = { λ _. codes "channels" };

    fn id(&self) -> GameId {
        GameId::new(b"channels").unwrap()
    }

    fn run<V: View>(&self, alloc: Global, job: &Job, txn: &mut Txn<'_, V>) -> Result<(), Halt> {
        match job {
            Job::Initialize => begin(alloc, txn),
            Job::Login { conn, name } => login(alloc, txn, *conn, name),
            Job::Message { conn, name, body } => message(alloc, txn, *conn, name, body),
            Job::Channel { channel, body, .. } => hear(alloc, txn, channel, body),
            Job::Disconnect { .. } => Ok(()),
            Job::Task { .. } => Ok(()),
        }
    }
}
