//! Sixteen counters, raised by tasks.
ghost use Rattle.std.specs.Prelude.{◌≡◌, ◌<◌, ◌≤◌, ◌∷◌, [], IfOk};
ghost use Rattle.dk_txn.specs.Does.{Does};
ghost use Rattle.dk_game.specs.Halted.{halt_fault};
ghost use Rattle.dk_demos.specs.CountersRules as rules;

use crate::counter::{make_under, raise_under};
use dk_game::{Game, Halt};
use dk_model::Rules;
use dk_txn::{Txn, View};
use dk_types::{Blob, GameId, Job, Name, NameRefused, NoMemory};
use std::alloc::Global;

/// How many counters there are.
const COUNTERS: u8 = 16;

/// The kind of the tasks.
const RAISE: u16 = 1;

/// The game. Its first run makes the counters and plans `tasks` tasks, whose counters follow from `seed`.
#[derive(Clone, Copy, Debug)]
pub struct Counters {
    seed: u64,
    tasks: u32,
}

impl Counters {
    /// The game with this seed and so many tasks. More than 65,536 tasks are refused by its first run.
    pub fn new(seed: u64, tasks: u32) -> Counters
        ensures seed { result.seed ≡ seed }
        ensures tasks { result.tasks ≡ tasks }
    {
        Counters { seed, tasks }
    }
}

/// The name of a counter: `c.` and its number in two digits.
pub fn counter_name(alloc: Global, number: u8) -> Result<Name, NoMemory>
    requires { number < 16 }
    ensures { IfOk result (λ name. name ≡ rules.counter_name number) }
{
    let text = [b'c', b'.', b'0' + number / 10, b'0' + number % 10];
    match Name::new(alloc, text.as_slice()) {
        Ok(name) => Ok(name),
        Err(NameRefused::NoMemory) => Err(NoMemory),
        Err(NameRefused::Empty) => unreachable!(),
        Err(NameRefused::TooLong { .. }) => unreachable!(),
        Err(NameRefused::NotUtf8 { .. }) => unreachable!(),
    }
}

/// A counter at 0, under its name.
fn make<V: View>(alloc: Global, txn: &mut Txn<'_, V>, number: u8) -> Result<(), Halt>
    requires { number < 16 }
    ensures { Does V.sights halt_fault txn.old txn.new (rules.make number) result }
{
    let name = counter_name(alloc, number)?;
    make_under(alloc, txn, &name)
}

/// The sixteen counters at 0, under their names.
pub fn make_all<V: View>(alloc: Global, txn: &mut Txn<'_, V>) -> Result<(), Halt>
    ensures { Does V.sights halt_fault txn.old txn.new (rules.make_from 0 16) result }
{
    for number in 0..COUNTERS {
        make(alloc, txn, number)?;
    }
    Ok(())
}

/// The counter of the task of this number, from 1.
pub(crate) fn counter_of_task(seed: u64, number: u32) -> u8
    ensures { result ≡ rules.counter_of_task seed number }
{
    ((seed % 16 + (number / 2) as u64) % 16) as u8
}

/// The task of this number, due at once.
fn plan<V: View>(alloc: Global, txn: &mut Txn<'_, V>, seed: u64, number: u32) -> Result<(), Halt>
    ensures { Does V.sights halt_fault txn.old txn.new (rules.plan seed number) result }
{
    let arg = Blob::copy_of(alloc, &[counter_of_task(seed, number)])?;
    txn.schedule(RAISE, arg, 0)?;
    Ok(())
}

fn plan_all<V: View>(alloc: Global, txn: &mut Txn<'_, V>, seed: u64, tasks: u32) -> Result<(), Halt>
    ensures { Does V.sights halt_fault txn.old txn.new (rules.plan_from seed 0 tasks) result }
{
    for before in 0..tasks {
        plan(alloc, txn, seed, before + 1)?;
    }
    Ok(())
}

fn begin<V: View>(alloc: Global, txn: &mut Txn<'_, V>, seed: u64, tasks: u32) -> Result<(), Halt>
    ensures { Does V.sights halt_fault txn.old txn.new (rules.begin seed tasks) result }
{
    make_all(alloc, txn)?;
    plan_all(alloc, txn, seed, tasks)
}

fn raise_at<V: View>(alloc: Global, txn: &mut Txn<'_, V>, number: u8) -> Result<(), Halt>
    requires { number < 16 }
    ensures { Does V.sights halt_fault txn.old txn.new (rules.raise_at number) result }
{
    let name = counter_name(alloc, number)?;
    raise_under(alloc, txn, &name)?;
    Ok(())
}

/// Raises a counter, where there is one of this number.
fn raise_known<V: View>(alloc: Global, txn: &mut Txn<'_, V>, number: u8) -> Result<(), Halt>
    ensures { Does V.sights halt_fault txn.old txn.new (rules.raise_known number) result }
{
    if number >= COUNTERS {
        return Ok(());
    }
    raise_at(alloc, txn, number)
}

/// Raises the counter whose number is the first byte of a task's argument. Where there is none, it does nothing.
pub fn raise<V: View>(alloc: Global, txn: &mut Txn<'_, V>, arg: &Blob) -> Result<(), Halt>
    ensures { Does V.sights halt_fault txn.old txn.new (rules.raise arg.now) result }
{
    match arg.as_slice().first() {
        Some(number) => raise_known(alloc, txn, *number),
        None => Ok(()),
    }
}

impl Rules for Counters {
    ghost use Rattle.dk_demos.specs.CountersRules.{counters_rules};
    ghost use Rattle.dk_demos.specs.CountersLawful.{counters_lawful};

    ghost rules = { λ game job. counters_rules game.seed game.tasks job };

    ghost lawful = { λ game. counters_lawful game.seed game.tasks };
}

impl Game for Counters {
    ghost use Rattle.std.specs.Prelude.{codes};

    ghost id = { λ _. codes "counters" };

    fn id(&self) -> GameId {
        GameId::new(b"counters").unwrap()
    }

    fn run<V: View>(&self, alloc: Global, job: &Job, txn: &mut Txn<'_, V>) -> Result<(), Halt> {
        match job {
            Job::Initialize => begin(alloc, txn, self.seed, self.tasks),
            Job::Task { arg, .. } => raise(alloc, txn, arg),
            Job::Login { .. } => Ok(()),
            Job::Message { .. } => Ok(()),
            Job::Channel { .. } => Ok(()),
            Job::Disconnect { .. } => Ok(()),
        }
    }
}
