//! A game of sheets of numbers, each of which tasks rewrite again and again.
ghost use Rattle.std.specs.Prelude.{◌≡◌, ◌<◌};
ghost use Rattle.dk_txn.specs.Does.{Does};
ghost use Rattle.dk_game.specs.Halted.{halt_fault};
ghost use Rattle.dk_bench.specs.Rewriting as rules;

use crate::sheet::Sheet;
use dk_game::{Game, Halt};
use dk_model::Rules;
use dk_records::IdForm;
use dk_refs::{ManagedRef, decode_as};
use dk_txn::{Txn, View};
use dk_types::{Blob, GameId, Job, ObjectId};
use dk_wire::encode;
use std::alloc::Global;

/// The kind of the tasks.
const REWRITE: u16 = 1;

/// The game. Its first run makes so many sheets, each with so many tasks that rewrite it: one is due at once, and one at each
/// millisecond behind it.
#[derive(Clone, Copy, Debug)]
pub struct Sheets {
    pub sheets: u32,
    pub times: u64,
}

/// A task that rewrites the sheet of this id, so many milliseconds later.
fn schedule_one<V: View>(
    alloc: Global,
    txn: &mut Txn<'_, V>,
    id: ObjectId,
    delay: u64,
) -> Result<(), Halt>
    ensures { Does V.sights halt_fault txn.old txn.new (rules.schedule_one id delay) result }
{
    let arg = encode::<ObjectId, IdForm>(alloc, &id)?;
    txn.schedule(REWRITE, arg, delay)?;
    Ok(())
}

/// So many such tasks, a millisecond apart, the one that is due last first.
fn schedule_each<V: View>(
    alloc: Global,
    txn: &mut Txn<'_, V>,
    id: ObjectId,
    times: u64,
) -> Result<(), Halt>
    ensures { Does V.sights halt_fault txn.old txn.new (rules.schedule_each id times) result }
{
    for scheduled in 0..times {
        schedule_one(alloc, txn, id, times - (scheduled + 1))?;
    }
    Ok(())
}

/// A blank sheet, and so many tasks that rewrite it.
fn plan<V: View>(alloc: Global, txn: &mut Txn<'_, V>, times: u64) -> Result<(), Halt>
    ensures { Does V.sights halt_fault txn.old txn.new (rules.plan times) result }
{
    let sheet = Sheet::blank(alloc)?;
    let place = ManagedRef::create(alloc, txn, &sheet)?;
    let id = place.id();
    schedule_each(alloc, txn, id, times)
}

fn begin<V: View>(alloc: Global, txn: &mut Txn<'_, V>, sheets: u32, times: u64) -> Result<(), Halt>
    ensures { Does V.sights halt_fault txn.old txn.new (rules.begin sheets times) result }
{
    for planned in 0..sheets {
        plan(alloc, txn, times)?;
    }
    Ok(())
}

/// Raises each number of a sheet by one.
fn rewrite_at<V: View>(alloc: Global, txn: &mut Txn<'_, V>, id: ObjectId) -> Result<(), Halt>
    ensures { Does V.sights halt_fault txn.old txn.new (rules.rewrite_at id) result }
{
    let place = ManagedRef::<Sheet>::of(id);
    let sheet = place.get_for_update(alloc, txn)?;
    let more = sheet.raised(alloc)?;
    place.save(alloc, txn, &more)?;
    Ok(())
}

/// Rewrites the sheet whose id is a task's argument. Where that is no id, it does nothing.
fn rewrite<V: View>(alloc: Global, txn: &mut Txn<'_, V>, arg: &Blob) -> Result<(), Halt>
    ensures { Does V.sights halt_fault txn.old txn.new (rules.rewrite arg.now) result }
{
    match decode_as::<ObjectId, IdForm>(alloc, arg.as_slice())? {
        Some(id) => rewrite_at(alloc, txn, id),
        None => Ok(()),
    }
}

impl Rules for Sheets {
    ghost use Rattle.dk_bench.specs.Rewriting.{sheets_rules};
    ghost use Rattle.dk_bench.specs.RewritingLawful.{sheets_lawful};

    ghost rules = { λ game job. sheets_rules game.sheets game.times job };

    ghost lawful = { λ game. sheets_lawful game.sheets game.times };
}

impl Game for Sheets {
    ghost use Rattle.std.specs.Prelude.{codes};

    ghost id = { λ _. codes "sheets" };

    fn id(&self) -> GameId {
        GameId::new(b"sheets").unwrap()
    }

    fn run<V: View>(&self, alloc: Global, job: &Job, txn: &mut Txn<'_, V>) -> Result<(), Halt> {
        match job {
            Job::Initialize => begin(alloc, txn, self.sheets, self.times),
            Job::Task { arg, .. } => rewrite(alloc, txn, arg),
            Job::Login { .. } => Ok(()),
            Job::Message { .. } => Ok(()),
            Job::Channel { .. } => Ok(()),
            Job::Disconnect { .. } => Ok(()),
        }
    }
}
