//! A commit whose `prepare` and `publish` are apart: each of the six other events comes in between, of another pass.
ghost use Rattle.std.specs.Prelude.{◌≡◌, ◌≢◌, ◌+◌, IfOk};
ghost use Rattle.dk_model.specs.Lawful.{IsInput};
ghost use Rattle.dk_core.specs.Answers.{HasRoomFor, IsPrepared};
ghost use Rattle.dk_core.specs.Cores.{IsGranted};
ghost use Rattle.dk_core_tests.specs.Between.{IsBeside, KeepsBeside};
ghost use Rattle.dk_core_tests.specs.Twins.{twins_rules};

use dk_core::{Claimed, Core, Handed, Prepared};
use dk_txn::Finished;
use dk_types::{ConnNo, Input, Name};
use std::test::Fail;

/// The pass of what comes in between.
const OTHER: u32 = 8;

fn connect(core: &mut Core, held: &Claimed, name: &Name) -> Result<ConnNo, Fail>
    requires { IsBeside twins_rules core.old held.now }
    ensures { IfOk result (λ _. KeepsBeside twins_rules core.old core.new held.now) }
{
    match core.connect(name) {
        Ok(conn) => Ok(conn),
        Err(_) => Err(Fail::from("a connection")),
    }
}

fn post(core: &mut Core, held: &Claimed, conn: ConnNo, input: Input) -> Result<(), Fail>
    requires beside { IsBeside twins_rules core.old held.now }
    requires within { IsInput input }
    ensures { IfOk result (λ _. KeepsBeside twins_rules core.old core.new held.now) }
{
    match core.post(conn, input) {
        Ok(()) => Ok(()),
        Err(_) => Err(Fail::from("a place")),
    }
}

fn claim(core: &mut Core, held: &Claimed) -> Result<Claimed, Fail>
    requires beside { IsBeside twins_rules core.old held.now }
    requires other { held.now.pass ≢ OTHER }
    ensures keeps { IfOk result (λ _. KeepsBeside twins_rules core.old core.new held.now) }
    ensures granted { IfOk result (IsGranted core.new) }
    ensures pass { IfOk result (λ other. other.pass ≡ OTHER) }
{
    match core.claim(OTHER) {
        Ok(Some(claimed)) => Ok(claimed),
        Ok(None) | Err(_) => Err(Fail::from("a claim")),
    }
}

fn release(core: &mut Core, held: &Claimed, other: Claimed)
    requires beside { IsBeside twins_rules core.old held.now }
    requires granted { IsGranted core.old other }
    requires other { held.now.pass ≢ other.pass }
    ensures { KeepsBeside twins_rules core.old core.new held.now }
{
    core.release(other);
}

fn hand(core: &mut Core, held: &Claimed, conn: ConnNo) -> Result<Handed, Fail>
    requires { IsBeside twins_rules core.old held.now }
    ensures { IfOk result (λ _. KeepsBeside twins_rules core.old core.new held.now) }
{
    match core.hand(conn, 1) {
        Ok(handed) => Ok(handed),
        Err(_) => Err(Fail::from("a list")),
    }
}

fn tick(core: &mut Core, held: &Claimed, moment: u64)
    requires { IsBeside twins_rules core.old held.now }
    ensures { KeepsBeside twins_rules core.old core.new held.now }
{
    core.tick(moment);
}

/// All six, one after another.
fn others(core: &mut Core, held: &Claimed, name: &Name, input: Input) -> Result<(), Fail>
    requires beside { IsBeside twins_rules core.old held.now }
    requires other { held.now.pass ≢ OTHER }
    requires within { IsInput input }
    ensures { IfOk result (λ _. KeepsBeside twins_rules core.old core.new held.now) }
{
    let conn = connect(core, held, name)?;
    post(core, held, conn, input)?;
    let other = claim(core, held)?;
    release(core, held, other);
    hand(core, held, conn)?;
    tick(core, held, 5);
    Ok(())
}

fn prepare(core: &mut Core, claimed: &Claimed, finished: &Finished) -> Result<Prepared, Fail>
    requires { IsBeside twins_rules core.old claimed.now }
    ensures beside { IfOk result (λ _. IsBeside twins_rules core.new claimed.now) }
    ensures prepared { IfOk result (IsPrepared core.new claimed.now finished.now) }
    ensures room { IfOk result (λ _. HasRoomFor core.new finished.now) }
    ensures commits { core.new.world.commits ≡ core.old.world.commits }
{
    match core.prepare(claimed, finished) {
        Ok(prepared) => Ok(prepared),
        Err(_) => Err(Fail::from("a commit")),
    }
}

/// A run is prepared, the six other events come, and then it is published.
pub(crate) fn commit_after_others(
    core: &mut Core,
    claimed: Claimed,
    finished: Finished,
    name: &Name,
    input: Input,
) -> Result<u64, Fail>
    requires beside { IsBeside twins_rules core.old claimed }
    requires other { claimed.pass ≢ OTHER }
    requires within { IsInput input }
    ensures { IfOk result (λ seq. seq ≡ core.old.world.commits + 1) }
{
    let prepared = prepare(core, &claimed, &finished)?;
    others(core, &claimed, name, input)?;
    Ok(core.publish(claimed, finished, prepared))
}
