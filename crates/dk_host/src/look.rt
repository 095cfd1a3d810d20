//! The world of a host as a run reads it, and passes that meet.
ghost use Rattle.std.specs.Prelude.{◌≡◌, ◌<◌, true};
ghost use Rattle.std.specs.List.{All, list_any};
ghost use Rattle.dk_model.specs.Legal.{pass_of, IsFront};
ghost use Rattle.dk_model.specs.Sights.{grants};
ghost use Rattle.dk_host.specs.Calls.{IsClaimOf};

use crate::book::WorldBook;
use crate::calls::read_item;
use crate::host::Host;
use crate::hosting::Hosting;
use dk_core::Claimed;
use dk_disk::Home;
use dk_turn::{Naming, Pass, Turn};
use dk_txn::View;
use dk_types::{Item, NoMemory, Read, RunNo};
use std::sync::Wait;

/// A host and a pass, lent to a claimed run. Each read has its own place in the history, after the claim.
pub struct HostLook<'a, W: Hosting, J: Naming, R: Wait> {
    pub(crate) pass: &'a mut Pass<WorldBook<W>, J>,
    pub(crate) rt: &'a R,
    pub(crate) world: &'a Turn<WorldBook<W>, J>,
    pub(crate) run: RunNo,
    pub(crate) ghost claimed: { list_any (grants run) pass.now.front ≡ true },
}

impl<W: Hosting, J: Naming, R: Wait> Drop for HostLook<'_, W, J, R> {
    fn drop(self)
        ensures { self.exit.0.now ≡ self.entry.pass.now }
    {
        let HostLook {
            pass: _,
            rt: _,
            world: _,
            run: _,
        } = self;
    }
}

impl<W: Hosting, J: Naming, R: Wait> View for HostLook<'_, W, J, R> {
    ghost use Rattle.dk_host.specs.Looks.{sights_by, looking};

    ghost sights = { sights_by W.opened (λ look. looking look.run look.pass.now) (λ look. look.pass.ghost_name) };

    fn read(&mut self, item: &Item) -> Result<Read, NoMemory> {
        read_item(self.world, self.rt, self.pass, item)
    }
}

impl<W: Hosting, J: Naming, M: Home> Host<W, J, M> {
    /// The world as a claimed run reads it. Each of its reads is honest at the pass's front as the look leaves it.
    pub fn look<'a, R: Wait>(
        &'a self,
        rt: &'a R,
        pass: &'a mut Pass<WorldBook<W>, J>,
        claimed: &Claimed,
    ) -> HostLook<'a, W, J, R>
        requires claim { IsClaimOf W.opened pass.old claimed.now }
        ensures run { result.run ≡ claimed.now.run }
        ensures pass { result.pass.now ≡ pass.old }
        ensures same_pass { result.pass.ghost_name ≡ pass.entry.ghost_name }
    {
        HostLook {
            pass,
            rt,
            world: &self.world,
            run: claimed.run(),
        }
    }

    /// Both passes see the history as it is.
    pub fn meet<R: Wait>(
        &self,
        rt: &R,
        one: &mut Pass<WorldBook<W>, J>,
        other: &mut Pass<WorldBook<W>, J>,
    )
        ensures numbers { (one.new.number ≡ one.old.number) × (other.new.number ≡ other.old.number) }
        ensures same { one.new.front ≡ other.new.front }
        ensures one { IsFront one.old.number one.old.front one.new.front }
        ensures other { IsFront other.old.number other.old.front other.new.front }
        ensures named { All (λ e. pass_of e < J.name.passes) one.new.front }
    {
        self.world.meet(rt, one, other)
    }

    /// Sleeps until something may have changed since the last call of this pass.
    pub fn wait<R: Wait>(&self, rt: &R, pass: &Pass<WorldBook<W>, J>) {
        self.world.wait(rt, pass)
    }

    /// Whether a call that those wait for was made after the last call of this pass: whether `wait` would come back at once.
    pub fn has_news(&self, pass: &Pass<WorldBook<W>, J>) -> bool {
        self.world.has_news(pass)
    }
}
