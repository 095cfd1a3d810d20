// The claimed runs, the numbers that runs and connections draw, and the budget of claims.
ghost use Rattle.std.specs.Prelude.{◌≡◌, ℕ, ◌==◌, ◌+◌, ◌-◌, ◌<◌, ◌≤◌, true, Some, OnOk, OnErr};
ghost use Rattle.std.specs.FinMap as map;
ghost use Rattle.dk_types.specs.declared.limits.TheConstants.{NUMBERS_END};
ghost use Rattle.dk_model.specs.Events.{granted_of, has_left as is_left};
ghost use Rattle.dk_model.specs.Openings.{budget_of};
ghost use Rattle.dk_core.specs.Claiming.{budget_in, with_grant, without_grant, without_run};

use crate::claimed::Claimed;
use dk_map::OrderedMap;
use dk_types::{NoMemory, RunNo};
use std::alloc::Global;
use std::marker::Model;
use std::snapshot::Snapshot;

/// A claimed run, of which contracts alone see by which pass, for what and at which moment: no end of a claim looks at that.
#[derive(Drop)]
pub(crate) struct Held {
    claimed: Snapshot<Claimed>,
}

impl Model for Held {
    ghost use Rattle.dk_types.specs.contracts.job.Job as jobs;
    ghost use Rattle.dk_model.specs.Worlds.{Claim};
    ghost use Rattle.dk_core.specs.Claiming.{claim_code};

    ghost Value = { Claim };

    ghost coded = { claim_code jobs.the_row.coded };

    ghost view = { λ h. record { pass = h.claimed.value.pass; job = h.claimed.value.job; at = h.claimed.value.at } };
}

impl Held {
    ghost use Rattle.dk_model.specs.Worlds.{Claim};

    pub(crate) fn of(claimed: &Claimed) -> Held
        ensures { result ≡ record { pass = claimed.now.pass; job = claimed.now.job; at = claimed.now.at } }
    {
        Held {
            claimed: Snapshot::of(claimed),
        }
    }
}

/// How many claims are granted after one more, where a budget counts them.
fn one_more(granted: u64, most: Option<u64>) -> u64
    requires { is_left (budget_in granted most) ≡ true }
    ensures { (n : ℕ) → most ≡ Some n → result ≡ granted + 1 }
{
    match most {
        None => granted,
        Some(most) => most.min(granted + 1),
    }
}

/// And after one less.
fn one_less(granted: u64, most: Option<u64>) -> u64
    ensures { (n : ℕ) → most ≡ Some n → result ≡ granted - 1 }
{
    match most {
        None => granted,
        Some(_) => granted.saturating_sub(1),
    }
}

/// The claimed runs by their numbers, the next number, and how many claims the budget has, of which some are granted.
#[derive(Drop)]
pub(crate) struct Claims {
    held: OrderedMap<RunNo, Held>,
    next: u64,
    granted: u64,
    most: Option<u64>,
}

impl Model for Claims {
    ghost use Rattle.dk_types.specs.contracts.job.Job as jobs;
    ghost use Rattle.dk_map.specs.AsMap.{map_of};
    ghost use Rattle.dk_map.specs.Entries.{IsOrdered};
    ghost use Rattle.dk_types.specs.Keys.{run_cmp};
    ghost use Rattle.dk_core.specs.Claiming.{Claiming, claiming_code, budget_in, IsCounted};

    ghost Value = { Claiming };

    ghost coded = { claiming_code jobs.the_row.coded };

    ghost view = { λ a. record { claims = map_of run_cmp a.held.entries; next = a.next; budget = budget_in a.granted a.most } };

    ghost invariant = { λ a. IsOrdered run_cmp a.held.entries × IsCounted (map_of run_cmp a.held.entries) a.next a.granted a.most };
}

impl Claims {
    /// No claims, and a budget of as many as are given. It takes no memory.
    pub(crate) fn new(alloc: Global, next: u64, most: Option<u64>) -> Claims
        requires numbers { next ≤ NUMBERS_END }
        ensures { result ≡ record { claims = map.empty; next = next; budget = budget_of most } }
    {
        Claims {
            held: OrderedMap::new(alloc),
            next,
            granted: 0,
            most,
        }
    }

    /// The number that is drawn next.
    pub(crate) fn next(&self) -> u64
        ensures { result ≡ self.now.next }
    {
        self.next
    }

    pub(crate) fn is_empty(&self) -> bool
        ensures { result ≡ (map.len self.now.claims == 0) }
    {
        self.held.len() == 0
    }

    /// Whether the budget allows one claim more.
    pub(crate) fn has_left(&self) -> bool
        ensures { result ≡ is_left self.now.budget }
    {
        match self.most {
            None => true,
            Some(most) => self.granted < most,
        }
    }

    /// How many claims the budget has granted; 0 where there is none.
    pub(crate) fn granted(&self) -> u64
        ensures { result ≡ granted_of self.now.budget }
    {
        match self.most {
            None => 0,
            Some(_) => self.granted,
        }
    }

    /// Draws a number for a connection.
    pub(crate) fn draw(&mut self)
        requires number { self.old.next < NUMBERS_END }
        ensures { self.new ≡ record (self.old) { next = self.old.next + 1 } }
    {
        self.next += 1;
    }

    /// Grants a claim, whose run draws its number. Refused, it changes nothing.
    pub(crate) fn grant(&mut self, held: Held) -> Result<(), NoMemory>
        requires number { self.old.next < NUMBERS_END }
        requires left { is_left self.old.budget ≡ true }
        ensures granted { OnOk result (self.new ≡ with_grant held self.old) }
        ensures refused { OnErr result (self.new ≡ self.old) }
    {
        self.held.reserve(1)?;
        let run = RunNo(self.next);
        self.next += 1;
        self.granted = one_more(self.granted, self.most);
        self.held.insert(run, held);
        Ok(())
    }

    /// A claim is gone, and the budget has it back. It takes no memory.
    pub(crate) fn release(&mut self, run: RunNo)
        requires held { map.contains_key self.old.claims run ≡ true }
        ensures { self.new ≡ without_grant run self.old }
    {
        self.held.remove(&run);
        self.granted = one_less(self.granted, self.most);
    }

    /// A claim is gone: its run is committed. It takes no memory.
    pub(crate) fn end(&mut self, run: RunNo)
        ensures { self.new ≡ without_run run self.old }
    {
        self.held.remove(&run);
    }
}
