// Commits.
ghost use Rattle.std.specs.Prelude.{◌≡◌, ◌+◌, IfErr};
ghost use Rattle.dk_core.specs.Answers.{Commits, CommitsOrTells, HasRoomFor, IsPrepared, IsReady, Prepares, Readies, TellsStale};
ghost use Rattle.dk_core.specs.Cores.{HasMoreRoom, IsGranted, AddsNothing};

use crate::answers::PrepareRefused;
use crate::claimed::Claimed;
use crate::prepared::Prepared;
use crate::world::Core;
use dk_connections::Deliveries;
use dk_txn::Finished;

impl Core {
    /// Looks whether all reads of a finished run stand, and makes what its commit needs. Nothing is entered. The room of its
    /// messages is in what is told; the room of its effects stays in the world, where commits alone take of it.
    #[tactic(auto, using(crate::proofs::Stales::tells_stale))]
    pub fn prepare(
        &mut self,
        claimed: &Claimed,
        finished: &Finished,
    ) -> Result<Prepared, PrepareRefused>
        requires granted { IsGranted self.old claimed.now }
        ensures same { HasMoreRoom self.old self.new }
        ensures prepares { Prepares self.old self.new claimed.now finished.now result }
        ensures stale { IfErr result (λ refused. TellsStale self.old finished.now refused) }
        ensures granted { IsGranted self.new claimed.now }
        ensures stays { AddsNothing self.old self.new }
    {
        let deliveries = self.make_ready(finished)?;
        let seq = self.world.commits() + 1;
        let effects = finished.effects();
        Ok(Prepared::new(seq, claimed.run, effects, deliveries))
    }

    /// Looks whether all reads of a finished run stand, and makes the room of its commit: that of its messages is told, and
    /// that of its effects stays in the world.
    fn make_ready(&mut self, finished: &Finished) -> Result<Deliveries, PrepareRefused>
        ensures same { HasMoreRoom self.old self.new }
        ensures ready { Readies self.old self.new finished.now result }
        ensures stays { AddsNothing self.old self.new }
    {
        if let Some(changed) = self.world.first_conflict(finished.reads())? {
            return Err(PrepareRefused::Retry(changed));
        }
        let deliveries = Deliveries::new(self.alloc, finished.outs())?;
        self.world.reserve_for(finished)?;
        Ok(deliveries)
    }

    /// Enters the commit of a finished run for which all was prepared and since whose `prepare` no commit was entered, and
    /// tells its number. It takes no memory.
    pub fn publish(&mut self, claimed: Claimed, finished: Finished, prepared: Prepared) -> u64
        requires granted { IsGranted self.old claimed }
        requires prepared { IsPrepared self.old claimed finished prepared }
        requires room { HasRoomFor self.old finished }
        ensures number { result ≡ self.old.world.commits + 1 }
        ensures commits { Commits self.old self.new claimed finished result }
    {
        let Prepared { deliveries, .. } = prepared;
        self.enter(claimed, finished, deliveries)
    }

    /// Enters the commit of a finished run whose room is made.
    fn enter(&mut self, claimed: Claimed, finished: Finished, deliveries: Deliveries) -> u64
        requires granted { IsGranted self.old claimed }
        requires ready { IsReady self.old finished deliveries }
        requires room { HasRoomFor self.old finished }
        ensures number { result ≡ self.old.world.commits + 1 }
        ensures commits { Commits self.old self.new claimed finished result }
    {
        let Claimed { run, job, .. } = claimed;
        let seq = self.world.commit(finished, run);
        self.claims.end(run);
        self.free_task(&job);
        self.connections.deliver(&job, deliveries);
        seq
    }

    /// Commits a finished run where all its reads stand, and tells the number of the commit. Refused, the claim is handed
    /// back and nothing is entered. It is `prepare` and `publish` in one, without the entry, which no one asks for here.
    pub fn commit(
        &mut self,
        claimed: Claimed,
        finished: Finished,
    ) -> Result<u64, (Claimed, PrepareRefused)>
        requires granted { IsGranted self.old claimed }
        ensures { CommitsOrTells self.old self.new claimed finished result }
    {
        match self.make_ready(&finished) {
            Ok(deliveries) => Ok(self.enter(claimed, finished, deliveries)),
            Err(refused) => Err((claimed, refused)),
        }
    }
}
