//! A claimed run.
ghost use Rattle.std.specs.Prelude.{◌≡◌, IfOk};

use dk_types::{Job, NoMemory, RunNo};

/// A run that was claimed: its number, its job and its moment, in ms. One that is dropped leaves its job claimed.
#[derive(Debug, Drop)]
pub struct Claimed {
    pub(crate) run: RunNo,
    pub(crate) pass: u32,
    pub(crate) at: u64,
    pub(crate) job: Job,
}

impl Claimed {
    /// The number of the run.
    pub fn run(&self) -> RunNo
        ensures { result ≡ self.now.run }
    {
        self.run
    }

    /// The pass that it was granted to.
    pub fn pass(&self) -> u32
        ensures { result ≡ self.now.pass }
    {
        self.pass
    }

    /// The moment of the claim, in ms.
    pub fn at(&self) -> u64
        ensures { result ≡ self.now.at }
    {
        self.at
    }

    /// What is to be run.
    pub fn job(&self) -> &Job
        ensures { result.now ≡ self.now.job }
    {
        &self.job
    }

    /// A copy of the job, since it may have to be run again.
    pub fn copy_job(&self) -> Result<Job, NoMemory>
        ensures { IfOk result (λ copy. copy ≡ self.now.job) }
    {
        Ok(self.job.clone()?)
    }
}
