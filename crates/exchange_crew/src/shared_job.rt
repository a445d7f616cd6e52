// The job of a step as its owner and the helpers share it.
ghost use Rattle.std.specs.Prelude.{◌≡◌, IfOk};

use nc_base::{Job, Memory};
use std::alloc::Global;
use std::marker::Model;
use std::sync::Arc;

/// A job of a step, which helpers that outlive the step share with its owner: a message names the post that its bytes stand in, and no byte
/// is copied for it. Contracts see the job.
#[derive(Drop)]
pub struct SharedJob {
    job: Arc<Job, Global>,
}

impl Model for SharedJob {
    ghost use Rattle.nc_base.specs.declared.plan.Job.{Job};
    ghost use Rattle.std.specs.Arc.{arc_value};

    ghost Value = { Job };

    ghost view = { λ shared. arc_value shared.job };
}

impl SharedJob {
    /// Shares a job.
    pub fn new(alloc: Global, job: Job) -> Result<Self, Memory>
        ensures { IfOk result (λ shared. shared ≡ job) }
    {
        match Arc::new(alloc, job) {
            Ok(job) => Ok(SharedJob { job }),
            Err(_) => Err(Memory),
        }
    }

    /// One more owner of the same job.
    pub fn share(&self) -> Result<Self, Memory>
        ensures { IfOk result (λ shared. shared ≡ self.now) }
    {
        match Arc::try_clone(&self.job) {
            Ok(job) => Ok(SharedJob { job }),
            Err(_) => Err(Memory),
        }
    }

    /// The job.
    pub fn job(&self) -> &Job
        ensures { result.now ≡ self.now }
    {
        &*self.job
    }
}
