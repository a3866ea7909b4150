ghost use Rattle.std.specs.Prelude.{◌^◌, ◌<◌, ◌≤◌, ℕ, length, map, All, IfOk, slice_index};
ghost use Rattle.sk_ranks.specs.RankMachine.{needs_in, needs_at};
ghost use Rattle.sk_ranks.specs.Numbers.{times, CountsDown};

use crate::followers::Followers;
use crate::number_set::NumberSet;
use crate::plan::Job;
use std::alloc::{AllocError, Global};

/// The jobs that may run, how many of the messages and jobs that it waits for each job still lacks, and the jobs that wait
/// for each message and for each job.
#[derive(Drop)]
pub struct Runs {
    pub ready: NumberSet,
    pub lacks: Vec<usize>,
    pub with_message: Followers,
    pub after_job: Followers,
}

impl Runs {
    ghost use Rattle.sk_ranks.specs.Kept.{StartsRuns};

    /// Those of a phase before its first act.
    pub fn new(alloc: Global, jobs: &[Job], messages: usize) -> Result<Runs, AllocError>
        requires few { length jobs.now < 2 ^ 31 }
        requires named { (j : ℕ) → All (λ m. m < messages) (needs_at (map needs_in jobs.now) j).messages }
        requires earlier { (j : ℕ) → All (λ i. i < j) (needs_at (map needs_in jobs.now) j).after }
        ensures { IfOk result (λ runs. StartsRuns (map needs_in jobs.now) messages runs) }
    {
        let mut ready = NumberSet::new(alloc, jobs.len())?;
        let mut lacks = Vec::with_capacity(alloc, jobs.len())?;
        let mut with_message = Followers::new(alloc, messages)?;
        let mut after_job = Followers::new(alloc, jobs.len())?;
        'jobs: for (number, job) in jobs.iter().enumerate() {
            with_message.add(number as u32, &job.messages)?;
            after_job.add(number as u32, &job.after)?;
            let lacking = job.messages.len() + job.after.len();
            lacks.push(lacking)?;
            ready.insert_if(number as u32, lacking == 0);
        }
        Ok(Runs {
            ready,
            lacks,
            with_message,
            after_job,
        })
    }
}

/// Takes one from what each of these jobs lacks; those that lack nothing any more may run.
pub fn count_down(ready: &mut NumberSet, lacks: &mut [usize], jobs: &[u32])
    requires room { length lacks.old ≤ length ready.old }
    requires there { All (λ j. j < length lacks.old) jobs.now }
    requires enough { (j : ℕ) → times j jobs.now ≤ slice_index lacks.old j }
    ensures { CountsDown lacks.old ready.old lacks.new ready.new jobs.now }
{
    'jobs: for job in jobs {
        let lacking = lacks[*job as usize] - 1;
        lacks[*job as usize] = lacking;
        ready.insert_if(*job, lacking == 0);
    }
}
