// The helpers of a run.
use crossbeam_channel::{Receiver, Sender};
use exchange_crew::{Errand, STACK_SIZE, Spares, Tools};
use get_exchange::GetJob;
use nc_outside::{Disk, Gate};
use put_exchange::PutJob;
use ruled_line::LOOKS;
use std::alloc::Global;
use std::sync::Wait;
use std::thread;
use std::thread::{Builder, Scope, Threads};

/// Helpers of a run, by their numbers from 0, and the buffers that its steps have left. Helpers are started as steps want them, in the scope
/// of the run's threads, and wait for jobs from then on. They end once this is dropped, so it has to be dropped inside that scope.
#[derive(Drop)]
pub struct Crew<'s, E, R, G, D: Disk> {
    scope: Option<&'s Scope<'s, E>>,
    tools: &'s Tools<'s, R, G>,
    lines: Vec<Sender<Errand<PutJob<D>, GetJob<D>>>>,
    spares: Spares,
}

/// What a step has of a crew: the lines to its helpers, and the buffers that steps have left.
#[derive(Drop)]
pub struct Reached<'c, D: Disk> {
    pub helpers: &'c [Sender<Errand<PutJob<D>, GetJob<D>>>],
    pub spares: &'c mut Spares,
}

impl<'s, R: Threads + Wait + Sync, G: Gate, D: Disk + 's> Crew<'s, (), R, G, D> {
    /// One that never has a helper.
    pub fn alone(tools: &'s Tools<'s, R, G>) -> Self {
        Crew::new(None, tools)
    }
}

impl<'s, E, R: Threads + Wait + Sync, G: Gate, D: Disk + 's> Crew<'s, E, R, G, D> {
    /// No helper yet. They are started in this scope; where there is none, there never is a helper.
    pub fn new(scope: Option<&'s Scope<'s, E>>, tools: &'s Tools<'s, R, G>) -> Self {
        Crew {
            scope,
            tools,
            lines: Vec::new(tools.alloc),
            spares: Spares::new(tools.alloc),
        }
    }

    /// The first helpers, so many of them, which are started where they are missing, and the buffers. The helpers are fewer where no more
    /// can be had.
    pub fn reach(&mut self, count: usize) -> Reached<'_, D> {
        if let Some(scope) = self.scope {
            for _ in self.lines.len()..count {
                let Some(line) = start(scope, self.tools) else {
                    break;
                };
                if self.lines.push(line).is_err() {
                    break;
                }
            }
        }
        let reached = self.lines.len().min(count);
        Reached {
            helpers: &self.lines[..reached],
            spares: &mut self.spares,
        }
    }
}

// Starts a helper: the end of the line of its jobs.
fn start<'s, E, R: Threads + Wait + Sync, G: Gate, D: Disk + 's>(
    scope: &'s Scope<'s, E>,
    tools: &'s Tools<'s, R, G>,
) -> Option<Sender<Errand<PutJob<D>, GetJob<D>>>> {
    let (to, from) = crossbeam_channel::bounded::<Errand<PutJob<D>, GetJob<D>>, Global>(
        tools.alloc,
        1,
    ).ok()?;
    Builder::new()
        .stack_size(STACK_SIZE)
        .spawn_scoped(scope, move || help(tools, &from))
        .ok()?;
    Some(to)
}

// Does the jobs that come, until no more can.
fn help<R: Wait, G: Gate, D: Disk>(
    tools: &Tools<R, G>,
    errands: &Receiver<Errand<PutJob<D>, GetJob<D>>>,
) {
    for _ in tools.rt.forever() {
        let Some(errand) = next_errand(tools.rt, errands) else {
            return;
        };
        match errand {
            Errand::Put(job) => {
                let PutJob {
                    number,
                    dues,
                    ends,
                    answer,
                } = job;
                put_exchange::serve(tools, number, dues, ends, answer);
            }
            Errand::Get(job) => {
                let GetJob {
                    number,
                    windows,
                    ends,
                    answer,
                } = job;
                get_exchange::serve(tools, number, windows, ends, answer);
            }
        }
    }
}

// The next job. The helper looks for it some times before it sleeps. None where no more can come.
fn next_errand<R: Wait, D: Disk>(
    rt: &R,
    errands: &Receiver<Errand<PutJob<D>, GetJob<D>>>,
) -> Option<Errand<PutJob<D>, GetJob<D>>> {
    for _ in 0..LOOKS {
        if let Ok(errand) = errands.try_recv(rt) {
            return Some(errand);
        }
        thread::yield_now();
    }
    errands.recv(rt).ok()
}
