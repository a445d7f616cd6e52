// The job of a helper of gets: the windows that it reads, and what it reads them by.
ghost use Rattle.std.specs.Prelude.{◌≡◌, [], map};
ghost use Rattle.std.specs.Option.{ForSome};
ghost use Rattle.aggregator_rounds.specs.ToldWindows.{told_window};
ghost use Rattle.exchange_crew.specs.Hulls.{LieOnPart};
ghost use Rattle.get_exchange.specs.Fetched.{HasGivenBack};

use crate::reading::{Reading, read_part};
use exchange_crew::{PartBack, PartEnds, Tools};
use file_domains::Window;
use nc_base::Blob;
use nc_outside::{Disk, Gate};
use promised_reply::Answer;
use ruled_line::{LinePut, LineTake};
use std::marker::Model;
use std::snapshot::Snapshot;
use std::sync::Wait;
use std::thread::Promise;

/// What a helper of gets serves its part by: the line of what it reads, and the line on which blobs come back to it.
#[derive(Drop)]
pub struct GetLines {
    pub line: LinePut<Reading>,
    pub spare: LineTake<Blob>,
}

/// A helper reads these windows of its part, and gives the ends back.
#[derive(Drop)]
pub struct GetDuty<D: Drop> {
    pub windows: Snapshot<Vec<Window>>,
    pub ends: Snapshot<PartEnds<D, GetLines>>,
}

impl<D: Disk> Promise<PartBack<D, GetLines>> for GetDuty<D> {
    ghost kept_by = { λ duty back. HasGivenBack D.Disk (map told_window duty.windows.value.items) duty.ends.value back };
}

/// A part on its way to the helper that reads it. Contracts see what the helper serves it by; the rest is for the helper, which knows by
/// this type that the windows lie on the part, that nothing was put on the line, and that the answer is promised for both.
#[derive(Drop)]
pub struct GetJob<D: Disk> {
    pub number: u32,
    pub windows: Vec<Window>,
    pub ends: PartEnds<D, GetLines>,
    pub answer: Answer<PartBack<D, GetLines>, GetDuty<D>>,
}

impl<D: Disk> Model for GetJob<D> {
    ghost use Rattle.std.specs.Prelude.{◌≡◌, [], map};
    ghost use Rattle.std.specs.Option.{ForSome};
    ghost use Rattle.aggregator_rounds.specs.ToldWindows.{told_window};
    ghost use Rattle.exchange_crew.specs.Hulls.{LieOnPart};
    ghost use Rattle.exchange_crew.specs.declared.errand.PartEnds.{PartEnds};
    ghost use Rattle.get_exchange.specs.declared.helper.GetLines.{GetLines};

    ghost Value = { PartEnds D GetLines };

    ghost view = { λ job. job.ends };

    ghost invariant = { λ job. LieOnPart (D.from job.ends.part) (D.len job.ends.part) (map told_window job.windows.items) × (job.ends.lines.line.items ≡ [])
        × ForSome job.answer (λ duty. (duty.windows.value ≡ job.windows) × (duty.ends.value ≡ job.ends)) };
}

impl<D: Disk> GetJob<D> {
    /// The part, where nobody does the job.
    pub(crate) fn into_part(self) -> D
        ensures { result ≡ self.part }
    {
        let GetJob { ends, .. } = self;
        ends.into_part()
    }
}

/// Does a job, and answers. The job comes in its parts: the kit does not cover a call that takes by value both a part and an answer whose
/// promise is made of its type.
pub fn serve<R: Wait, D: Disk, G: Gate>(
    tools: &Tools<R, G>,
    number: u32,
    windows: Vec<Window>,
    ends: PartEnds<D, GetLines>,
    answer: Answer<PartBack<D, GetLines>, GetDuty<D>>,
)
    requires on_part { LieOnPart (D.from ends.part) (D.len ends.part) (map told_window windows.items) }
    requires line { ends.lines.line.items ≡ [] }
    requires duty { ForSome answer (λ duty. (duty.windows.value ≡ windows) × (duty.ends.value ≡ ends)) }
{
    let back = read_windows(tools, number, windows.as_slice(), ends);
    answer.give(tools.rt, back);
}

// Reads the windows, and gives the ends back.
fn read_windows<R: Wait, D: Disk, G: Gate>(
    tools: &Tools<R, G>,
    number: u32,
    windows: &[Window],
    ends: PartEnds<D, GetLines>,
) -> PartBack<D, GetLines>
    requires on_part { LieOnPart (D.from ends.part) (D.len ends.part) (map told_window windows.now) }
    requires line { ends.lines.line.items ≡ [] }
    ensures { HasGivenBack D.Disk (map told_window windows.now) ends result }
{
    let PartEnds {
        mut part,
        mut lines,
    } = ends;
    let end = read_part(tools, number, windows, &mut part, &mut lines);
    PartBack {
        ends: PartEnds { part, lines },
        end,
    }
}
