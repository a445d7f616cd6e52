// The job of a helper of puts: the windows that it serves, and what it serves them by.
ghost use Rattle.std.specs.Prelude.{◌≡◌, [], length};
ghost use Rattle.std.specs.Option.{ForSome};
ghost use Rattle.put_exchange.specs.Dues.{turns_due, AreDue};
ghost use Rattle.put_exchange.specs.Helped.{HasGivenBack};

use crate::laying::{Due, lay_part};
use crate::message::Message;
use exchange_crew::{PartBack, PartEnds, Tools};
use nc_outside::{Disk, Gate};
use promised_reply::Answer;
use ruled_line::LineTake;
use std::marker::Model;
use std::snapshot::Snapshot;
use std::sync::Wait;
use std::thread::Promise;

/// What a helper of puts serves its part by: the line of its messages, and a buffer for one window.
#[derive(Drop)]
pub struct PutLines {
    pub line: LineTake<Message>,
    pub buf: Vec<u8>,
}

/// A helper serves these windows of its part, and gives the ends back.
#[derive(Drop)]
pub struct PutDuty<D: Drop> {
    pub dues: Snapshot<Vec<Due>>,
    pub ends: Snapshot<PartEnds<D, PutLines>>,
}

impl<D: Disk> Promise<PartBack<D, PutLines>> for PutDuty<D> {
    ghost kept_by = { λ duty back. HasGivenBack D.Disk duty.dues.value.items duty.ends.value back };
}

/// A part on its way to the helper that serves it. Contracts see what the helper serves it by; the rest is for the helper, which knows by
/// this type that the windows lie on the part and fit the buffer, that nothing was taken off the line, and that the answer is promised for
/// both.
#[derive(Drop)]
pub struct PutJob<D: Disk> {
    pub number: u32,
    pub dues: Vec<Due>,
    pub ends: PartEnds<D, PutLines>,
    pub answer: Answer<PartBack<D, PutLines>, PutDuty<D>>,
}

impl<D: Disk> Model for PutJob<D> {
    ghost use Rattle.std.specs.Prelude.{◌≡◌, [], length};
    ghost use Rattle.std.specs.Option.{ForSome};
    ghost use Rattle.exchange_crew.specs.declared.errand.PartEnds.{PartEnds};
    ghost use Rattle.put_exchange.specs.Dues.{turns_due, AreDue};
    ghost use Rattle.put_exchange.specs.declared.helper.PutLines.{PutLines};

    ghost Value = { PartEnds D PutLines };

    ghost view = { λ job. job.ends };

    ghost invariant = { λ job. AreDue (D.from job.ends.part) (D.len job.ends.part) (length job.ends.lines.buf.items) (turns_due job.dues.items) × (job.ends.lines.line.items ≡ [])
        × ForSome job.answer (λ duty. (duty.dues.value ≡ job.dues) × (duty.ends.value ≡ job.ends)) };
}

impl<D: Disk> PutJob<D> {
    /// The part, where nobody does the job.
    pub(crate) fn into_part(self) -> D
        ensures { result ≡ self.part }
    {
        let PutJob { ends, .. } = self;
        ends.into_part()
    }
}

/// Does a job, and answers. The job comes in its parts: the kit does not cover a call that takes by value both a part and an answer whose
/// promise is made of its type.
pub fn serve<R: Wait, D: Disk, G: Gate>(
    tools: &Tools<R, G>,
    number: u32,
    dues: Vec<Due>,
    ends: PartEnds<D, PutLines>,
    answer: Answer<PartBack<D, PutLines>, PutDuty<D>>,
)
    requires due { AreDue (D.from ends.part) (D.len ends.part) (length ends.lines.buf.items) (turns_due dues.items) }
    requires line { ends.lines.line.items ≡ [] }
    requires duty { ForSome answer (λ duty. (duty.dues.value ≡ dues) × (duty.ends.value ≡ ends)) }
{
    let back = lay_windows(tools, number, dues.as_slice(), ends);
    answer.give(tools.rt, back);
}

// Serves the windows, and gives the ends back.
fn lay_windows<R: Wait, D: Disk, G: Gate>(
    tools: &Tools<R, G>,
    number: u32,
    dues: &[Due],
    ends: PartEnds<D, PutLines>,
) -> PartBack<D, PutLines>
    requires due { AreDue (D.from ends.part) (D.len ends.part) (length ends.lines.buf.items) (turns_due dues.now) }
    requires line { ends.lines.line.items ≡ [] }
    ensures { HasGivenBack D.Disk dues.now ends result }
{
    let PartEnds { mut part, lines } = ends;
    let PutLines { mut line, mut buf } = lines;
    let end = lay_part(tools, number, dues, &mut part, &mut line, &mut buf);
    PartBack {
        ends: PartEnds {
            part,
            lines: PutLines { line, buf },
        },
        end,
    }
}
