// The board, which is told of each step of a run.
ghost use Rattle.std.specs.Prelude.{◌≡◌, ◌≤◌, ◌+◌, ◌-◌, [], drop, length, take, IfOk, OnOk, OnErr, All};
ghost use Rattle.left_right.specs.Sides.{view};
ghost use Rattle.run_watch.specs.Heard.{opened, with_pair};
ghost use Rattle.run_watch.specs.Ends.{Shows};

use crate::rule::{BoardWriter, Heard, Noting, Reading, Shown, Telling};
use crate::{Note, ToldList, View, ViewList};
use core::mem::replace_with;
use nc_base::{Mark, Memory, Summary};
use nc_outside::Told;
use std::alloc::Global;
use std::marker::Model;
use std::snapshot::Snapshot;
use std::sync::Wait;

/// Is told each step of a run, and shows its views how far the run has come. It keeps the handle `R`, since its drop waits for the views that
/// are reading. Contracts see what it was told.
pub struct Board<R: Wait + Drop> {
    writer: BoardWriter,
    heard: Heard,
    rt: R,
}

impl<R: Wait + Drop> Model for Board<R> {
    ghost use Rattle.std.specs.Prelude.{drop};
    ghost use Rattle.left_right.specs.Sides as sides;
    ghost use Rattle.run_watch.specs.declared.rule.Heard as told;
    ghost use Rattle.run_watch.specs.Ends.{Shows};

    ghost Value = { told.Heard };

    ghost view = { λ b. b.heard };

    ghost invariant = { λ b. Shows b.heard (sides.view b.writer.desk.place) b.writer.desk.shown.value (drop b.writer.behind b.writer.log.items) };
}

impl<R: Wait + Drop> Drop for Board<R> {
    fn drop(self) {
        let Self {
            writer,
            heard: _heard,
            rt,
        } = self;
        drop(writer.take(&rt));
    }
}

/// A board that was told nothing, and so many views of it. `records` is the record count before the first step.
#[tactic(auto, using(crate::proofs::Results::opened_push))]
pub fn watch<R: Wait + Drop>(
    rt: R,
    alloc: Global,
    readers: u32,
    records: u64,
) -> Result<(Board<R>, ViewList), Memory>
    requires low { 1 ≤ readers }
    requires high { readers ≤ 8 }
    ensures board { IfOk result (λ ends. ends.0 ≡ opened records) }
    ensures len { IfOk result (λ ends. length ends.1 ≡ readers) }
    ensures views { IfOk result (λ ends. All (λ view. view ≡ opened records) ends.1) }
{
    let writer = opened_writer(&rt, alloc, readers, records)?;
    let heard = Heard {
        opening: records,
        pairs: ToldList::new(alloc),
    };
    let mut board = Board { writer, heard, rt };
    let mut views = Vec::new(alloc);
    for number in 0..readers {
        views.push(board.fresh_view())?;
    }
    Ok((board, ViewList::from_vec(views)))
}

// A writer that shows the opening count. It has room for a reader of each view, and for one of a note for that view.
fn opened_writer<R: Wait>(
    rt: &R,
    alloc: Global,
    readers: u32,
    records: u64,
) -> Result<BoardWriter, Memory>
    requires low { 1 ≤ readers }
    requires high { readers ≤ 8 }
    ensures { IfOk result (λ writer. Shows (opened records) (view writer.desk.place) writer.desk.shown.value (drop writer.behind writer.log.items)) }
{
    let first = Shown {
        summary: Summary { steps: 0, records },
        last: None,
    };
    let writer = BoardWriter::new(alloc, first, first, 2 * readers as usize)?;
    let (writer, _published) = writer.publish_as::<Reading, R>(rt);
    Ok(writer)
}

// Shows one pair more than the writer had heard. Where there is no memory, it shows what it did.
fn show<R: Wait>(
    rt: &R,
    writer: BoardWriter,
    before: Snapshot<Heard>,
    steps: u64,
    mark: Mark,
    records: u64,
) -> (BoardWriter, Result<(), Memory>)
    requires shows { Shows before.value (view writer.desk.place) writer.desk.shown.value (drop writer.behind writer.log.items) }
    requires steps { steps ≡ length before.value.pairs + 1 }
    ensures ok { OnOk result.1 (Shows (with_pair before.value mark records) (view result.0.desk.place) result.0.desk.shown.value (drop result.0.behind result.0.log.items)) }
    ensures err { OnErr result.1 (Shows before.value (view result.0.desk.place) result.0.desk.shown.value (drop result.0.behind result.0.log.items)) }
{
    let mut writer = writer;
    let shown = Shown {
        summary: Summary { steps, records },
        last: Some(mark),
    };
    if writer.append(shown).is_err() {
        return (writer, Err(Memory));
    }
    let (writer, _published) = writer.publish_as::<Telling, R>(rt);
    (writer, Ok(()))
}

// Notes one pair more, and shows it. Where there is no memory, nothing has changed.
fn add<R: Wait>(
    rt: &R,
    writer: &mut BoardWriter,
    heard: &mut Heard,
    mark: Mark,
    records: u64,
) -> Result<(), Memory>
    requires { Shows heard.old (view writer.old.desk.place) writer.old.desk.shown.value (drop writer.old.behind writer.old.log.items) }
    ensures shows { Shows heard.new (view writer.new.desk.place) writer.new.desk.shown.value (drop writer.new.behind writer.new.log.items) }
    ensures ok { OnOk result (heard.new ≡ with_pair heard.old mark records) }
    ensures err { OnErr result (heard.new ≡ heard.old) }
{
    let before = Snapshot::of(&*heard);
    heard.pairs.push((mark, records))?;
    let steps = heard.pairs.len() as u64;
    let shown = replace_with(writer, rt, |writer, rt| {
        show(rt, writer, before, steps, mark, records)
    });
    match shown {
        Ok(()) => Ok(()),
        Err(memory) => {
            heard.pairs = without_last(heard.pairs.take());
            Err(memory)
        }
    }
}

fn without_last(pairs: ToldList) -> ToldList
    requires { 1 ≤ length pairs }
    ensures { result ≡ take (length pairs - 1) pairs }
{
    let mut pairs = pairs.into_vec();
    let _last = pairs.pop();
    ToldList::from_vec(pairs)
}

impl<R: Wait + Drop> Board<R> {
    // A view that has heard all that was told. Where no place for a reader is free, it keeps that.
    fn fresh_view(&mut self) -> View
        ensures view { result ≡ self.old }
        ensures same { self.new ≡ self.old }
    {
        let reader = match self.writer.factory().reader() {
            Ok(mut reader) => {
                reader.learn::<Noting>(self.writer.tell::<Noting>());
                Some(reader)
            }
            Err(_) => None,
        };
        View {
            reader,
            kept: self.writer.published().summary,
            first: Snapshot::of(&self.heard),
        }
    }

    /// A note of all that was told.
    pub fn note(&mut self) -> Note
        ensures note { result ≡ self.old }
        ensures same { self.new ≡ self.old }
    {
        Note {
            fresh: self.fresh_view(),
        }
    }

    /// All that was told.
    pub fn pairs(&self) -> &ToldList
        ensures { result.now ≡ self.now.pairs }
    {
        &self.heard.pairs
    }
}

impl<R: Wait + Drop> Told for Board<R> {
    ghost use Rattle.std.specs.Prelude.{Some};

    ghost heard = { λ b. Some b.pairs };

    fn told<W: Wait>(
        &mut self,
        rt: &W,
        _alloc: Global,
        mark: Mark,
        records: u64,
    ) -> Result<(), Memory>
        ensures ok { OnOk result (self.new ≡ with_pair self.old mark records) }
        ensures err { OnErr result (self.new ≡ self.old) }
    {
        add(rt, &mut self.writer, &mut self.heard, mark, records)
    }
}
