// A view, which reads how far a run has come, and a note, from which it learns.
ghost use Rattle.std.specs.Prelude.{◌≡◌, ◌≤◌, length};
ghost use Rattle.run_watch.specs.Heard.{summary, IsBeginning, longer, BeginOneList};

use crate::rule::{BoardReader, Heard, Reading};
use nc_base::Summary;
use std::marker::Model;
use std::snapshot::Snapshot;

/// Reads how far a run has come. Contracts see what it has heard: what its last reading summed up, or a note that it learned since, where that has more steps.
#[derive(Drop)]
pub struct View {
    /// None where the board had no place for it: then each reading is the one that it keeps.
    pub(crate) reader: Option<BoardReader>,
    pub(crate) kept: Summary,
    /// What the board had heard when the view was made.
    pub(crate) first: Snapshot<Heard>,
}

impl Model for View {
    ghost use Rattle.std.specs.Prelude.{◌≡◌};
    ghost use Rattle.std.specs.Option.{option_map};
    ghost use Rattle.left_right.specs.Sides as sides;
    ghost use Rattle.run_watch.specs.declared.rule.Heard as heard;
    ghost use Rattle.run_watch.specs.Heard.{summary};
    ghost use Rattle.run_watch.specs.Ends.{heard_by, HasHeard};

    ghost Value = { heard.Heard };

    ghost view = { λ v. heard_by (option_map (λ r. sides.view r.place) v.reader) v.first.value };

    ghost invariant = { λ v. (v.kept ≡ summary (heard_by (option_map (λ r. sides.view r.place) v.reader) v.first.value)) × HasHeard (option_map (λ r. sides.view r.place) v.reader) };
}

/// All that a board was told, for a view to learn. Contracts see what the board had heard.
#[derive(Drop)]
pub struct Note {
    pub(crate) fresh: View,
}

impl Model for Note {
    ghost use Rattle.run_watch.specs.declared.rule.Heard.{Heard};

    ghost Value = { Heard };

    ghost view = { λ n. n.fresh };
}

impl View {
    /// How far the run has come, as far as the view sees it. It never waits.
    pub fn read(&mut self) -> Summary
        ensures reading { result ≡ summary self.new }
        ensures begins { IsBeginning self.old self.new }
        ensures steps { length self.old.pairs ≤ result.steps }
    {
        if let Some(reader) = self.reader.take() {
            match reader.enter_as::<Reading>() {
                Ok(reading) => {
                    self.kept = reading.get().summary;
                    self.reader = Some(reading.leave());
                }
                Err(reader) => self.reader = Some(reader),
            }
        }
        self.kept
    }

    /// From now on a reading has no fewer steps than the note. Where view and note are of one board, it begins with all that both have heard.
    pub fn learn(&mut self, note: Note)
        ensures heard { self.new ≡ longer self.old note }
        ensures begins { BeginOneList self.old note → IsBeginning self.old self.new × IsBeginning note self.new }
        ensures steps { (length self.old.pairs ≤ length self.new.pairs) × (length note.pairs ≤ length self.new.pairs) }
    {
        let Note { fresh } = note;
        if self.kept.steps < fresh.kept.steps {
            *self = fresh;
        }
    }
}
