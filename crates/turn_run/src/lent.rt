// What the steps of a run are lent.
ghost use Rattle.std.specs.Prelude.{◌≡◌, true};
ghost use Rattle.serial_spec.specs.Lawful.{is_lawful};
ghost use Rattle.serial_spec.specs.SoundHeaders.{is_sound};
ghost use Rattle.var_layout.specs.Measured.{AreMeasures-prop};
ghost use Rattle.var_layout.specs.Measures.{AreMeasures};

use nc_base::{Header, MarkList, Script};
use piece_exchange::Tools;
use var_layout::Measures;

/// A script, and the dataset that it runs on: the header, and what the header implies.
#[derive(Clone, Copy, Drop)]
pub(crate) struct Setup<'h, 's> {
    pub header: &'h Header,
    pub measures: &'h Measures,
    pub script: &'s Script,
    ghost sound: { is_sound header.now ≡ true },
    ghost measured: { AreMeasures header.now measures.now } by { AreMeasures-prop header.now measures.now },
    ghost lawful: { is_lawful script.now ≡ true },
}

/// What a run lends to each of its steps.
#[derive(Drop)]
pub(crate) struct Lent<'t, 'h, 's, R, G> {
    pub tools: Tools<'t, R, G>,
    pub setup: Setup<'h, 's>,
}

/// How far a run has come: the file's count of records, and the finished steps in order.
#[derive(Drop)]
pub(crate) struct Progress {
    pub records: u64,
    pub order: MarkList,
}
