// What a step is lent.
ghost use Rattle.std.specs.Prelude.{◌≡◌, true};
ghost use Rattle.var_layout.specs.Measured.{AreMeasures-prop};
ghost use Rattle.serial_spec.specs.Lawful.{are_lawful_hints};
ghost use Rattle.serial_spec.specs.SoundHeaders.{is_sound};
ghost use Rattle.var_layout.specs.Measures.{AreMeasures};

use nc_base::{Header, Hints};
use var_layout::Measures;

/// A dataset as its steps are lent it: a sound header, what the header implies, and lawful hints.
#[derive(Clone, Copy, Drop)]
pub struct Dataset<'a> {
    pub header: &'a Header,
    pub measures: &'a Measures,
    pub hints: &'a Hints,
    pub ghost sound: { is_sound header.now ≡ true },
    pub ghost measured: { AreMeasures header.now measures.now } by { AreMeasures-prop header.now measures.now },
    pub ghost lawful: { are_lawful_hints hints.now ≡ true },
}
