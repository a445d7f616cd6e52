// What a run lends to its threads.
ghost use Rattle.std.specs.Prelude.{◌≡◌, true};
ghost use Rattle.serial_spec.specs.Lawful.{is_lawful};
ghost use Rattle.serial_spec.specs.SoundHeaders.{is_sound};

use nc_base::{Header, Script};
use piece_exchange::Tools;
use rank_core::Names;

/// A run: a script, the header of the dataset that it runs on, and what it is done with.
#[derive(Drop)]
pub(crate) struct Run<'a, R, G> {
    pub tools: &'a Tools<'a, R, G>,
    pub header: &'a Header,
    pub script: &'a Script,
    ghost sound: { is_sound header.now ≡ true },
    ghost lawful: { is_lawful script.now ≡ true },
}

/// What a run lends to each of its ranks' threads.
#[derive(Drop)]
pub(crate) struct Lent<'a, R, G> {
    pub run: &'a Run<'a, R, G>,
    pub names: &'a Names,
}
