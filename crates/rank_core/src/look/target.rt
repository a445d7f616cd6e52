// The variable that a call is on.
ghost use Rattle.std.specs.Prelude.{◌≡◌, true, Some, slice_get};
ghost use Rattle.serial_spec.specs.SoundHeaders.{is_sound};
ghost use Rattle.var_layout.specs.Measures.{AreMeasures};
ghost use Rattle.var_layout.specs.Measured.{AreMeasures-prop};

use crate::Rank;
use nc_base::{Header, Var};
use var_layout::Measures;

/// The variable that a call is on, with the id of its posts.
#[derive(Clone, Copy)]
pub(super) struct Target<'a> {
    pub(super) header: &'a Header,
    pub(super) measures: &'a Measures,
    /// The place of the variable in the header's list.
    pub(super) place: u32,
    pub(super) var: &'a Var,
    /// The record count that the rank knows.
    pub(super) known: u64,
    pub(super) id: u32,
    ghost sound: { is_sound header.now ≡ true },
    ghost there: { slice_get header.now.vars place ≡ Some var.now },
    ghost measured: { AreMeasures header.now measures.now } by { AreMeasures-prop header.now measures.now },
}

impl<'a> Rank<'a> {
    ghost use Rattle.std.specs.Prelude.{IfSome};
    ghost use Rattle.serial_spec.specs.Looks as looks;
    ghost use Rattle.rank_core.specs.Targets.{place_of, IsTargetOf};

    /// The variable of this name, for posts under this id.
    pub(super) fn target(&self, id: u32, name: &[u8]) -> Option<Target<'a>>
        ensures sound { is_sound self.now.header ≡ true }
        ensures found { place_of result ≡ looks.find_var self.now.header name.now }
        ensures target { IfSome result (IsTargetOf self.now id) }
    {
        let place = self.names.find_var(self.header, name)?;
        Some(Target {
            header: self.header,
            measures: self.names.measures(self.header),
            place: place as u32,
            var: &self.header.vars.as_slice()[place],
            known: self.known,
            id,
        })
    }
}
