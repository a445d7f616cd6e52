// The new begins in the header.
ghost use Rattle.std.specs.Prelude.{◌≡◌, map, length};
ghost use Rattle.std.specs.List.{enumerate_from};
ghost use Rattle.serial_spec.specs.Redefinition.{begin_of_number};
ghost use Rattle.serial_spec.specs.Redefinition as spec;
ghost use Rattle.redef_mover.specs.NewBegins.{pairs, HasOneEach};

use crate::new_begins::Place;
use nc_base::{Header, Var};

fn write_begins(vars: &mut [Var], places: &[Place])
    requires { HasOneEach (length vars.old) (pairs places.now) }
    ensures { vars.new ≡ map (λ v. record v.1 { begin = begin_of_number (pairs places.now) v.0 }) (enumerate_from 0 vars.old) }
{
    for place in places {
        vars[place.number].begin = place.begin;
    }
}

/// Gives the variables their new begins.
pub(crate) fn set_begins(header: &mut Header, places: &[Place])
    requires { HasOneEach (length header.old.vars) (pairs places.now) }
    ensures { header.new ≡ spec.with_begins header.old (pairs places.now) }
{
    write_begins(header.vars.as_mut_slice(), places);
}
