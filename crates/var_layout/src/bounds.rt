// Whether the variables keep their bounds.
ghost use Rattle.std.specs.Prelude.{◌≡◌, ◌==◌, ℕ, length};
ghost use Rattle.std.specs.Result.{result_err};
ghost use Rattle.serial_spec.specs.Layout as layout;
ghost use Rattle.serial_spec.specs.HeaderFaults as faults;
ghost use Rattle.var_layout.specs.Capped.{capped};

use crate::capped;
use crate::end::end_of_var;
use crate::record::{is_lone, record_share, record_size};
use crate::sizes::{is_record, vsize_of};
use nc_base::{FILE_LIMIT, Header, Var};

/// Whether the variable keeps its bound, as by `measure`, where the variables before it add `before` to a record. The other
/// two are those of `is_lone` and `recsize_of`, which a caller takes once for all variables.
pub fn keeps_bound(header: &Header, lone: bool, size: u64, before: u64, var: &Var) -> bool
    requires lone { lone ≡ (length (layout.record_slabs header.now) == 1) }
    requires size { size ≡ capped (layout.recsize header.now) }
    ensures { (n : ℕ) → before ≡ capped n → result ≡ faults.keeps_bound header.now n var.now }
{
    let bytes = vsize_of(header, var);
    let fits = bytes < FILE_LIMIT && capped::sum(var.begin, bytes) < FILE_LIMIT;
    if is_record(header, var) {
        let end = end_of_var(header, lone, size, header.records, var);
        fits && capped::sum(before, bytes) < FILE_LIMIT && end < FILE_LIMIT
    } else {
        fits
    }
}

/// Whether each variable keeps its bound: its vsize, and its begin plus its vsize, are below 2^62, and for a record
/// variable the vsizes of the record variables up to it, and its end in the last record; else the least that does not.
pub fn measure(header: &Header) -> Result<(), usize>
    ensures { result_err result ≡ faults.measure header.now }
{
    let lone = is_lone(header);
    let size = record_size(header, lone);
    let mut before = 0;
    for (k, var) in header.vars.as_slice().iter().enumerate() {
        if !keeps_bound(header, lone, size, before, var) {
            return Err(k);
        }
        before = capped::sum(before, record_share(header, var));
    }
    Ok(())
}
