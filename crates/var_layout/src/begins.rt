// The begins of a created file.
ghost use Rattle.std.specs.Prelude.{◌≡◌, ◌+◌, ◌<◌, ◌≤◌, ◌^◌, true, false, None, Some, length, position, option_map, MatchOption, IfOk, OnOk, OnErr};
ghost use Rattle.std.specs.Result.{result_err};
ghost use Rattle.nc_base.specs.declared.errors.LayoutErr.TheVariants as fault;
ghost use Rattle.serial_spec.specs.Layout.{begins, placed, vsize};
ghost use Rattle.serial_spec.specs.Layout as layout;
ghost use Rattle.serial_spec.specs.SoundHeaders.{is_sound, is_writable};
ghost use Rattle.serial_spec.specs.HeaderBytes as header_bytes;
ghost use Rattle.serial_spec.specs.Redefinition.{layout_fault, size_fault, is_large_var};
ghost use Rattle.var_layout.specs.Begins as spec;
ghost use Rattle.var_layout.specs.Begins.{lies_too_far, far_fixed, far_record, fixed_end, HasPlace};
ghost use Rattle.var_layout.specs.Capped.{capped};
ghost use Rattle.var_layout.specs.Unplaced.{is_unplaced, has_writable_parts};

use crate::capped;
use crate::sizes::{is_record, vsize_of};
use crate::written::header_len;
use nc_base::{Align, FILE_LIMIT, Header, LayoutErr, MAX_HEADER_BYTES, Var, VarList};

/// The greatest vsize that CDF-1 and CDF-2 can store.
const CLASSIC_VSIZE_MAX: u64 = (1 << 31) - 4;

/// A begin of CDF-1 is below this.
const CLASSIC_BEGIN_LIMIT: u64 = 1 << 31;

/// The least multiple of the unit that is `n` or more.
fn round_up(n: u64, unit: u64) -> u64
    requires number { n < 2 ^ 62 }
    requires unit { (0 < unit) × (unit ≤ 2 ^ 20) }
    ensures up { result ≡ layout.round_up unit n }
    ensures near { result < n + unit }
{
    (n + (unit - 1)) / unit * unit
}

/// Whether the version can't store the variable's vsize.
fn is_large(header: &Header, var: &Var) -> bool
    ensures { result ≡ is_large_var header.now var.now }
{
    header.version != 5 && CLASSIC_VSIZE_MAX < vsize_of(header, var)
}

/// The first variable whose vsize the version can't store: one above 2^31 - 4 in CDF-1 and CDF-2.
pub fn first_large(header: &Header) -> Option<usize>
    ensures { result ≡ position (is_large_var header.now) header.now.vars }
{
    header
        .vars
        .as_slice()
        .iter()
        .position(|var| is_large(header, var))
}

/// Refuses a variable or a header that is too large.
fn check_sizes(header: &Header, len: u64) -> Result<(), LayoutErr>
    requires { len ≡ capped (header_bytes.header_len header.now) }
    ensures fault { result_err result ≡ size_fault header.now }
    ensures small { OnOk result ((len ≡ header_bytes.header_len header.now) × (len ≤ 2 ^ 20)) }
{
    if let Some(k) = first_large(header) {
        return Err(LayoutErr::VarSize(k));
    }
    if MAX_HEADER_BYTES < len {
        Err(LayoutErr::HeaderRange)
    } else {
        Ok(())
    }
}

/// Where the variable ends that begins there, or None where it lies too far.
fn end_after(header: &Header, begin: u64, var: &Var) -> Option<u64>
    ensures { MatchOption result (lies_too_far header.now (record var.now { begin = begin }) ≡ true)
        (λ end. (lies_too_far header.now (record var.now { begin = begin }) ≡ false) × (end ≡ begin + vsize header.now var.now) × (end < 2 ^ 62)) }
{
    let end = capped::sum(begin, vsize_of(header, var));
    if header.version == 1 && CLASSIC_BEGIN_LIMIT <= begin {
        return None;
    }
    if end < FILE_LIMIT { Some(end) } else { None }
}

/// Where the fixed variables end, which come first in the order of the list; refuses the first that lies too far.
fn end_of_fixed(header: &Header, align: &Align, len: u64) -> Result<u64, LayoutErr>
    requires len { (len ≡ header_bytes.header_len header.now) × (len ≤ 2 ^ 20) }
    requires header_align { (0 < align.now.header) × (align.now.header ≤ 2 ^ 20) }
    requires var_align { (0 < align.now.var) × (align.now.var ≤ 2 ^ 20) }
    ensures fault { result_err result ≡ option_map (λ v. fault.BeginRange v.0) (far_fixed (begins header.now align.now len)) }
    ensures end { IfOk result (λ end. (end ≡ fixed_end header.now align.now len (length header.now.vars)) × (end < 2 ^ 62)) }
{
    let mut end = round_up(len, align.header);
    for (k, var) in header.vars.as_slice().iter().enumerate() {
        if !is_record(header, var) {
            match end_after(header, round_up(end, align.var), var) {
                Some(next) => end = next,
                None => return Err(LayoutErr::BeginRange(k)),
            }
        }
    }
    Ok(end)
}

/// Refuses the first record variable that lies too far, where the records begin at `first`.
fn check_records(header: &Header, align: &Align, len: u64, first: u64) -> Result<(), LayoutErr>
    requires { first ≡ spec.first_record header.now align.now len }
    ensures { result_err result ≡ option_map (λ v. fault.BeginRange v.0) (far_record (begins header.now align.now len)) }
{
    let mut begin = first;
    for (k, var) in header.vars.as_slice().iter().enumerate() {
        if is_record(header, var) {
            match end_after(header, begin, var) {
                Some(next) => begin = next,
                None => return Err(LayoutErr::BeginRange(k)),
            }
        }
    }
    Ok(())
}

/// Where the records begin; refuses a layout in the order of `lay_out`.
fn check_layout(header: &Header, align: &Align, len: u64) -> Result<u64, LayoutErr>
    requires len { len ≡ capped (header_bytes.header_len header.now) }
    requires header_align { (0 < align.now.header) × (align.now.header ≤ 2 ^ 20) }
    requires var_align { (0 < align.now.var) × (align.now.var ≤ 2 ^ 20) }
    ensures fault { result_err result ≡ layout_fault header.now align.now }
    ensures fits { IfOk result (λ first. HasPlace header.now align.now len first) }
{
    check_sizes(header, len)?;
    let end = end_of_fixed(header, align, len)?;
    let first = round_up(end, align.var);
    check_records(header, align, len, first)?;
    Ok(first)
}

/// Gives the header's variables, which stand apart, their begins.
fn write_begins(header: &Header, vars: &mut [Var], align: &Align, len: u64, first: u64)
    requires len { len ≤ 2 ^ 20 }
    requires header_align { (0 < align.now.header) × (align.now.header ≤ 2 ^ 20) }
    requires var_align { (0 < align.now.var) × (align.now.var ≤ 2 ^ 20) }
    requires first { first ≡ spec.first_record (record header.now { vars = vars.old }) align.now len }
    requires fixed_fit { far_fixed (begins (record header.now { vars = vars.old }) align.now len) ≡ None }
    requires records_fit { far_record (begins (record header.now { vars = vars.old }) align.now len) ≡ None }
    ensures { vars.new ≡ placed (record header.now { vars = vars.old }) align.now len 0 vars.old }
{
    let mut fixed = round_up(len, align.header);
    let mut record = first;
    for var in vars.iter_mut() {
        let bytes = vsize_of(header, var);
        if is_record(header, var) {
            var.begin = record;
            record += bytes;
        } else {
            var.begin = round_up(fixed, align.var);
            fixed = var.begin + bytes;
        }
    }
}

/// The header's variables, which were taken out of it, with their begins.
fn with_begins(header: &Header, vars: VarList, align: &Align, len: u64, first: u64) -> VarList
    requires header_align { (0 < align.now.header) × (align.now.header ≤ 2 ^ 20) }
    requires var_align { (0 < align.now.var) × (align.now.var ≤ 2 ^ 20) }
    requires fits { HasPlace (record header.now { vars = vars }) align.now len first }
    ensures { result ≡ placed (record header.now { vars = vars }) align.now len 0 vars }
{
    let mut vars = vars.into_vec();
    write_begins(header, vars.as_mut_slice(), align, len, first);
    VarList::from_vec(vars)
}

/// Gives each variable its begin: the fixed variables in the order of the list, then the record variables. The first
/// begin is the header's length rounded up to a multiple of `align.header`, then of `align.var`; each next one is where the
/// one before ends, for a fixed variable and the first record variable rounded up to a multiple of `align.var`.
///
/// Refused are, in this order: a vsize above 2^31 - 4 in CDF-1 and CDF-2, a header of more than 2^20 bytes, and, in the order of
/// placing, a begin above 2^31 - 1 in CDF-1 or a begin plus vsize of 2^62 or more. The begins are then as before.
pub fn lay_out(header: &mut Header, align: &Align) -> Result<(), LayoutErr>
    requires unplaced { is_unplaced header.old ≡ true }
    requires header_align { (0 < align.now.header) × (align.now.header ≤ 2 ^ 20) }
    requires var_align { (0 < align.now.var) × (align.now.var ≤ 2 ^ 20) }
    ensures fault { result_err result ≡ layout_fault header.old align.now }
    ensures begins { OnOk result (header.new ≡ begins header.old align.now (header_bytes.header_len header.old)) }
    ensures sound { OnOk result (is_sound header.new ≡ true) }
    ensures writable { OnOk result (has_writable_parts header.old ≡ true → is_writable header.new ≡ true) }
    ensures unchanged { OnErr result (header.new ≡ header.old) }
{
    let len = header_len(header);
    let first = check_layout(header, align, len)?;
    let vars = header.vars.take();
    header.vars = with_begins(header, vars, align, len, first);
    Ok(())
}
