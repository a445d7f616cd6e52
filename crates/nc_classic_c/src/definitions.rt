// Whether definitions can be taken, one after another.
ghost use Rattle.std.specs.Prelude.{◌≡◌, ℕ, List, [], drop, nat_le, length, bytes_eq, Option};
ghost use Rattle.std.specs.List.{list_any};
ghost use Rattle.std.specs.Result.{result_err};
ghost use Rattle.serial_spec.specs.HeaderBytes as header_bytes;
ghost use Rattle.nc_classic_c.specs.declared.causes.Unmade.{Unmade as Refused};
ghost use Rattle.nc_classic_c.specs.Definitions.{is_record_dim, is_record_id, type_cause, dim_cause, att_cause, var_cause, first_refused, dim_refusal, att_refusal, atts_refusal, var_refusal, definition_refusal};

use crate::causes::{Cause, Part, Unmade};
use crate::looks::DATASET;
use crate::naming::check_name;
use crate::tables::{NcvAttDef, NcvDimDef, NcvHeaderDef, NcvVarDef, kind_of};
use nc_base::{MAX_DIMS, MAX_HEADER_BYTES, MAX_VAR_DIMS, MAX_VARS};
use type_external::size_of;
use var_layout::record_limit;

/// Attributes of one owner.
const MAX_ATTS: usize = 1 << 16;

/// The greatest type number of the version.
fn last_type(version: u8) -> u32
    ensures { result ≡ header_bytes.last_type version }
{
    if version == 5 { 11 } else { 6 }
}

fn check_type(version: u8, number: u32) -> Result<(), Cause>
    ensures { result_err result ≡ type_cause version number }
{
    if number == 0 || 11 < number {
        Err(Cause::BadType)
    } else if last_type(version) < number {
        Err(Cause::StrictCdf2)
    } else {
        Ok(())
    }
}

// ---- one after another

/// A definition that has a name.
trait Named {
    ghost name_of: { Self → List ℕ };

    fn name(&self) -> &[u8]
        ensures { result.now ≡ name_of self.now };
}

impl Named for NcvDimDef<'_> {
    ghost name_of = { λ d. d.name.now };

    fn name(&self) -> &[u8] {
        self.name
    }
}

impl Named for NcvAttDef<'_> {
    ghost name_of = { λ a. a.name.now };

    fn name(&self) -> &[u8] {
        self.name
    }
}

impl Named for NcvVarDef<'_> {
    ghost name_of = { λ v. v.name.now };

    fn name(&self) -> &[u8] {
        self.name
    }
}

fn has_name<T: Named>(items: &[T], name: &[u8]) -> bool
    ensures { result ≡ list_any (λ x. bytes_eq (T.name_of x) name.now) items.now }
{
    items.iter().any(|item| item.name() == name)
}

/// A definition that is taken, or not, after those before it; `among` is what else that depends on.
trait Checked<C>: Sized {
    ghost refusal: { C → List Self → Self → Option Refused };

    fn check(&self, among: C, before: &[Self]) -> Result<(), Unmade>
        ensures { result_err result ≡ refusal among before.now self.now };
}

/// Refuses the first that can't be taken.
fn check_all<C: Copy, T: Checked<C>>(among: C, items: &[T]) -> Result<(), Unmade>
    ensures { result_err result ≡ first_refused (T.refusal among) [] items.now }
{
    for (k, item) in items.iter().enumerate() {
        item.check(among, &items[..k])?;
    }
    Ok(())
}

// ---- dimensions

fn has_record_dim(dims: &[NcvDimDef]) -> bool
    ensures { result ≡ list_any is_record_dim dims.now }
{
    dims.iter().any(|dim| dim.length == 0)
}

fn try_dim(version: u8, before: &[NcvDimDef], dim: &NcvDimDef) -> Result<(), Cause>
    ensures { result_err result ≡ dim_cause version before.now dim.now }
{
    check_name(dim.name)?;
    if record_limit(version) <= dim.length {
        Err(Cause::DimSize)
    } else if dim.length == 0 && has_record_dim(before) {
        Err(Cause::Unlimit)
    } else if has_name(before, dim.name) {
        Err(Cause::NameInUse)
    } else if MAX_DIMS <= before.len() {
        Err(Cause::MaxDims)
    } else {
        Ok(())
    }
}

/// Among those of a version.
impl Checked<u8> for NcvDimDef<'_> {
    ghost refusal = { λ version before d. dim_refusal version before d };

    fn check(&self, version: u8, before: &[Self]) -> Result<(), Unmade> {
        let part = Part::Dim(before.len());
        match try_dim(version, before, self) {
            Ok(()) => Ok(()),
            Err(cause) => Err(Unmade { cause, part }),
        }
    }
}

fn check_dims(version: u8, dims: &[NcvDimDef]) -> Result<(), Unmade>
    ensures { result_err result ≡ first_refused (dim_refusal version) [] dims.now }
{
    check_all(version, dims)
}

// ---- attributes

fn try_att(version: u8, before: &[NcvAttDef], attr: &NcvAttDef) -> Result<(), Cause>
    ensures { result_err result ≡ att_cause version before.now attr.now }
{
    check_name(attr.name)?;
    check_type(version, attr.kind)?;
    let bytes = attr.values.len() as u64;
    if bytes % size_of(kind_of(attr.kind)) != 0 {
        Err(Cause::Inval)
    } else if MAX_HEADER_BYTES < bytes {
        Err(Cause::TooLarge)
    } else if has_name(before, attr.name) {
        Err(Cause::NameInUse)
    } else if MAX_ATTS <= before.len() {
        Err(Cause::MaxAtts)
    } else {
        Ok(())
    }
}

/// Among those of a version and an owner.
impl Checked<(u8, u64)> for NcvAttDef<'_> {
    ghost refusal = { λ among before a. att_refusal among.0 among.1 before a };

    fn check(&self, among: (u8, u64), before: &[Self]) -> Result<(), Unmade> {
        let part = Part::Att(among.1, before.len());
        match try_att(among.0, before, self) {
            Ok(()) => Ok(()),
            Err(cause) => Err(Unmade { cause, part }),
        }
    }
}

/// The attributes of an owner.
fn check_atts(version: u8, owner: u64, attrs: &[NcvAttDef]) -> Result<(), Unmade>
    ensures { result_err result ≡ atts_refusal version owner attrs.now }
{
    check_all((version, owner), attrs)
}

// ---- variables

fn has_bad_id(dims: &[NcvDimDef], ids: &[u32]) -> bool
    ensures { result ≡ list_any (λ id. nat_le (length dims.now) id) ids.now }
{
    let count = dims.len();
    ids.iter().any(|id| count <= *id as usize)
}

fn is_record_id(dims: &[NcvDimDef], id: u32) -> bool
    ensures { result ≡ is_record_id dims.now id }
{
    match dims.get(id as usize) {
        Some(dim) => dim.length == 0,
        None => false,
    }
}

/// Whether a dimension behind the first is the record dimension.
fn has_later_record(dims: &[NcvDimDef], ids: &[u32]) -> bool
    ensures { result ≡ list_any (is_record_id dims.now) (drop 1 ids.now) }
{
    ids.iter().skip(1).any(|id| is_record_id(dims, *id))
}

fn try_var(
    version: u8,
    dims: &[NcvDimDef],
    before: &[NcvVarDef],
    var: &NcvVarDef,
) -> Result<(), Cause>
    ensures { result_err result ≡ var_cause version dims.now before.now var.now }
{
    check_name(var.name)?;
    check_type(version, var.kind)?;
    if has_name(before, var.name) {
        Err(Cause::NameInUse)
    } else if has_bad_id(dims, var.ids) {
        Err(Cause::BadDim)
    } else if has_later_record(dims, var.ids) {
        Err(Cause::UnlimPos)
    } else if MAX_VAR_DIMS < var.ids.len() {
        Err(Cause::MaxDims)
    } else if MAX_VARS <= before.len() {
        Err(Cause::MaxVars)
    } else {
        Ok(())
    }
}

/// Among those of a version over these dimensions: the variable, then its attributes.
impl<'a> Checked<(u8, &'a [NcvDimDef<'a>])> for NcvVarDef<'_> {
    ghost refusal = { λ among before v. var_refusal among.0 among.1.now before v };

    fn check(&self, among: (u8, &'a [NcvDimDef<'a>]), before: &[Self]) -> Result<(), Unmade> {
        let (version, dims) = among;
        let part = Part::Var(before.len());
        match try_var(version, dims, before, self) {
            Ok(()) => check_atts(version, before.len() as u64, self.attrs),
            Err(cause) => Err(Unmade { cause, part }),
        }
    }
}

fn check_vars(version: u8, dims: &[NcvDimDef], vars: &[NcvVarDef]) -> Result<(), Unmade>
    ensures { result_err result ≡ first_refused (var_refusal version dims.now) [] vars.now }
{
    check_all((version, dims), vars)
}

/// Refuses the first of the definitions that can't be taken after those before it.
pub(crate) fn check_definitions(version: u8, defined: &NcvHeaderDef) -> Result<(), Unmade>
    requires { version ≡ defined.now.version }
    ensures { result_err result ≡ definition_refusal defined.now }
{
    check_dims(version, defined.dims)?;
    check_atts(version, DATASET, defined.attrs)?;
    check_vars(version, defined.dims, defined.vars)
}
