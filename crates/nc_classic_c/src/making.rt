// The bytes of a header that is defined.
ghost use Rattle.std.specs.Prelude.{◌≡◌, ◌≤◌, ◌<◌, ◌^◌, true, IfOk, IfErr, OnOk, OnErr, length};
ghost use Rattle.std.specs.Result.{result_err};
ghost use Rattle.serial_spec.specs.HeaderBytes.{canon};
ghost use Rattle.serial_spec.specs.SoundHeaders.{is_writable};
ghost use Rattle.var_layout.specs.Unplaced.{is_unplaced, has_writable_parts};
ghost use Rattle.nc_classic_c.specs.declared.answers.Refusal.TheVariants as refusal;
ghost use Rattle.nc_classic_c.specs.declared.causes.Cause.TheVariants as cause;
ghost use Rattle.nc_classic_c.specs.Answers.{IsAnswer};
ghost use Rattle.nc_classic_c.specs.Extents.{filled};
ghost use Rattle.nc_classic_c.specs.Making.{align_of, is_align, is_asked, of_whole, argument_refusal, place_refusal, placed_header, made_header, refusal_of, why_unmade, refused_told, len_told, IsMade, IsUnmade};

use crate::answers::{OK, Refusal, number_of};
use crate::causes::{Cause, NcvRefused, Part, Unmade, part_shown};
use crate::copies::fill;
use crate::definitions::check_definitions;
use crate::sizes::fits;
use crate::tables::{NcvHeaderDef, header_of};
use cdf_header::encode;
use cdf_header::laws::written_law;
use nc_base::{Align, Blob, Header, LayoutErr, MAX_ALIGN};
use std::alloc::Global;
use var_layout::lay_out;

impl From<Unmade> for Refusal {
    ghost use Rattle.nc_classic_c.specs.declared.answers.Refusal.TheVariants as refusal;

    ghost from_gives = { λ u r. r ≡ refusal.Unmade u };

    fn from(unmade: Unmade) -> Self {
        Refusal::Unmade(unmade)
    }
}

fn of_whole(cause: Cause) -> Unmade
    ensures { result ≡ of_whole cause }
{
    let part = Part::Whole;
    Unmade { cause, part }
}

impl From<LayoutErr> for Unmade {
    ghost use Rattle.nc_classic_c.specs.Making.{of_layout};

    ghost from_gives = { λ e u. u ≡ of_layout e };

    fn from(fault: LayoutErr) -> Self {
        match fault {
            LayoutErr::HeaderRange => of_whole(Cause::TooLarge),
            LayoutErr::VarSize(k) | LayoutErr::BeginRange(k) => Unmade {
                cause: Cause::VarSize,
                part: Part::Var(k),
            },
        }
    }
}

fn is_align(n: u64) -> bool
    ensures { result ≡ is_align n }
{
    1 <= n && n <= MAX_ALIGN
}

/// The version and the alignment, which have to be within their limits.
fn asked(defined: &NcvHeaderDef) -> Result<(u8, Align), Unmade>
    ensures refused { result_err result ≡ argument_refusal defined.now }
    ensures version { IfOk result (λ r. r.0 ≡ defined.now.version) }
    ensures align { IfOk result (λ r. r.1 ≡ align_of defined.now) }
    ensures asked { OnOk result (is_asked defined.now ≡ true) }
    ensures header_align { IfOk result (λ r. (0 < r.1.header) × (r.1.header ≤ 2 ^ 20)) }
    ensures var_align { IfOk result (λ r. (0 < r.1.var) × (r.1.var ≤ 2 ^ 20)) }
{
    let align = Align {
        header: defined.header_align,
        var: defined.var_align,
    };
    let right = is_align(align.header) && is_align(align.var);
    match defined.version {
        1 if right => Ok((1, align)),
        2 if right => Ok((2, align)),
        5 if right => Ok((5, align)),
        _ => Err(of_whole(Cause::Argument)),
    }
}

/// Gives the header begins and a record count.
fn place(header: &mut Header, align: &Align, records: u64) -> Result<(), Unmade>
    requires unplaced { is_unplaced header.old ≡ true }
    requires parts { has_writable_parts header.old ≡ true }
    requires header_align { (0 < align.now.header) × (align.now.header ≤ 2 ^ 20) }
    requires var_align { (0 < align.now.var) × (align.now.var ≤ 2 ^ 20) }
    ensures refused { result_err result ≡ place_refusal header.old align.now records }
    ensures placed { OnOk result (header.new ≡ placed_header header.old align.now records) }
    ensures writable { OnOk result (is_writable header.new ≡ true) }
{
    lay_out(header, align)?;
    if !fits(header, records) {
        return Err(of_whole(Cause::TooLarge));
    }
    header.records = records;
    Ok(())
}

/// The bytes of the header with begins and a record count.
fn written(alloc: Global, header: &mut Header, align: &Align, records: u64) -> Result<Blob, Refusal>
    requires unplaced { is_unplaced header.old ≡ true }
    requires parts { has_writable_parts header.old ≡ true }
    requires header_align { (0 < align.now.header) × (align.now.header ≤ 2 ^ 20) }
    requires var_align { (0 < align.now.var) × (align.now.var ≤ 2 ^ 20) }
    ensures none_refused { OnOk result (None ≡ place_refusal header.old align.now records) }
    ensures bytes { IfOk result (λ bytes. bytes ≡ canon (placed_header header.old align.now records)) }
    ensures writable { OnOk result (is_writable (placed_header header.old align.now records) ≡ true) }
    ensures refused { IfErr result (IsUnmade (place_refusal header.old align.now records)) }
{
    place(header, align, records)?;
    Ok(encode(alloc, header)?)
}

/// The bytes of the header that is defined.
fn made(alloc: Global, defined: &NcvHeaderDef) -> Result<Blob, Refusal>
    ensures none_refused { OnOk result (refusal_of defined.now ≡ None) }
    ensures bytes { IfOk result (λ bytes. bytes ≡ canon (made_header defined.now)) }
    ensures writable { OnOk result (is_writable (made_header defined.now) ≡ true) }
    ensures refused { IfErr result (IsUnmade (refusal_of defined.now)) }
{
    let (version, align) = asked(defined)?;
    check_definitions(version, defined)?;
    let mut header = header_of(alloc, version, defined)?;
    written(alloc, &mut header, &align, defined.records)
}

/// Copies the bytes, if there is room for all of them, and tells how many they are.
fn give(bytes: &[u8], into: &mut [u8], len: &mut u64) -> Result<(), Refusal>
    ensures len { len.new ≡ length bytes.now }
    ensures given { OnOk result (into.new ≡ filled into.old bytes.now) }
    ensures room { OnOk result (length bytes.now ≤ length into.old) }
    ensures refused { IfErr result (λ r. r ≡ refusal.Unmade (of_whole cause.Room)) }
    ensures no_room { OnErr result (length into.old < length bytes.now) }
    ensures kept { OnErr result (into.new ≡ into.old) }
{
    *len = bytes.len() as u64;
    if into.len() < bytes.len() {
        return Err(Refusal::Unmade(of_whole(Cause::Room)));
    }
    fill(bytes, into);
    Ok(())
}

/// Makes the bytes, and gives them.
fn make_into(
    alloc: Global,
    defined: &NcvHeaderDef,
    into: &mut [u8],
    len: &mut u64,
) -> Result<(), Refusal>
    ensures made { OnOk result (IsMade defined.now len.new into.old into.new) }
    ensures refused { IfErr result (IsUnmade (why_unmade defined.now (length into.old))) }
    ensures len { IfErr result (λ r. len.new ≡ len_told defined.now r len.old) }
    ensures kept { OnErr result (into.new ≡ into.old) }
{
    written_law();
    let bytes = made(alloc, defined)?;
    give(bytes.as_slice(), into, len)
}

/// Tells what is refused, if something is.
fn tell(refusal: Refusal, refused: &mut NcvRefused)
    ensures { refused.new ≡ refused_told refusal refused.old }
{
    if let Refusal::Unmade(unmade) = refusal {
        *refused = part_shown(unmade.part);
    }
}

/// The bytes of the header that is defined, laid out and with its record count, or what of it is refused first.
#[unsafe(no_mangle)]
pub extern "C" fn ncv_header_make(
    alloc: Global,
    defined: &NcvHeaderDef,
    into: &mut [u8],
    len: &mut u64,
    refused: &mut NcvRefused,
) -> i32
    ensures { IsAnswer result
        (IsMade defined.now len.new into.old into.new × (refused.new ≡ refused.old))
        (λ r. IsUnmade (why_unmade defined.now (length into.old)) r × (refused.new ≡ refused_told r refused.old)
        × (len.new ≡ len_told defined.now r len.old) × (into.new ≡ into.old)) }
{
    match make_into(alloc, defined, into, len) {
        Ok(()) => OK,
        Err(refusal) => {
            tell(refusal, refused);
            number_of(refusal)
        }
    }
}
