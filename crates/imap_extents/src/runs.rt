// Values of equal steps in external form.
ghost use Rattle.std.specs.Prelude.{◌≡◌, ◌<◌, ◌++◌, ◌+ℤ◌, ◌*ℤ◌, ◌+◌, ◌*◌, ◌%◌, ◌^◌, ℕ, pos, false, not, min, map, take, flat_map, IfErr, IfSome, OnOk};
ghost use Rattle.std.specs.Int.{w64, cast_unsigned, int_wrap};
ghost use Rattle.std.specs.List.{list_any, range_with_len};
ghost use Rattle.nc_base.specs.declared.request.Value.{Value as Told};
ghost use Rattle.nc_base.specs.declared.request.Value.TheVariants as value;
ghost use Rattle.serial_spec.specs.ExternalForm.{ext, fits};
ghost use Rattle.imap_extents.specs.Refusals.{IsRangeRefusal};

use crate::blocks::{Codes, push_codes};
use nc_base::{BitRun, CallErr, Code, Memory, NcType, NumberRun, Value};
use type_external::code_of;

/// Values of equal steps.
pub(crate) trait Run: Copy {
    ghost told_at: { Self → ℕ → Told };

    ghost size: { Self → ℕ };

    fn count(self) -> u32
        ensures { result ≡ size self };

    /// Whether one of the first `count` values is not in the type's range.
    fn any_unfit(self, kind: NcType, count: u32) -> bool
        ensures { result ≡ list_any (λ v. not (fits kind v)) (map (told_at self) (range_with_len 0 count)) };

    /// Adds the first `count` values in external form.
    fn push_fitting(self, kind: NcType, count: u32, bytes: &mut Vec<u8>) -> Result<(), Memory>
        requires { list_any (λ v. not (fits kind v)) (map (told_at self) (range_with_len 0 count)) ≡ false }
        ensures { OnOk result (bytes.new.items ≡ bytes.old.items ++ flat_map (λ v. ext kind v) (map (told_at self) (range_with_len 0 count))) };
}

impl Codes for NumberRun {
    ghost code_at = { λ r k. cast_unsigned w64 (int_wrap w64 (r.first +ℤ (r.step *ℤ pos k))) };

    #[inline(always)]
    fn code_at(self, k: u64) -> u64 {
        let number = self.first.wrapping_add(self.step.wrapping_mul(k as i64));
        number.cast_unsigned()
    }
}

impl Codes for BitRun {
    ghost code_at = { λ r k. (r.first + r.step * k) % 2 ^ 64 };

    #[inline(always)]
    fn code_at(self, k: u64) -> u64 {
        self.first.wrapping_add(self.step.wrapping_mul(k))
    }
}

impl Run for NumberRun {
    ghost told_at = { λ r k. value.Number (r.first +ℤ (r.step *ℤ pos k)) };

    ghost size = { λ r. r.count };

    #[inline(always)]
    fn count(self) -> u32 {
        self.count
    }

    /// All lie between the first and the last.
    fn any_unfit(self, kind: NcType, count: u32) -> bool {
        if count == 0 {
            return false;
        }
        if is_unfit(kind, number_at(self, 0)) {
            return true;
        }
        is_unfit(kind, number_at(self, count - 1))
    }

    fn push_fitting(self, kind: NcType, count: u32, bytes: &mut Vec<u8>) -> Result<(), Memory> {
        push_codes(kind, self, count, bytes)
    }
}

impl Run for BitRun {
    ghost told_at = { λ r k. value.Bits ((r.first + r.step * k) % 2 ^ 64) };

    ghost size = { λ r. r.count };

    #[inline(always)]
    fn count(self) -> u32 {
        self.count
    }

    /// Where they don't begin anew from 0 the last is the greatest.
    fn any_unfit(self, kind: NcType, count: u32) -> bool {
        if count == 0 {
            return false;
        }
        match pattern_below_wrap(self, count - 1) {
            Some(last) => is_unfit(kind, Value::Bits(last)),
            None => any_pattern_unfit(kind, self, count),
        }
    }

    fn push_fitting(self, kind: NcType, count: u32, bytes: &mut Vec<u8>) -> Result<(), Memory> {
        push_codes(kind, self, count, bytes)
    }
}

fn number_at(run: NumberRun, k: u32) -> Value
    ensures { result ≡ value.Number (run.first +ℤ (run.step *ℤ pos k)) }
{
    Value::Number(run.at(k))
}

/// Whether a value is not in the type's range.
#[inline(always)]
fn is_unfit(kind: NcType, value: Value) -> bool
    ensures { result ≡ not (fits kind value) }
{
    code_of(kind, value).is_none()
}

/// Pattern `k`, where it takes no more than 64 bits without being cut to them.
fn pattern_below_wrap(run: BitRun, k: u32) -> Option<u64>
    ensures whole { IfSome result (λ n. n ≡ run.first + run.step * k) }
    ensures small { IfSome result (λ n. n < 2 ^ 64) }
{
    run.step.checked_mul(u64::from(k))?.checked_add(run.first)
}

fn any_pattern_unfit(kind: NcType, run: BitRun, count: u32) -> bool
    ensures { result ≡ list_any (λ v. not (fits kind v)) (map (λ k. value.Bits ((run.first + run.step * k) % 2 ^ 64)) (range_with_len 0 count)) }
{
    for k in 0..count {
        if is_unfit(kind, Value::Bits(run.at(k))) {
            return true;
        }
    }
    false
}

/// Adds the first `count` values of runs in external form.
pub(crate) fn push_runs<R: Run>(
    kind: NcType,
    runs: &[R],
    count: usize,
    bytes: &mut Vec<u8>,
) -> Result<(), CallErr>
    ensures ok { OnOk result (bytes.new.items ≡ bytes.old.items ++ flat_map (λ v. ext kind v) (take count (flat_map (λ r. map (R.told_at r) (range_with_len 0 (R.size r))) runs.now))) }
    ensures right { OnOk result (list_any (λ v. not (fits kind v)) (take count (flat_map (λ r. map (R.told_at r) (range_with_len 0 (R.size r))) runs.now)) ≡ false) }
    ensures refused { IfErr result (IsRangeRefusal (list_any (λ v. not (fits kind v)) (take count (flat_map (λ r. map (R.told_at r) (range_with_len 0 (R.size r))) runs.now)))) }
{
    let mut left = count;
    for run in runs {
        let here = lesser(run.count(), left);
        push_run(kind, *run, here, bytes)?;
        left -= here as usize;
    }
    Ok(())
}

#[inline(always)]
fn lesser(count: u32, left: usize) -> u32
    ensures { result ≡ min count left }
{
    if left < count as usize {
        left as u32
    } else {
        count
    }
}

/// Adds the first `count` values of a run in external form.
fn push_run<R: Run>(kind: NcType, run: R, count: u32, bytes: &mut Vec<u8>) -> Result<(), CallErr>
    ensures ok { OnOk result (bytes.new.items ≡ bytes.old.items ++ flat_map (λ v. ext kind v) (map (R.told_at run) (range_with_len 0 count))) }
    ensures right { OnOk result (list_any (λ v. not (fits kind v)) (map (R.told_at run) (range_with_len 0 count)) ≡ false) }
    ensures refused { IfErr result (IsRangeRefusal (list_any (λ v. not (fits kind v)) (map (R.told_at run) (range_with_len 0 count)))) }
{
    if run.any_unfit(kind, count) {
        return Err(CallErr::Code(Code::ERange));
    }
    run.push_fitting(kind, count, bytes)?;
    Ok(())
}
