// How many values a line may have, and of what kind.
ghost use Rattle.std.specs.Prelude.{◌≡◌, ◌≤◌, ◌+◌, ◌^◌, OnOk, ◌-◌, Ok};
ghost use Rattle.script_spec.specs.ScriptValues.{within_limits, may_be, are_numbers, are_patterns, are_text, wrong_kind};
ghost use Rattle.script_words.specs.Given.{Gives};

use nc_base::{LimitName, MAX_ELEMENTS, MAX_SCRIPT_VALUES, NcType, ScriptKind};
use script_words::ReadErr;

/// The limits on `n` values of one line, `before` having come in the lines before.
pub fn within_limits(kind: Option<NcType>, before: u64, n: u64) -> Result<(), ReadErr>
    ensures read { Gives (λ _. tt) result (within_limits kind before n) }
    ensures bound { OnOk result (before + n ≤ 2 ^ 24) }
{
    if kind.is_none() && n > MAX_ELEMENTS {
        return Err(ReadErr::Fault(ScriptKind::Limit(LimitName::Elements)));
    }
    if before.saturating_add(n) > MAX_SCRIPT_VALUES {
        return Err(ReadErr::Fault(ScriptKind::Limit(LimitName::Values)));
    }
    Ok(())
}

pub fn may_be_numbers(kind: Option<NcType>) -> bool
    ensures { result ≡ may_be are_numbers kind }
{
    !matches!(kind, Some(NcType::Char | NcType::Float | NcType::Double))
}

pub fn may_be_bits(kind: Option<NcType>) -> bool
    ensures { result ≡ may_be are_patterns kind }
{
    matches!(kind, None | Some(NcType::Float | NcType::Double))
}

pub fn may_be_text(kind: Option<NcType>) -> bool
    ensures { result ≡ may_be are_text kind }
{
    matches!(kind, None | Some(NcType::Char))
}

pub fn wrong_kind(kind: Option<NcType>) -> ScriptKind
    ensures { result ≡ wrong_kind kind }
{
    match kind {
        Some(NcType::Char) => ScriptKind::BadText,
        _ => ScriptKind::BadNumber,
    }
}
