// Why a call is refused, and the number by which C is told.
ghost use Rattle.std.specs.Prelude.{◌≡◌};
ghost use Rattle.nc_classic_c.specs.Answers.{code_number, number_of, refusal_of};

use crate::causes::{Unmade, cause_number};
use nc_base::{Code, HeaderErr, Memory};

/// The call did what it is for.
pub(crate) const OK: i32 = 0;

/// Why a call did nothing.
#[derive(Clone, Copy)]
pub enum Refusal {
    Memory,
    /// The bytes begin with no header.
    Header(HeaderErr),
    /// What is asked for is refused.
    Asked(Code),
    /// No attribute has this number or name.
    NoAttribute,
    /// Two requests hold a byte in common.
    Shared,
    /// The value of this number is not in the range of the type.
    Range(u64),
    /// A header is not made.
    Unmade(Unmade),
}

impl From<Memory> for Refusal {
    ghost use Rattle.nc_classic_c.specs.declared.answers.Refusal.TheVariants as refusal;

    ghost from_gives = { λ _ r. r ≡ refusal.Memory };

    fn from(_: Memory) -> Self {
        Refusal::Memory
    }
}

/// Why there is no header.
#[tactic(auto, using(crate::proofs::Refusing::other_refusal))]
pub(crate) fn refusal_of(fault: HeaderErr) -> Refusal
    ensures { result ≡ refusal_of fault }
{
    match fault {
        HeaderErr::Memory => Refusal::Memory,
        fault => Refusal::Header(fault),
    }
}

/// The number of a refusal: above 0 for causes of this library's, and netCDF's own number for an error of netCDF.
pub(crate) fn number_of(refusal: Refusal) -> i32
    ensures { result ≡ number_of refusal }
{
    match refusal {
        Refusal::Memory => 1,
        Refusal::Header(_) => 2,
        Refusal::Asked(code) => code_number(code),
        Refusal::NoAttribute => -43,
        Refusal::Shared => 5,
        Refusal::Range(_) => -60,
        Refusal::Unmade(unmade) => cause_number(unmade.cause),
    }
}

fn code_number(code: Code) -> i32
    ensures { result ≡ code_number code }
{
    match code {
        Code::EInvalCoords => -40,
        Code::EBadType => -45,
        Code::ENotVar => -49,
        Code::EChar => -56,
        Code::EEdge => -57,
        Code::EStride => -58,
        Code::EBadDim => -46,
        Code::ETooLarge => 3,
        _ => 4,
    }
}
