// Why a header is not made, and what of it is refused.
ghost use Rattle.std.specs.Prelude.{◌≡◌};
ghost use Rattle.nc_classic_c.specs.Causes.{cause_number, part_shown, shown};

/// Why a definition, or the whole header, is refused.
#[derive(Clone, Copy)]
pub enum Cause {
    Argument,
    TooLarge,
    Room,
    BadName,
    MaxName,
    NameInUse,
    DimSize,
    Unlimit,
    UnlimPos,
    BadDim,
    BadType,
    StrictCdf2,
    Inval,
    VarSize,
    MaxDims,
    MaxAtts,
    MaxVars,
}

/// What of a header is refused. Numbers count from 0.
#[derive(Clone, Copy)]
pub enum Part {
    Whole,
    Dim(usize),
    /// An attribute of the variable of the first number, or of the dataset.
    Att(u64, usize),
    Var(usize),
}

/// Why a header is not made.
#[derive(Clone, Copy)]
pub struct Unmade {
    pub cause: Cause,
    pub part: Part,
}

/// What of a header is refused, as C reads it.
#[repr(C)]
#[derive(Clone, Copy)]
pub struct NcvRefused {
    /// Whether it is a dimension, an attribute, a variable or the whole.
    pub part: u32,
    /// Its number among those.
    pub number: u64,
    /// An attribute's owner.
    pub owner: u64,
}

/// The number of a cause: netCDF's own below 0, and this library's above 0.
pub(crate) fn cause_number(cause: Cause) -> i32
    ensures { result ≡ cause_number cause }
{
    match cause {
        Cause::TooLarge => 3,
        Cause::Argument => 4,
        Cause::Room => 6,
        Cause::Inval => -36,
        Cause::MaxDims => -41,
        Cause::NameInUse => -42,
        Cause::MaxAtts => -44,
        Cause::BadType => -45,
        Cause::BadDim => -46,
        Cause::UnlimPos => -47,
        Cause::MaxVars => -48,
        Cause::MaxName => -53,
        Cause::Unlimit => -54,
        Cause::BadName => -59,
        Cause::VarSize => -62,
        Cause::DimSize => -63,
        Cause::StrictCdf2 => -232,
    }
}

fn shown(part: u32, number: u64, owner: u64) -> NcvRefused
    ensures { result ≡ shown part number owner }
{
    NcvRefused {
        part,
        number,
        owner,
    }
}

/// A part by its numbers.
pub(crate) fn part_shown(part: Part) -> NcvRefused
    ensures { result ≡ part_shown part }
{
    match part {
        Part::Whole => shown(0, 0, 0),
        Part::Dim(number) => shown(1, number as u64, 0),
        Part::Att(owner, number) => shown(2, number as u64, owner),
        Part::Var(number) => shown(3, number as u64, 0),
    }
}
