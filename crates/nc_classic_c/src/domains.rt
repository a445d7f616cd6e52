// The domains of a collective step.
ghost use Rattle.std.specs.Prelude.{◌≡◌, false};
ghost use Rattle.nc_classic_c.specs.Answers.{IsAnswer};
ghost use Rattle.nc_classic_c.specs.Domains.{is_asked, IsDomain, IsDomainRefusal};

use crate::answers::{OK, Refusal, number_of};
use crate::extents::NcvExtent;
use file_domains::cut;
use nc_base::{Code, FILE_LIMIT, MAX_AGGREGATORS};

/// The greatest striping unit.
pub(crate) const MAX_UNIT: u64 = 1 << 25;

fn is_asked(lo: u64, hi: u64, aggregators: u32, unit: u64, number: u32) -> bool
    ensures { result ≡ is_asked lo hi aggregators unit number }
{
    lo <= hi
        && hi < FILE_LIMIT
        && number < aggregators
        && aggregators <= MAX_AGGREGATORS
        && 1 <= unit
        && unit <= MAX_UNIT
}

/// The domain of an aggregator, where the bytes from one place to another are divided among several by whole striping units.
#[unsafe(no_mangle)]
pub extern "C" fn ncv_domain(
    lo: u64,
    hi: u64,
    aggregators: u32,
    unit: u64,
    number: u32,
    domain: &mut NcvExtent,
) -> i32
    ensures { IsAnswer result
        (IsDomain lo hi aggregators unit number domain.new)
        (λ r. IsDomainRefusal lo hi aggregators unit number r × (domain.new ≡ domain.old)) }
{
    if is_asked(lo, hi, aggregators, unit, number) {
        let found = cut(lo, hi, aggregators, unit, number);
        *domain = NcvExtent {
            at: found.at,
            len: found.len,
        };
        OK
    } else {
        number_of(Refusal::Asked(Code::EInvalRequest))
    }
}
