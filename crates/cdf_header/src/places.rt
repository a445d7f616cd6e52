// What is wrong with the places of the variables.
ghost use Rattle.std.specs.Prelude.{◌≡◌, ◌<◌, ◌+◌, ◌^◌, None, IfOk, option_map, position};
ghost use Rattle.std.specs.List.{All};
ghost use Rattle.std.specs.Option.{option_or};
ghost use Rattle.nc_base.specs.declared.errors.HeaderErr.TheVariants as fault;
ghost use Rattle.serial_spec.specs.Layout.{sharing, slab};
ghost use Rattle.serial_spec.specs.HeaderBytes.{header_len};
ghost use Rattle.serial_spec.specs.HeaderFaults.{fault_if, is_too_large, measure, record_later};
ghost use Rattle.cdf_header.specs.Spans.{span_of, spans_of};

use crate::shared::first_shared;
use crate::spans::Span;
use nc_base::{Header, HeaderErr, Memory, Var};
use std::alloc::Global;
use var_layout::{is_record, measure, record_limit, recsize_of, slab_of};

/// Whether a variable does not keep its bound or the record count passes its limit.
fn is_too_large(header: &Header) -> bool
    ensures { result ≡ is_too_large header.now }
{
    measure(header).is_err() || header.records >= record_limit(header.version)
}

fn span_of(header: &Header, number: usize, var: &Var) -> Span
    requires { var.now.begin + slab header.now var.now < 2 ^ 62 }
    ensures { result ≡ span_of header.now number var.now }
{
    Span {
        begin: var.begin,
        end: var.begin + slab_of(header, var),
        number,
        is_record: is_record(header, var),
    }
}

/// Where the variables lie.
fn spans_of(alloc: Global, header: &Header) -> Result<Vec<Span>, Memory>
    requires { All (λ v. v.begin + slab header.now v < 2 ^ 62) header.now.vars }
    ensures { IfOk result (λ spans. spans.items ≡ spans_of header.now 0 header.now.vars) }
{
    let mut spans = Vec::with_capacity(alloc, header.vars.len())?;
    for (number, var) in header.vars.as_slice().iter().enumerate() {
        spans.push(span_of(header, number, var))?;
    }
    Ok(spans)
}

/// The first two variables that share a byte, or one that begins in the header, twice.
fn first_sharing(
    alloc: Global,
    header: &Header,
    header_end: u64,
) -> Result<Option<(usize, usize)>, Memory>
    requires bounds { measure header.now ≡ None }
    requires record_dims { position (record_later header.now) header.now.vars ≡ None }
    ensures { IfOk result (λ found. found ≡ sharing header.now header_end) }
{
    let spans = spans_of(alloc, header)?;
    let size = recsize_of(header);
    first_shared(alloc, &spans, size, header_end)
}

/// The first thing that is wrong with sizes and places. The header's own length is known.
pub(crate) fn place_fault(
    alloc: Global,
    header: &Header,
    len: u64,
) -> Result<Option<HeaderErr>, Memory>
    requires record_dims { position (record_later header.now) header.now.vars ≡ None }
    requires len { len ≡ header_len header.now }
    ensures { IfOk result (λ found. found ≡ option_or (fault_if (is_too_large header.now) fault.TooLarge)
        (option_map (λ p. fault.Shared p.0 p.1) (sharing header.now (header_len header.now)))) }
{
    let too_large = is_too_large(header);
    if too_large {
        return Ok(Some(HeaderErr::TooLarge));
    }
    let found = first_sharing(alloc, header, len)?;
    Ok(found.map(|(first, second)| HeaderErr::Shared(first, second)))
}
