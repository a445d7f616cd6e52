// The names of a variable's dimensions.
ghost use Rattle.std.specs.Prelude.{◌≡◌, ◌++◌, OnOk, flat_map, map};
ghost use Rattle.script_spec.specs.Texts.{dim_name};

use crate::words::push_bytes;
use nc_base::{Header, Memory};

/// The name of a dimension, empty for an id that none has.
fn dim_name(header: &Header, id: u32) -> &[u8]
    ensures { result.now ≡ dim_name header.now id }
{
    match header.dims.as_slice().get(id as usize) {
        Some(dim) => dim.name.as_slice(),
        None => b"",
    }
}

/// The names of one dimension and others, with these bytes between.
pub fn push_dim_names(
    out: &mut Vec<u8>,
    header: &Header,
    between: &[u8],
    first: u32,
    others: &[u32],
) -> Result<(), Memory>
    ensures { OnOk result (out.new.items ≡ out.old.items
        ++ (dim_name header.now first ++ flat_map (λ name. between.now ++ name) (map (dim_name header.now) others.now))) }
{
    push_bytes(out, dim_name(header, first))?;
    push_other_names(out, header, between, others)
}

/// The names, each behind these bytes.
#[tactic(auto, using(crate::proofs::WordLaws::mapped_more))]
fn push_other_names(
    out: &mut Vec<u8>,
    header: &Header,
    between: &[u8],
    ids: &[u32],
) -> Result<(), Memory>
    ensures { OnOk result (out.new.items ≡ out.old.items ++ flat_map (λ name. between.now ++ name) (map (dim_name header.now) ids.now)) }
{
    for id in ids {
        push_bytes(out, between)?;
        push_bytes(out, dim_name(header, *id))?;
    }
    Ok(())
}
