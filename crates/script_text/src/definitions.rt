// The lines of dimensions, variables and attributes.
ghost use Rattle.std.specs.Prelude.{◌≡◌, ◌≢◌, ◌*◌, ◌++◌, ◌∷◌, ◌==◌, [], true, OnOk, if◌then◌else◌, codes, decimal, flat_map, length, map};
ghost use Rattle.std.specs.List.{list_all};
ghost use Rattle.nc_base.specs.declared.header.Var.{Var};
ghost use Rattle.serial_spec.specs.ExternalForm.{size_of, val};
ghost use Rattle.serial_spec.specs.Lawful.{is_whole_attr, is_whole_extra};
ghost use Rattle.script_spec.specs.Texts.{dim_name, joined, type_word};
ghost use Rattle.script_spec.specs.Shown.{attr_values, bracketed, pieces, shown_attr, shown_definitions, shown_dim, shown_extra, shown_values, shown_var};
ghost use Rattle.printed_text.specs.Spaced.{spaced};
ghost use Rattle.script_text.specs.CanonicalParts.{value_word};

use nc_base::{Attr, Dim, Extra, Header, Memory, Name, NcType, Value, Var};
use printed_text::dimensions::push_dim_names;
use printed_text::words::{
    push_bytes, push_hex, push_numbered, push_quoted, push_signed, push_word, type_word,
};
use type_external::{decode_one, size_of};

/// What an existing dataset is to get.
pub fn push_extras(out: &mut Vec<u8>, extras: &[Extra]) -> Result<(), Memory>
    requires { list_all is_whole_extra extras.now ≡ true }
    ensures { OnOk result (out.new.items ≡ out.old.items ++ flat_map shown_extra extras.now) }
{
    for extra in extras {
        push_extra(out, extra)?;
    }
    Ok(())
}

fn push_extra(out: &mut Vec<u8>, extra: &Extra) -> Result<(), Memory>
    requires { is_whole_extra extra.now ≡ true }
    ensures { OnOk result (out.new.items ≡ out.old.items ++ shown_extra extra.now) }
{
    match extra {
        Extra::Dim(dim) => push_dim(out, dim),
        Extra::Var { kind, name, dims } => {
            push_named_var(out, *kind, name.as_slice(), dims.as_slice())
        }
        Extra::Att { owner: None, attr } => push_attr(out, b":", attr),
        Extra::Att {
            owner: Some(owner),
            attr,
        } => push_attr(out, owner.as_slice(), attr),
    }
}

/// The line of a variable whose dimensions are named.
fn push_named_var(out: &mut Vec<u8>, kind: NcType, name: &[u8], dims: &[Name]) -> Result<(), Memory>
    ensures { OnOk result (out.new.items ≡ out.old.items ++ shown_extra (Extra.Var kind name.now dims.now)) }
{
    push_var_title(out, kind, name)?;
    push_names(out, dims)?;
    out.push(b'\n')?;
    Ok(())
}

/// What stands before the dimensions of a variable.
fn push_var_title(out: &mut Vec<u8>, kind: NcType, name: &[u8]) -> Result<(), Memory>
    ensures { OnOk result (out.new.items ≡ out.old.items ++ (joined 32 (codes "var" ∷ type_word kind ∷ name.now ∷ []) ++ 32 ∷ [])) }
{
    push_bytes(out, b"var")?;
    push_word(out, type_word(kind))?;
    push_word(out, name)?;
    out.push(b' ')?;
    Ok(())
}

/// Names in brackets.
fn push_names(out: &mut Vec<u8>, names: &[Name]) -> Result<(), Memory>
    ensures { OnOk result (out.new.items ≡ out.old.items ++ bracketed names.now) }
{
    match names.split_first() {
        None => push_bytes(out, b"[]"),
        Some((first, others)) => push_first_name(out, first, others),
    }
}

fn push_first_name(out: &mut Vec<u8>, first: &Name, others: &[Name]) -> Result<(), Memory>
    ensures { OnOk result (out.new.items ≡ out.old.items ++ bracketed (first.now ∷ others.now)) }
{
    out.push(b'[')?;
    push_bytes(out, first.as_slice())?;
    push_other_names(out, others)?;
    out.push(b']')?;
    Ok(())
}

fn push_other_names(out: &mut Vec<u8>, names: &[Name]) -> Result<(), Memory>
    ensures { OnOk result (out.new.items ≡ out.old.items ++ flat_map (λ name. 44 ∷ name) names.now) }
{
    for name in names {
        out.push(b',')?;
        push_bytes(out, name.as_slice())?;
    }
    Ok(())
}

/// Dimensions, variables and attributes: those of the dataset, then those of each variable.
pub fn push_definitions(out: &mut Vec<u8>, header: &Header) -> Result<(), Memory>
    requires dataset { list_all is_whole_attr header.now.attrs ≡ true }
    requires variables { list_all (λ (v : Var). list_all is_whole_attr v.attrs) header.now.vars ≡ true }
    ensures { OnOk result (out.new.items ≡ out.old.items ++ shown_definitions header.now) }
{
    push_dims(out, header.dims.as_slice())?;
    push_vars(out, header, header.vars.as_slice())?;
    push_attrs(out, b":", header.attrs.as_slice())?;
    push_var_attrs(out, header.vars.as_slice())?;
    Ok(())
}

fn push_dims(out: &mut Vec<u8>, dims: &[Dim]) -> Result<(), Memory>
    ensures { OnOk result (out.new.items ≡ out.old.items ++ flat_map shown_dim dims.now) }
{
    for dim in dims {
        push_dim(out, dim)?;
    }
    Ok(())
}

fn push_dim(out: &mut Vec<u8>, dim: &Dim) -> Result<(), Memory>
    ensures { OnOk result (out.new.items ≡ out.old.items ++ shown_dim dim.now) }
{
    push_bytes(out, b"dim")?;
    push_word(out, dim.name.as_slice())?;
    push_length(out, dim.len)?;
    out.push(b'\n')?;
    Ok(())
}

fn push_length(out: &mut Vec<u8>, len: u64) -> Result<(), Memory>
    ensures { OnOk result (out.new.items ≡ out.old.items ++ 32 ∷ (if len == 0 then codes "unlimited" else decimal len)) }
{
    if len == 0 {
        push_bytes(out, b" unlimited")
    } else {
        push_numbered(out, b" ", len)
    }
}

fn push_vars(out: &mut Vec<u8>, header: &Header, vars: &[Var]) -> Result<(), Memory>
    ensures { OnOk result (out.new.items ≡ out.old.items ++ flat_map (shown_var header.now) vars.now) }
{
    for var in vars {
        push_var(out, header, var)?;
    }
    Ok(())
}

fn push_var(out: &mut Vec<u8>, header: &Header, var: &Var) -> Result<(), Memory>
    ensures { OnOk result (out.new.items ≡ out.old.items ++ shown_var header.now var.now) }
{
    push_var_title(out, var.kind, var.name.as_slice())?;
    push_shape(out, header, var.dims.as_slice())?;
    out.push(b'\n')?;
    Ok(())
}

/// The names of dimensions in brackets.
fn push_shape(out: &mut Vec<u8>, header: &Header, ids: &[u32]) -> Result<(), Memory>
    ensures { OnOk result (out.new.items ≡ out.old.items ++ bracketed (map (dim_name header.now) ids.now)) }
{
    match ids.split_first() {
        None => push_bytes(out, b"[]"),
        Some((first, others)) => push_first_dim(out, header, *first, others),
    }
}

fn push_first_dim(
    out: &mut Vec<u8>,
    header: &Header,
    first: u32,
    others: &[u32],
) -> Result<(), Memory>
    ensures { OnOk result (out.new.items ≡ out.old.items ++ bracketed (dim_name header.now first ∷ map (dim_name header.now) others.now)) }
{
    out.push(b'[')?;
    push_dim_names(out, header, b",", first, others)?;
    out.push(b']')?;
    Ok(())
}

/// The attributes of each variable.
fn push_var_attrs(out: &mut Vec<u8>, vars: &[Var]) -> Result<(), Memory>
    requires { list_all (λ (v : Var). list_all is_whole_attr v.attrs) vars.now ≡ true }
    ensures { OnOk result (out.new.items ≡ out.old.items ++ flat_map (λ v. flat_map (shown_attr v.name) v.attrs) vars.now) }
{
    for var in vars {
        push_attrs(out, var.name.as_slice(), var.attrs.as_slice())?;
    }
    Ok(())
}

fn push_attrs(out: &mut Vec<u8>, owner: &[u8], attrs: &[Attr]) -> Result<(), Memory>
    requires { list_all is_whole_attr attrs.now ≡ true }
    ensures { OnOk result (out.new.items ≡ out.old.items ++ flat_map (shown_attr owner.now) attrs.now) }
{
    for attr in attrs {
        push_attr(out, owner, attr)?;
    }
    Ok(())
}

fn push_attr(out: &mut Vec<u8>, owner: &[u8], attr: &Attr) -> Result<(), Memory>
    requires { is_whole_attr attr.now ≡ true }
    ensures { OnOk result (out.new.items ≡ out.old.items ++ shown_attr owner.now attr.now) }
{
    push_bytes(out, b"att")?;
    push_word(out, owner)?;
    push_word(out, attr.name.as_slice())?;
    push_word(out, type_word(attr.kind))?;
    push_attr_values(out, attr)?;
    out.push(b'\n')?;
    Ok(())
}

/// The values of an attribute, each with a blank before it; those of a char attribute are one text.
fn push_attr_values(out: &mut Vec<u8>, attr: &Attr) -> Result<(), Memory>
    requires { is_whole_attr attr.now ≡ true }
    ensures { OnOk result (out.new.items ≡ out.old.items ++ spaced (shown_values (attr_values attr.now))) }
{
    match attr.kind {
        NcType::Char => push_text(out, attr),
        _ => push_other_values(out, attr),
    }
}

/// The bytes of a char attribute as one text.
fn push_text(out: &mut Vec<u8>, attr: &Attr) -> Result<(), Memory>
    requires whole { is_whole_attr attr.now ≡ true }
    requires kind { attr.now.kind ≡ NcType.Char }
    ensures { OnOk result (out.new.items ≡ out.old.items ++ spaced (shown_values (attr_values attr.now))) }
{
    out.push(b' ')?;
    push_quoted(out, attr.bytes.as_slice())?;
    Ok(())
}

/// The values of an attribute of another type.
fn push_other_values(out: &mut Vec<u8>, attr: &Attr) -> Result<(), Memory>
    requires whole { is_whole_attr attr.now ≡ true }
    requires kind { attr.now.kind ≢ NcType.Char }
    ensures { OnOk result (out.new.items ≡ out.old.items ++ spaced (shown_values (attr_values attr.now))) }
{
    push_pieces(out, attr.kind, attr.count, attr.bytes.as_slice())?;
    Ok(())
}

/// So many values in external form.
fn push_pieces(out: &mut Vec<u8>, kind: NcType, count: u64, bytes: &[u8]) -> Result<(), Memory>
    requires { length bytes.now ≡ count * size_of kind }
    ensures { OnOk result (out.new.items ≡ out.old.items
        ++ flat_map (λ piece. 32 ∷ value_word (val kind piece)) (pieces count (size_of kind) bytes.now)) }
{
    let size = size_of(kind) as usize;
    let mut left = count;
    let mut rest = bytes;
    while left > 0 {
        let (piece, others) = rest.split_at(size);
        push_value(out, decode_one(kind, piece))?;
        rest = others;
        left -= 1;
    }
    Ok(())
}

/// A blank and a value.
fn push_value(out: &mut Vec<u8>, value: Value) -> Result<(), Memory>
    ensures { OnOk result (out.new.items ≡ out.old.items ++ 32 ∷ value_word value) }
{
    match value {
        Value::Number(number) => {
            out.push(b' ')?;
            push_signed(out, number)
        }
        Value::Char(byte) => {
            out.push(b' ')?;
            push_quoted(out, &[byte])
        }
        Value::Bits(bits) => {
            push_bytes(out, b" x")?;
            push_hex(out, 16, bits)
        }
    }
}
