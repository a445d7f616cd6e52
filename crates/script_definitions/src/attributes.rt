// The attributes of a dataset and of its variables.
ghost use Rattle.std.specs.Prelude.{◌≡◌, ◌<◌, ◌≤◌, ◌^◌, ◌+◌, ◌++◌, IfOk, OnOk, false};
ghost use Rattle.std.specs.List.{list_any};
ghost use Rattle.nc_base.specs.Values.{count_of};
ghost use Rattle.serial_spec.specs.Request.{ext_of, value_at};
ghost use Rattle.script_spec.specs.ScriptDefinitions.{attr_of, attribute, attribute_name, external_bytes, same_title};
ghost use Rattle.script_definitions.specs.DraftWords.{attr_by};
ghost use Rattle.script_words.specs.Given.{Gives};

use crate::titles::Titles;
use nc_base::{Attr, Blob, Memory, Name, NcType, ScriptKind, Values};
use script_values::values::values;
use script_words::word_forms::{name, type_name};
use script_words::{ReadErr, Words};
use std::alloc::Global;
use type_external::{encode_into, size_of};

/// Adds a value's bytes. One that is not in the type's range has none, and is told as want of memory; none that is read
/// for the type is such.
fn push_value(kind: NcType, values: &Values, k: usize, bytes: &mut Vec<u8>) -> Result<(), Memory>
    requires { k < count_of values.now }
    ensures { OnOk result (bytes.new.items ≡ bytes.old.items ++ ext_of kind (value_at values.now k)) }
{
    let mut room = [0; 8];
    let into = &mut room[..size_of(kind) as usize];
    if encode_into(kind, values, k, into).is_err() {
        return Err(Memory);
    }
    bytes.extend_from_slice(into)?;
    Ok(())
}

/// The values in external form.
fn external_bytes(alloc: Global, kind: NcType, values: &Values) -> Result<Vec<u8>, Memory>
    ensures { IfOk result (λ bytes. bytes.items ≡ external_bytes kind values.now) }
{
    let count = values.len();
    let mut bytes = Vec::with_capacity(alloc, count.saturating_mul(size_of(kind) as usize))?;
    for k in 0..count {
        push_value(kind, values, k, &mut bytes)?;
    }
    Ok(bytes)
}

fn attr_of(alloc: Global, name: &[u8], kind: NcType, values: &Values) -> Result<Attr, Memory>
    ensures { IfOk result (λ attr. attr ≡ attr_of name.now kind values.now) }
{
    let bytes = external_bytes(alloc, kind, values)?;
    Ok(Attr {
        name: Name::from_slice(alloc, name)?,
        kind,
        count: values.len() as u64,
        bytes: Blob::from_vec(bytes),
    })
}

/// Reads the name of an attribute of this owner, whose title is none of these.
fn new_name<'a>(
    titles: &Titles<'a>,
    owner: &'a [u8],
    words: &mut Words<'a>,
) -> Result<&'a [u8], ReadErr>
    ensures read { Gives (λ n. (n.now, words.new)) result (attribute_name titles.now owner.now words.old) }
    ensures new { IfOk result (λ n. list_any (same_title (owner.now, n.now)) titles.now ≡ false) }
{
    let name = name(words)?;
    if titles.contains(owner, name) {
        return Err(ReadErr::Fault(ScriptKind::TwiceNamed));
    }
    Ok(name)
}

/// Reads the values of an attribute of this name and type: the attribute.
fn read_attr(
    alloc: Global,
    name: &[u8],
    kind: NcType,
    before: u64,
    words: &mut Words<'_>,
) -> Result<Attr, ReadErr>
    requires { before ≤ 2 ^ 24 }
    ensures read { Gives (λ a. a) result (attr_by name.now kind before words.old) }
    ensures name { IfOk result (λ a. a.name ≡ name.now) }
    ensures bound { IfOk result (λ a. before + a.count ≤ 2 ^ 24) }
{
    let values = values(alloc, Some(kind), before, words)?;
    let attr = attr_of(alloc, name, kind, &values);
    drop(values);
    Ok(attr?)
}

/// Reads the rest of an attribute's line, whose owner is read: the name as it stands there, and the attribute.
pub fn attribute<'a>(
    alloc: Global,
    version: u8,
    titles: &Titles<'a>,
    before: u64,
    owner: &'a [u8],
    words: &mut Words<'a>,
) -> Result<(&'a [u8], Attr), ReadErr>
    requires { before ≤ 2 ^ 24 }
    ensures read { Gives (λ a. a.1) result (attribute version titles.now before owner.now words.old) }
    ensures name { IfOk result (λ a. a.0.now ≡ a.1.name) }
    ensures new { IfOk result (λ a. list_any (same_title (owner.now, a.0.now)) titles.now ≡ false) }
    ensures bound { IfOk result (λ a. before + a.1.count ≤ 2 ^ 24) }
{
    let name = new_name(titles, owner, words)?;
    let kind = type_name(version, words)?;
    let attr = read_attr(alloc, name, kind, before, words)?;
    Ok((name, attr))
}
