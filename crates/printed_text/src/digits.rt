// How many digits the bits of a get are printed with: 8 for a float variable, else 16.
ghost use Rattle.std.specs.Prelude.{◌≡◌, ◌∷◌, List, IfOk, OnOk};
ghost use Rattle.std.specs.HashMap.{get};
ghost use Rattle.nc_base.specs.declared.header.Var.{Var};
ghost use Rattle.nc_base.specs.declared.request.Call.{Call};
ghost use Rattle.script_spec.specs.Texts.{digits_of};
ghost use Rattle.printed_text.specs.Digits.{FindsNames, FindsPosts};

use nc_base::{Call, Header, Memory, NcType, Var};
use std::alloc::Global;
use std::collections::HashMap;
use std::marker::Model;

/// The digits of values that no variable is known of.
const WIDE: u8 = 16;

/// A header, with an index of its variables' names.
#[derive(Drop)]
pub struct NameDigits<'h> {
    header: &'h Header,
    by_name: HashMap<&'h [u8], u8>,
}

impl<'h> Model for NameDigits<'h> {
    ghost use Rattle.nc_base.specs.declared.header.Header.{Header};
    ghost use Rattle.printed_text.specs.Digits.{FindsNames};

    ghost Value = { Header };

    ghost view = { λ d. d.header.now };

    ghost invariant = { λ d. FindsNames d.header.now.vars d.by_name };
}

impl<'h> NameDigits<'h> {
    ghost use Rattle.script_spec.specs.Texts.{call_digits, digits_of_name};

    pub fn new(alloc: Global, header: &'h Header) -> Result<Self, Memory>
        ensures { IfOk result (λ names. names ≡ header.now) }
    {
        Ok(NameDigits {
            header,
            by_name: names_index(alloc, header.vars.as_slice())?,
        })
    }

    /// The digits of the first variable of this name.
    pub fn of_name(&self, name: &[u8]) -> u8
        ensures { result ≡ digits_of_name self.now name.now }
    {
        self.by_name.get(name).copied().unwrap_or(WIDE)
    }

    /// The digits of what a call gets.
    pub fn of_call(&self, call: &Call) -> u8
        ensures { result ≡ call_digits self.now call.now }
    {
        match call {
            Call::Get { var, .. } => self.of_name(var.as_slice()),
            _ => WIDE,
        }
    }
}

/// A rank's calls, with an index of the ids that they post.
#[derive(Drop)]
pub struct RankDigits<'n, 'h> {
    names: &'n NameDigits<'h>,
    calls: &'n [Call],
    by_id: HashMap<u32, u8>,
}

impl<'n, 'h> Model for RankDigits<'n, 'h> {
    ghost use Rattle.std.specs.Prelude.{List};
    ghost use Rattle.nc_base.specs.declared.header.Header.{Header};
    ghost use Rattle.nc_base.specs.declared.request.Call.{Call};
    ghost use Rattle.printed_text.specs.Digits.{FindsPosts};

    ghost Value = { Header × List Call };

    ghost view = { λ d. (d.names.now, d.calls.now) };

    ghost invariant = { λ d. FindsPosts d.names.now d.calls.now d.by_id };
}

impl<'n, 'h> RankDigits<'n, 'h> {
    ghost use Rattle.script_spec.specs.Texts.{call_digits, item_digits};

    pub fn new(alloc: Global, names: &'n NameDigits<'h>, calls: &'n [Call]) -> Result<Self, Memory>
        ensures { IfOk result (λ digits. digits ≡ (names.now, calls.now)) }
    {
        Ok(RankDigits {
            names,
            calls,
            by_id: posts_index(alloc, names, calls)?,
        })
    }

    /// The digits of what a call gets.
    pub fn of_call(&self, call: &Call) -> u8
        ensures { result ≡ call_digits self.now.0 call.now }
    {
        self.names.of_call(call)
    }

    /// The digits of what the first post of this id gets.
    pub fn of_item(&self, id: u32) -> u8
        ensures { result ≡ item_digits self.now.0 self.now.1 id }
    {
        self.by_id.get(&id).copied().unwrap_or(WIDE)
    }
}

/// The digits of each name's first variable.
fn names_index<'h>(alloc: Global, vars: &'h [Var]) -> Result<HashMap<&'h [u8], u8>, Memory>
    ensures { IfOk result (FindsNames vars.now) }
{
    let mut index = HashMap::new(alloc);
    for k in (0..vars.len()).rev() {
        put_name(&mut index, &vars[k])?;
    }
    Ok(index)
}

/// Puts a variable before those that the index has.
fn put_name<'h>(index: &mut HashMap<&'h [u8], u8>, var: &'h Var) -> Result<(), Memory>
    ensures { OnOk result ((vars : List Var) → FindsNames vars index.old → FindsNames (var.now ∷ vars) index.new) }
{
    index.insert(var.name.as_slice(), digits_of(var.kind))?;
    Ok(())
}

/// The digits of each id's first post.
fn posts_index(
    alloc: Global,
    names: &NameDigits,
    calls: &[Call],
) -> Result<HashMap<u32, u8>, Memory>
    ensures { IfOk result (FindsPosts names.now calls.now) }
{
    let mut index = HashMap::new(alloc);
    for k in (0..calls.len()).rev() {
        put_post(&mut index, names, &calls[k])?;
    }
    Ok(index)
}

/// Puts a call before those that the index has.
fn put_post(index: &mut HashMap<u32, u8>, names: &NameDigits, call: &Call) -> Result<(), Memory>
    ensures { OnOk result ((calls : List Call) → FindsPosts names.now calls index.old → FindsPosts names.now (call.now ∷ calls) index.new) }
{
    if let Call::Post { id, var, .. } = call {
        index.insert(*id, names.of_name(var.as_slice()))?;
    }
    Ok(())
}

fn digits_of(kind: NcType) -> u8
    ensures { result ≡ digits_of kind }
{
    match kind {
        NcType::Float => 8,
        _ => WIDE,
    }
}
