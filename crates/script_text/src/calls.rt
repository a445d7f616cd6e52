// The lines of calls.
ghost use Rattle.std.specs.Prelude.{◌≡◌, ◌++◌, ◌∷◌, [], OnOk, decimal, flat_map, length, map};
ghost use Rattle.std.specs.List.{enumerate_from};
ghost use Rattle.script_spec.specs.Shown.{bracketed, call_words, choice_words, form_words, part_words, region_words, shown_call, shown_values, size_list};
ghost use Rattle.printed_text.specs.Spaced.{spaced};

use nc_base::{Call, CallList, Choice, Form, Given, Memory, Part, Values};
use printed_text::words::{
    push_bytes, push_call_word, push_decimal, push_numbered, push_values, push_word,
};

pub fn push_ranks(out: &mut Vec<u8>, ranks: &[CallList]) -> Result<(), Memory>
    ensures { OnOk result (out.new.items ≡ out.old.items ++ flat_map (λ p. flat_map (shown_call p.0) p.1) (enumerate_from 0 ranks.now)) }
{
    for (rank, calls) in ranks.iter().enumerate() {
        push_calls(out, rank as u64, calls.as_slice())?;
    }
    Ok(())
}

fn push_calls(out: &mut Vec<u8>, rank: u64, calls: &[Call]) -> Result<(), Memory>
    ensures { OnOk result (out.new.items ≡ out.old.items ++ flat_map (shown_call rank) calls.now) }
{
    for call in calls {
        push_call(out, rank, call)?;
    }
    Ok(())
}

fn push_call(out: &mut Vec<u8>, rank: u64, call: &Call) -> Result<(), Memory>
    ensures { OnOk result (out.new.items ≡ out.old.items ++ shown_call rank call.now) }
{
    push_decimal(out, rank)?;
    out.push(b' ')?;
    push_call_word(out, call)?;
    push_call_words(out, call)?;
    out.push(b'\n')?;
    Ok(())
}

/// What follows a call's word.
#[tactic(auto, using(printed_text::proofs::WordLaws::spaced_one, script_spec::proofs::CallTableLaws::wait_words))]
fn push_call_words(out: &mut Vec<u8>, call: &Call) -> Result<(), Memory>
    ensures { OnOk result (out.new.items ≡ out.old.items ++ spaced (call_words call.now)) }
{
    match call {
        Call::Put {
            var,
            given,
            values,
            ..
        } => push_access(out, var.as_slice(), given, values),
        Call::Get { var, given, .. } => push_place(out, var.as_slice(), given),
        Call::Post {
            id,
            var,
            given,
            values,
            ..
        } => push_post(out, *id, var.as_slice(), given, values),
        Call::Wait { choice, .. } => push_choice(out, choice),
        Call::Cancel { choice } => push_choice(out, choice),
        Call::Attach { size } => push_numbered(out, b" ", *size),
        Call::InqDim { name } => push_word(out, name.as_slice()),
        Call::FillRec { var, number, .. } => push_record(out, var.as_slice(), *number),
        Call::Detach | Call::BeginIndep | Call::EndIndep | Call::SyncRecords => Ok(()),
    }
}

/// A variable and a region.
fn push_place(out: &mut Vec<u8>, var: &[u8], given: &Given) -> Result<(), Memory>
    ensures { OnOk result (out.new.items ≡ out.old.items ++ spaced (var.now ∷ region_words given.now)) }
{
    push_word(out, var)?;
    push_region(out, given)?;
    Ok(())
}

/// A variable, a region and values.
fn push_access(out: &mut Vec<u8>, var: &[u8], given: &Given, values: &Values) -> Result<(), Memory>
    ensures { OnOk result (out.new.items ≡ out.old.items ++ spaced (var.now ∷ region_words given.now ++ shown_values values.now)) }
{
    push_place(out, var, given)?;
    push_values(out, 16, values)?;
    Ok(())
}

/// An id, and what it is posted for.
fn push_post(
    out: &mut Vec<u8>,
    id: u32,
    var: &[u8],
    given: &Given,
    values: &Values,
) -> Result<(), Memory>
    ensures { OnOk result (out.new.items ≡ out.old.items
        ++ spaced (decimal id ∷ var.now ∷ region_words given.now ++ shown_values values.now)) }
{
    push_numbered(out, b" ", u64::from(id))?;
    push_access(out, var, given, values)?;
    Ok(())
}

/// A variable and the number of a record.
fn push_record(out: &mut Vec<u8>, var: &[u8], number: u64) -> Result<(), Memory>
    ensures { OnOk result (out.new.items ≡ out.old.items ++ spaced (var.now ∷ decimal number ∷ [])) }
{
    push_word(out, var)?;
    push_numbered(out, b" ", number)?;
    Ok(())
}

fn push_choice(out: &mut Vec<u8>, choice: &Choice) -> Result<(), Memory>
    ensures { OnOk result (out.new.items ≡ out.old.items ++ spaced (choice_words choice.now)) }
{
    match choice {
        Choice::Every => push_bytes(out, b" all"),
        Choice::Listed(ids) => push_ids(out, ids.as_slice()),
    }
}

#[tactic(auto, using(printed_text::proofs::WordLaws::spaced_more))]
fn push_ids(out: &mut Vec<u8>, ids: &[u32]) -> Result<(), Memory>
    ensures { OnOk result (out.new.items ≡ out.old.items ++ spaced (map decimal ids.now)) }
{
    for id in ids {
        push_numbered(out, b" ", u64::from(*id))?;
    }
    Ok(())
}

/// The lists that tell a region, by the form of its call.
#[tactic(auto, using(printed_text::proofs::WordLaws::spaced_one))]
fn push_region(out: &mut Vec<u8>, given: &Given) -> Result<(), Memory>
    ensures { OnOk result (out.new.items ≡ out.old.items ++ spaced (region_words given.now)) }
{
    match given.form {
        Form::Var => Ok(()),
        Form::Var1 => push_sizes(out, given.start.as_slice()),
        Form::Vara => push_box(out, given.start.as_slice(), given.count.as_slice()),
        Form::Vars => push_strided(out, given),
        Form::Varm => push_mapped(out, given),
        Form::Varn => push_part_list(out, given.parts.as_slice()),
    }
}

/// A box and its strides.
fn push_strided(out: &mut Vec<u8>, given: &Given) -> Result<(), Memory>
    ensures { OnOk result (out.new.items ≡ out.old.items ++ spaced (form_words Form.Vars given.now)) }
{
    push_box(out, given.start.as_slice(), given.count.as_slice())?;
    push_sizes(out, given.stride.as_slice())?;
    Ok(())
}

/// A box, its strides and its index map.
fn push_mapped(out: &mut Vec<u8>, given: &Given) -> Result<(), Memory>
    ensures { OnOk result (out.new.items ≡ out.old.items ++ spaced (form_words Form.Varm given.now)) }
{
    push_box(out, given.start.as_slice(), given.count.as_slice())?;
    push_box(out, given.stride.as_slice(), given.imap.as_slice())?;
    Ok(())
}

/// How many boxes there are, and each of them.
fn push_part_list(out: &mut Vec<u8>, parts: &[Part]) -> Result<(), Memory>
    ensures { OnOk result (out.new.items ≡ out.old.items ++ spaced (decimal (length parts.now) ∷ flat_map part_words parts.now)) }
{
    push_numbered(out, b" ", parts.len() as u64)?;
    push_parts(out, parts)?;
    Ok(())
}

fn push_parts(out: &mut Vec<u8>, parts: &[Part]) -> Result<(), Memory>
    ensures { OnOk result (out.new.items ≡ out.old.items ++ flat_map (λ part. spaced (part_words part)) parts.now) }
{
    for part in parts {
        push_box(out, part.start.as_slice(), part.count.as_slice())?;
    }
    Ok(())
}

/// Two lists, each with a blank before it.
fn push_box(out: &mut Vec<u8>, first: &[u64], second: &[u64]) -> Result<(), Memory>
    ensures { OnOk result (out.new.items ≡ out.old.items ++ spaced (size_list first.now ∷ size_list second.now ∷ [])) }
{
    push_sizes(out, first)?;
    push_sizes(out, second)
}

/// A blank, and sizes in brackets.
fn push_sizes(out: &mut Vec<u8>, sizes: &[u64]) -> Result<(), Memory>
    ensures { OnOk result (out.new.items ≡ out.old.items ++ 32 ∷ size_list sizes.now) }
{
    match sizes.split_first() {
        None => push_bytes(out, b" []"),
        Some((first, others)) => push_first_size(out, *first, others),
    }
}

fn push_first_size(out: &mut Vec<u8>, first: u64, others: &[u64]) -> Result<(), Memory>
    ensures { OnOk result (out.new.items ≡ out.old.items ++ 32 ∷ bracketed (decimal first ∷ map decimal others.now)) }
{
    push_numbered(out, b" [", first)?;
    push_other_sizes(out, others)?;
    out.push(b']')?;
    Ok(())
}

#[tactic(auto, using(printed_text::proofs::WordLaws::mapped_more))]
fn push_other_sizes(out: &mut Vec<u8>, sizes: &[u64]) -> Result<(), Memory>
    ensures { OnOk result (out.new.items ≡ out.old.items ++ flat_map (λ size. 44 ∷ size) (map decimal sizes.now)) }
{
    for size in sizes {
        push_numbered(out, b",", *size)?;
    }
    Ok(())
}
