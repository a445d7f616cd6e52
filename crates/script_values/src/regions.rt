// The regions of calls.
ghost use Rattle.std.specs.Prelude.{◌≡◌, ◌≢◌, [], map};
ghost use Rattle.script_spec.specs.ScriptWords.{all_some, size_of_text};
ghost use Rattle.script_spec.specs.ScriptSteps.{list, or_fault};
ghost use Rattle.script_spec.specs.Texts.{form_word};
ghost use Rattle.script_spec.specs.ScriptCalls.{form_of_text, part, part_list, many_regions, region, given_of};
ghost use Rattle.nc_base.specs.declared.errors.ScriptKind.TheVariants as kind;
ghost use Rattle.nc_base.specs.declared.request.Form.TheVariants as form;
ghost use Rattle.script_words.specs.Given.{Gives};

use nc_base::{Form, Given, LimitName, MAX_PARTS, Part, PartList, ScriptKind, SizeList};
use script_words::numbers::size_of_text;
use script_words::vocabulary::form_word;
use script_words::word_forms::{bracketed, size};
use script_words::{ListParts, ReadErr, Words, beside};
use std::alloc::Global;

/// The sizes among these parts.
fn sizes_in(alloc: Global, parts: &mut ListParts<'_>) -> Result<SizeList, ReadErr>
    ensures { Gives (λ sizes. sizes) result (or_fault kind.BadNumber (all_some (map size_of_text parts.old))) }
{
    let mut sizes = SizeList::new(alloc);
    while let Some(part) = parts.take() {
        let Some(size) = size_of_text(part) else {
            return Err(ReadErr::Fault(ScriptKind::BadNumber));
        };
        sizes.push(size)?;
    }
    Ok(sizes)
}

/// Reads a list of sizes.
fn list(alloc: Global, words: &mut Words<'_>) -> Result<SizeList, ReadErr>
    ensures { Gives (λ sizes. (sizes, words.new)) result (list words.old) }
{
    let inside = bracketed(words)?;
    sizes_in(alloc, &mut ListParts::new(inside))
}

/// Every form.
const FORMS: [Form; 6] = [
    Form::Var1,
    Form::Var,
    Form::Vara,
    Form::Vars,
    Form::Varm,
    Form::Varn,
];

/// The form that a word names.
pub fn form_of_text(word: &[u8]) -> Option<Form>
    ensures { result ≡ form_of_text word.now }
{
    FORMS.iter().copied().find(|form| word == form_word(*form))
}

/// Reads one of many regions.
fn part(alloc: Global, words: &mut Words<'_>) -> Result<Part, ReadErr>
    ensures { Gives (λ p. (p, words.new)) result (part words.old) }
{
    let start = list(alloc, words)?;
    let count = list(alloc, words)?;
    Ok(Part { start, count })
}

/// Reads so many regions.
#[tactic(auto, using(crate::proofs::PartLaws::part_more))]
fn part_list(alloc: Global, n: u64, words: &mut Words<'_>) -> Result<PartList, ReadErr>
    ensures { Gives (λ parts. (parts, words.new)) result (part_list n [] words.old) }
{
    let mut parts = PartList::new(alloc);
    let mut left = n;
    while left > 0 {
        let next = part(alloc, words)?;
        parts.push(next)?;
        left -= 1;
    }
    Ok(parts)
}

fn many_regions(alloc: Global, words: &mut Words<'_>) -> Result<Given, ReadErr>
    ensures { Gives (λ g. (g, words.new)) result (many_regions words.old) }
{
    let n = size(words)?;
    if n == 0 {
        return Err(ReadErr::Fault(ScriptKind::BadNumber));
    }
    if n > MAX_PARTS as u64 {
        return Err(ReadErr::Fault(ScriptKind::Limit(LimitName::Parts)));
    }
    let parts = part_list(alloc, n, words)?;
    let mut given = whole(alloc, Form::Varn);
    given.parts = parts;
    Ok(given)
}

/// A region of this form without any list.
fn whole(alloc: Global, form: Form) -> Given
    ensures { result ≡ given_of form [] [] [] [] }
{
    Given {
        form,
        start: SizeList::new(alloc),
        count: SizeList::new(alloc),
        stride: SizeList::new(alloc),
        imap: SizeList::new(alloc),
        parts: PartList::new(alloc),
    }
}

/// Reads a list of sizes into a place that has an empty one.
fn list_into(alloc: Global, place: &mut SizeList, words: &mut Words<'_>) -> Result<(), ReadErr>
    ensures { Gives (λ _. (place.new, words.new)) result (list words.old) }
{
    *place = list(alloc, words)?;
    Ok(())
}

/// Reads the lists of a region into one of this form that has none; each form has one more than the form before it.
fn read_lists(
    alloc: Global,
    kind: Form,
    given: &mut Given,
    words: &mut Words<'_>,
) -> Result<(), ReadErr>
    requires form { kind ≢ form.Varn }
    requires none { given.old ≡ given_of kind [] [] [] [] }
    ensures { Gives (λ _. (given.new, words.new)) result (region kind words.old) }
{
    if kind == Form::Var {
        return Ok(());
    }
    list_into(alloc, &mut given.start, words)?;
    if kind == Form::Var1 {
        return Ok(());
    }
    list_into(alloc, &mut given.count, words)?;
    if kind == Form::Vara {
        return Ok(());
    }
    list_into(alloc, &mut given.stride, words)?;
    if kind == Form::Vars {
        return Ok(());
    }
    list_into(alloc, &mut given.imap, words)
}

/// Reads the region of a call of this form: many parts, or the first lists of one.
pub fn region(alloc: Global, form: Form, words: &mut Words<'_>) -> Result<Given, ReadErr>
    ensures { Gives (λ g. (g, words.new)) result (region form words.old) }
{
    if form == Form::Varn {
        return many_regions(alloc, words);
    }
    let mut given = whole(alloc, form);
    let read = read_lists(alloc, form, &mut given, words);
    let (given, _) = beside(given, read)?;
    Ok(given)
}
