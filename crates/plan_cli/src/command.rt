// What the words of the command line ask for.
ghost use Rattle.std.specs.Prelude.{◌≡◌, ◌&&◌, ◌==◌, not, length, nat_eq, codes, option_map};
ghost use Rattle.std.specs.List.{starts_with};
ghost use Rattle.plan_cli.specs.Words as spec;
ghost use Rattle.plan_cli.specs.Words.{texts, wanted_of};

/// What the words ask for: the form of the plan, and the dataset that they name, if any.
#[derive(Clone, Copy, Debug, PartialEq, Eq)]
pub struct Form<'a> {
    pub json: bool,
    pub dataset: Option<&'a str>,
}

/// The form of the words, where they are of one: `[--json] [DATASET]`.
pub fn form_of<'a>(words: &[&'a str]) -> Option<Form<'a>>
    ensures { option_map wanted_of result ≡ spec.form_of (texts words.now) }
{
    let Some((word, rest)) = words.split_first() else {
        return with_names(false, words);
    };
    if *word == "--json" {
        with_names(true, rest)
    } else {
        with_names(false, words)
    }
}

// The form with no name, or with one.
fn with_names<'a>(json: bool, names: &[&'a str]) -> Option<Form<'a>>
    ensures { option_map wanted_of result ≡ spec.with_names json (texts names.now) }
{
    match names {
        [] => Some(Form {
            json,
            dataset: None,
        }),
        [name] if is_name(name) => Some(Form {
            json,
            dataset: Some(name),
        }),
        _ => None,
    }
}

// A name is not empty, and doesn't begin as an option does.
fn is_name(word: &str) -> bool
    ensures { result ≡ spec.is_name word.now }
{
    !word.is_empty() && !word.starts_with("--")
}
