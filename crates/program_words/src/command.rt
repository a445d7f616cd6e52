// What the words of the command line ask for.
ghost use Rattle.std.specs.Prelude.{◌≡◌, ◌≤◌, ◌^◌, false, IfOk, IfSome, option_map};
ghost use Rattle.std.specs.List.{list_all};
ghost use Rattle.clap.specs.Matches.{found_of};
ghost use Rattle.clap.specs.Simple.{app_of};
ghost use Rattle.clap.specs.Walk.{rows_of, rule_of};
ghost use Rattle.script_spec.specs.ScriptWords.{below, is_digit, is_digits, natural_of};
ghost use Rattle.program_words.specs.Words as spec;
ghost use Rattle.program_words.specs.Forms.{asked_of, IsWithinLimits, options_of};
ghost use Rattle.program_words.specs.Words.{texts};

use clap::error::ErrorKind;
use clap::{Arg, ArgAction, ArgMatches, Command};
use nc_base::Memory;
use std::alloc::{AllocError, Global};

/// What the words ask for, and the dataset that they name.
#[derive(Clone, Copy, Debug, PartialEq, Eq)]
pub enum Form<'a> {
    /// A run of the script that the source has, beside so many watchers.
    Run {
        watchers: u32,
        dataset: &'a str,
    },
    /// Where the dataset's variables lie.
    Offsets(&'a str),
    /// A run of the script that a seed and a number of records make.
    Generate {
        seed: u64,
        size: u32,
        dataset: &'a str,
    },
}

// What clap found in the words.
#[derive(Clone, Copy)]
struct Options<'a> {
    offsets: bool,
    generate: Option<&'a str>,
    size: Option<&'a str>,
    watch: Option<&'a str>,
    dataset: Option<&'a str>,
}

// The most records that a script is made with, and how many where the words don't say.
const MOST: u64 = 64;

const USUAL: u32 = 12;

// The most watchers that a run has.
const MOST_WATCHERS: u64 = 8;

/// The form of the words, where they are of one.
pub fn form_of<'a>(alloc: Global, words: &'a [&'a str]) -> Result<Option<Form<'a>>, Memory>
    ensures asked { IfOk result (λ form. option_map asked_of form ≡ spec.form_of (texts words.entry.now)) }
    ensures limits { IfOk result (λ form. IfSome form IsWithinLimits) }
{
    match parsed(alloc, words) {
        Ok(Some(options)) => Ok(form_by(&options)),
        Ok(None) => Ok(None),
        Err(e) => Err(e),
    }
}

// What clap finds in the words, where it takes them.
fn parsed<'a>(alloc: Global, words: &'a [&'a str]) -> Result<Option<Options<'a>>, Memory>
    ensures { IfOk result (λ options. option_map options_of options ≡ spec.options (texts words.entry.now)) }
{
    match command(alloc)?.try_get_matches_from(words) {
        Ok(matches) => {
            let options = options_in(&matches);
            drop(matches);
            Ok(Some(options))
        }
        Err(e) if e.kind() == ErrorKind::OutOfMemory => {
            drop(e);
            Err(Memory)
        }
        Err(e) => {
            drop(e);
            Ok(None)
        }
    }
}

fn command<'a>(alloc: Global) -> Result<Command<'a>, AllocError>
    ensures { IfOk result (λ command. app_of command ≡ spec.command) }
{
    Command::new(alloc, "ncrun")
        .no_binary_name(true)
        .arg(flag(alloc, "offsets"))?
        .arg(option(alloc, "generate"))?
        .arg(option(alloc, "size"))?
        .arg(option(alloc, "watch"))?
        .arg(
            Arg::new(alloc, "dataset")
                .action(ArgAction::Set)
                .required(true),
        )
}

fn flag<'a>(alloc: Global, name: &'a str) -> Arg<'a>
    ensures rule { rule_of result ≡ spec.flag name.entry.now }
    ensures own { result.global ≡ false }
{
    Arg::new(alloc, name).long(name).action(ArgAction::SetTrue)
}

fn option<'a>(alloc: Global, name: &'a str) -> Arg<'a>
    ensures rule { rule_of result ≡ spec.option name.entry.now }
    ensures own { result.global ≡ false }
{
    Arg::new(alloc, name).long(name).action(ArgAction::Set)
}

fn options_in<'a>(matches: &ArgMatches<'a>) -> Options<'a>
    ensures { options_of result ≡ spec.options_by (rows_of (found_of matches.now)) }
{
    Options {
        offsets: is_set(matches.get_str("offsets")),
        generate: matches.get_str("generate"),
        size: matches.get_str("size"),
        watch: matches.get_str("watch"),
        dataset: matches.get_str("dataset"),
    }
}

// Whether the value of a flag says that it was given.
fn is_set(value: Option<&str>) -> bool
    ensures { result ≡ spec.is_set (option_map (λ text. text.now) value.entry) }
{
    value.is_some_and(|text| text == "true")
}

fn form_by<'a>(options: &Options<'a>) -> Option<Form<'a>>
    ensures asked { option_map asked_of result ≡ spec.asked (options_of options.now) }
    ensures limits { IfSome result IsWithinLimits }
{
    let name = options.dataset.filter(|name| !name.is_empty())?;
    match (
        options.offsets,
        options.generate,
        options.size,
        options.watch,
    ) {
        (false, None, None, None) => Some(Form::Run {
            watchers: 0,
            dataset: name,
        }),
        (false, None, None, Some(watchers)) => Some(Form::Run {
            watchers: watchers_of(watchers)?,
            dataset: name,
        }),
        (true, None, None, None) => Some(Form::Offsets(name)),
        (false, Some(seed), size, None) => Some(Form::Generate {
            seed: seed_of(seed)?,
            size: size_of(size)?,
            dataset: name,
        }),
        _ => None,
    }
}

fn seed_of(word: &str) -> Option<u64>
    ensures { result ≡ spec.seed_of word.now }
{
    natural(word)
}

fn size_of(word: Option<&str>) -> Option<u32>
    ensures value { result ≡ spec.size_of (option_map (λ w. w.now) word.entry) }
    ensures bound { IfSome result (λ n. (1 ≤ n) × (n ≤ 64)) }
{
    let Some(word) = word else {
        return Some(USUAL);
    };
    match natural(word)? {
        size @ 1..=MOST => u32::try_from(size).ok(),
        _ => None,
    }
}

fn watchers_of(word: &str) -> Option<u32>
    ensures value { result ≡ spec.watchers_of word.now }
    ensures bound { IfSome result (λ n. n ≤ 8) }
{
    match natural(word)? {
        watchers @ 1..=MOST_WATCHERS => u32::try_from(watchers).ok(),
        _ => None,
    }
}

// The value of 1 to 20 digits, where 64 bits hold it.
fn natural(word: &str) -> Option<u64>
    ensures { result ≡ below (2 ^ 64) (natural_of word.now) }
{
    if is_digits(word.as_bytes()) {
        word.parse().ok()
    } else {
        None
    }
}

fn is_digits(word: &[u8]) -> bool
    ensures { result ≡ is_digits word.now }
{
    !word.is_empty() && word.len() <= 20 && all_digits(word)
}

fn all_digits(word: &[u8]) -> bool
    ensures { result ≡ list_all is_digit word.now }
{
    word.iter().all(|c| is_digit(*c))
}

fn is_digit(c: u8) -> bool
    ensures { result ≡ is_digit c }
{
    c.is_ascii_digit()
}
