// The words of a line, one after the other.
ghost use Rattle.std.specs.Prelude.{◌≡◌, [], IfOk, IfSome, Some, position, ◌≤◌, length, not};
ghost use Rattle.std.specs.List.{position_or_len};
ghost use Rattle.script_spec.specs.ScriptWords.{is_blank, begins_blank, quoted_word, after_blanks, text_from, Between, number_of_text, words};
ghost use Rattle.script_words.specs.Given.{word_of, first_for, TakesWord};

use crate::line_numbers::short_number;
use crate::texts::text;
use memchr::memchr_iter;
use std::alloc::{AllocError, Global};
use std::marker::Model;

/// A word: as it stands, a text by its value, or a text that is no text.
#[derive(Drop)]
pub enum Token<'a> {
    Plain(&'a [u8]),
    Quoted(Vec<u8>),
    Broken,
}

/// The words of the rest of a line.
#[derive(Drop)]
pub struct Words<'a> {
    alloc: Global,
    rest: &'a [u8],
}

impl<'a> Model for Words<'a> {
    ghost use Rattle.std.specs.Prelude.{List};
    ghost use Rattle.script_spec.specs.ScriptWords.{Word, words};

    ghost Value = { List Word };

    ghost view = { λ w. words w.rest.now };
}

fn is_blank(c: u8) -> bool
    ensures { result ≡ is_blank c }
{
    c == b' ' || c == b'\t' || c == b'\r'
}

fn first_character(line: &[u8]) -> Option<usize>
    ensures { result ≡ position (λ c. not (is_blank c)) line.now }
{
    line.iter().position(|c| !is_blank(*c))
}

fn first_blank(line: &[u8]) -> Option<usize>
    ensures { result ≡ position is_blank line.now }
{
    line.iter().position(|c| is_blank(*c))
}

#[tactic(auto, using(crate::proofs::WordLaws::not_found))]
fn word_len(line: &[u8]) -> usize
    ensures value { result ≡ position_or_len is_blank line.now }
    ensures bound { result ≤ length line.now }
{
    match first_blank(line) {
        Some(n) => n,
        None => line.len(),
    }
}

#[tactic(auto, using(crate::proofs::WordLaws::not_found))]
fn after_blanks(line: &[u8]) -> &[u8]
    ensures { result.now ≡ after_blanks line.now }
{
    match first_character(line) {
        Some(n) => line.split_at(n).1,
        None => &[],
    }
}

impl<'a> Words<'a> {
    pub fn new(alloc: Global, line: &'a [u8]) -> Self
        ensures { result ≡ words line.now }
    {
        Words { alloc, rest: line }
    }

    /// The same words again.
    pub fn again(&self) -> Words<'a>
        ensures { result ≡ self.now }
    {
        Words {
            alloc: self.alloc,
            rest: self.rest,
        }
    }

    pub fn allocator(&self) -> Global {
        self.alloc
    }

    /// About how many words there are: as many as in a line with one space between words.
    pub fn estimate(&self) -> usize {
        memchr_iter(b' ', self.rest).count().saturating_add(1)
    }

    /// The number that the next word says, and the words behind it, where it has few digits. Where there is none, `take` has the word.
    #[inline]
    #[tactic(auto, using(crate::proofs::FrontLaws::number_first))]
    pub fn short_number(&self) -> Option<(i64, Words<'a>)>
        ensures { IfSome result (λ n. first_for number_of_text self.now ≡ Some (n.0, n.1)) }
    {
        let line = after_blanks(self.rest);
        let (number, rest) = short_number(line)?;
        Some((
            number,
            Words {
                alloc: self.alloc,
                rest,
            },
        ))
    }

    /// The next word.
    #[tactic(auto, using(crate::proofs::WordLaws::takes_none, crate::proofs::WordLaws::takes_quoted, crate::proofs::WordLaws::takes_plain))]
    pub fn take(&mut self) -> Result<Option<Token<'a>>, AllocError>
        ensures { IfOk result (λ t. TakesWord t self.old self.new) }
    {
        let line = after_blanks(self.rest);
        let Some((first, rest)) = line.split_first() else {
            self.rest = &[];
            return Ok(None);
        };
        if *first == b'"' {
            let (word, after) = quoted(self.alloc, rest)?;
            self.rest = after;
            return Ok(Some(word));
        }
        let (word, after) = line.split_at(word_len(rest) + 1);
        self.rest = after;
        Ok(Some(Token::Plain(word)))
    }
}

fn quoted(alloc: Global, rest: &[u8]) -> Result<(Token<'_>, &[u8]), AllocError>
    ensures { IfOk result (λ x. (word_of x.0, x.1.now) ≡ quoted_word (text_from Between rest.now)) }
{
    match text(alloc, rest)? {
        None => Ok((Token::Broken, &[])),
        Some((value, after)) => {
            if begins_blank(after) {
                Ok((Token::Quoted(value), after))
            } else {
                Ok((Token::Broken, &[]))
            }
        }
    }
}

pub(crate) fn begins_blank(line: &[u8]) -> bool
    ensures { result ≡ begins_blank line.now }
{
    match line {
        [] => true,
        [c, ..] => is_blank(*c),
    }
}
