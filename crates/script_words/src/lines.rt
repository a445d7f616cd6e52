// The lines of a text, and the significant ones, one after the other.
ghost use Rattle.std.specs.Prelude.{◌≡◌, ◌≢◌, ◌∷◌, ◌<◌, ◌^◌, [], IfOk, position, length, false};
ghost use Rattle.std.specs.List.{enumerate_from};
ghost use Rattle.script_spec.specs.ScriptWords.{text_lines, is_newline, is_comment, significant_of};
ghost use Rattle.script_words.specs.Given.{TakesFirst, word_of};
ghost use Rattle.script_words.specs.Seen.{line_seen};

use crate::words::{Token, Words};
use memchr::memchr;
use std::alloc::{AllocError, Global};
use std::marker::Model;

/// The lines of the rest of a text, numbered.
#[derive(Drop)]
pub struct TextLines<'a> {
    rest: &'a [u8],
    number: u32,
}

impl<'a> Model for TextLines<'a> {
    ghost use Rattle.std.specs.Prelude.{List, ℕ, ◌+◌, ◌<◌, ◌^◌, length};
    ghost use Rattle.std.specs.List.{enumerate_from};
    ghost use Rattle.script_spec.specs.ScriptWords.{text_lines};

    ghost Value = { List (ℕ × List ℕ) };

    ghost view = { λ l. enumerate_from l.number (text_lines l.rest.now) };

    ghost invariant = { λ l. l.number + length l.rest.now < 2 ^ 32 };
}

impl<'a> TextLines<'a> {
    /// The lines of a text, from 1.
    pub fn new(text: &'a [u8]) -> Self
        requires { length text.now < 2 ^ 31 }
        ensures { result ≡ enumerate_from 1 (text_lines text.now) }
    {
        TextLines {
            rest: text,
            number: 1,
        }
    }

    /// The next line, with its number.
    pub fn take(&mut self) -> Option<(u32, &'a [u8])>
        ensures { TakesFirst (λ l. (l.0, l.1.now)) result self.old self.new }
    {
        if self.rest.is_empty() {
            return None;
        }
        let number = self.number;
        let (line, after) = cut_line(self.rest);
        self.rest = after;
        self.number = number + 1;
        Some((number, line))
    }
}

#[tactic(auto, using(crate::proofs::LineLaws::first_newline))]
fn first_newline(text: &[u8]) -> Option<usize>
    ensures { result ≡ position is_newline text.now }
{
    memchr(b'\n', text)
}

/// The first line of a text, without its newline, and what follows.
#[tactic(auto, using(crate::proofs::LineLaws::lines_cut, crate::proofs::LineLaws::lines_last))]
fn cut_line(text: &[u8]) -> (&[u8], &[u8])
    requires { text.now ≢ [] }
    ensures lines { text_lines text.now ≡ result.0.now ∷ text_lines result.1.now }
    ensures shorter { length result.1.now < length text.now }
{
    match first_newline(text) {
        Some(n) => (text.split_at(n).0, text.split_at(n + 1).1),
        None => (text, &[]),
    }
}

/// A significant line: its number, its first word, and the words after it.
#[derive(Drop)]
pub struct Line<'a> {
    pub number: u32,
    pub first: Token<'a>,
    pub rest: Words<'a>,
}

fn is_comment(word: &Token<'_>) -> bool
    ensures { result ≡ is_comment (word_of word.now) }
{
    match word {
        Token::Plain(characters) => match characters.split_first() {
            Some((first, _)) => *first == b'#',
            None => false,
        },
        Token::Quoted(_) | Token::Broken => false,
    }
}

/// The next significant line.
pub fn significant_line<'a>(
    alloc: Global,
    lines: &mut TextLines<'a>,
) -> Result<Option<Line<'a>>, AllocError>
    ensures { IfOk result (λ l. TakesFirst line_seen l (significant_of lines.old) (significant_of lines.new)) }
{
    while let Some((number, line)) = lines.take() {
        let mut rest = Words::new(alloc, line);
        if let Some(first) = rest.take()? {
            if !is_comment(&first) {
                return Ok(Some(Line {
                    number,
                    first,
                    rest,
                }));
            }
        }
    }
    Ok(None)
}
