// The parts of a list, one after the other.
ghost use Rattle.std.specs.Prelude.{◌≡◌, position};
ghost use Rattle.std.specs.List.{slice_split};
ghost use Rattle.script_spec.specs.ScriptWords.{parts, is_comma};
ghost use Rattle.script_words.specs.Given.{TakesFirst};

use std::marker::Model;

/// The parts that are left, cut at each comma.
#[derive(Drop)]
pub struct ListParts<'a> {
    rest: Option<&'a [u8]>,
}

impl<'a> Model for ListParts<'a> {
    ghost use Rattle.std.specs.Prelude.{List, ℕ, option_map, unwrap_or, [], Option};
    ghost use Rattle.std.specs.List.{slice_split};
    ghost use Rattle.script_spec.specs.ScriptWords.{is_comma};

    ghost Value = { List (List ℕ) };

    ghost view = { λ p. unwrap_or (option_map (λ r. slice_split is_comma r.now) p.rest) [] };
}

impl<'a> ListParts<'a> {
    /// The parts of what stands between brackets.
    pub fn new(inside: &'a [u8]) -> Self
        ensures { result ≡ parts inside.now }
    {
        let rest = if inside.is_empty() {
            None
        } else {
            Some(inside)
        };
        ListParts { rest }
    }

    /// The same parts again.
    pub fn again(&self) -> ListParts<'a>
        ensures { result ≡ self.now }
    {
        ListParts { rest: self.rest }
    }

    /// The next part.
    #[tactic(auto, using(crate::proofs::LineLaws::parts_cut, crate::proofs::LineLaws::parts_last))]
    pub fn take(&mut self) -> Option<&'a [u8]>
        ensures { TakesFirst (λ p. p.now) result self.old self.new }
    {
        let rest = self.rest?;
        match first_comma(rest) {
            Some(n) => {
                self.rest = Some(rest.split_at(n + 1).1);
                Some(rest.split_at(n).0)
            }
            None => {
                self.rest = None;
                Some(rest)
            }
        }
    }
}

fn first_comma(text: &[u8]) -> Option<usize>
    ensures { result ≡ position is_comma text.now }
{
    text.iter().position(|c| *c == b',')
}
