//! The tokens that are left, with what is counted so far.

ghost use Rattle.std.specs.Prelude.{◌≡◌, IfOk, codes, option_map, length};
ghost use Rattle.ec_clex.specs.Sql.{sql_view, sql_views};
ghost use Rattle.ec_embedded.specs.Terminals as spec;
ghost use Rattle.ec_embedded.specs.Terminals.{Begins};
ghost use Rattle.ec_references.specs.Readers.{FitsLong, TakesAny, next_is};
ghost use Rattle.ec_references.specs.States.{CursorTakes, counts_view, seen, terminal_view};

use crate::class::Class;
use crate::tests_of_tokens::{
    is_class, is_fitting, is_glued_fitting, is_glued_mark, is_keyword, is_mark, is_parted_word,
};
use ec_clex::SqlToken;
use ec_embedded::shapes::Failure;
use std::marker::Model;

/// How many inputs there are so far, and how many suffixes of the last reference.
#[derive(Clone, Copy, Debug, PartialEq, Eq)]
pub struct Counts {
    pub inputs: u32,
    pub suffixes: u32,
}

/// The tokens that are left, with what is counted so far.
#[derive(Drop)]
pub struct Cursor<'a> {
    rest: &'a [SqlToken<'a>],
    counts: Counts,
}

impl<'a> Model for Cursor<'a> {
    ghost use Rattle.ec_references.specs.States.{Left};

    ghost Value = { Left };

    ghost view = { λ c. record { tokens = c.rest.now; counts = c.counts } };
}

/// One more input, if there may be one.
fn one_more_input(counts: Counts) -> Option<Counts>
    ensures { option_map counts_view result ≡ spec.step_by spec.input (counts_view counts) }
{
    if counts.inputs >= 1000 {
        return None;
    }
    Some(Counts {
        inputs: counts.inputs + 1,
        suffixes: 0,
    })
}

/// The counts behind a token of the class, if no limit is passed.
fn counts_behind(counts: Counts, class: Class) -> Option<Counts>
    ensures { option_map counts_view result ≡ spec.step_by (terminal_view class).begins
        (counts_view counts) }
{
    match class {
        Class::InputNumber => one_more_input(counts),
        Class::InputQuote => one_more_input(counts),
        Class::InputMinus => one_more_input(counts),
        Class::InputColon => one_more_input(counts),
        Class::Colon => Some(Counts {
            inputs: counts.inputs,
            suffixes: 0,
        }),
        _ => Some(counts),
    }
}

impl<'a> Cursor<'a> {
    /// All tokens, with nothing counted.
    #[tactic(auto, unfolding(crate::specs::States::seen))]
    pub fn new(tokens: &'a [SqlToken<'a>]) -> Cursor<'a>
        ensures { seen result ≡ record { tokens = sql_views tokens.now; counts = spec.no_counts } }
    {
        Cursor {
            rest: tokens,
            counts: Counts {
                inputs: 0,
                suffixes: 0,
            },
        }
    }

    /// Goes to other tokens, with the same counts.
    #[tactic(auto, unfolding(crate::specs::States::seen))]
    pub fn go_to(&mut self, tokens: &'a [SqlToken<'a>])
        ensures { seen self.new ≡ record {
          tokens = sql_views tokens.now;
          counts = (seen self.old).counts;
        } }
    {
        self.rest = tokens;
    }

    /// How many tokens are left.
    #[tactic(auto, unfolding(crate::specs::States::seen))]
    pub fn left(&self) -> usize
        ensures { result ≡ length (seen self.now).tokens }
    {
        self.rest.len()
    }

    /// The tokens that are left.
    #[tactic(auto, unfolding(crate::specs::States::seen))]
    pub fn rest(&self) -> &'a [SqlToken<'a>]
        ensures { sql_views result.now ≡ (seen self.now).tokens }
    {
        self.rest
    }

    /// Whether the next token is this word.
    #[tactic(auto, unfolding(crate::specs::States::seen))]
    pub fn at_word(&self, word: &[u8]) -> bool
        ensures { result ≡ next_is (spec.keyword word.now) (seen self.now).tokens }
    {
        match self.rest {
            [first, ..] => is_keyword(first, word),
            [] => false,
        }
    }

    /// Whether the next token is this word, with a gap before it.
    #[tactic(auto, unfolding(crate::specs::States::seen))]
    pub fn at_parted(&self, word: &[u8]) -> bool
        ensures { result ≡ next_is (spec.parted_word word.now) (seen self.now).tokens }
    {
        match self.rest {
            [first, ..] => is_parted_word(first, word),
            [] => false,
        }
    }

    /// Whether the next token is this mark.
    #[tactic(auto, unfolding(crate::specs::States::seen))]
    pub fn at_sign(&self, mark: &[u8]) -> bool
        ensures plain { result ≡ next_is (spec.sign mark.now) (seen self.now).tokens }
        ensures colon { (b : Begins) → mark.now ≡ codes ":" → result ≡ next_is (spec.colon b)
            (seen self.now).tokens }
    {
        match self.rest {
            [first, ..] => is_mark(first, mark),
            [] => false,
        }
    }

    /// Whether the next token is this mark, with no gap before it.
    #[tactic(auto, unfolding(crate::specs::States::seen))]
    pub fn at_suffix(&self, mark: &[u8]) -> bool
        ensures { result ≡ next_is (spec.suffix_sign mark.now) (seen self.now).tokens }
    {
        match self.rest {
            [first, ..] => is_glued_mark(first, mark),
            [] => false,
        }
    }

    /// Whether the next token is one of the class.
    #[tactic(auto, unfolding(crate::specs::States::seen))]
    pub fn at(&self, class: Class) -> bool
        ensures { result ≡ next_is (terminal_view class) (seen self.now).tokens }
    {
        match self.rest {
            [first, ..] => is_class(first, class),
            [] => false,
        }
    }

    /// Takes the next token, whatever it is.
    #[tactic(auto, unfolding(crate::specs::States::seen))]
    pub fn next(&mut self) -> Option<&'a SqlToken<'a>>
        ensures { TakesAny (seen self.old) (option_map (λ t. sql_view t.now) result)
            (seen self.new) }
    {
        match self.rest {
            [first, rest @ ..] => {
                self.rest = rest;
                Some(first)
            }
            [] => None,
        }
    }

    /// Takes the next token, which is this word.
    #[tactic(auto, unfolding(crate::specs::States::seen))]
    pub fn word(&mut self, word: &[u8]) -> Result<&'a SqlToken<'a>, Failure>
        ensures { CursorTakes (spec.keyword word.now) self.old result self.new }
    {
        let tokens = self.rest;
        match tokens {
            [first, rest @ ..] => {
                if !is_keyword(first, word) {
                    return Err(Failure::Dead(tokens.len()));
                }
                self.rest = rest;
                Ok(first)
            }
            [] => Err(Failure::Dead(0)),
        }
    }

    /// Takes the next token, which is this word, with a gap before it.
    #[tactic(auto, unfolding(crate::specs::States::seen))]
    pub fn parted(&mut self, word: &[u8]) -> Result<&'a SqlToken<'a>, Failure>
        ensures { CursorTakes (spec.parted_word word.now) self.old result self.new }
    {
        let tokens = self.rest;
        match tokens {
            [first, rest @ ..] => {
                if !is_parted_word(first, word) {
                    return Err(Failure::Dead(tokens.len()));
                }
                self.rest = rest;
                Ok(first)
            }
            [] => Err(Failure::Dead(0)),
        }
    }

    /// Takes the next token, which is this mark.
    #[tactic(auto, unfolding(crate::specs::States::seen))]
    pub fn sign(&mut self, mark: &[u8]) -> Result<&'a SqlToken<'a>, Failure>
        ensures { CursorTakes (spec.sign mark.now) self.old result self.new }
    {
        let tokens = self.rest;
        match tokens {
            [first, rest @ ..] => {
                if !is_mark(first, mark) {
                    return Err(Failure::Dead(tokens.len()));
                }
                self.rest = rest;
                Ok(first)
            }
            [] => Err(Failure::Dead(0)),
        }
    }

    /// Takes the next token, which is this mark, with no gap before it.
    #[tactic(auto, unfolding(crate::specs::States::seen))]
    pub fn glued_sign(&mut self, mark: &[u8]) -> Result<&'a SqlToken<'a>, Failure>
        ensures { CursorTakes (spec.glued_sign mark.now) self.old result self.new }
    {
        let tokens = self.rest;
        match tokens {
            [first, rest @ ..] => {
                if !is_glued_mark(first, mark) {
                    return Err(Failure::Dead(tokens.len()));
                }
                self.rest = rest;
                Ok(first)
            }
            [] => Err(Failure::Dead(0)),
        }
    }

    /// Takes the next token, which is one of the class.
    #[tactic(auto, unfolding(crate::specs::States::seen))]
    pub fn take(&mut self, class: Class) -> Result<&'a SqlToken<'a>, Failure>
        ensures { CursorTakes (terminal_view class) self.old result self.new }
    {
        let tokens = self.rest;
        match tokens {
            [first, rest @ ..] => {
                if !is_class(first, class) {
                    return Err(Failure::Dead(tokens.len()));
                }
                match counts_behind(self.counts, class) {
                    Some(counts) => {
                        self.counts = counts;
                        self.rest = rest;
                        Ok(first)
                    }
                    None => Err(Failure::OverLimit(tokens.len())),
                }
            }
            [] => Err(Failure::Dead(0)),
        }
    }

    /// Takes the next token, which is a number that a long has, with no gap before it.
    #[tactic(auto, unfolding(crate::specs::States::seen))]
    pub fn glued_number(&mut self) -> Result<&'a SqlToken<'a>, Failure>
        ensures reads { CursorTakes spec.glued_number self.old result self.new }
        ensures fits { IfOk result (λ t. FitsLong (sql_view t.now).bytes) }
    {
        let tokens = self.rest;
        match tokens {
            [first, rest @ ..] => {
                if !is_glued_fitting(first) {
                    return Err(Failure::Dead(tokens.len()));
                }
                self.rest = rest;
                Ok(first)
            }
            [] => Err(Failure::Dead(0)),
        }
    }

    /// Takes the next token, which is a number that a long has.
    #[tactic(auto, unfolding(crate::specs::States::seen))]
    pub fn fitting_number(&mut self) -> Result<&'a SqlToken<'a>, Failure>
        ensures reads { CursorTakes spec.fitting_number self.old result self.new }
        ensures fits { IfOk result (λ t. FitsLong (sql_view t.now).bytes) }
    {
        let tokens = self.rest;
        match tokens {
            [first, rest @ ..] => {
                if !is_fitting(first) {
                    return Err(Failure::Dead(tokens.len()));
                }
                self.rest = rest;
                Ok(first)
            }
            [] => Err(Failure::Dead(0)),
        }
    }

    /// Takes the next token, which is this mark with no gap before it and begins a suffix, and counts it.
    #[tactic(auto, unfolding(crate::specs::States::seen))]
    pub fn suffix_sign(&mut self, mark: &[u8]) -> Result<&'a SqlToken<'a>, Failure>
        ensures { CursorTakes (spec.suffix_sign mark.now) self.old result self.new }
    {
        let tokens = self.rest;
        match tokens {
            [first, rest @ ..] => {
                if !is_glued_mark(first, mark) {
                    return Err(Failure::Dead(tokens.len()));
                }
                if self.counts.suffixes >= 64 {
                    return Err(Failure::OverLimit(tokens.len()));
                }
                self.counts.suffixes += 1;
                self.rest = rest;
                Ok(first)
            }
            [] => Err(Failure::Dead(0)),
        }
    }
}
