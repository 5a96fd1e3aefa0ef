//! The tokens that are left, with what is counted so far.

ghost use Rattle.std.specs.Prelude.{◌≡◌, Bool, false, length, Some, None};
ghost use Rattle.ec_ctypes.specs.views.Tokens.{tok_view, token_view, tokens_view};
ghost use Rattle.ec_cursor.specs.Parts.{start_view};
ghost use Rattle.ec_cursor.specs.Sees.{sees};
ghost use Rattle.ec_cursor.specs.States.{counts_view, counted_by, seen, inside_expression, behind_expression, inside_declarator, behind_declarator, Eats, IsNextKind, IsSecondKind};
ghost use Rattle.ec_grammar.specs.declared.kind.Kind.TheVariants as kinds;
ghost use Rattle.ec_grammar.specs.Input as spec;
ghost use Rattle.ec_grammar.specs.Input.{Reads, Passes, kind_at, kind_next, state};
ghost use Rattle.ec_language.specs.Grammar as g;
ghost use Rattle.ec_language.specs.Productions.{placed, placed_from, section_behind, start_of, Placed};
ghost use Rattle.ec_language.specs.Syntax.{limits};

use crate::counts::{Counted, Counts, count_one};
use crate::kinds::{kind_of, same_kind};
use ec_base::Line;
use ec_ctypes::{Tok, Token};
use ec_grammar::{Failure, Kind};
use std::marker::Model;

/// Where a declaration or a statement starts.
#[derive(Clone, Copy, Debug)]
pub struct Start {
    pub line: Line,
    /// Whether it stands in a declare section.
    pub section: bool,
}

/// The tokens that are left, with what is counted so far.
#[derive(Drop)]
pub struct Cursor<'a> {
    rest: &'a [Token],
    /// The kinds of the next token and of the one behind it, so that each is found once.
    kind: Kind,
    kind_behind: Kind,
    /// Whether the next token stands in a declare section.
    section: bool,
    counts: Counts,
}

impl<'a> Model for Cursor<'a> {
    ghost use Rattle.std.specs.Coded.{codes};
    ghost use Rattle.ec_ctypes.specs.contracts.types.ty.Ty as ty;
    ghost use Rattle.ec_cursor.specs.States.{Left, AreNextKinds};

    ghost Value = { Left };

    ghost coded = { Prim.hlevel (codes, ty.the_row.coded) };

    ghost view = { λ c. record { tokens = c.rest.now; section = c.section; counts = c.counts } };

    ghost invariant = { λ c. AreNextKinds c.section c.rest.now c.kind c.kind_behind };
}

/// The kind of the first token.
fn first_kind(tokens: &[Token]) -> Kind
    ensures { (section : Bool) → IsNextKind section tokens.now result }
{
    match tokens {
        [first, ..] => kind_of(&first.tok),
        [] => Kind::End,
    }
}

/// The kind of the second token.
fn second_kind(tokens: &[Token]) -> Kind
    ensures { (section : Bool) → IsSecondKind section tokens.now result }
{
    match tokens {
        [_, rest @ ..] => first_kind(rest),
        [] => Kind::End,
    }
}

/// Whether what stands behind a token stands in a declare section.
fn section_behind_token(section: bool, tok: &Tok) -> bool
    ensures { result ≡ section_behind section (tok_view tok.now) }
{
    match tok {
        Tok::SectionStart => true,
        Tok::SectionEnd => false,
        _ => section,
    }
}

impl<'a> Cursor<'a> {
    /// All tokens, with nothing counted.
    #[tactic(auto, unfolding(crate::specs::States::seen))]
    pub fn new(tokens: &'a [Token]) -> Cursor<'a>
        ensures { seen result ≡ state (placed (tokens_view tokens.now)) g.no_counts }
    {
        Cursor {
            rest: tokens,
            kind: first_kind(tokens),
            kind_behind: second_kind(tokens),
            section: false,
            counts: Counts {
                operations: None,
                derivations: 0,
            },
        }
    }

    /// How many tokens are left.
    #[tactic(auto, using(crate::proofs::SeenTokens::placed_length), unfolding(crate::specs::States::seen))]
    pub fn left(&self) -> usize
        ensures { result ≡ length (seen self.now).tokens }
    {
        self.rest.len()
    }

    /// The kind of the next token.
    #[tactic(auto, unfolding(crate::specs::States::seen))]
    pub fn peek(&self) -> Kind
        ensures { result ≡ kind_at (seen self.now).tokens }
    {
        self.kind
    }

    /// Whether the next token is of this kind.
    #[tactic(auto, using(crate::proofs::Sees::same_is_sees))]
    pub fn sees(&self, kind: Kind) -> bool
        ensures { result ≡ sees kind (kind_at (seen self.now).tokens) }
    {
        same_kind(self.peek(), kind)
    }

    /// The kind of the token behind the next.
    #[tactic(auto, unfolding(crate::specs::States::seen))]
    pub fn peek_next(&self) -> Kind
        ensures { result ≡ kind_next (seen self.now).tokens }
    {
        self.kind_behind
    }

    /// Where the next token stands.
    #[tactic(auto, unfolding(crate::specs::States::seen))]
    pub fn start(&self) -> Start
        ensures { start_view result ≡ start_of (seen self.now).tokens }
    {
        match self.rest {
            [first, ..] => Start {
                line: first.line,
                section: self.section,
            },
            [] => Start {
                line: Line(0),
                section: false,
            },
        }
    }

    /// No program goes on with the next token.
    #[tactic(auto, using(crate::proofs::SeenTokens::placed_length), unfolding(crate::specs::States::seen))]
    pub fn refuse(&self) -> Failure
        ensures { result ≡ Failure.Dead (length (seen self.now).tokens) }
    {
        Failure::Dead(self.rest.len())
    }

    /// No level is left: the next token passes the limit where it begins what nests.
    #[tactic(auto, using(crate::proofs::SeenTokens::placed_length), unfolding(crate::specs::States::seen))]
    pub fn no_level(&self, begins: bool) -> Failure
        ensures { result ≡ spec.level_failure begins (length (seen self.now).tokens) }
    {
        if begins {
            Failure::TooDeep(self.rest.len())
        } else {
            Failure::Dead(self.rest.len())
        }
    }

    /// A token of this kind.
    #[tactic(auto, using(crate::proofs::SeenTokens::placed_length), unfolding(crate::specs::States::seen, ec_grammar::specs::Input::expect))]
    pub fn expect(&mut self, kind: Kind) -> Result<&'a Token, Failure>
        ensures { Reads (λ t. record { token = token_view t.now; section = self.old.section })
            (spec.expect kind (seen self.old)) result (seen self.new) }
    {
        let tokens = self.rest;
        match tokens {
            [first, rest @ ..] => {
                if !same_kind(self.kind, kind) {
                    return Err(Failure::Dead(tokens.len()));
                }
                self.section = section_behind_token(self.section, &first.tok);
                self.kind = self.kind_behind;
                self.kind_behind = second_kind(rest);
                self.rest = rest;
                Ok(first)
            }
            [] => Err(Failure::Dead(0)),
        }
    }

    /// Passes the next token if it is of this kind, and says whether it is. (The end is no token that is passed so.)
    #[tactic(auto, using(crate::proofs::Sees::same_is_sees), unfolding(crate::specs::States::seen, ec_grammar::specs::Input::expect))]
    pub fn eat(&mut self, kind: Kind) -> bool
        requires { sees kind kinds.End ≡ false }
        ensures { Eats kind (seen self.old) result (seen self.new) }
    {
        match self.rest {
            [first, rest @ ..] => {
                if !same_kind(self.kind, kind) {
                    return false;
                }
                self.section = section_behind_token(self.section, &first.tok);
                self.kind = self.kind_behind;
                self.kind_behind = second_kind(rest);
                self.rest = rest;
                true
            }
            [] => false,
        }
    }

    /// A token of this kind, which is counted.
    #[tactic(auto, using(crate::proofs::SeenTokens::placed_length), unfolding(crate::specs::States::seen, ec_grammar::specs::Input::expect, ec_grammar::specs::Input::expect_counted))]
    pub fn expect_counted(&mut self, counted: Counted, kind: Kind) -> Result<(), Failure>
        ensures { Passes (spec.expect_counted limits (counted_by counted) kind (seen self.old))
            result (seen self.new) }
    {
        let left = self.rest.len();
        self.expect(kind)?;
        match count_one(self.counts, counted) {
            Some(counts) => {
                self.counts = counts;
                Ok(())
            }
            None => Err(Failure::TooDeep(left)),
        }
    }

    /// Enters an expression. What is counted outside of it is given back.
    #[tactic(auto, unfolding(crate::specs::States::seen))]
    pub fn begin_expression(&mut self) -> Counts
        ensures outside { counts_view result ≡ (seen self.old).counts }
        ensures inside { seen self.new ≡ inside_expression (seen self.old) }
    {
        let outside = self.counts;
        if self.counts.operations.is_none() {
            self.counts.operations = Some(0);
        }
        outside
    }

    /// Leaves an expression, by what was counted outside of it.
    #[tactic(auto, unfolding(crate::specs::States::seen))]
    pub fn end_expression(&mut self, outside: Counts)
        ensures { seen self.new ≡ behind_expression outside (seen self.old) }
    {
        if outside.operations.is_none() {
            self.counts.operations = None;
        }
        self.counts.derivations = outside.derivations;
    }

    /// Enters what has stars and lengths of its own. What is counted outside of it is given back.
    #[tactic(auto, unfolding(crate::specs::States::seen))]
    pub fn begin_declarator(&mut self) -> Counts
        ensures outside { counts_view result ≡ (seen self.old).counts }
        ensures inside { seen self.new ≡ inside_declarator (seen self.old) }
    {
        let outside = self.counts;
        self.counts.derivations = 0;
        outside
    }

    /// Leaves it, by what was counted outside of it.
    #[tactic(auto, unfolding(crate::specs::States::seen))]
    pub fn end_declarator(&mut self, outside: Counts)
        ensures { seen self.new ≡ behind_declarator outside (seen self.old) }
    {
        self.counts.derivations = outside.derivations;
    }
}
