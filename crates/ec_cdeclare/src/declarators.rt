//! Declarators and initializers (ISO/IEC 9899:1999, 6.7.5 and 6.7.8). The rules take the readers of what stands one
//! level deeper as parameters, so that each is proved by itself.

ghost use Rattle.std.specs.Prelude.{◌≡◌, ◌<◌, ◌-◌};
ghost use Rattle.ec_ctypes.specs.declared.text.token.Punct.TheVariants as mark;
ghost use Rattle.ec_ctypes.specs.trees.Exprs as tree;
ghost use Rattle.ec_ctypes.specs.views.Exprs.{expr_view, expr_option_view, init_view, inits_of, declarator_view, dims_of, init_of};
ghost use Rattle.ec_grammar.specs.Input.{own};
ghost use Rattle.ec_grammar.specs.ReadDeclarations as spec;
ghost use Rattle.ec_grammar.specs.ReadDeclarations.{nested};
ghost use Rattle.ec_grammar.specs.declared.kind.Kind.TheVariants as kind;
ghost use Rattle.ec_language.specs.Syntax.{limits};
ghost use Rattle.ec_cdeclare.specs.Nests.{ExpressionsRead, SubexpressionsNest, InitializersNest};
ghost use Rattle.ec_cursor.specs.Parts.{each_length, each_init, each_declarator, init_option, some_declarators};
ghost use Rattle.ec_cursor.specs.States.{Reading, within};

use crate::expressions::ExpressionReaders;
use crate::types::stars;
use ec_base::{List, Name, beside};
use ec_ctypes::{Base, Declarator, Expr, Init, Punct};
use ec_cursor::{
    Counted, Cursor, Subexpression, begins_declarator, begins_expression, begins_initializer,
    copy_name, list_of, separated,
};
use ec_grammar::{Failure, Kind};
use std::alloc::Global;

#[derive(Clone, Copy)]
pub struct Declarators<E, X, I> {
    pub expressions: ExpressionReaders<E, X>,
    pub initializer_list: I,
}

fn one(expr: Expr) -> Init
    ensures { init_view result ≡ tree.one (expr_view expr) }
{
    Init::One(expr)
}

fn many(inits: List<Init>) -> Init
    ensures { init_view result ≡ tree.many (inits_of (each_init inits)) }
{
    Init::Many(inits)
}

fn declarator(stars: u32, name: Name, dims: List<Option<Expr>>, init: Option<Init>) -> Declarator
    ensures { declarator_view result
        ≡ tree.declarator stars name (dims_of (each_length dims)) (init_of (init_option init)) }
{
    Declarator {
        stars,
        name,
        dims,
        init,
    }
}

impl<E: Fn(Global, &mut Cursor<'_>, u32, Subexpression) -> Result<Expr, Failure>, X, I> Declarators<
    E,
    X,
    I,
> {
    fn operators(&self, cursor: &mut Cursor<'_>) -> Result<Expr, Failure>
        requires { SubexpressionsNest E.pre E.post self.now.expressions }
        ensures { Reading expr_view (nested limits self.now.expressions.levels).operators
            cursor.old result cursor.new }
    {
        let within = &self.expressions;
        (within.subexpression)(
            within.alloc,
            cursor,
            within.levels,
            Subexpression::Operators,
        )
    }

    /// An array length, unless it is left out.
    #[tactic(auto, unfolding(ec_grammar::specs::ReadDeclarations::length_option, ec_grammar::specs::Input::whole))]
    fn length_option(&self, cursor: &mut Cursor<'_>) -> Result<Option<Expr>, Failure>
        requires some { 0 < self.now.expressions.levels }
        requires subexpressions { SubexpressionsNest E.pre E.post self.now.expressions }
        ensures { Reading expr_option_view
            (within (self.now.expressions.levels - 1) spec.length_option)
            cursor.old result cursor.new }
    {
        if !begins_expression(cursor.peek()) {
            return Ok(None);
        }
        let outside = cursor.begin_expression();
        let length = self.operators(cursor)?;
        cursor.end_expression(outside);
        Ok(Some(length))
    }

    /// An array length in brackets.
    #[tactic(auto, unfolding(ec_grammar::specs::ReadDeclarations::length_part))]
    fn length_in_brackets(&self, cursor: &mut Cursor<'_>) -> Result<Option<Expr>, Failure>
        requires some { 0 < self.now.expressions.levels }
        requires subexpressions { SubexpressionsNest E.pre E.post self.now.expressions }
        ensures { Reading expr_option_view
            (within (self.now.expressions.levels - 1) spec.length_part)
            cursor.old result cursor.new }
    {
        cursor.expect_counted(Counted::Derivations, Kind::Mark(Punct::LeftBracket))?;
        let length = self.length_option(cursor)?;
        let (length, _mark) = beside(length, cursor.expect(Kind::Mark(Punct::RightBracket)))?;
        Ok(length)
    }

    /// The same, one level deeper.
    fn length_part(&self, cursor: &mut Cursor<'_>) -> Result<Option<Expr>, Failure>
        requires { SubexpressionsNest E.pre E.post self.now.expressions }
        ensures { Reading expr_option_view (nested limits self.now.expressions.levels).length_part
            cursor.old result cursor.new }
    {
        if self.expressions.levels == 0 {
            return Err(cursor.no_level(cursor.sees(Kind::Mark(Punct::LeftBracket))));
        }
        self.length_in_brackets(cursor)
    }

    /// Array lengths, outermost first (ISO/IEC 9899:1999, 6.7.5.2).
    pub fn lengths(&self, cursor: &mut Cursor<'_>) -> Result<List<Option<Expr>>, Failure>
        requires { SubexpressionsNest E.pre E.post self.now.expressions }
        ensures { Reading each_length (within self.now.expressions.levels spec.lengths)
            cursor.old result cursor.new }
    {
        let mut found = List::new(self.expressions.alloc);
        for _turn in 0..cursor.left() {
            if !cursor.sees(Kind::Mark(Punct::LeftBracket)) {
                return Ok(found);
            }
            let length = self.length_part(cursor)?;
            found.push(length)?;
        }
        Ok(found)
    }
}

impl<
    E: Fn(Global, &mut Cursor<'_>, u32, Subexpression) -> Result<Expr, Failure>,
    X: Fn(Global, &mut Cursor<'_>, u32) -> Result<Expr, Failure>,
    I: Fn(Global, &mut Cursor<'_>, u32) -> Result<List<Init>, Failure>,
> Declarators<E, X, I> {
    fn braced(&self, cursor: &mut Cursor<'_>) -> Result<Init, Failure>
        requires { InitializersNest I.pre I.post self.now }
        ensures { Reading init_view
            (within self.now.expressions.levels spec.initializer_by (kind.Mark mark.LeftBrace))
            cursor.old result cursor.new }
    {
        let within = &self.expressions;
        let found = (self.initializer_list)(within.alloc, cursor, within.levels)?;
        Ok(many(found))
    }

    #[tactic(auto, unfolding(ec_grammar::specs::ReadDeclarations::initializer))]
    fn initializer(&self, cursor: &mut Cursor<'_>) -> Result<Init, Failure>
        requires subexpressions { SubexpressionsNest E.pre E.post self.now.expressions }
        requires expressions { ExpressionsRead X.pre X.post self.now.expressions }
        requires initializers { InitializersNest I.pre I.post self.now }
        ensures { Reading init_view (within self.now.expressions.levels spec.initializer)
            cursor.old result cursor.new }
    {
        match cursor.peek() {
            Kind::Mark(Punct::LeftBrace) => self.braced(cursor),
            _ => {
                let expr = self.expressions.expression(cursor)?;
                Ok(one(expr))
            }
        }
    }

    /// Further initializers, each behind a comma. One comma may stand behind the last.
    fn more_initializers(
        &self,
        cursor: &mut Cursor<'_>,
        mut found: List<Init>,
    ) -> Result<List<Init>, Failure>
        requires subexpressions { SubexpressionsNest E.pre E.post self.now.expressions }
        requires expressions { ExpressionsRead X.pre X.post self.now.expressions }
        requires initializers { InitializersNest I.pre I.post self.now }
        ensures { Reading each_init
            (within self.now.expressions.levels spec.more_initializers (each_init found))
            cursor.old result cursor.new }
    {
        for _turn in 0..cursor.left() {
            if !cursor.sees(Kind::Mark(Punct::Comma)) {
                return Ok(found);
            }
            let goes_on = begins_initializer(cursor.peek_next());
            cursor.expect(Kind::Mark(Punct::Comma))?;
            if !goes_on {
                return Ok(found);
            }
            let initializer = self.initializer(cursor)?;
            found.push(initializer)?;
        }
        Ok(found)
    }

    /// Initializers in braces.
    #[tactic(auto, unfolding(ec_grammar::specs::ReadDeclarations::initializer_list))]
    pub fn initializer_list(&self, cursor: &mut Cursor<'_>) -> Result<List<Init>, Failure>
        requires subexpressions { SubexpressionsNest E.pre E.post self.now.expressions }
        requires expressions { ExpressionsRead X.pre X.post self.now.expressions }
        requires initializers { InitializersNest I.pre I.post self.now }
        ensures { Reading each_init (within self.now.expressions.levels spec.initializer_list)
            cursor.old result cursor.new }
    {
        cursor.expect(Kind::Mark(Punct::LeftBrace))?;
        let first = self.initializer(cursor)?;
        let found = list_of(self.expressions.alloc, first)?;
        let found = self.more_initializers(cursor, found)?;
        cursor.expect(Kind::Mark(Punct::RightBrace))?;
        Ok(found)
    }

    /// `=` and an initializer, or nothing.
    #[tactic(auto, unfolding(ec_grammar::specs::ReadDeclarations::initializer_option))]
    pub fn initializer_option(&self, cursor: &mut Cursor<'_>) -> Result<Option<Init>, Failure>
        requires subexpressions { SubexpressionsNest E.pre E.post self.now.expressions }
        requires expressions { ExpressionsRead X.pre X.post self.now.expressions }
        requires initializers { InitializersNest I.pre I.post self.now }
        ensures { Reading init_option (within self.now.expressions.levels spec.initializer_option)
            cursor.old result cursor.new }
    {
        if !cursor.eat(Kind::Mark(Punct::Assign)) {
            return Ok(None);
        }
        let initializer = self.initializer(cursor)?;
        Ok(Some(initializer))
    }

    #[tactic(auto, unfolding(ec_grammar::specs::ReadDeclarations::declarator_part))]
    fn declarator_part(&self, cursor: &mut Cursor<'_>) -> Result<Declarator, Failure>
        requires subexpressions { SubexpressionsNest E.pre E.post self.now.expressions }
        requires expressions { ExpressionsRead X.pre X.post self.now.expressions }
        requires initializers { InitializersNest I.pre I.post self.now }
        ensures { Reading declarator_view (within self.now.expressions.levels spec.declarator_part)
            cursor.old result cursor.new }
    {
        let stars = stars(cursor)?;
        let token = cursor.expect(Kind::Name)?;
        let name = copy_name(self.expressions.alloc, &token.tok)?;
        let dims = self.lengths(cursor)?;
        let init = self.initializer_option(cursor)?;
        Ok(declarator(stars, name, dims, init))
    }

    /// A declarator. Its stars and lengths are counted by themselves.
    #[tactic(auto, unfolding(ec_grammar::specs::Input::own))]
    pub fn own_declarator(&self, cursor: &mut Cursor<'_>) -> Result<Declarator, Failure>
        requires subexpressions { SubexpressionsNest E.pre E.post self.now.expressions }
        requires expressions { ExpressionsRead X.pre X.post self.now.expressions }
        requires initializers { InitializersNest I.pre I.post self.now }
        ensures { Reading declarator_view
            (own (within self.now.expressions.levels spec.declarator_part))
            cursor.old result cursor.new }
    {
        let outside = cursor.begin_declarator();
        let found = self.declarator_part(cursor)?;
        cursor.end_declarator(outside);
        Ok(found)
    }

    /// Further declarators, each behind a comma, put behind those in `found`.
    pub fn more_declarators(
        &self,
        cursor: &mut Cursor<'_>,
        found: List<Declarator>,
    ) -> Result<List<Declarator>, Failure>
        requires subexpressions { SubexpressionsNest E.pre E.post self.now.expressions }
        requires expressions { ExpressionsRead X.pre X.post self.now.expressions }
        requires initializers { InitializersNest I.pre I.post self.now }
        ensures { Reading each_declarator
            (within self.now.expressions.levels spec.more_declarators (each_declarator found))
            cursor.old result cursor.new }
    {
        separated(
            cursor,
            found,
            |cursor: &mut Cursor<'_>| self.own_declarator(cursor),
        )
    }

    /// A declarator and further ones, behind a comma each.
    pub fn declarators(&self, cursor: &mut Cursor<'_>) -> Result<List<Declarator>, Failure>
        requires subexpressions { SubexpressionsNest E.pre E.post self.now.expressions }
        requires expressions { ExpressionsRead X.pre X.post self.now.expressions }
        requires initializers { InitializersNest I.pre I.post self.now }
        ensures { Reading each_declarator (within self.now.expressions.levels some_declarators)
            cursor.old result cursor.new }
    {
        let first = self.own_declarator(cursor)?;
        let found = list_of(self.expressions.alloc, first)?;
        self.more_declarators(cursor, found)
    }

    /// Declarators, or none.
    #[tactic(auto, unfolding(ec_grammar::specs::ReadDeclarations::declarators_option))]
    pub fn declarators_option(&self, cursor: &mut Cursor<'_>) -> Result<List<Declarator>, Failure>
        requires subexpressions { SubexpressionsNest E.pre E.post self.now.expressions }
        requires expressions { ExpressionsRead X.pre X.post self.now.expressions }
        requires initializers { InitializersNest I.pre I.post self.now }
        ensures { Reading each_declarator
            (within self.now.expressions.levels spec.declarators_option)
            cursor.old result cursor.new }
    {
        if !begins_declarator(cursor.peek()) {
            return Ok(List::new(self.expressions.alloc));
        }
        self.declarators(cursor)
    }
}
