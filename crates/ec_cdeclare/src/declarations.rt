//! Declarations, members, parameters and the heads of `for` (ISO/IEC 9899:1999, 6.7, 6.7.2.1, 6.7.5.3 and 6.8.5.3).
//! The rules take the readers of what stands one level deeper as parameters, so that each is proved by itself.

ghost use Rattle.std.specs.Prelude.{◌≡◌};
ghost use Rattle.ec_ctypes.specs.trees.Exprs as tree;
ghost use Rattle.ec_ctypes.specs.views.Exprs.{expr_option_view, base_view, dims_view, decl_view, declarators_of};
ghost use Rattle.ec_ctypes.specs.views.Units.{param_view};
ghost use Rattle.ec_grammar.specs.Input.{own};
ghost use Rattle.ec_grammar.specs.ReadDeclarations as spec;
ghost use Rattle.ec_language.specs.Productions as language;
ghost use Rattle.ec_cdeclare.specs.Nests.{ExpressionsRead, SubexpressionsNest, InitializersNest, MembersNest};
ghost use Rattle.ec_cursor.specs.Parts.{each_declarator, each_decl, each_param, start_view, for_start_view, for_head_view, for_condition, for_step};
ghost use Rattle.ec_cursor.specs.States.{Reading, within};

use crate::declarators::Declarators;
use crate::types::{Types, stars};
use ec_base::{List, Name, beside};
use ec_ctypes::{Base, Decl, Declarator, Expr, Init, Param, Punct};
use ec_cursor::{
    Cursor, ForHead, ForStart, Start, Subexpression, begins_type, copy_name, list_of, separated,
};
use ec_grammar::{Failure, Kind};
use std::alloc::Global;

#[derive(Clone, Copy)]
pub struct Declarations<E, X, I, M> {
    pub declarators: Declarators<E, X, I>,
    pub members: M,
}

fn declared(start: Start, base: Base, items: List<Declarator>) -> Decl
    ensures { decl_view result
        ≡ language.declared (start_view start) (base_view base)
        (declarators_of (each_declarator items)) }
{
    Decl {
        base,
        items,
        section: start.section,
        line: start.line,
    }
}

/// Whether a parameter is `void` alone, which stands for no parameters (ISO/IEC 9899:1999, 6.7.5.3).
fn is_void(param: &Param) -> bool
    ensures { result
        ≡ language.is_void (base_view param.now.base) param.now.stars param.now.name
        (dims_view param.now.dims) }
{
    match (&param.base, &param.name) {
        (Base::Words(words), None) => {
            param.stars == 0 && param.dims.is_empty() && is_void_words(words.as_slice())
        }
        _ => false,
    }
}

fn is_void_words(words: &[Name]) -> bool
    ensures { result ≡ language.is_void (tree.words words.now) 0 None tree.no_dims }
{
    match words {
        [word] => b"void".as_slice() == word.as_slice(),
        _ => false,
    }
}

fn without_void(alloc: Global, params: List<Param>) -> List<Param>
    ensures { each_param result ≡ language.without_void (each_param params) }
{
    let none = match params.as_slice() {
        [only] => is_void(only),
        _ => false,
    };
    if none { List::new(alloc) } else { params }
}

impl<
    E,
    X,
    I,
    M: Fn(Global, &mut Cursor<'_>, u32) -> Result<List<Decl>, Failure> + Copy,
> Declarations<E, X, I, M> {
    /// What a declaration begins with.
    fn specifiers(&self, cursor: &mut Cursor<'_>) -> Result<Base, Failure>
        requires members { MembersNest M.pre M.post self.now }
        ensures { Reading base_view (within self.now.declarators.expressions.levels spec.specifiers)
            cursor.old result cursor.new }
    {
        Types {
            alloc: self.declarators.expressions.alloc,
            levels: self.declarators.expressions.levels,
            members: self.members,
        }
        .specifiers(cursor)
    }
}

impl<
    E: Fn(Global, &mut Cursor<'_>, u32, Subexpression) -> Result<Expr, Failure>,
    X,
    I,
    M: Fn(Global, &mut Cursor<'_>, u32) -> Result<List<Decl>, Failure> + Copy,
> Declarations<E, X, I, M> {
    #[tactic(auto, unfolding(ec_grammar::specs::ReadDeclarations::parameter_name))]
    fn parameter_name(&self, cursor: &mut Cursor<'_>) -> Result<Option<Name>, Failure>
        ensures { Reading (λ name. name)
            (within self.now.declarators.expressions.levels spec.parameter_name)
            cursor.old result cursor.new }
    {
        if !cursor.sees(Kind::Name) {
            return Ok(None);
        }
        let token = cursor.expect(Kind::Name)?;
        Ok(Some(copy_name(self.declarators.expressions.alloc, &token.tok)?))
    }

    #[tactic(auto, unfolding(ec_grammar::specs::ReadDeclarations::parameter))]
    fn parameter(&self, cursor: &mut Cursor<'_>) -> Result<Param, Failure>
        requires subexpressions { SubexpressionsNest E.pre E.post self.now.declarators.expressions }
        requires members { MembersNest M.pre M.post self.now }
        ensures { Reading param_view (within self.now.declarators.expressions.levels spec.parameter)
            cursor.old result cursor.new }
    {
        let start = cursor.start();
        let base = self.specifiers(cursor)?;
        let (base, stars) = beside(base, stars(cursor))?;
        let (base, name) = beside(base, self.parameter_name(cursor))?;
        let ((base, name), dims) = beside((base, name), self.declarators.lengths(cursor))?;
        Ok(Param {
            base,
            stars,
            name,
            dims,
            section: start.section,
        })
    }

    /// A parameter. Its stars and lengths are counted by themselves.
    #[tactic(auto, unfolding(ec_grammar::specs::Input::own))]
    fn own_parameter(&self, cursor: &mut Cursor<'_>) -> Result<Param, Failure>
        requires subexpressions { SubexpressionsNest E.pre E.post self.now.declarators.expressions }
        requires members { MembersNest M.pre M.post self.now }
        ensures { Reading param_view
            (own (within self.now.declarators.expressions.levels spec.parameter))
            cursor.old result cursor.new }
    {
        let outside = cursor.begin_declarator();
        let found = self.parameter(cursor)?;
        cursor.end_declarator(outside);
        Ok(found)
    }

    fn more_parameters(
        &self,
        cursor: &mut Cursor<'_>,
        found: List<Param>,
    ) -> Result<List<Param>, Failure>
        requires subexpressions { SubexpressionsNest E.pre E.post self.now.declarators.expressions }
        requires members { MembersNest M.pre M.post self.now }
        ensures { Reading each_param
            (within self.now.declarators.expressions.levels spec.more_parameters (each_param found))
            cursor.old result cursor.new }
    {
        separated(
            cursor,
            found,
            |cursor: &mut Cursor<'_>| self.own_parameter(cursor),
        )
    }

    #[tactic(auto, unfolding(ec_grammar::specs::ReadDeclarations::parameters))]
    fn parameters(&self, cursor: &mut Cursor<'_>) -> Result<List<Param>, Failure>
        requires subexpressions { SubexpressionsNest E.pre E.post self.now.declarators.expressions }
        requires members { MembersNest M.pre M.post self.now }
        ensures { Reading each_param
            (within self.now.declarators.expressions.levels spec.parameters)
            cursor.old result cursor.new }
    {
        let alloc = self.declarators.expressions.alloc;
        if !begins_type(cursor.peek()) {
            return Ok(List::new(alloc));
        }
        let first = self.own_parameter(cursor)?;
        let found = list_of(alloc, first)?;
        self.more_parameters(cursor, found)
    }

    /// Parameters in parentheses. `void` alone stands for none.
    #[tactic(auto, unfolding(ec_grammar::specs::ReadDeclarations::parameter_part))]
    pub fn parameter_part(&self, cursor: &mut Cursor<'_>) -> Result<List<Param>, Failure>
        requires subexpressions { SubexpressionsNest E.pre E.post self.now.declarators.expressions }
        requires members { MembersNest M.pre M.post self.now }
        ensures { Reading each_param
            (within self.now.declarators.expressions.levels spec.parameter_part)
            cursor.old result cursor.new }
    {
        cursor.expect(Kind::Mark(Punct::LeftParen))?;
        let found = self.parameters(cursor)?;
        cursor.expect(Kind::Mark(Punct::RightParen))?;
        Ok(without_void(self.declarators.expressions.alloc, found))
    }
}

impl<
    E: Fn(Global, &mut Cursor<'_>, u32, Subexpression) -> Result<Expr, Failure>,
    X: Fn(Global, &mut Cursor<'_>, u32) -> Result<Expr, Failure>,
    I: Fn(Global, &mut Cursor<'_>, u32) -> Result<List<Init>, Failure>,
    M: Fn(Global, &mut Cursor<'_>, u32) -> Result<List<Decl>, Failure> + Copy,
> Declarations<E, X, I, M> {
    /// A declaration, maybe with no declarator.
    #[tactic(auto, unfolding(ec_grammar::specs::ReadDeclarations::declaration))]
    pub fn declaration(&self, cursor: &mut Cursor<'_>) -> Result<Decl, Failure>
        requires subexpressions { SubexpressionsNest E.pre E.post self.now.declarators.expressions }
        requires expressions { ExpressionsRead X.pre X.post self.now.declarators.expressions }
        requires initializers { InitializersNest I.pre I.post self.now.declarators }
        requires members { MembersNest M.pre M.post self.now }
        ensures { Reading decl_view
            (within self.now.declarators.expressions.levels spec.declaration)
            cursor.old result cursor.new }
    {
        let start = cursor.start();
        let base = self.specifiers(cursor)?;
        let kept = beside(base, self.declarators.declarators_option(cursor))?;
        let ((base, items), _mark) = beside(kept, cursor.expect(Kind::Mark(Punct::Semicolon)))?;
        Ok(declared(start, base, items))
    }

    /// A declaration with one declarator at least: of members, and in a `for`.
    #[tactic(auto, unfolding(ec_grammar::specs::ReadDeclarations::member_declaration))]
    fn member_declaration(&self, cursor: &mut Cursor<'_>) -> Result<Decl, Failure>
        requires subexpressions { SubexpressionsNest E.pre E.post self.now.declarators.expressions }
        requires expressions { ExpressionsRead X.pre X.post self.now.declarators.expressions }
        requires initializers { InitializersNest I.pre I.post self.now.declarators }
        requires members { MembersNest M.pre M.post self.now }
        ensures { Reading decl_view
            (within self.now.declarators.expressions.levels spec.member_declaration)
            cursor.old result cursor.new }
    {
        let start = cursor.start();
        let base = self.specifiers(cursor)?;
        let kept = beside(base, self.declarators.declarators(cursor))?;
        let ((base, items), _mark) = beside(kept, cursor.expect(Kind::Mark(Punct::Semicolon)))?;
        Ok(declared(start, base, items))
    }

    fn more_members(
        &self,
        cursor: &mut Cursor<'_>,
        mut found: List<Decl>,
    ) -> Result<List<Decl>, Failure>
        requires subexpressions { SubexpressionsNest E.pre E.post self.now.declarators.expressions }
        requires expressions { ExpressionsRead X.pre X.post self.now.declarators.expressions }
        requires initializers { InitializersNest I.pre I.post self.now.declarators }
        requires members { MembersNest M.pre M.post self.now }
        ensures { Reading each_decl
            (within self.now.declarators.expressions.levels spec.more_members (each_decl found))
            cursor.old result cursor.new }
    {
        for _turn in 0..cursor.left() {
            if !begins_type(cursor.peek()) {
                return Ok(found);
            }
            let member = self.member_declaration(cursor)?;
            found.push(member)?;
        }
        Ok(found)
    }

    /// The members of a struct, in braces.
    #[tactic(auto, unfolding(ec_grammar::specs::ReadDeclarations::members))]
    pub fn members(&self, cursor: &mut Cursor<'_>) -> Result<List<Decl>, Failure>
        requires subexpressions { SubexpressionsNest E.pre E.post self.now.declarators.expressions }
        requires expressions { ExpressionsRead X.pre X.post self.now.declarators.expressions }
        requires initializers { InitializersNest I.pre I.post self.now.declarators }
        requires members { MembersNest M.pre M.post self.now }
        ensures { Reading each_decl (within self.now.declarators.expressions.levels spec.members)
            cursor.old result cursor.new }
    {
        cursor.expect(Kind::Mark(Punct::LeftBrace))?;
        let first = self.member_declaration(cursor)?;
        let found = list_of(self.declarators.expressions.alloc, first)?;
        let found = self.more_members(cursor, found)?;
        cursor.expect(Kind::Mark(Punct::RightBrace))?;
        Ok(found)
    }

    fn first_expression(&self, cursor: &mut Cursor<'_>) -> Result<ForStart, Failure>
        requires subexpressions { SubexpressionsNest E.pre E.post self.now.declarators.expressions }
        requires expressions { ExpressionsRead X.pre X.post self.now.declarators.expressions }
        ensures { Reading for_start_view
            (within self.now.declarators.expressions.levels spec.first_expression)
            cursor.old result cursor.new }
    {
        let expr = self.declarators.expressions.expression_option(cursor)?;
        let (expr, _mark) = beside(expr, cursor.expect(Kind::Mark(Punct::Semicolon)))?;
        Ok(ForStart::Expression(expr))
    }

    #[tactic(auto, unfolding(ec_grammar::specs::ReadDeclarations::for_start))]
    fn for_start(&self, cursor: &mut Cursor<'_>) -> Result<ForStart, Failure>
        requires subexpressions { SubexpressionsNest E.pre E.post self.now.declarators.expressions }
        requires expressions { ExpressionsRead X.pre X.post self.now.declarators.expressions }
        requires initializers { InitializersNest I.pre I.post self.now.declarators }
        requires members { MembersNest M.pre M.post self.now }
        ensures { Reading for_start_view
            (within self.now.declarators.expressions.levels spec.for_start)
            cursor.old result cursor.new }
    {
        if !begins_type(cursor.peek()) {
            return self.first_expression(cursor);
        }
        let decl = self.member_declaration(cursor)?;
        Ok(ForStart::Declaration(decl))
    }

    fn for_step(
        &self,
        cursor: &mut Cursor<'_>,
        first: ForStart,
        condition: Option<Expr>,
    ) -> Result<ForHead, Failure>
        requires subexpressions { SubexpressionsNest E.pre E.post self.now.declarators.expressions }
        requires expressions { ExpressionsRead X.pre X.post self.now.declarators.expressions }
        ensures { Reading for_head_view
            (within self.now.declarators.expressions.levels
            for_step (for_start_view first) (expr_option_view condition))
            cursor.old result cursor.new }
    {
        let kept = (first, condition);
        let (kept, step) = beside(kept, self.declarators.expressions.expression_option(cursor))?;
        let kept = (kept, step);
        let (((first, condition), step), _mark) = beside(
            kept,
            cursor.expect(Kind::Mark(Punct::RightParen)),
        )?;
        Ok(ForHead {
            first,
            condition,
            step,
        })
    }

    fn for_condition(&self, cursor: &mut Cursor<'_>, first: ForStart) -> Result<ForHead, Failure>
        requires subexpressions { SubexpressionsNest E.pre E.post self.now.declarators.expressions }
        requires expressions { ExpressionsRead X.pre X.post self.now.declarators.expressions }
        ensures { Reading for_head_view
            (within self.now.declarators.expressions.levels for_condition (for_start_view first))
            cursor.old result cursor.new }
    {
        let kept = beside(
            first,
            self.declarators.expressions.expression_option(cursor),
        )?;
        let ((first, condition), _mark) = beside(
            kept,
            cursor.expect(Kind::Mark(Punct::Semicolon)),
        )?;
        self.for_step(cursor, first, condition)
    }

    /// What stands behind `for`, in parentheses.
    #[tactic(auto, unfolding(ec_grammar::specs::ReadDeclarations::for_head))]
    pub fn for_head(&self, cursor: &mut Cursor<'_>) -> Result<ForHead, Failure>
        requires subexpressions { SubexpressionsNest E.pre E.post self.now.declarators.expressions }
        requires expressions { ExpressionsRead X.pre X.post self.now.declarators.expressions }
        requires initializers { InitializersNest I.pre I.post self.now.declarators }
        requires members { MembersNest M.pre M.post self.now }
        ensures { Reading for_head_view
            (within self.now.declarators.expressions.levels spec.for_head)
            cursor.old result cursor.new }
    {
        cursor.expect(Kind::Mark(Punct::LeftParen))?;
        let first = self.for_start(cursor)?;
        self.for_condition(cursor, first)
    }
}
