//! Statements (ISO/IEC 9899:1999, 6.8). The rules take the readers of what stands one level deeper as parameters, so that
//! each is proved by itself.

ghost use Rattle.std.specs.Prelude.{◌≡◌};
ghost use Rattle.ec_ctypes.specs.views.Exprs.{expr_view};
ghost use Rattle.ec_ctypes.specs.views.Stmts.{stmt_view};
ghost use Rattle.ec_grammar.specs.ReadStatements as spec;
ghost use Rattle.ec_grammar.specs.ReadStatements.{nested_statements};
ghost use Rattle.ec_language.specs.Syntax.{limits};
ghost use Rattle.ec_cursor.specs.Parts.{start_view};
ghost use Rattle.ec_cursor.specs.States.{Reading};
ghost use Rattle.ec_csyntax.specs.Arms.{statement_of, branches};
ghost use Rattle.ec_csyntax.specs.declared.forms.Form.TheVariants as forms;
ghost use Rattle.ec_csyntax.specs.Levels.{within_statements};
ghost use Rattle.ec_csyntax.specs.Nests.{StatementsNest, BlocksNest};
ghost use Rattle.ec_csyntax.specs.Views.{each_stmt, stmt_option};

use crate::forms::{Form, statement_form};
use crate::makers::{at, block_of, branch, for_loop};
use crate::texts::embedded_number;
use ec_base::{Boxed, List, beside};
use ec_cparts::{expression, expression_option, for_head, parenthesized};
use ec_ctypes::{Expr, Punct, Stmt, StmtKind};
use ec_cursor::{Cursor, Start, copy_name};
use ec_grammar::{Failure, Kind};
use std::alloc::Global;

#[derive(Clone, Copy)]
pub struct Statements<S, B> {
    pub alloc: Global,
    /// How many levels are left where the statements stand.
    pub levels: u32,
    pub statement: S,
    pub block: B,
}

impl<
    S: Fn(Global, &mut Cursor<'_>, u32) -> Result<Stmt, Failure>,
    B: Fn(Global, &mut Cursor<'_>, u32) -> Result<List<Stmt>, Failure>,
> Statements<S, B> {
    /// A statement, one level deeper.
    fn inner_statement(&self, cursor: &mut Cursor<'_>) -> Result<Stmt, Failure>
        requires { StatementsNest S.pre S.post self.now }
        ensures { Reading stmt_view (nested_statements limits self.now.levels).statement
            cursor.old result cursor.new }
    {
        (self.statement)(self.alloc, cursor, self.levels)
    }

    /// The same, in a box.
    fn boxed_statement(&self, cursor: &mut Cursor<'_>) -> Result<Boxed<Stmt>, Failure>
        requires { StatementsNest S.pre S.post self.now }
        ensures { Reading stmt_view (nested_statements limits self.now.levels).statement
            cursor.old result cursor.new }
    {
        let inner = self.inner_statement(cursor)?;
        Ok(Boxed::new(self.alloc, inner)?)
    }

    /// A block, one level deeper.
    fn inner_block(&self, cursor: &mut Cursor<'_>) -> Result<List<Stmt>, Failure>
        requires { BlocksNest B.pre B.post self.now }
        ensures { Reading each_stmt (nested_statements limits self.now.levels).block
            cursor.old result cursor.new }
    {
        (self.block)(self.alloc, cursor, self.levels)
    }

    /// `else` and its statement, or nothing.
    #[tactic(auto, unfolding(ec_grammar::specs::ReadStatements::else_option))]
    fn else_option(&self, cursor: &mut Cursor<'_>) -> Result<Option<Boxed<Stmt>>, Failure>
        requires { StatementsNest S.pre S.post self.now }
        ensures { Reading stmt_option (within_statements self.now.levels spec.else_option)
            cursor.old result cursor.new }
    {
        if !cursor.eat(Kind::Else) {
            return Ok(None);
        }
        let inner = self.boxed_statement(cursor)?;
        Ok(Some(inner))
    }

    /// A semicolon alone (ISO/IEC 9899:1999, 6.8.3).
    #[tactic(auto, unfolding(crate::specs::Arms::statement_of))]
    fn empty(&self, cursor: &mut Cursor<'_>, start: Start) -> Result<Stmt, Failure>
        ensures { Reading stmt_view (statement_of self.now.levels (start_view start) forms.Empty)
            cursor.old result cursor.new }
    {
        cursor.expect(Kind::Mark(Punct::Semicolon))?;
        Ok(at(start, StmtKind::Empty))
    }

    /// A block (ISO/IEC 9899:1999, 6.8.2).
    #[tactic(auto, unfolding(crate::specs::Arms::statement_of))]
    fn block_statement(&self, cursor: &mut Cursor<'_>, start: Start) -> Result<Stmt, Failure>
        requires { BlocksNest B.pre B.post self.now }
        ensures { Reading stmt_view (statement_of self.now.levels (start_view start) forms.Block)
            cursor.old result cursor.new }
    {
        let items = self.inner_block(cursor)?;
        Ok(block_of(start, items))
    }

    /// An embedded statement that is executed.
    #[tactic(auto, unfolding(crate::specs::Arms::statement_of))]
    fn executable(&self, cursor: &mut Cursor<'_>, start: Start) -> Result<Stmt, Failure>
        ensures { Reading stmt_view
            (statement_of self.now.levels (start_view start) forms.Executable)
            cursor.old result cursor.new }
    {
        let token = cursor.expect(Kind::Executable)?;
        Ok(at(start, StmtKind::Emb(embedded_number(token))))
    }

    /// An embedded statement that is a directive.
    #[tactic(auto, unfolding(crate::specs::Arms::statement_of))]
    fn directive(&self, cursor: &mut Cursor<'_>, start: Start) -> Result<Stmt, Failure>
        ensures { Reading stmt_view
            (statement_of self.now.levels (start_view start) forms.Directive)
            cursor.old result cursor.new }
    {
        let token = cursor.expect(Kind::Directive)?;
        Ok(at(start, StmtKind::Emb(embedded_number(token))))
    }

    /// `if` (ISO/IEC 9899:1999, 6.8.4.1).
    #[tactic(auto, unfolding(crate::specs::Arms::statement_of, crate::specs::Arms::branches))]
    fn branch(&self, cursor: &mut Cursor<'_>, start: Start) -> Result<Stmt, Failure>
        requires { StatementsNest S.pre S.post self.now }
        ensures { Reading stmt_view (statement_of self.now.levels (start_view start) forms.If)
            cursor.old result cursor.new }
    {
        cursor.expect(Kind::If)?;
        let test = Boxed::new(self.alloc, parenthesized(self.alloc, cursor, self.levels)?)?;
        self.branches(cursor, start, test)
    }

    /// What stands behind the test of an `if`.
    #[tactic(auto, unfolding(crate::specs::Arms::branches))]
    fn branches(
        &self,
        cursor: &mut Cursor<'_>,
        start: Start,
        test: Boxed<Expr>,
    ) -> Result<Stmt, Failure>
        requires { StatementsNest S.pre S.post self.now }
        ensures { Reading stmt_view (branches self.now.levels (start_view start) (expr_view test))
            cursor.old result cursor.new }
    {
        let (test, then) = beside(test, self.boxed_statement(cursor))?;
        let ((test, then), other) = beside((test, then), self.else_option(cursor))?;
        Ok(branch(start, test, then, other))
    }

    /// `while` (ISO/IEC 9899:1999, 6.8.5.1).
    #[tactic(auto, unfolding(crate::specs::Arms::statement_of))]
    fn while_loop(&self, cursor: &mut Cursor<'_>, start: Start) -> Result<Stmt, Failure>
        requires { StatementsNest S.pre S.post self.now }
        ensures { Reading stmt_view (statement_of self.now.levels (start_view start) forms.While)
            cursor.old result cursor.new }
    {
        cursor.expect(Kind::While)?;
        let test = parenthesized(self.alloc, cursor, self.levels)?;
        let (test, inner) = beside(test, self.boxed_statement(cursor))?;
        Ok(at(start, StmtKind::While(test, inner)))
    }

    /// `do` (ISO/IEC 9899:1999, 6.8.5.2).
    #[tactic(auto, unfolding(crate::specs::Arms::statement_of))]
    fn do_loop(&self, cursor: &mut Cursor<'_>, start: Start) -> Result<Stmt, Failure>
        requires { StatementsNest S.pre S.post self.now }
        ensures { Reading stmt_view (statement_of self.now.levels (start_view start) forms.Do)
            cursor.old result cursor.new }
    {
        cursor.expect(Kind::Do)?;
        let inner = self.boxed_statement(cursor)?;
        let (inner, _word) = beside(inner, cursor.expect(Kind::While))?;
        let (inner, test) = beside(inner, parenthesized(self.alloc, cursor, self.levels))?;
        let kept = (inner, test);
        let ((inner, test), _mark) = beside(kept, cursor.expect(Kind::Mark(Punct::Semicolon)))?;
        Ok(at(start, StmtKind::Do(inner, test)))
    }

    /// `for` (ISO/IEC 9899:1999, 6.8.5.3).
    #[tactic(auto, unfolding(crate::specs::Arms::statement_of))]
    fn for_loop(&self, cursor: &mut Cursor<'_>, start: Start) -> Result<Stmt, Failure>
        requires { StatementsNest S.pre S.post self.now }
        ensures { Reading stmt_view (statement_of self.now.levels (start_view start) forms.For)
            cursor.old result cursor.new }
    {
        cursor.expect(Kind::For)?;
        let head = for_head(self.alloc, cursor, self.levels)?;
        let (head, inner) = beside(head, self.boxed_statement(cursor))?;
        Ok(for_loop(self.alloc, start, head, inner)?)
    }

    /// `break` (ISO/IEC 9899:1999, 6.8.6.3).
    #[tactic(auto, unfolding(crate::specs::Arms::statement_of))]
    fn break_statement(&self, cursor: &mut Cursor<'_>, start: Start) -> Result<Stmt, Failure>
        ensures { Reading stmt_view (statement_of self.now.levels (start_view start) forms.Break)
            cursor.old result cursor.new }
    {
        cursor.expect(Kind::Break)?;
        cursor.expect(Kind::Mark(Punct::Semicolon))?;
        Ok(at(start, StmtKind::Break))
    }

    /// `continue` (ISO/IEC 9899:1999, 6.8.6.2).
    #[tactic(auto, unfolding(crate::specs::Arms::statement_of))]
    fn continue_statement(&self, cursor: &mut Cursor<'_>, start: Start) -> Result<Stmt, Failure>
        ensures { Reading stmt_view (statement_of self.now.levels (start_view start) forms.Continue)
            cursor.old result cursor.new }
    {
        cursor.expect(Kind::Continue)?;
        cursor.expect(Kind::Mark(Punct::Semicolon))?;
        Ok(at(start, StmtKind::Continue))
    }

    /// `return` (ISO/IEC 9899:1999, 6.8.6.4).
    #[tactic(auto, unfolding(crate::specs::Arms::statement_of))]
    fn return_statement(&self, cursor: &mut Cursor<'_>, start: Start) -> Result<Stmt, Failure>
        ensures { Reading stmt_view (statement_of self.now.levels (start_view start) forms.Return)
            cursor.old result cursor.new }
    {
        cursor.expect(Kind::Return)?;
        let value = expression_option(self.alloc, cursor, self.levels)?;
        let (value, _mark) = beside(value, cursor.expect(Kind::Mark(Punct::Semicolon)))?;
        Ok(at(start, StmtKind::Return(value)))
    }

    /// `goto` (ISO/IEC 9899:1999, 6.8.6.1).
    #[tactic(auto, unfolding(crate::specs::Arms::statement_of))]
    fn goto_statement(&self, cursor: &mut Cursor<'_>, start: Start) -> Result<Stmt, Failure>
        ensures { Reading stmt_view (statement_of self.now.levels (start_view start) forms.Goto)
            cursor.old result cursor.new }
    {
        cursor.expect(Kind::Goto)?;
        let token = cursor.expect(Kind::Name)?;
        let name = copy_name(self.alloc, &token.tok)?;
        cursor.expect(Kind::Mark(Punct::Semicolon))?;
        Ok(at(start, StmtKind::Goto(name)))
    }

    /// A label and its statement (ISO/IEC 9899:1999, 6.8.1).
    #[tactic(auto, unfolding(crate::specs::Arms::statement_of))]
    fn labelled(&self, cursor: &mut Cursor<'_>, start: Start) -> Result<Stmt, Failure>
        requires { StatementsNest S.pre S.post self.now }
        ensures { Reading stmt_view (statement_of self.now.levels (start_view start) forms.Label)
            cursor.old result cursor.new }
    {
        let token = cursor.expect(Kind::Name)?;
        let name = copy_name(self.alloc, &token.tok)?;
        cursor.expect(Kind::Mark(Punct::Colon))?;
        let inner = self.boxed_statement(cursor)?;
        Ok(at(start, StmtKind::Label(name, inner)))
    }

    /// An expression (ISO/IEC 9899:1999, 6.8.3).
    #[tactic(auto, unfolding(crate::specs::Arms::statement_of))]
    fn expression_statement(&self, cursor: &mut Cursor<'_>, start: Start) -> Result<Stmt, Failure>
        ensures { Reading stmt_view
            (statement_of self.now.levels (start_view start) forms.Expression)
            cursor.old result cursor.new }
    {
        let expr = expression(self.alloc, cursor, self.levels)?;
        let (expr, _mark) = beside(expr, cursor.expect(Kind::Mark(Punct::Semicolon)))?;
        Ok(at(start, StmtKind::Expr(expr)))
    }

    /// A statement of this form.
    fn statement_of(
        &self,
        cursor: &mut Cursor<'_>,
        start: Start,
        form: Form,
    ) -> Result<Stmt, Failure>
        requires statements { StatementsNest S.pre S.post self.now }
        requires blocks { BlocksNest B.pre B.post self.now }
        ensures { Reading stmt_view (statement_of self.now.levels (start_view start) form)
            cursor.old result cursor.new }
    {
        match form {
            Form::Empty => self.empty(cursor, start),
            Form::Block => self.block_statement(cursor, start),
            Form::Executable => self.executable(cursor, start),
            Form::Directive => self.directive(cursor, start),
            Form::If => self.branch(cursor, start),
            Form::While => self.while_loop(cursor, start),
            Form::Do => self.do_loop(cursor, start),
            Form::For => self.for_loop(cursor, start),
            Form::Break => self.break_statement(cursor, start),
            Form::Continue => self.continue_statement(cursor, start),
            Form::Return => self.return_statement(cursor, start),
            Form::Goto => self.goto_statement(cursor, start),
            Form::Label => self.labelled(cursor, start),
            Form::Expression => self.expression_statement(cursor, start),
        }
    }

    /// A statement.
    #[tactic(auto, using(crate::proofs::FormSteps::statement_goes))]
    pub fn statement(&self, cursor: &mut Cursor<'_>) -> Result<Stmt, Failure>
        requires statements { StatementsNest S.pre S.post self.now }
        requires blocks { BlocksNest B.pre B.post self.now }
        ensures { Reading stmt_view (within_statements self.now.levels spec.statement)
            cursor.old result cursor.new }
    {
        let start = cursor.start();
        let form = statement_form(cursor);
        self.statement_of(cursor, start, form)
    }
}
