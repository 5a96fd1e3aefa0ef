//! Blocks (ISO/IEC 9899:1999, 6.8.2).

ghost use Rattle.ec_ctypes.specs.views.Stmts.{stmt_view};
ghost use Rattle.ec_grammar.specs.ReadStatements as spec;
ghost use Rattle.ec_cursor.specs.Parts.{start_view};
ghost use Rattle.ec_cursor.specs.States.{Reading};
ghost use Rattle.ec_csyntax.specs.Arms.{block_item_of};
ghost use Rattle.ec_csyntax.specs.declared.forms.ItemForm.TheVariants as forms;
ghost use Rattle.ec_csyntax.specs.Levels.{within_statements};
ghost use Rattle.ec_csyntax.specs.Nests.{StatementsNest, BlocksNest};
ghost use Rattle.ec_csyntax.specs.Views.{each_stmt};

use crate::forms::{ItemForm, item_form};
use crate::makers::at;
use crate::statements::Statements;
use ec_base::{Boxed, List};
use ec_cparts::declaration;
use ec_ctypes::{Punct, Stmt, StmtKind};
use ec_cursor::{Cursor, Start, begins_block_item};
use ec_grammar::{Failure, Kind};
use std::alloc::Global;

impl<
    S: Fn(Global, &mut Cursor<'_>, u32) -> Result<Stmt, Failure>,
    B: Fn(Global, &mut Cursor<'_>, u32) -> Result<List<Stmt>, Failure>,
> Statements<S, B> {
    /// The start of a declare section.
    #[tactic(auto, unfolding(crate::specs::Arms::block_item_of))]
    fn opening(&self, cursor: &mut Cursor<'_>, start: Start) -> Result<Stmt, Failure>
        ensures { Reading stmt_view (block_item_of self.now.levels (start_view start) forms.Opening)
            cursor.old result cursor.new }
    {
        cursor.expect(Kind::Opening)?;
        Ok(at(start, StmtKind::Mark(true)))
    }

    /// The end of a declare section.
    #[tactic(auto, unfolding(crate::specs::Arms::block_item_of))]
    fn closing(&self, cursor: &mut Cursor<'_>, start: Start) -> Result<Stmt, Failure>
        ensures { Reading stmt_view (block_item_of self.now.levels (start_view start) forms.Closing)
            cursor.old result cursor.new }
    {
        cursor.expect(Kind::Closing)?;
        Ok(at(start, StmtKind::Mark(false)))
    }

    /// A declaration (ISO/IEC 9899:1999, 6.7).
    #[tactic(auto, unfolding(crate::specs::Arms::block_item_of))]
    fn declaration(&self, cursor: &mut Cursor<'_>, start: Start) -> Result<Stmt, Failure>
        ensures { Reading stmt_view
            (block_item_of self.now.levels (start_view start) forms.Declaration)
            cursor.old result cursor.new }
    {
        let declaration = declaration(self.alloc, cursor, self.levels)?;
        let declaration = Boxed::new(self.alloc, declaration)?;
        Ok(at(start, StmtKind::Decl(declaration)))
    }

    /// What stands in a block, of this form.
    #[tactic(auto, using(crate::proofs::FormSteps::item_statement))]
    fn block_item_of(
        &self,
        cursor: &mut Cursor<'_>,
        start: Start,
        form: ItemForm,
    ) -> Result<Stmt, Failure>
        requires statements { StatementsNest S.pre S.post self.now }
        requires blocks { BlocksNest B.pre B.post self.now }
        ensures { Reading stmt_view (block_item_of self.now.levels (start_view start) form)
            cursor.old result cursor.new }
    {
        match form {
            ItemForm::Opening => self.opening(cursor, start),
            ItemForm::Closing => self.closing(cursor, start),
            ItemForm::Declaration => self.declaration(cursor, start),
            ItemForm::Statement => self.statement(cursor),
        }
    }

    /// A declaration, a mark or a statement.
    #[tactic(auto, using(crate::proofs::FormSteps::block_item_goes))]
    fn block_item(&self, cursor: &mut Cursor<'_>) -> Result<Stmt, Failure>
        requires statements { StatementsNest S.pre S.post self.now }
        requires blocks { BlocksNest B.pre B.post self.now }
        ensures { Reading stmt_view (within_statements self.now.levels spec.block_item)
            cursor.old result cursor.new }
    {
        let start = cursor.start();
        let form = item_form(cursor.peek());
        self.block_item_of(cursor, start, form)
    }

    /// All that stands in a block.
    fn block_items(&self, cursor: &mut Cursor<'_>) -> Result<List<Stmt>, Failure>
        requires statements { StatementsNest S.pre S.post self.now }
        requires blocks { BlocksNest B.pre B.post self.now }
        ensures { Reading each_stmt (within_statements self.now.levels spec.block_items)
            cursor.old result cursor.new }
    {
        let mut found = List::new(self.alloc);
        for _turn in 0..cursor.left() {
            if !begins_block_item(cursor.peek()) {
                return Ok(found);
            }
            found.push(self.block_item(cursor)?)?;
        }
        Ok(found)
    }

    /// A block (ISO/IEC 9899:1999, 6.8.2).
    #[tactic(auto, unfolding(ec_grammar::specs::ReadStatements::block))]
    pub fn block(&self, cursor: &mut Cursor<'_>) -> Result<List<Stmt>, Failure>
        requires statements { StatementsNest S.pre S.post self.now }
        requires blocks { BlocksNest B.pre B.post self.now }
        ensures { Reading each_stmt (within_statements self.now.levels spec.block)
            cursor.old result cursor.new }
    {
        cursor.expect(Kind::Mark(Punct::LeftBrace))?;
        let items = self.block_items(cursor)?;
        cursor.expect(Kind::Mark(Punct::RightBrace))?;
        Ok(items)
    }
}
