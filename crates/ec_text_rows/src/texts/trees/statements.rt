//! Statements. Each part that is a statement stands on a line of its own.

use crate::printer::Printer;
use ec_base::{List, OutOfMemory};
use ec_ctypes::{Expr, Stmt, StmtKind};

// What a statement is.
fn form_of(kind: &StmtKind) -> &'static str {
    match kind {
        StmtKind::Empty => "empty",
        StmtKind::Expr(_) => "expression",
        StmtKind::Block(_) => "block",
        StmtKind::If(_, _, _) => "if",
        StmtKind::While(_, _) => "while",
        StmtKind::Do(_, _) => "do",
        StmtKind::For(_, _) => "for",
        StmtKind::Break => "break",
        StmtKind::Continue => "continue",
        StmtKind::Return(_) => "return",
        StmtKind::Goto(_) => "goto",
        StmtKind::Label(_, _) => "label",
        StmtKind::Decl(_) => "declare",
        StmtKind::Emb(_) => "embedded",
        StmtKind::Mark(_) => "mark",
    }
}

impl Printer {
    /// Prints whether a mark opens a declare section.
    pub fn side(&mut self, opens: bool) -> Result<(), OutOfMemory> {
        self.atom(if opens { "open" } else { "close" })
    }

    // Prints an expression, or that there is none.
    fn optional(&mut self, expression: &Option<Expr>) -> Result<(), OutOfMemory> {
        match expression {
            Some(expression) => self.expression(expression),
            None => self.absent(),
        }
    }

    /// Prints statements.
    #[cycle(statements)]
    pub fn statements(&mut self, statements: &List<Stmt>) -> Result<(), OutOfMemory> {
        for statement in statements.as_slice() {
            self.inner(statement)?;
        }
        Ok(())
    }

    // Prints a statement on a line of its own.
    #[cycle(statements)]
    fn inner(&mut self, statement: &Stmt) -> Result<(), OutOfMemory> {
        self.go_in()?;
        self.open(form_of(&statement.kind))?;
        self.line(statement.line)?;
        self.parts(&statement.kind)?;
        self.close()?;
        self.go_out();
        Ok(())
    }

    // Prints the parts of a statement.
    #[cycle(statements)]
    fn parts(&mut self, kind: &StmtKind) -> Result<(), OutOfMemory> {
        match kind {
            StmtKind::Empty | StmtKind::Break | StmtKind::Continue => Ok(()),
            StmtKind::Expr(expression) => self.expression(expression),
            StmtKind::Block(statements) => self.statements(statements),
            StmtKind::Return(value) => self.optional(value),
            StmtKind::Goto(label) => self.name(label.as_slice()),
            StmtKind::Decl(declaration) => self.declaration(declaration.get()),
            StmtKind::Emb(number) => self.number(u64::from(*number)),
            StmtKind::Mark(opens) => self.side(*opens),
            StmtKind::Label(label, body) => {
                self.name(label.as_slice())?;
                self.inner(body.get())
            }
            other => self.guarded(other),
        }
    }

    // Prints the parts of a statement that has a test.
    #[cycle(statements)]
    fn guarded(&mut self, kind: &StmtKind) -> Result<(), OutOfMemory> {
        match kind {
            StmtKind::If(test, then, otherwise) => {
                self.expression(test.get())?;
                self.inner(then.get())?;
                match otherwise {
                    Some(otherwise) => self.inner(otherwise.get()),
                    None => self.absent(),
                }
            }
            StmtKind::While(test, body) => {
                self.expression(test)?;
                self.inner(body.get())
            }
            StmtKind::Do(body, test) => {
                self.inner(body.get())?;
                self.expression(test)
            }
            StmtKind::For(parts, body) => {
                let parts = parts.get();
                self.optional(&parts.first)?;
                self.optional(&parts.condition)?;
                self.optional(&parts.step)?;
                self.inner(body.get())
            }
            // Printed above.
            StmtKind::Empty
            | StmtKind::Expr(_)
            | StmtKind::Block(_)
            | StmtKind::Break
            | StmtKind::Continue
            | StmtKind::Return(_)
            | StmtKind::Goto(_)
            | StmtKind::Label(_, _)
            | StmtKind::Decl(_)
            | StmtKind::Emb(_)
            | StmtKind::Mark(_) => Ok(()),
        }
    }
}
