//! Copies: the declarations, the parameters and the expressions of a program, each printed from a copy of it.

use crate::printer::Printer;
use ec_base::{List, Name, OutOfMemory};
use ec_ctypes::{
    Action, Decl, Expr, Param, Stmt, StmtKind, Top, Unit, copy_action, copy_decl, copy_expr,
    copy_exprs, copy_param,
};
use std::alloc::Global;

impl Printer {
    // Prints a declaration from a copy of it.
    fn copied_declaration(&mut self, alloc: Global, declaration: &Decl) -> Result<(), OutOfMemory> {
        let copy = copy_decl(alloc, declaration)?;
        self.declaration(&copy)
    }

    // Prints a parameter from a copy of it.
    fn copied_parameter(&mut self, alloc: Global, parameter: &Param) -> Result<(), OutOfMemory> {
        let copy = copy_param(alloc, parameter)?;
        self.parameter(&copy)
    }

    // Prints an expression from a copy of it.
    fn copied_expression(&mut self, alloc: Global, expression: &Expr) -> Result<(), OutOfMemory> {
        let copy = copy_expr(alloc, expression)?;
        self.expression(&copy)
    }

    // Prints the arguments of an action, if it is a call.
    fn of_action(&mut self, action: &Action) -> Result<(), OutOfMemory> {
        if let Action::Call(_, arguments) = action {
            for argument in arguments.as_slice() {
                self.expression(argument)?;
            }
        }
        Ok(())
    }

    // Prints the arguments of a call from a copy of the action that makes this call.
    fn copied_call(
        &mut self,
        alloc: Global,
        name: &Name,
        arguments: &List<Expr>,
    ) -> Result<(), OutOfMemory> {
        let name = Name::from_slice(alloc, name.as_slice())?;
        let action = Action::Call(name, copy_exprs(alloc, arguments)?);
        self.copied_action(alloc, &action)
    }

    fn copied_action(&mut self, alloc: Global, action: &Action) -> Result<(), OutOfMemory> {
        let copy = copy_action(alloc, action)?;
        self.of_action(&copy)
    }

    // Prints what a statement holds from a copy of it.
    fn copied_statement(&mut self, alloc: Global, statement: &Stmt) -> Result<(), OutOfMemory> {
        match &statement.kind {
            StmtKind::Expr(Expr::Call(name, arguments)) => self.copied_call(
                alloc,
                name,
                arguments.get(),
            ),
            StmtKind::Expr(expression) => self.copied_expression(alloc, expression),
            StmtKind::Decl(declaration) => self.copied_declaration(alloc, declaration.get()),
            _ => self.absent(),
        }
    }

    // Prints what stands at the top level from a copy of it.
    fn copied_top(&mut self, alloc: Global, top: &Top) -> Result<(), OutOfMemory> {
        match top {
            Top::Decl(declaration) => self.copied_declaration(alloc, declaration),
            Top::Func(function) => {
                for parameter in function.get().params.as_slice() {
                    self.copied_parameter(alloc, parameter)?;
                }
                if let Some(body) = &function.get().body {
                    for statement in body.as_slice() {
                        self.end_line()?;
                        self.copied_statement(alloc, statement)?;
                    }
                }
                Ok(())
            }
            _ => self.absent(),
        }
    }

    /// Prints the declarations, the parameters and the statements' expressions of a program from copies of them.
    pub fn copies(&mut self, alloc: Global, unit: &Unit) -> Result<(), OutOfMemory> {
        for top in unit.tops.as_slice() {
            self.copied_top(alloc, top)?;
            self.end_line()?;
        }
        Ok(())
    }
}
