//! Programs: what stands at the top level, each on lines of its own.

use crate::printer::Printer;
use ec_base::{List, OutOfMemory};
use ec_ctypes::{Func, Param, Top, Unit};

impl Printer {
    /// Prints a parameter.
    pub fn parameter(&mut self, parameter: &Param) -> Result<(), OutOfMemory> {
        self.open("parameter")?;
        self.section(parameter.section)?;
        self.base(&parameter.base)?;
        self.optional_name(&parameter.name)?;
        self.stars(parameter.stars)?;
        self.lengths(&parameter.dims)?;
        self.close()
    }

    // Prints the parameters of a function.
    fn parameters(&mut self, parameters: &List<Param>) -> Result<(), OutOfMemory> {
        self.open("")?;
        for parameter in parameters.as_slice() {
            self.parameter(parameter)?;
        }
        self.close()
    }

    // Prints a function.
    fn function(&mut self, function: &Func) -> Result<(), OutOfMemory> {
        self.open("function")?;
        self.line(function.line)?;
        self.section(function.section)?;
        self.base(&function.base)?;
        self.name(function.name.as_slice())?;
        self.stars(function.stars)?;
        self.parameters(&function.params)?;
        match &function.body {
            Some(body) => {
                self.open("body")?;
                self.statements(body)?;
                self.close()?;
            }
            None => self.absent()?,
        }
        self.close()
    }

    // Prints what stands at the top level.
    fn top(&mut self, top: &Top) -> Result<(), OutOfMemory> {
        match top {
            Top::Include(bytes) => {
                self.open("include")?;
                self.quoted(bytes.as_slice())?;
                self.close()
            }
            Top::Directive(number) => {
                self.open("directive")?;
                self.number(u64::from(*number))?;
                self.close()
            }
            Top::Decl(declaration) => self.declaration(declaration),
            Top::Func(function) => self.function(function.get()),
            Top::Mark(opens, line) => {
                self.open("mark")?;
                self.line(*line)?;
                self.side(*opens)?;
                self.close()
            }
        }
    }

    /// Prints a program, and behind it the line of its end and how many trees of embedded statements it has.
    pub fn program(&mut self, unit: &Unit) -> Result<(), OutOfMemory> {
        for top in unit.tops.as_slice() {
            self.top(top)?;
            self.end_line()?;
        }
        self.open("end")?;
        self.line(unit.last)?;
        self.number(unit.embs.len() as u64)?;
        self.close()?;
        self.end_line()
    }
}
