//! The expressions of references and of arguments: names in quotes, since the server has names that C does not.

use crate::printer::Printer;
use ec_base::{Name, OutOfMemory};
use ec_ctypes::{Expr, Ty};
use itoa::Buffer;

// The name of a type. Constants of statements have no types but these two.
fn type_name(ty: &Ty) -> &'static str {
    match ty {
        Ty::Int => "int",
        Ty::Long => "long",
        _ => "other",
    }
}

impl Printer {
    // Prints an integer constant.
    fn constant(&mut self, value: u64, ty: &Ty) -> Result<(), OutOfMemory> {
        self.open("integer")?;
        self.atom(Buffer::new().format(value))?;
        self.atom(type_name(ty))?;
        self.close()
    }

    /// Prints an expression.
    #[cycle(references)]
    pub fn reference(&mut self, expression: &Expr) -> Result<(), OutOfMemory> {
        match expression {
            Expr::Name(name) => self.quoted(name.as_slice()),
            Expr::Int(value, ty) => self.constant(*value, ty),
            Expr::Char(value) => self.character(*value),
            Expr::Member(of, name) => {
                self.open("member")?;
                self.with_name(of.get(), name)
            }
            Expr::Arrow(of, name) => {
                self.open("arrow")?;
                self.with_name(of.get(), name)
            }
            Expr::Index(array, index) => {
                self.open("index")?;
                self.reference(array.get())?;
                self.last_reference(index.get())
            }
            // No statement has another.
            _ => self.atom("other"),
        }
    }

    // Prints the last part of a form.
    #[cycle(references)]
    fn last_reference(&mut self, of: &Expr) -> Result<(), OutOfMemory> {
        self.reference(of)?;
        self.close()
    }

    // Prints an operand and a name, the last two parts of a form.
    #[cycle(references)]
    fn with_name(&mut self, of: &Expr, name: &Name) -> Result<(), OutOfMemory> {
        self.reference(of)?;
        self.quoted(name.as_slice())?;
        self.close()
    }
}
