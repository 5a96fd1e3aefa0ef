//! Expressions, the types that stand in them, and the declarations that stand in those.

use crate::printer::Printer;
use ec_base::{Boxed, Bytes, List, Name, OutOfMemory};
use ec_ctypes::{Base, BinOp, Decl, Declarator, Expr, Init, Ty};
use itoa::Buffer;

impl Printer {
    /// Prints a name, or that there is none.
    pub fn optional_name(&mut self, name: &Option<Name>) -> Result<(), OutOfMemory> {
        match name {
            Some(name) => self.name(name.as_slice()),
            None => self.absent(),
        }
    }

    /// Prints a number of stars.
    pub fn stars(&mut self, stars: u32) -> Result<(), OutOfMemory> {
        self.number(u64::from(stars))
    }

    /// Prints whether something stands in a declare section.
    pub fn section(&mut self, section: bool) -> Result<(), OutOfMemory> {
        self.atom(if section { "section" } else { "plain" })
    }

    /// Prints an integer constant.
    pub fn integer(&mut self, value: u64, ty: &Ty) -> Result<(), OutOfMemory> {
        self.open("integer")?;
        self.number(value)?;
        self.ty(ty)?;
        self.close()
    }

    /// Prints a character constant.
    pub fn character(&mut self, value: i8) -> Result<(), OutOfMemory> {
        self.open("character")?;
        self.atom(Buffer::new().format(value))?;
        self.close()
    }

    /// Prints a string.
    pub fn string(&mut self, bytes: &Bytes) -> Result<(), OutOfMemory> {
        self.open("string")?;
        self.quoted(bytes.as_slice())?;
        self.close()
    }

    // Begins a form with an operator.
    fn open_operator(&mut self, form: &str, operator: &str) -> Result<(), OutOfMemory> {
        self.open(form)?;
        self.atom(operator)
    }

    // Begins an assignment.
    fn open_assignment(&mut self, op: Option<BinOp>) -> Result<(), OutOfMemory> {
        let operator = match op {
            Some(op) => op.text(),
            None => "",
        };
        self.open_operator("assign", operator)?;
        self.plain(b"=")
    }

    // Begins a `++` or `--`.
    fn open_bump(&mut self, before: bool, up: bool) -> Result<(), OutOfMemory> {
        let form = if before { "before" } else { "behind" };
        self.open_operator(form, if up { "++" } else { "--" })
    }

    /// Prints an expression.
    #[cycle(expressions)]
    pub fn expression(&mut self, expression: &Expr) -> Result<(), OutOfMemory> {
        match expression {
            Expr::Int(value, ty) => self.integer(*value, ty),
            Expr::Char(value) => self.character(*value),
            Expr::Str(bytes) => self.string(bytes),
            Expr::Name(name) => self.name(name.as_slice()),
            Expr::Unary(op, of) => {
                self.open_operator("unary", op.text())?;
                self.last(of.get())
            }
            Expr::Binary(op, left, right) => {
                self.open_operator("binary", op.text())?;
                self.expression(left.get())?;
                self.last(right.get())
            }
            Expr::Assign(op, left, right) => {
                self.open_assignment(*op)?;
                self.expression(left.get())?;
                self.last(right.get())
            }
            Expr::Bump { before, up, of } => {
                self.open_bump(*before, *up)?;
                self.last(of.get())
            }
            other => self.postfix(other),
        }
    }

    // Prints calls and parts of arrays and structs.
    #[cycle(expressions)]
    fn postfix(&mut self, expression: &Expr) -> Result<(), OutOfMemory> {
        match expression {
            Expr::Call(name, arguments) => {
                self.open("call")?;
                self.name(name.as_slice())?;
                self.arguments(arguments.get())
            }
            Expr::CallOther(function, arguments) => {
                self.open("call-other")?;
                self.expression(function.get())?;
                self.arguments(arguments)
            }
            Expr::Index(array, index) => {
                self.open("index")?;
                self.expression(array.get())?;
                self.last(index.get())
            }
            Expr::Member(of, name) => {
                self.open("member")?;
                self.named(of.get(), name)
            }
            Expr::Arrow(of, name) => {
                self.open("arrow")?;
                self.named(of.get(), name)
            }
            other => self.typed(other),
        }
    }

    // Prints casts and sizes.
    #[cycle(expressions)]
    fn typed(&mut self, expression: &Expr) -> Result<(), OutOfMemory> {
        match expression {
            Expr::Cast(base, stars, of) => {
                self.open("cast")?;
                self.base(base.get())?;
                self.stars(*stars)?;
                self.last(of.get())
            }
            Expr::SizeType(base, stars) => {
                self.open("size-of-type")?;
                self.base(base.get())?;
                self.stars(*stars)?;
                self.close()
            }
            Expr::SizeExpr(of) => {
                self.open("size-of")?;
                self.last(of.get())
            }
            // Printed above.
            Expr::Int(_, _)
            | Expr::Char(_)
            | Expr::Str(_)
            | Expr::Name(_)
            | Expr::Unary(_, _)
            | Expr::Binary(_, _, _)
            | Expr::Assign(_, _, _)
            | Expr::Bump { .. }
            | Expr::Call(_, _)
            | Expr::CallOther(_, _)
            | Expr::Index(_, _)
            | Expr::Member(_, _)
            | Expr::Arrow(_, _) => Ok(()),
        }
    }

    // Prints the last part of a form.
    #[cycle(expressions)]
    fn last(&mut self, of: &Expr) -> Result<(), OutOfMemory> {
        self.expression(of)?;
        self.close()
    }

    // Prints an operand and a name, the last two parts of a form.
    #[cycle(expressions)]
    fn named(&mut self, of: &Expr, name: &Name) -> Result<(), OutOfMemory> {
        self.expression(of)?;
        self.name(name.as_slice())?;
        self.close()
    }

    // Prints arguments, the last parts of a form.
    #[cycle(expressions)]
    fn arguments(&mut self, arguments: &List<Expr>) -> Result<(), OutOfMemory> {
        for argument in arguments.as_slice() {
            self.expression(argument)?;
        }
        self.close()
    }

    /// Prints what a declaration begins with.
    #[cycle(expressions)]
    pub fn base(&mut self, base: &Base) -> Result<(), OutOfMemory> {
        match base {
            Base::Words(words) => self.words(words),
            Base::Varchar => self.atom("varchar"),
            Base::Tag(tag) => {
                self.open("tag")?;
                self.name(tag.as_slice())?;
                self.close()
            }
            Base::Struct(tag, members) => {
                self.open("struct")?;
                self.tag(tag)?;
                self.members(members.get())
            }
        }
    }

    // Prints the tag of a struct with members, or that there is none.
    fn tag(&mut self, tag: &Option<Boxed<Name>>) -> Result<(), OutOfMemory> {
        match tag {
            Some(tag) => self.name(tag.get().as_slice()),
            None => self.absent(),
        }
    }

    // Prints words of types.
    fn words(&mut self, words: &List<Name>) -> Result<(), OutOfMemory> {
        self.open("words")?;
        for word in words.as_slice() {
            self.name(word.as_slice())?;
        }
        self.close()
    }

    // Prints the declarations of a struct's members, the last parts of a form.
    #[cycle(expressions)]
    fn members(&mut self, members: &List<Decl>) -> Result<(), OutOfMemory> {
        for member in members.as_slice() {
            self.declaration(member)?;
        }
        self.close()
    }

    /// Prints a declaration.
    #[cycle(expressions)]
    pub fn declaration(&mut self, declaration: &Decl) -> Result<(), OutOfMemory> {
        self.open("declaration")?;
        self.line(declaration.line)?;
        self.section(declaration.section)?;
        self.base(&declaration.base)?;
        for declarator in declaration.items.as_slice() {
            self.declarator(declarator)?;
        }
        self.close()
    }

    // Prints a declarator.
    #[cycle(expressions)]
    fn declarator(&mut self, declarator: &Declarator) -> Result<(), OutOfMemory> {
        self.open("")?;
        self.name(declarator.name.as_slice())?;
        self.stars(declarator.stars)?;
        self.lengths(&declarator.dims)?;
        match &declarator.init {
            Some(value) => self.initializer(value)?,
            None => self.absent()?,
        }
        self.close()
    }

    /// Prints array lengths.
    #[cycle(expressions)]
    pub fn lengths(&mut self, lengths: &List<Option<Expr>>) -> Result<(), OutOfMemory> {
        self.open("")?;
        for length in lengths.as_slice() {
            match length {
                Some(length) => self.expression(length)?,
                None => self.absent()?,
            }
        }
        self.close()
    }

    // Prints an initializer.
    #[cycle(expressions)]
    fn initializer(&mut self, value: &Init) -> Result<(), OutOfMemory> {
        match value {
            Init::One(expression) => self.expression(expression),
            Init::Many(values) => self.initializers(values),
        }
    }

    // Prints initializers in braces.
    #[cycle(expressions)]
    fn initializers(&mut self, values: &List<Init>) -> Result<(), OutOfMemory> {
        self.open("braces")?;
        for value in values.as_slice() {
            self.initializer(value)?;
        }
        self.close()
    }
}
