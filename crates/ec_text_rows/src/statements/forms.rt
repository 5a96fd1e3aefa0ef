//! Embedded statements by their forms.

use crate::printer::Printer;
use ec_base::{Boxed, List, Name, OutOfMemory};
use ec_ctypes::{Action, Cond, Emb, EmbKind, Expr, Host, Input, Ins, Item, Outs, Part, TextArg};

// The word of an item of a descriptor.
fn item_word(item: Item) -> &'static str {
    match item {
        Item::Content => "DATA",
        Item::Indicator => "INDICATOR",
        Item::Label => "NAME",
        Item::Code => "TYPE",
        Item::Octets => "RETURNED_OCTET_LENGTH",
    }
}

// The word of a condition.
fn condition_word(condition: Cond) -> &'static str {
    match condition {
        Cond::NotFound => "not-found",
        Cond::Warning => "warning",
        Cond::Error => "error",
    }
}

impl Printer {
    /// Prints a statement on a line.
    pub fn statement(&mut self, statement: &Emb) -> Result<(), OutOfMemory> {
        self.open("statement")?;
        self.line(statement.line)?;
        self.optional_text(&statement.at)?;
        self.kind(&statement.kind)?;
        self.close()?;
        self.end_line()
    }

    // Prints what a statement does.
    fn kind(&mut self, kind: &EmbKind) -> Result<(), OutOfMemory> {
        match kind {
            EmbKind::Connect {
                target,
                name,
                user,
                password,
            } => self.connect(target, name, user, password),
            EmbKind::SetConnection(name) => self.of_text("set-connection", name),
            EmbKind::Disconnect(name) => self.of_text("disconnect", name),
            EmbKind::Autocommit(on) => self.autocommit(*on),
            EmbKind::Trans(text) => self.of_bytes("transaction", text.as_slice()),
            EmbKind::Text { parts, outs } => self.for_server(parts, outs),
            EmbKind::Declare {
                cursor,
                parts,
                prepared,
            } => self.declare(cursor, parts, prepared),
            EmbKind::OpenCursor { cursor, ins } => self.open_cursor(cursor, ins),
            EmbKind::Immediate(text) => self.of_text("immediate", text),
            EmbKind::Prepare { name, text } => self.prepare(name, text),
            EmbKind::Execute { name, ins, outs } => self.execute(name, ins, outs.get()),
            EmbKind::Deallocate(name) => self.of_bytes("deallocate", name.as_slice()),
            EmbKind::Allocate(area) => self.of_text("allocate", area),
            EmbKind::Free(area) => self.of_text("free", area),
            EmbKind::GetCount(area, host) => self.get_count(area, host.get()),
            EmbKind::Get { area, index, items } => self.get_items(area, index.get(), items),
            EmbKind::SetCount(area, count) => self.set_count(area, count.get()),
            EmbKind::Set { area, index, items } => self.set_items(area, index.get(), items),
            EmbKind::Whenever(condition, action) => self.whenever(*condition, action),
            EmbKind::IncludeSqlca => self.atom("include-sqlca"),
        }
    }

    // Prints a name or text, or that there is none.
    fn optional_text(&mut self, text: &Option<Boxed<TextArg>>) -> Result<(), OutOfMemory> {
        match text {
            Some(text) => self.text(text.get()),
            None => self.absent(),
        }
    }

    // Prints a form of one name or text.
    fn of_text(&mut self, form: &str, text: &TextArg) -> Result<(), OutOfMemory> {
        self.open(form)?;
        self.text(text)?;
        self.close()
    }

    // Prints a form of some bytes.
    fn of_bytes(&mut self, form: &str, bytes: &[u8]) -> Result<(), OutOfMemory> {
        self.open(form)?;
        self.quoted(bytes)?;
        self.close()
    }

    fn connect(
        &mut self,
        target: &TextArg,
        name: &Option<Boxed<TextArg>>,
        user: &Option<Boxed<TextArg>>,
        password: &Option<Boxed<TextArg>>,
    ) -> Result<(), OutOfMemory> {
        self.open("connect")?;
        self.text(target)?;
        self.optional_text(name)?;
        self.optional_text(user)?;
        self.optional_text(password)?;
        self.close()
    }

    fn autocommit(&mut self, on: bool) -> Result<(), OutOfMemory> {
        self.open("autocommit")?;
        self.atom(if on { "on" } else { "off" })?;
        self.close()
    }

    fn for_server(&mut self, parts: &List<Part>, outs: &Outs) -> Result<(), OutOfMemory> {
        self.open("text")?;
        self.sent(parts)?;
        self.outs(outs)?;
        self.close()
    }

    fn declare(
        &mut self,
        cursor: &Name,
        parts: &List<Part>,
        prepared: &Option<Name>,
    ) -> Result<(), OutOfMemory> {
        self.open("declare")?;
        self.quoted_name(cursor)?;
        self.sent(parts)?;
        self.optional_quoted(prepared)?;
        self.close()
    }

    fn open_cursor(&mut self, cursor: &Name, ins: &Ins) -> Result<(), OutOfMemory> {
        self.open("open")?;
        self.quoted_name(cursor)?;
        self.ins(ins)?;
        self.close()
    }

    fn prepare(&mut self, name: &Name, text: &TextArg) -> Result<(), OutOfMemory> {
        self.open("prepare")?;
        self.quoted_name(name)?;
        self.text(text)?;
        self.close()
    }

    fn execute(&mut self, name: &Name, ins: &Ins, outs: &Outs) -> Result<(), OutOfMemory> {
        self.open("execute")?;
        self.quoted_name(name)?;
        self.ins(ins)?;
        self.outs(outs)?;
        self.close()
    }

    fn get_count(&mut self, area: &TextArg, host: &Host) -> Result<(), OutOfMemory> {
        self.open("get-count")?;
        self.text(area)?;
        self.host(host)?;
        self.close()
    }

    fn get_items(
        &mut self,
        area: &TextArg,
        index: &Input,
        items: &List<(Item, Host)>,
    ) -> Result<(), OutOfMemory> {
        self.open("get")?;
        self.text(area)?;
        self.input(index)?;
        for (item, host) in items.as_slice() {
            self.open(item_word(*item))?;
            self.host(host)?;
            self.close()?;
        }
        self.close()
    }

    fn set_count(&mut self, area: &TextArg, count: &Input) -> Result<(), OutOfMemory> {
        self.open("set-count")?;
        self.text(area)?;
        self.input(count)?;
        self.close()
    }

    fn set_items(
        &mut self,
        area: &TextArg,
        index: &Input,
        items: &List<(Item, Input)>,
    ) -> Result<(), OutOfMemory> {
        self.open("set")?;
        self.text(area)?;
        self.input(index)?;
        for (item, input) in items.as_slice() {
            self.open(item_word(*item))?;
            self.input(input)?;
            self.close()?;
        }
        self.close()
    }

    fn whenever(&mut self, condition: Cond, action: &Action) -> Result<(), OutOfMemory> {
        self.open("whenever")?;
        self.atom(condition_word(condition))?;
        self.action(action)?;
        self.close()
    }

    // Prints an action of WHENEVER.
    fn action(&mut self, action: &Action) -> Result<(), OutOfMemory> {
        match action {
            Action::Continue => self.atom("continue"),
            Action::Goto(label) => self.of_bytes("goto", label.as_slice()),
            Action::Print => self.atom("print"),
            Action::Stop => self.atom("stop"),
            Action::Break => self.atom("break"),
            Action::Next => self.atom("next"),
            Action::Call(function, arguments) => self.call(function, arguments),
        }
    }

    fn call(&mut self, function: &Name, arguments: &List<Expr>) -> Result<(), OutOfMemory> {
        self.open("call")?;
        self.quoted_name(function)?;
        for argument in arguments.as_slice() {
            self.reference(argument)?;
        }
        self.close()
    }
}
