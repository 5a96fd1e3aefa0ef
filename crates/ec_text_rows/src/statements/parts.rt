//! The parts that statements are made of: hosts, texts, values, lists, and the pieces of a text that is sent.

use crate::printer::Printer;
use ec_base::{List, Name, OutOfMemory};
use ec_ctypes::{Expr, Host, Input, Ins, Outs, Part, TextArg};

impl Printer {
    // Prints a host without an indicator.
    fn alone(&mut self, value: &Expr) -> Result<(), OutOfMemory> {
        self.open("host")?;
        self.reference(value)?;
        self.close()
    }

    // Prints a host with its indicator.
    fn indicated(&mut self, value: &Expr, indicator: &Expr) -> Result<(), OutOfMemory> {
        self.open("host")?;
        self.reference(value)?;
        self.reference(indicator)?;
        self.close()
    }

    /// Prints a host.
    pub fn host(&mut self, host: &Host) -> Result<(), OutOfMemory> {
        match &host.indicator {
            Some(indicator) => self.indicated(&host.value, indicator.get()),
            None => self.alone(&host.value),
        }
    }

    /// Prints a name.
    pub fn quoted_name(&mut self, name: &Name) -> Result<(), OutOfMemory> {
        self.quoted(name.as_slice())
    }

    /// Prints a name, or that there is none.
    pub fn optional_quoted(&mut self, name: &Option<Name>) -> Result<(), OutOfMemory> {
        match name {
            Some(name) => self.quoted_name(name),
            None => self.absent(),
        }
    }

    /// Prints a name or text that a statement is given.
    pub fn text(&mut self, text: &TextArg) -> Result<(), OutOfMemory> {
        match text {
            TextArg::Word(bytes) => self.quoted(bytes.as_slice()),
            TextArg::Host(value) => self.alone(value.get()),
            TextArg::HostWithIndicator(value, indicator) => {
                self.indicated(value.get(), indicator.get())
            }
        }
    }

    /// Prints a value that is sent.
    pub fn input(&mut self, input: &Input) -> Result<(), OutOfMemory> {
        match input {
            Input::Host(host) => self.host(host),
            Input::Const(bytes) => self.quoted(bytes.as_slice()),
        }
    }

    // Prints the descriptor that has values.
    fn area(&mut self, area: &TextArg) -> Result<(), OutOfMemory> {
        self.open("area")?;
        self.text(area)?;
        self.close()
    }

    // Prints a list of values that are sent.
    fn inputs(&mut self, inputs: &List<Input>) -> Result<(), OutOfMemory> {
        self.open("ins")?;
        for input in inputs.as_slice() {
            self.input(input)?;
        }
        self.close()
    }

    /// Prints the values of a USING list, or their descriptor.
    pub fn ins(&mut self, ins: &Ins) -> Result<(), OutOfMemory> {
        match ins {
            Ins::Listed(inputs) => self.inputs(inputs),
            Ins::Area(area) => self.area(area),
        }
    }

    // Prints a list of hosts that are stored into.
    fn outputs(&mut self, hosts: &List<Host>) -> Result<(), OutOfMemory> {
        self.open("outs")?;
        for host in hosts.as_slice() {
            self.host(host)?;
        }
        self.close()
    }

    /// Prints where an answer is stored.
    pub fn outs(&mut self, outs: &Outs) -> Result<(), OutOfMemory> {
        match outs {
            Outs::Nothing => self.absent(),
            Outs::Listed(hosts) => self.outputs(hosts),
            Outs::Area(area) => self.area(area),
        }
    }

    /// Prints the parts of a text that is sent.
    pub fn sent(&mut self, parts: &List<Part>) -> Result<(), OutOfMemory> {
        self.open("parts")?;
        for part in parts.as_slice() {
            match part {
                Part::Bytes(bytes) => self.quoted(bytes.as_slice())?,
                Part::Host(host) => self.host(host.get())?,
            }
        }
        self.close()
    }
}
