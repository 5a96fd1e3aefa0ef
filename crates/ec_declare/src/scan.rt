//! The first fault of marks and VARCHARs.

ghost use Rattle.std.specs.Prelude.{◌≡◌, OnOk, None};
ghost use Rattle.ec_declare.specs.Scanning as spec;
ghost use Rattle.ec_declare.specs.Scanning.{at_start};
ghost use Rattle.ec_declare.specs.Seen.{scan_view, uses_view};
ghost use Rattle.ec_host_defs.specs.sections.Answers as sections;
ghost use Rattle.ec_host_defs.specs.sections.Places.{holds, mark};

use crate::uses::Uses;
use ec_base::{FaultKind, Line, List, OutOfMemory, Stop};
use std::alloc::Global;

/// What is kept of the places so far.
#[derive(Debug, Drop)]
pub(crate) struct Scan {
    /// The lines of the marks whose sections are open, the outermost first.
    pub open: List<Line>,
    /// Whether the last mark opens one.
    pub in_section: bool,
    /// The line of the outermost open mark, where no fault stands before it.
    pub pending: Option<Line>,
    /// The first fault, but for open marks.
    pub first: Option<Stop>,
}

/// The fault of uses that stand in a section or not.
fn fault_of(in_section: bool, uses: Uses) -> Option<FaultKind>
    ensures { result ≡ spec.fault_of in_section (uses_view uses) }
{
    if uses.left_out || (uses.any && !in_section) {
        return Some(FaultKind::F9);
    }
    if in_section && uses.lacks_length {
        return Some(FaultKind::F13);
    }
    None
}

/// Whether uses stand in a section, by the last mark between their place and them, or else by that before the place.
fn section_at(last: Option<bool>, in_section: bool) -> bool
    ensures { result ≡ sections.section_at last in_section }
{
    match last {
        Some(opens) => opens,
        None => in_section,
    }
}

/// A fault on this line.
fn stop_on(line: Line, fault: Option<FaultKind>) -> Option<Stop>
    ensures { result ≡ spec.stop_on line fault }
{
    match fault {
        Some(kind) => Some(Stop::Refused(kind, line)),
        None => None,
    }
}

/// The first stop, or else the second.
fn or_else(first: Option<Stop>, second: Option<Stop>) -> Option<Stop>
    ensures { result ≡ spec.or_else first second }
{
    match first {
        Some(stop) => Some(stop),
        None => second,
    }
}

/// The line of an outermost mark that waits for its partner.
fn waiting(first: Option<Stop>, line: Line) -> Option<Line>
    ensures { result ≡ spec.waiting first line }
{
    match first {
        Some(_) => None,
        None => Some(line),
    }
}

impl Scan {
    /// Before the first place. It takes no memory.
    pub(crate) fn new(alloc: Global) -> Scan
        ensures { scan_view result ≡ at_start }
    {
        Scan {
            open: List::new(alloc),
            in_section: false,
            pending: None,
            first: None,
        }
    }

    /// A place that holds these uses.
    pub(crate) fn place(&mut self, line: Line, uses: Uses)
        ensures { scan_view self.new
            ≡ spec.step (holds None line (uses_view uses)) (scan_view self.old) }
    {
        self.place_behind(None, line, uses);
    }

    /// A place whose uses stand further on, behind the last mark in between, if there is one.
    pub(crate) fn place_behind(&mut self, last: Option<bool>, line: Line, uses: Uses)
        ensures { scan_view self.new
            ≡ spec.step (holds last line (uses_view uses)) (scan_view self.old) }
    {
        let fault = stop_on(line, fault_of(section_at(last, self.in_section), uses));
        self.first = or_else(self.first, fault);
    }

    /// A mark that opens a section.
    fn open(&mut self, line: Line) -> Result<(), OutOfMemory>
        ensures { OnOk result (scan_view self.new
            ≡ spec.opened (scan_view self.old).depth line (scan_view self.old)) }
    {
        if self.open.is_empty() {
            self.pending = waiting(self.first, line);
        } else {
            self.first = or_else(self.first, Some(Stop::Refused(FaultKind::F9, line)));
        }
        self.open.push(line)?;
        self.in_section = true;
        Ok(())
    }

    /// A mark that closes one.
    fn close(&mut self, line: Line)
        ensures { scan_view self.new
            ≡ spec.closed (scan_view self.old).depth line (scan_view self.old) }
    {
        match self.open.pop() {
            None => self.first = or_else(self.first, Some(Stop::Refused(FaultKind::F9, line))),
            Some(_) => {
                if self.open.is_empty() {
                    self.pending = None;
                }
            }
        }
        self.in_section = false;
    }

    /// A mark of a section.
    pub(crate) fn mark(&mut self, opens: bool, line: Line) -> Result<(), OutOfMemory>
        ensures { OnOk result (scan_view self.new
            ≡ spec.step (mark opens line) (scan_view self.old)) }
    {
        if opens {
            self.open(line)
        } else {
            self.close(line);
            Ok(())
        }
    }

    /// The first fault of the places.
    pub(crate) fn stop(&self) -> Option<Stop>
        ensures { result ≡ spec.stop_of (scan_view self.now) }
    {
        match self.pending {
            Some(line) => Some(Stop::Refused(FaultKind::F9, line)),
            None => self.first,
        }
    }
}
