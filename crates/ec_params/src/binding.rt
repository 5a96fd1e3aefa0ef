//! Embedded statements with their hosts as places.
#![tactic(auto, using(crate::proofs::Lowest::lowest))]

ghost use Rattle.std.specs.Prelude.{◌≡◌, ◌++◌, ◌<◌, [], IfOk, IfSome, drop, length, map, option_map, slice_get};
ghost use Rattle.std.specs.Option.{option_copied};
ghost use Rattle.ec_ctypes.specs.views.Checked.{bound_view, typed_view};
ghost use Rattle.ec_ctypes.specs.views.Embedded.{emb_view};
ghost use Rattle.ec_host_defs.specs.Bound as spec;
ghost use Rattle.ec_host_defs.specs.Faults as faults;
ghost use Rattle.ec_params.specs.Answers as answers;
ghost use Rattle.ec_params.specs.Answers.{Told};
ghost use Rattle.ec_params.specs.Least.{least};
ghost use Rattle.ec_params.specs.Scenes.{program_of, denoted_of};

use crate::counting::open_names;
use crate::cursors::declares_above;
use crate::faults::hosts_fault;
use crate::known::Known;
use crate::least::{fault_unless, lower_of, nothing, only};
use crate::numbers::Numbers;
use crate::scene::{Scene, behind};
use crate::statements::statement_bound;
use ec_base::{FaultKind, List, OutOfMemory, Stop};
use ec_ctypes::{Bound, Emb, EmbKind, Typed};
use ec_declare::functions;
use std::alloc::Global;
use std::marker::Model;

/// What the variables of the statement of this number denote.
fn row_at(rows: &[List<Option<u32>>], number: u32) -> &[Option<u32>]
    ensures { result.now ≡ faults.row_at rows.now number }
{
    match rows.get(number as usize) {
        Some(row) => row.as_slice(),
        None => &[],
    }
}

/// Whether two names denote the same declaration, or none.
fn is_same(a: Option<u32>, b: Option<u32>) -> bool
    ensures { result ≡ answers.is_same a b }
{
    match a {
        Some(left) => match b {
            Some(right) => left == right,
            None => false,
        },
        None => match b {
            Some(_) => false,
            None => true,
        },
    }
}

/// Whether names denote the same declarations.
fn same_denoted(a: &[Option<u32>], b: &[Option<u32>]) -> bool
    ensures { result ≡ faults.same_denoted a.now b.now }
{
    let mut left = a;
    let mut right = b;
    while let [own, more @ ..] = left {
        let [other, rest @ ..] = right else {
            return false;
        };
        if !is_same(*own, *other) {
            return false;
        }
        left = more;
        right = rest;
    }
    right.is_empty()
}

/// The fault of an OPEN, by the DECLARE of its cursor: F26 where there is none above, and F28 where a variable of the
/// cursor isn't the same declaration.
fn open_fault(
    rows: &[List<Option<u32>>],
    above: Option<u32>,
    cursor: &[Option<u32>],
) -> Option<FaultKind>
    ensures { result ≡ least (answers.opened_faults rows.now above cursor.now) }
{
    match above {
        Some(number) => fault_unless(same_denoted(row_at(rows, number), cursor), FaultKind::F28),
        None => only(FaultKind::F26),
    }
}

/// The fault of a statement that opens a cursor.
#[tactic(auto, unfolding(crate::specs::Naming::names_among))]
fn opening_fault(
    rows: &[List<Option<u32>>],
    emb: &Emb,
    above: Option<u32>,
    denoted: &[Option<u32>],
) -> Result<Option<FaultKind>, OutOfMemory>
    ensures { IfOk result (λ fault. fault
        ≡ least (answers.opening_by rows.now (emb_view emb.now) above denoted.now)) }
{
    match &emb.kind {
        EmbKind::OpenCursor { ins, .. } => {
            let own = open_names(&emb.at, ins)?;
            Ok(open_fault(rows, above, behind(denoted, own)))
        }
        _ => Ok(nothing()),
    }
}

/// The fault of a statement that declares a cursor: F27 where it is declared above.
fn declaring_fault(emb: &Emb, above: Option<u32>) -> Option<FaultKind>
    ensures { result ≡ least (answers.declaring_by (emb_view emb.now) above) }
{
    match &emb.kind {
        EmbKind::Declare { .. } => fault_unless(above.is_none(), FaultKind::F27),
        _ => nothing(),
    }
}

/// The DECLARE of the cursor that a statement opens.
fn opened_declare<'a>(embs: &'a [Emb], emb: &Emb, above: Option<u32>) -> Option<&'a Emb>
    ensures { option_map emb_view (option_copied result)
        ≡ answers.opened_by (map emb_view embs.now) (emb_view emb.now) above }
{
    match &emb.kind {
        EmbKind::OpenCursor { .. } => match above {
            Some(number) => emb_at(embs, number),
            None => None,
        },
        _ => None,
    }
}

/// The statement of this number.
fn emb_at(embs: &[Emb], number: u32) -> Option<&Emb>
    ensures { option_map emb_view (option_copied result)
        ≡ slice_get (map emb_view embs.now) number }
{
    embs.get(number as usize)
}

/// The first fault of a statement.
fn first_fault(
    alloc: Global,
    scene: Scene<'_>,
    rows: &[List<Option<u32>>],
    emb: &Emb,
    above: Option<u32>,
) -> Result<Option<FaultKind>, OutOfMemory>
    ensures { IfOk result (λ fault. fault
        ≡ least (answers.faults_by (program_of scene.entry) rows.now
        (emb_view emb.now) above (denoted_of scene.entry))) }
{
    let hosts = hosts_fault(alloc, scene, emb)?;
    let opening = opening_fault(rows, emb, above, scene.denoted)?;
    let declaring = declaring_fault(emb, above);
    Ok(lower_of(hosts, lower_of(opening, declaring)))
}

/// A statement with its places, or its first fault.
fn answer(
    alloc: Global,
    scene: Scene<'_>,
    rows: &[List<Option<u32>>],
    embs: &[Emb],
    emb: &Emb,
    above: Option<u32>,
) -> Result<Bound, Stop>
    ensures { Told bound_view result (answers.answer_with (program_of scene.entry) rows.now
        (map emb_view embs.now) (emb_view emb.now) above (denoted_of scene.entry)) }
{
    let fault = first_fault(alloc, scene, rows, emb, above)?;
    match fault {
        Some(kind) => Err(Stop::Refused(kind, emb.line)),
        None => {
            let declare = opened_declare(embs, emb, above);
            Ok(statement_bound(alloc, scene, emb, declare)?)
        }
    }
}

/// What is made once to bind the statements of a program: where members stand in structs, and how many leaves these have,
/// which declarations stand in a section, which are functions, and which DECLARE stands above a statement. Contracts see
/// the program.
#[derive(Drop)]
pub struct Binder<'a> {
    typed: &'a Typed,
    structs: Known<'a>,
    hosts: Numbers,
    functions: Numbers,
    above: List<Option<u32>>,
}

impl<'a> Model for Binder<'a> {
    ghost use Rattle.std.specs.Coded.{codes};
    ghost use Rattle.ec_ctypes.specs.declared.checked.typed.Typed.{Typed as Program};
    ghost use Rattle.ec_ctypes.specs.contracts.checked.typed.Typed as contents;
    ghost use Rattle.ec_params.specs.Answers.{IsMade};

    ghost Value = { Program };

    ghost coded = { Prim.hlevel (codes, contents.the_row.coded) };

    ghost view = { λ b. b.typed.now };

    ghost invariant = { λ b. IsMade b.typed.now b.structs b.hosts b.functions b.above };
}

impl<'a> Binder<'a> {
    /// What is made once for this program, in time and memory that grow as the program does.
    pub fn new(alloc: Global, typed: &'a Typed) -> Result<Binder<'a>, OutOfMemory>
        ensures { IfOk result (λ binder. binder ≡ typed.now) }
    {
        let structs = Known::new(alloc, &typed.structs)?;
        let list = List::from_slice(alloc, typed.hosts.hosts.as_slice())?;
        let hosts = Numbers::new(alloc, list)?;
        let numbers = functions(alloc, &typed.unit)?;
        let functions = Numbers::new(alloc, numbers)?;
        let above = declares_above(alloc, typed.unit.embs.as_slice())?;
        Ok(Binder {
            typed,
            structs,
            hosts,
            functions,
            above,
        })
    }

    /// What the hosts of the statement of this number are looked at with.
    fn scene(&self, emb: u32) -> Scene<'_>
        ensures program { program_of result ≡ spec.program_of (typed_view self.now) }
        ensures denoted { denoted_of result ≡ faults.row_at (typed_view self.now).denoted emb }
    {
        Scene {
            structs: &self.structs,
            names: self.typed.names.as_slice(),
            hosts: &self.hosts,
            functions: &self.functions,
            denoted: row_at(self.typed.denoted.as_slice(), emb),
        }
    }

    /// The first DECLARE above the statement of this number of the cursor that it names.
    fn above(&self, emb: u32) -> Option<u32>
        ensures { result ≡ answers.above_at (map emb_view (self.now).unit.embs) emb }
    {
        match self.above.get(emb as usize) {
            Some(above) => *above,
            None => None,
        }
    }

    /// The embedded statement of this number with its hosts as places, as the library is given them: the text that is
    /// sent, the texts of the call, an absent one as NULL, the inputs and the outputs (PostgreSQL manual, "Using Host
    /// Variables" and "Using Cursors").
    ///
    /// # Errors
    ///
    /// F21 to F25 at a host, F26 and F28 at OPEN, F27 at DECLARE, each at the line of the statement. The lowest number
    /// decides.
    pub fn bind(&self, alloc: Global, emb: u32) -> Result<Bound, Stop>
        requires { emb < length (self.now).unit.embs }
        ensures { IfSome (slice_get (typed_view self.now).unit.embs emb)
            (λ e. Told bound_view result
            (spec.bound_answer (typed_view self.now) emb e)) }
    {
        let embs = self.typed.unit.embs.as_slice();
        let Some(statement) = embs.get(emb as usize) else {
            unreachable!()
        };
        let rows = self.typed.denoted.as_slice();
        answer(
            alloc,
            self.scene(emb),
            rows,
            embs,
            statement,
            self.above(emb),
        )
    }
}
