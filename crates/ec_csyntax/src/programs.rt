//! The tree of the tokens of a text, or the stop.

ghost use Rattle.std.specs.Prelude.{◌≡◌, ◌≢◌, IfOk, Result, Ok, Err};
ghost use Rattle.ec_base.specs.declared.stop.Stop.{Stop as TheStop};
ghost use Rattle.ec_base.specs.declared.stop.Stop.TheVariants as stops;
ghost use Rattle.ec_ctypes.specs.trees.Units.{UnitData};
ghost use Rattle.ec_ctypes.specs.views.Tokens.{tokens_view};
ghost use Rattle.ec_ctypes.specs.views.Units.{unit_view};
ghost use Rattle.ec_grammar.specs.ReadUnit as spec;
ghost use Rattle.ec_language.specs.Productions.{placed};
ghost use Rattle.ec_language.specs.Syntax.{EndsOnce, TreeOrStop};
ghost use Rattle.ec_csyntax.specs.Answers.{GivesUnlessNoMemory};

use crate::units::unit;
use ec_base::{FaultKind, LimitKind, Line, List, Stop};
use ec_ctypes::{Token, Unit};
use ec_cursor::Cursor;
use ec_grammar::Failure;
use ec_grammar::exact::readings_are_exact;
use std::alloc::Global;

/// The line of the token at which so many are left, itself among them.
fn line_at(tokens: &[Token], left: usize) -> Line
    ensures { result ≡ spec.line_at (placed (tokens_view tokens.now)) left }
{
    if left == 0 || left > tokens.len() {
        return Line(0);
    }
    tokens[tokens.len() - left].line
}

/// The stop of a failure.
fn stop_of(tokens: &[Token], failure: Failure) -> Stop
    ensures { result ≡ spec.failure_stop (placed (tokens_view tokens.now)) failure }
{
    match failure {
        Failure::OutOfMemory => Stop::OutOfMemory,
        Failure::Dead(left) => Stop::Refused(FaultKind::F7, line_at(tokens, left)),
        Failure::TooDeep(_) => Stop::Limit(LimitKind::L3),
    }
}

/// The answer of the plain reading.
fn read_unit(alloc: Global, tokens: &[Token]) -> Result<Unit, Stop>
    ensures { GivesUnlessNoMemory result (spec.answer (tokens_view tokens.now)) }
{
    let mut cursor = Cursor::new(tokens);
    match unit(alloc, &mut cursor) {
        Ok(unit) => Ok(unit),
        Err(failure) => Err(stop_of(tokens, failure)),
    }
}

/// The tree of the tokens of a text, the last of which is the end, and no other. Its embedded statements are left out.
///
/// Where no program has these tokens, the answer is the fault F7 at the line of the first token with which no program goes
/// on. It is the limit L3 where, before such a token, one stands at which more than 64 levels nest, one declarator,
/// function, parameter or type name has more than 64 stars and array lengths, or one whole expression more than 4096 binary
/// operators and postfix parts. The grammar is that of ISO/IEC 9899:1999, 6.5 to 6.9, as far as `docs/LANGUAGE.md` has it.
pub fn parse(alloc: Global, tokens: &List<Token>) -> Result<Unit, Stop>
    requires { EndsOnce (tokens_view tokens.now) }
    ensures tree { IfOk result (λ unit. TreeOrStop (tokens_view tokens.now) (Ok (unit_view unit))) }
    ensures stop { (stop : TheStop) → result ≡ Err stop → stop ≢ stops.OutOfMemory
        → TreeOrStop (tokens_view tokens.now) (Err stop) }
    ensures only { (answer : Result UnitData TheStop)
        → TreeOrStop (tokens_view tokens.now) answer → GivesUnlessNoMemory result answer }
{
    readings_are_exact();
    read_unit(alloc, tokens.as_slice())
}
