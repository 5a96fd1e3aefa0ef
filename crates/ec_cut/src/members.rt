//! Members: hosts, constants and descriptors, of ten values each.

ghost use Rattle.std.specs.Prelude.{◌≡◌, option_map};
ghost use Rattle.ec_arguments.specs.Reading as spec;
ghost use Rattle.ec_cut.specs.Cases as cases;
ghost use Rattle.ec_cut.specs.Reads.{Reads};
ghost use Rattle.ec_cut.specs.Views.{text_view, indicators_view, member_view};

use crate::arguments::{Front, Indicator, Member, Place, Text};
use crate::pointers::{Literal, Pointer};
use crate::reading::{next_long, next_symbol, next_text};
use ec_ctypes::Sym;

fn is_no_indicator(sym: Sym) -> bool
    ensures { result ≡ cases.is_no_indicator sym }
{
    matches!(sym, Sym::NoIndicator)
}

fn is_const(sym: Sym) -> bool
    ensures { result ≡ cases.is_const sym }
{
    matches!(sym, Sym::Const)
}

fn is_descriptor(sym: Sym) -> bool
    ensures { result ≡ cases.is_descriptor sym }
{
    matches!(sym, Sym::Descriptor)
}

/// A length, a count and a distance.
#[derive(Clone, Copy)]
struct Numbers {
    size: u64,
    count: u64,
    step: u64,
}

impl Numbers {
    /// Whether these are the numbers.
    fn are(self, size: u64, count: u64, step: u64) -> bool
        ensures { result ≡ cases.are size count step self.size self.count self.step }
    {
        self.size == size && self.count == count && self.step == step
    }
}

/// The values of no indicators: NULL and three zeros.
fn no_indicators<B: Literal + Copy, A: Pointer + Copy>(
    value: Text<B, A>,
    numbers: Numbers,
) -> Option<Option<Indicator<A>>>
    ensures { option_map (indicators_view A.view) result ≡ cases.no_indicators
        (text_view B.bytes A.view value) numbers.size numbers.count numbers.step }
{
    match value {
        Text::Absent => {
            if numbers.are(0, 0, 0) {
                Some(None)
            } else {
                None
            }
        }
        Text::Word(_) => None,
        Text::Held(_) => None,
    }
}

/// The values of indicators: a pointer, a zero, how many there are, and their distance.
fn some_indicators<B: Literal + Copy, A: Pointer + Copy>(
    sym: Sym,
    value: Text<B, A>,
    numbers: Numbers,
) -> Option<Option<Indicator<A>>>
    ensures { option_map (indicators_view A.view) result ≡ cases.indicators sym
        (text_view B.bytes A.view value) numbers.size numbers.count numbers.step }
{
    match value {
        Text::Absent => None,
        Text::Word(_) => None,
        Text::Held(value) => {
            if numbers.size == 0 {
                Some(Some(Indicator {
                    sym,
                    value,
                    count: numbers.count,
                    step: numbers.step,
                }))
            } else {
                None
            }
        }
    }
}

/// The five values of indicators, by their symbol.
#[tactic(auto, using(crate::proofs::CasesAre::indicator_cases))]
fn indicator_of<B: Literal + Copy, A: Pointer + Copy>(
    sym: Sym,
    value: Text<B, A>,
    numbers: Numbers,
) -> Option<Option<Indicator<A>>>
    ensures { option_map (indicators_view A.view) result ≡ spec.indicator_of sym
        (text_view B.bytes A.view value) numbers.size numbers.count numbers.step }
{
    if is_no_indicator(sym) {
        return no_indicators(value, numbers);
    }
    some_indicators(sym, value, numbers)
}

fn next_indicator<B: Literal + Copy, A: Pointer + Copy>(
    front: &mut Front<'_, B, A>,
) -> Option<Option<Indicator<A>>>
    ensures { Reads B.bytes A.view (indicators_view A.view) spec.next_indicator
        front.old result front.new }
{
    let sym = next_symbol(front)?;
    let value = next_text(front)?;
    let size = next_long(front)?;
    let count = next_long(front)?;
    let step = next_long(front)?;
    let indicator = indicator_of(sym, value, Numbers { size, count, step })?;
    Some(indicator)
}

/// A constant: a literal, and the numbers 0, 1 and 0.
#[tactic(auto, using(crate::proofs::CasesAre::constant_cases))]
fn constant_of<B: Literal + Copy, A: Pointer + Copy>(
    value: Text<B, A>,
    numbers: Numbers,
    ind: Option<Indicator<A>>,
) -> Option<Member<B, A>>
    ensures { option_map (member_view B.bytes A.view) result ≡ spec.constant_of
        (text_view B.bytes A.view value) numbers.size numbers.count numbers.step
        (indicators_view A.view ind) }
{
    match value {
        Text::Absent => None,
        Text::Word(bytes) => {
            if numbers.are(0, 1, 0) && ind.is_none() {
                Some(Member::Constant(bytes))
            } else {
                None
            }
        }
        Text::Held(_) => None,
    }
}

/// A descriptor: its name, and the numbers 1, 1 and 1.
#[tactic(auto, using(crate::proofs::CasesAre::descriptor_cases))]
fn descriptor_of<B: Literal + Copy, A: Pointer + Copy>(
    value: Text<B, A>,
    numbers: Numbers,
    ind: Option<Indicator<A>>,
) -> Option<Member<B, A>>
    ensures { option_map (member_view B.bytes A.view) result ≡ spec.descriptor_of
        (text_view B.bytes A.view value) numbers.size numbers.count numbers.step
        (indicators_view A.view ind) }
{
    if numbers.are(1, 1, 1) && ind.is_none() {
        return Some(Member::Descriptor(value));
    }
    None
}

/// A host: a pointer to its first element.
fn host_of<B: Literal + Copy, A: Pointer + Copy>(
    sym: Sym,
    value: Text<B, A>,
    numbers: Numbers,
    ind: Option<Indicator<A>>,
) -> Option<Member<B, A>>
    ensures { option_map (member_view B.bytes A.view) result ≡ cases.host_by sym
        (text_view B.bytes A.view value) numbers.size numbers.count numbers.step
        (indicators_view A.view ind) }
{
    match value {
        Text::Absent => None,
        Text::Word(_) => None,
        Text::Held(value) => Some(Member::Host(Place {
            sym,
            value,
            size: numbers.size,
            count: numbers.count,
            step: numbers.step,
            ind,
        })),
    }
}

/// A member, by its symbol.
#[tactic(auto, using(crate::proofs::CasesAre::member_cases))]
fn member_of<B: Literal + Copy, A: Pointer + Copy>(
    sym: Sym,
    value: Text<B, A>,
    numbers: Numbers,
    ind: Option<Indicator<A>>,
) -> Option<Member<B, A>>
    ensures { option_map (member_view B.bytes A.view) result ≡ spec.member_of sym
        (text_view B.bytes A.view value) numbers.size numbers.count numbers.step
        (indicators_view A.view ind) }
{
    if is_const(sym) {
        return constant_of(value, numbers, ind);
    }
    if is_descriptor(sym) {
        return descriptor_of(value, numbers, ind);
    }
    host_of(sym, value, numbers, ind)
}

/// The next ten values, as a member.
pub(crate) fn next_member<B: Literal + Copy, A: Pointer + Copy>(
    front: &mut Front<'_, B, A>,
) -> Option<Member<B, A>>
    ensures { Reads B.bytes A.view (member_view B.bytes A.view) spec.next_member
        front.old result front.new }
{
    let sym = next_symbol(front)?;
    let value = next_text(front)?;
    let size = next_long(front)?;
    let count = next_long(front)?;
    let step = next_long(front)?;
    let ind = next_indicator(front)?;
    let member = member_of(sym, value, Numbers { size, count, step }, ind)?;
    Some(member)
}
