//! How many names stand in an OPEN.
#![tactic(auto, using(crate::proofs::NamesIn::names_in_all))]

ghost use Rattle.std.specs.Prelude.{◌≡◌, ◌++◌, IfOk, length, map, option_map};
ghost use Rattle.ec_ctypes.specs.views.Embedded.{host_view, text_arg_view, input_view, ins_view};
ghost use Rattle.ec_params.specs.Naming.{names_among};
ghost use Rattle.ec_typing_defs.specs.statement_parts.References as spec;

use crate::scene::{names_count, sum};
use crate::walk::{indicator_of, option_count};
use ec_base::{Boxed, OutOfMemory};
use ec_ctypes::{Host, Input, Ins, TextArg};

/// In a host.
fn host_names(host: &Host) -> Result<usize, OutOfMemory>
    ensures { IfOk result (λ n. n ≡ names_among (spec.of_host (host_view host.now))) }
{
    let own = names_count(&host.value)?;
    let inner = option_count(indicator_of(host))?;
    sum(own, inner)
}

/// In a name or a text.
fn text_names(arg: &TextArg) -> Result<usize, OutOfMemory>
    ensures { IfOk result (λ n. n ≡ names_among (spec.of_text (text_arg_view arg.now))) }
{
    match arg {
        TextArg::Word(_) => Ok(0),
        TextArg::Host(host) => names_count(host.get()),
        TextArg::HostWithIndicator(host, indicator) => {
            let own = names_count(host.get())?;
            let inner = names_count(indicator.get())?;
            sum(own, inner)
        }
    }
}

/// In one that may be absent.
fn option_names(arg: &Option<Boxed<TextArg>>) -> Result<usize, OutOfMemory>
    ensures { IfOk result (λ n. n ≡ names_among (spec.of_text_option
        (option_map text_arg_view arg.now))) }
{
    match arg {
        Some(arg) => text_names(arg.get()),
        None => Ok(0),
    }
}

/// In a value that is sent.
fn input_names(input: &Input) -> Result<usize, OutOfMemory>
    ensures { IfOk result (λ n. n ≡ names_among (spec.of_input (input_view input.now))) }
{
    match input {
        Input::Host(host) => host_names(host),
        Input::Const(_) => Ok(0),
    }
}

/// In values that are sent.
fn inputs_names(inputs: &[Input]) -> Result<usize, OutOfMemory>
    ensures { IfOk result (λ n. n ≡ names_among (spec.of_all spec.of_input
        (map input_view inputs.now))) }
{
    let mut count = 0;
    for input in inputs {
        let more = input_names(input)?;
        count = sum(count, more)?;
    }
    Ok(count)
}

/// In a USING list.
fn ins_names(ins: &Ins) -> Result<usize, OutOfMemory>
    ensures { IfOk result (λ n. n ≡ names_among (spec.of_ins (ins_view ins.now))) }
{
    match ins {
        Ins::Listed(inputs) => inputs_names(inputs.as_slice()),
        Ins::Area(area) => text_names(area),
    }
}

/// In the connection and the USING list of an OPEN.
pub(crate) fn open_names(at: &Option<Boxed<TextArg>>, ins: &Ins) -> Result<usize, OutOfMemory>
    ensures { IfOk result (λ n. n ≡ names_among (spec.of_text_option
        (option_map text_arg_view at.now)
        ++ spec.of_ins (ins_view ins.now))) }
{
    let connection = option_names(at)?;
    let list = ins_names(ins)?;
    sum(connection, list)
}
