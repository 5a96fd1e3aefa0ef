//! What is read here is what the forms have, as the contract of a function that does nothing.

ghost use Rattle.std.specs.Prelude.{◌≡◌};
ghost use Rattle.ec_embedded.specs.Connections.{connection_of, ended_of, or_default, or_special};
ghost use Rattle.ec_embedded.specs.References as form;
ghost use Rattle.ec_embedded.specs.Terminals.{Begins};
ghost use Rattle.ec_references.specs.Laws.{IsReader};
ghost use Rattle.ec_references.specs.Readers as r;

/// The readers are the plain reading of the forms, with what is made of the trees.
#[tactic(none)]
pub fn readers_are_exact()
    ensures host { (b : Begins) → IsReader (form.host_form b) (form.host_of b) (r.hosted b) }
    ensures spelled_host { (b : Begins) → IsReader (form.spelled_host_form b)
        (form.spelled_host_of b) (r.spelled_host b) }
    ensures text { IsReader form.text_form form.text_of r.text_argument }
    ensures spelled_text { IsReader form.spelled_text_form form.spelled_text_of r.spelled_text }
    ensures statement_text { IsReader form.statement_text_form form.statement_text_of
        r.quote_or_host }
    ensures connection { IsReader form.text_form connection_of (r.named_connection or_default) }
    ensures ended { IsReader form.text_form ended_of (r.named_connection or_special) }
    ensures value { IsReader form.value_form form.value_of r.value }
    ensures spelled_value { IsReader form.spelled_value_form form.spelled_value_of r.spelled_value }
    ensures inputs { IsReader form.ins_form form.ins_of r.inputs }
    ensures outputs { IsReader form.outs_form form.outs_of r.outputs }
    ensures using { IsReader form.using_form form.using_of r.using_or_none }
{}
