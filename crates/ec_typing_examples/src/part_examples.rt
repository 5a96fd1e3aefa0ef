//! Which action holds where, which cursor is opened, and which variables a statement names, as the contracts of functions
//! that do nothing.

ghost use Rattle.std.specs.Prelude.{◌≡◌, [], ◌∷◌, Some, None, codes};
ghost use Rattle.ec_ctypes.specs.declared.embedded.emb.Cond.TheVariants.{NotFound, Warning, Error};
ghost use Rattle.ec_ctypes.specs.trees.Embedded.{goto_action, stop_action, print_action, continue_action, host_arg, host_with_indicator, host_input, const_input, listed_ins, listed_outs, no_outs, open_cursor, declare_cursor, server_text, get_items, connect};
ghost use Rattle.ec_ctypes.specs.trees.Exprs.{identifier, index, member, arrow};
ghost use Rattle.ec_typing_defs.specs.statement_parts.Cursors.{declared_above, declare_opened};
ghost use Rattle.ec_typing_defs.specs.statement_parts.Examples.{emb, host, host_and, part, sets, name};
ghost use Rattle.ec_typing_defs.specs.statement_parts.Handlers.{handler, is_directive};
ghost use Rattle.ec_typing_defs.specs.statement_parts.References.{names_in, names_of};

/// The last WHENEVER for the condition above the statement decides; one for another condition doesn't, nor one below.
pub fn handler_examples()
    ensures none { handler [] 9 Error ≡ None }
    ensures above { handler (sets 3 Error stop_action ∷ []) 4 Error ≡ Some stop_action }
    ensures itself { handler (sets 3 Error stop_action ∷ []) 3 Error ≡ None }
    ensures below { handler (sets 3 Error stop_action ∷ sets 8 Error print_action ∷ []) 5 Error
        ≡ Some stop_action }
    ensures last { handler (sets 3 Error stop_action ∷ sets 4 Error print_action ∷ []) 5 Error
        ≡ Some print_action }
    ensures set_to_continue { handler
        (sets 3 Error stop_action ∷ sets 4 Error continue_action ∷ []) 5 Error
        ≡ Some continue_action }
    ensures another_condition { handler (sets 3 Error stop_action ∷ []) 5 NotFound ≡ None }
    ensures each_condition_by_itself { handler
        (sets 1 NotFound (goto_action (codes "done")) ∷ sets 2 Error stop_action ∷
        sets 3 Warning print_action ∷ []) 9 NotFound
        ≡ Some (goto_action (codes "done")) }
    ensures behind_other_statements { handler
        (emb 1 (server_text [] no_outs) ∷ sets 2 Warning print_action ∷
        emb 3 (server_text [] no_outs) ∷ []) 9 Warning
        ≡ Some print_action }
{}

/// The first DECLARE of the cursor above the statement, whatever the case of the letters.
pub fn cursor_examples()
    ensures none { declared_above [] 5 (codes "c") ≡ None }
    ensures above { declared_above (emb 1 (declare_cursor (codes "c") [] None) ∷ emb 2
        (open_cursor (codes "c") (listed_ins [])) ∷ []) 1 (codes "c") ≡ Some 0 }
    ensures below { declared_above (emb 1 (open_cursor (codes "c") (listed_ins [])) ∷ emb 2
        (declare_cursor (codes "c") [] None) ∷ []) 0 (codes "c") ≡ None }
    ensures any_case { declared_above (emb 1 (declare_cursor (codes "Cur") [] None) ∷ []) 1
        (codes "cUR") ≡ Some 0 }
    ensures another { declared_above (emb 1 (declare_cursor (codes "c") [] None) ∷ []) 1
        (codes "d") ≡ None }
    ensures first_of_two { declared_above (emb 1 (server_text [] no_outs) ∷ emb 2
        (declare_cursor (codes "c") [] None) ∷ emb 3 (declare_cursor (codes "c") [] None) ∷ [])
        3 (codes "c") ≡ Some 1 }
    ensures opened { declare_opened (emb 1 (declare_cursor (codes "c") (part "x" ∷ []) None) ∷ emb
        2 (open_cursor (codes "c") (listed_ins [])) ∷ []) 1 (emb 2 (open_cursor (codes "c")
        (listed_ins []))) ≡ Some (emb 1 (declare_cursor (codes "c") (part "x" ∷ []) None)) }
    ensures no_open { declare_opened (emb 1 (declare_cursor (codes "c") [] None) ∷ []) 1
        (emb 2 (server_text [] no_outs)) ≡ None }
{}

/// The variables of a statement in the order of its tree: of a reference the variable and its indexes, and then those of
/// its indicator.
pub fn reference_examples()
    ensures variable { names_in (identifier (codes "x")) ≡ codes "x" ∷ [] }
    ensures members_are_none { names_in (arrow (member (identifier (codes "x")) (codes "m"))
        (codes "n")) ≡ codes "x" ∷ [] }
    ensures indexes { names_in (index (member (index (identifier (codes "x")) (identifier (codes
        "i"))) (codes "m")) (identifier (codes "j"))) ≡ codes "x" ∷ codes "i" ∷ codes "j" ∷ [] }
    ensures server { names_of (emb 1 (server_text (part "a" ∷ part "b" ∷ []) (listed_outs (host_and
        "c" "i" ∷ host "d" ∷ []))))
        ≡ codes "a" ∷ codes "b" ∷ codes "c" ∷ codes "i" ∷ codes "d" ∷ [] }
    ensures texts { names_of (emb 1 (connect (host_arg (name "t")) (Some (host_with_indicator
        (name "n") (name "i"))) None (Some (host_arg (name "p")))))
        ≡ codes "t" ∷ codes "n" ∷ codes "i" ∷ codes "p" ∷ [] }
    ensures inputs { names_of (emb 1 (open_cursor (codes "c") (listed_ins (host_input (host "x") ∷
        const_input (codes "5") ∷ host_input (host "y") ∷ []))))
        ≡ codes "x" ∷ codes "y" ∷ [] }
    ensures items { names_of (emb 1 (get_items (host_arg (name "d")) (host_input (host "k")) []))
        ≡ codes "d" ∷ codes "k" ∷ [] }
{}
