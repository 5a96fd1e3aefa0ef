//! Embedded statements as they are bound, and what the checks say of them, as the contracts of functions that do nothing.
#![tactic(auto, unfolding(ec_typing_defs::specs::Embedded::reference_rule, ec_typing_defs::specs::Embedded::members_rule, ec_typing_defs::specs::Embedded::denote, ec_typing_defs::specs::Expressions::type_or_fault, ec_typing_defs::specs::Expressions::tag_rule, ec_typing_defs::specs::Expressions::tagged_struct, ec_typing_defs::specs::Expressions::begin_struct, ec_typing_defs::specs::Expressions::end_struct, ec_typing_defs::specs::Expressions::member_named, ec_typing_defs::specs::Expressions::varchar_struct, ec_typing_defs::specs::Expressions::varchar_object, ec_typing_defs::specs::Expressions::varchar_member, ec_typing_defs::specs::Initializers::fixed_rule, ec_typing_defs::specs::Initializers::suits_rule, ec_typing_defs::specs::Initializers::part_rule, ec_typing_defs::specs::Initializers::slot_rule, ec_typing_defs::specs::Initializers::braces_rule, ec_typing_defs::specs::Operands::typed, ec_typing_defs::specs::Operands::named_by, ec_typing_defs::specs::Operands::name_rule, ec_typing_defs::specs::Operands::value_rule, ec_typing_defs::specs::Operands::address_rule, ec_typing_defs::specs::Operands::target_rule, ec_typing_defs::specs::Operands::sign_rule, ec_typing_defs::specs::Operands::binary_rule, ec_typing_defs::specs::Operands::index_rule, ec_typing_defs::specs::Operands::assign_rule, ec_typing_defs::specs::Operands::compound_rule, ec_typing_defs::specs::Operands::bump_rule, ec_typing_defs::specs::Operands::call_by, ec_typing_defs::specs::Operands::call_rule, ec_typing_defs::specs::Operands::member_rule, ec_typing_defs::specs::Operands::arrow_rule, ec_typing_defs::specs::Operands::scalar_cast, ec_typing_defs::specs::Operands::cast_rule, ec_typing_defs::specs::Operands::size_rule, ec_typing_defs::specs::Operands::length_rule, ec_typing_defs::specs::Operands::within_rule, ec_typing_defs::specs::Operands::complete_rule, ec_typing_defs::specs::Programs::result_rule, ec_typing_defs::specs::Programs::plain_param, ec_typing_defs::specs::Programs::begin_function, ec_typing_defs::specs::Programs::know_function, ec_typing_defs::specs::Programs::main_rule, ec_typing_defs::specs::Statements::object_rule, ec_typing_defs::specs::Statements::tag_alone, ec_typing_defs::specs::Statements::condition_rule, ec_typing_defs::specs::Statements::return_rule, ec_typing_defs::specs::Statements::return_nothing, ec_typing_defs::specs::Worlds::chain, ec_typing_defs::specs::Worlds::pure, ec_typing_defs::specs::Worlds::ask, ec_typing_defs::specs::Worlds::change, ec_typing_defs::specs::Worlds::note, ec_typing_defs::specs::Worlds::demand, ec_typing_defs::specs::Worlds::keep_within, ec_typing_defs::specs::Worlds::instead, ec_typing_defs::specs::Worlds::place, ec_typing_defs::specs::Worlds::enter, ec_typing_defs::specs::Worlds::leave, ec_typing_defs::specs::Worlds::free_name, ec_typing_defs::specs::Worlds::free_tag, ec_typing_defs::specs::Worlds::declare, ec_typing_defs::specs::Worlds::know_better, ec_typing_defs::specs::Worlds::declare_label, ec_typing_defs::specs::Worlds::number_as, ec_typing_defs::specs::Worlds::new_struct, ec_typing_defs::specs::Worlds::set_struct, ec_embedded::specs::Connections::user_form, ec_embedded::specs::Connections::plain_tail, ec_embedded::specs::Connections::parted_tail, ec_embedded::specs::Connections::target_form, ec_embedded::specs::Connections::connect_form, ec_embedded::specs::Connections::set_connection_form, ec_embedded::specs::Connections::disconnect_form, ec_embedded::specs::Connections::autocommit_form, ec_embedded::specs::Descriptors::allocate_form, ec_embedded::specs::Descriptors::item_form, ec_embedded::specs::Descriptors::got_form, ec_embedded::specs::Descriptors::get_form, ec_embedded::specs::Descriptors::other_item_form, ec_embedded::specs::Descriptors::set_item_form, ec_embedded::specs::Descriptors::assigned_form, ec_embedded::specs::Descriptors::setting_form, ec_embedded::specs::Descriptors::behind_host_form, ec_embedded::specs::Descriptors::set_value_form, ec_embedded::specs::Descriptors::set_form, ec_embedded::specs::Directives::condition_form, ec_embedded::specs::Directives::argument_form, ec_embedded::specs::Directives::arguments_form, ec_embedded::specs::Directives::do_form, ec_embedded::specs::Directives::action_form, ec_embedded::specs::Directives::whenever_form, ec_embedded::specs::Directives::include_form, ec_embedded::specs::Directives::cursor_form, ec_embedded::specs::Dynamic::prepare_form, ec_embedded::specs::Dynamic::lists_form, ec_embedded::specs::Dynamic::execute_form, ec_embedded::specs::Dynamic::deallocate_form, ec_embedded::specs::Dynamic::deallocate_at_form, ec_embedded::specs::Dynamic::open_form, ec_embedded::specs::References::suffix_form, ec_embedded::specs::References::name_form, ec_embedded::specs::References::indicator_form, ec_embedded::specs::References::spelled_indicator_form, ec_embedded::specs::References::text_form, ec_embedded::specs::References::spelled_text_form, ec_embedded::specs::References::statement_text_form, ec_embedded::specs::References::constant_form, ec_embedded::specs::References::value_form, ec_embedded::specs::References::spelled_value_form, ec_embedded::specs::References::ins_form, ec_embedded::specs::References::outs_form, ec_embedded::specs::References::using_form, ec_embedded::specs::ServerText::reference_at, ec_embedded::specs::ServerText::host_at, ec_embedded::specs::ServerText::into_list, ec_embedded::specs::ServerText::server_at, ec_embedded::specs::ServerText::transaction_at, ec_embedded::specs::Statements::declare_at, ec_embedded::specs::Statements::at_form))]

ghost use Rattle.std.specs.Prelude.{◌≡◌, [], ◌∷◌, Some, None, codes};
ghost use Rattle.ec_base.specs.declared.fault.FaultKind.TheVariants.{F10, F11, F14, F20, F29, F30};
ghost use Rattle.ec_base.specs.declared.fault.LimitKind.TheVariants.{L1, L5};
ghost use Rattle.ec_ctypes.specs.declared.checked.library.Sym.TheVariants as sym;
ghost use Rattle.ec_ctypes.specs.trees.Exprs.{string};
ghost use Rattle.ec_host_defs.specs.Bound.{bound_of};
ghost use Rattle.ec_host_defs.specs.Examples.{bound_in, texts_of, text_of, checks_of, verdict, verdict_of, refused, limited, name, address, dot, place, one_int};
ghost use Rattle.ec_host_defs.specs.Places.{constant_place, descriptor_place, no_text};

/// The text that is sent: each host is as many parameters as it has leaves, numbered in order.
pub fn text_examples()
    ensures plain { text_of "EXEC SQL int x;" "EXEC SQL INSERT INTO t VALUES (:x, :x);"
        ≡ Some (codes "INSERT INTO t VALUES ($1, $2)") }
    ensures of_a_struct { text_of "EXEC SQL struct { int a, b; } x; EXEC SQL int y;"
        "EXEC SQL INSERT INTO t VALUES (:x, :y);"
        ≡ Some (codes "INSERT INTO t VALUES ($1, $2, $3)") }
    ensures indicators { text_of "EXEC SQL int x, i;" "EXEC SQL SELECT :x :i, :x;"
        ≡ Some (codes "SELECT $1, $2") }
    ensures outputs { text_of "EXEC SQL int x;" "EXEC SQL SELECT a INTO :x FROM t WHERE b = :x;"
        ≡ Some (codes "SELECT a FROM t WHERE b = $1") }
{}

/// The texts of a call: an absent one is NULL, a word is a literal, and a host is the pointer to its characters.
pub fn argument_examples()
    ensures no_connection { texts_of "" "EXEC SQL COMMIT;" ≡ Some (no_text ∷ []) }
    ensures connection { texts_of "" "EXEC SQL AT c COMMIT;" ≡ Some (string (codes "c") ∷ []) }
    ensures host { texts_of "EXEC SQL char *c;" "EXEC SQL AT :c COMMIT;" ≡ Some (name "c" ∷ []) }
    ensures array { texts_of "EXEC SQL char c[9];" "EXEC SQL AT :c COMMIT;" ≡ Some (name "c" ∷ []) }
    ensures varchar { texts_of "EXEC SQL VARCHAR c[9];" "EXEC SQL AT :c COMMIT;"
        ≡ Some (dot (name "c") "arr" ∷ []) }
    ensures connect { texts_of "EXEC SQL char *t, *p;" "EXEC SQL CONNECT TO :t AS n USER u / :p;"
        ≡ Some (name "t" ∷ string (codes "u") ∷ name "p" ∷ string (codes "n") ∷ []) }
    ensures connect_alone { texts_of "" "EXEC SQL CONNECT TO d;"
        ≡ Some (string (codes "d") ∷ no_text ∷ no_text ∷ no_text ∷ []) }
    ensures prepare { texts_of "EXEC SQL VARCHAR q[9];" "EXEC SQL AT c PREPARE s FROM :q;"
        ≡ Some (string (codes "c") ∷ dot (name "q") "arr" ∷ []) }
    ensures descriptor { texts_of "" "EXEC SQL ALLOCATE DESCRIPTOR d;"
        ≡ Some (string (codes "d") ∷ []) }
{}

/// Statements with their lists.
pub fn list_examples()
    ensures execute { bound_in 0
        "EXEC SQL int x, y; int main(void) { EXEC SQL EXECUTE s INTO :y USING :x, 5; }"
        ≡ Some (bound_of [] (no_text ∷ []) (one_int (address (name "x")) ∷ constant_place
        (codes "5") ∷ []) (one_int (address (name "y")) ∷ [])) }
    ensures areas { bound_in 0
        "EXEC SQL char *d; int main(void) { EXEC SQL EXECUTE s INTO SQL DESCRIPTOR e USING SQL DESCRIPTOR :d; }"
        ≡ Some (bound_of [] (no_text ∷ []) (descriptor_place (name "d") ∷ [])
        (descriptor_place (string (codes "e")) ∷ [])) }
    ensures open { bound_in 1
        "EXEC SQL int x; EXEC SQL struct { int a, b; } z; int main(void) { EXEC SQL DECLARE c CURSOR FOR SELECT :z, :x; EXEC SQL AT k OPEN c USING 7; }"
        ≡ Some (bound_of (codes "DECLARE c CURSOR FOR SELECT $1, $2, $3") (string (codes "k") ∷ [])
        (one_int (address (dot (name "z") "a")) ∷ one_int (address (dot (name "z") "b")) ∷ one_int
        (address (name "x")) ∷ constant_place (codes "7") ∷ []) []) }
    ensures open_prepared { bound_in 1
        "EXEC SQL int x; int main(void) { EXEC SQL DECLARE c CURSOR FOR s; EXEC SQL OPEN c USING :x; }"
        ≡ Some (bound_of (codes "DECLARE c CURSOR FOR ") (no_text ∷ [])
        (one_int (address (name "x")) ∷ []) []) }
    ensures declare { bound_in 0
        "EXEC SQL int x; int main(void) { EXEC SQL DECLARE c CURSOR FOR SELECT :x; }"
        ≡ Some (bound_of [] [] [] []) }
    ensures count { bound_in 0
        "EXEC SQL int n; int main(void) { EXEC SQL GET DESCRIPTOR d :n = COUNT; }"
        ≡ Some (bound_of [] (string (codes "d") ∷ []) [] (one_int (address (name "n")) ∷ [])) }
    ensures get { bound_in 0
        "EXEC SQL int k, i, x; int main(void) { EXEC SQL GET DESCRIPTOR d VALUE :k :i = INDICATOR, :x = DATA; }"
        ≡ Some (bound_of [] (string (codes "d") ∷ []) (one_int (address (name "k")) ∷ [])
        (one_int (address (name "i")) ∷ one_int (address (name "x")) ∷ [])) }
    ensures set { bound_in 0
        "EXEC SQL int x; int main(void) { EXEC SQL SET DESCRIPTOR d VALUE 2 DATA = :x, INDICATOR = -1; }"
        ≡ Some (bound_of [] (string (codes "d") ∷ []) (constant_place (codes "2") ∷ one_int
        (address (name "x")) ∷ constant_place (codes "-1") ∷ []) []) }
    ensures set_count { bound_in 0
        "int main(void) { EXEC SQL SET DESCRIPTOR d COUNT = 3; }"
        ≡ Some (bound_of [] (string (codes "d") ∷ []) (constant_place (codes "3") ∷ []) []) }
{}

/// F30: what the action that holds at a statement names is looked up where the statement stands. A directive has no
/// action, and one that is set to CONTINUE none.
pub fn action_examples()
    ensures label { verdict
        "EXEC SQL WHENEVER NOT FOUND GOTO done; int main(void) { EXEC SQL COMMIT; done: ; }"
        ≡ None }
    ensures no_label { verdict
        "EXEC SQL WHENEVER NOT FOUND GOTO done; int main(void) {\nEXEC SQL COMMIT; }"
        ≡ refused F30 2 }
    ensures label_of_another_function { verdict
        "EXEC SQL WHENEVER NOT FOUND GOTO done; void f(void) { done: ; } int main(void) {\nEXEC SQL COMMIT; }"
        ≡ refused F30 2 }
    ensures above_the_directive { verdict
        "int main(void) { EXEC SQL COMMIT; EXEC SQL WHENEVER NOT FOUND GOTO done; }"
        ≡ None }
    ensures continued { verdict
        "EXEC SQL WHENEVER NOT FOUND GOTO done; EXEC SQL WHENEVER NOT FOUND CONTINUE; int main(void) { EXEC SQL COMMIT; }"
        ≡ None }
    ensures directive_has_none { verdict
        "EXEC SQL WHENEVER NOT FOUND GOTO done; int main(void) { EXEC SQL DECLARE c CURSOR FOR SELECT 1; EXEC SQL INCLUDE sqlca; }"
        ≡ None }
    ensures break_outside { verdict
        "EXEC SQL WHENEVER SQLERROR DO BREAK; int main(void) {\nEXEC SQL COMMIT; }"
        ≡ refused F30 2 }
    ensures break_inside { verdict
        "EXEC SQL WHENEVER SQLERROR DO BREAK; int main(void) { while (1) { EXEC SQL COMMIT; } }"
        ≡ None }
    ensures continue_outside { verdict
        "EXEC SQL WHENEVER SQLWARNING DO CONTINUE; int main(void) {\nEXEC SQL COMMIT; }"
        ≡ refused F30 2 }
    ensures call { verdict
        "void w(int a) { } EXEC SQL WHENEVER SQLERROR DO w(1); int main(void) { EXEC SQL COMMIT; }"
        ≡ None }
    ensures call_of_nothing { verdict
        "EXEC SQL WHENEVER SQLERROR DO w(1); int main(void) {\nEXEC SQL COMMIT; }"
        ≡ refused F30 2 }
    ensures too_few_arguments { verdict
        "void w(int a) { } EXEC SQL WHENEVER SQLERROR CALL w(); int main(void) {\nEXEC SQL COMMIT; }"
        ≡ refused F30 2 }
    ensures argument_not_in_scope { verdict
        "void w(int a) { } EXEC SQL WHENEVER SQLERROR CALL w(x); int main(void) {\nEXEC SQL COMMIT; { int x; EXEC SQL COMMIT; } }"
        ≡ refused F30 2 }
    ensures argument_in_scope { verdict
        "void w(int a) { } EXEC SQL WHENEVER SQLERROR CALL w(x); int main(void) { int x; EXEC SQL COMMIT; }"
        ≡ None }
    ensures hidden_function { verdict
        "void w(void) { } EXEC SQL WHENEVER SQLERROR CALL w(); int main(void) { int w;\nEXEC SQL COMMIT; }"
        ≡ refused F30 2 }
    ensures print_and_stop { verdict
        "EXEC SQL WHENEVER SQLERROR SQLPRINT; EXEC SQL WHENEVER NOT FOUND STOP; int main(void) { EXEC SQL COMMIT; }"
        ≡ None }
{}

/// F29: a directive is no body. An executed statement may be one.
pub fn directive_examples()
    ensures of_if { verdict_of "" "if (1)\nEXEC SQL WHENEVER SQLERROR STOP;" ≡ refused F29 2 }
    ensures of_else { verdict_of "" "if (1) ; else\nEXEC SQL INCLUDE sqlca;" ≡ refused F29 2 }
    ensures of_while { verdict_of "" "while (1)\nEXEC SQL WHENEVER SQLERROR STOP;" ≡ refused F29 2 }
    ensures of_do { verdict_of "" "do\nEXEC SQL WHENEVER SQLERROR STOP; while (1);"
        ≡ refused F29 2 }
    ensures of_for { verdict_of "" "for (;;)\nEXEC SQL DECLARE c CURSOR FOR s;" ≡ refused F29 2 }
    ensures of_a_label { verdict_of "" "l:\nEXEC SQL WHENEVER SQLERROR STOP;" ≡ refused F29 2 }
    ensures in_a_block { verdict_of "" "if (1) { EXEC SQL WHENEVER SQLERROR STOP; }" ≡ None }
    ensures statement { verdict_of "" "if (1) EXEC SQL COMMIT;" ≡ None }
{}

/// The variables of hosts are in scope and have the types that their suffixes need (F11, F14), and a VARCHAR is its struct.
pub fn check_examples()
    ensures undeclared { verdict_of "" "\nEXEC SQL SELECT :x;" ≡ refused F11 2 }
    ensures undeclared_index { verdict_of "EXEC SQL int x[2];" "\nEXEC SQL SELECT :x[i];"
        ≡ refused F11 2 }
    ensures undeclared_indicator { verdict_of "EXEC SQL int x;" "\nEXEC SQL SELECT a INTO :x :i;"
        ≡ refused F11 2 }
    ensures no_member { verdict_of "EXEC SQL struct { int a; } x;" "\nEXEC SQL SELECT :x.b;"
        ≡ refused F11 2 }
    ensures no_struct { verdict_of "EXEC SQL int x;" "\nEXEC SQL SELECT :x.b;" ≡ refused F14 2 }
    ensures no_array { verdict_of "EXEC SQL int x;" "\nEXEC SQL SELECT :x[1];" ≡ refused F14 2 }
    ensures pointer_as_index { verdict_of "EXEC SQL int x[2], *p;" "\nEXEC SQL SELECT :x[p];"
        ≡ refused F14 2 }
    ensures at_file_level { verdict "\nEXEC SQL DECLARE c CURSOR FOR SELECT :x; int main(void) { }"
        ≡ refused F11 2 }
    ensures no_main { verdict "EXEC SQL VARCHAR v[5];\n" ≡ refused F20 2 }
    ensures members_of_a_varchar { verdict_of "EXEC SQL VARCHAR v[5];" "v.len = 4; v.arr[0] = 'a';"
        ≡ None }
    ensures length_of_a_varchar { verdict_of "EXEC SQL VARCHAR v[5];"
        "int a[sizeof v.arr == 5 && sizeof v == 12];" ≡ None }
    ensures its_tag { verdict_of "EXEC SQL VARCHAR v[5];" "struct varchar_v *p = &v; p->len = 1;"
        ≡ None }
    ensures its_tag_in_its_scope { verdict_of "EXEC SQL VARCHAR v[5];"
        "{ EXEC SQL VARCHAR v[9]; struct varchar_v *p = &v; int a[sizeof p->arr == 9]; } { struct varchar_v *p = &v; int a[sizeof p->arr == 5]; }"
        ≡ None }
    ensures structs_of_their_own { verdict_of "EXEC SQL VARCHAR v[5], w[5];" "\nv = w;"
        ≡ refused F14 2 }
    ensures no_tag_of_a_member { verdict_of
        "EXEC SQL struct { VARCHAR v[5]; } x;" "\nstruct varchar_v *p;"
        ≡ refused F11 2 }
    ensures twice { verdict "EXEC SQL VARCHAR v[5];\nEXEC SQL VARCHAR v[6]; int main(void) { }"
        ≡ refused F10 2 }
    ensures too_large { verdict "EXEC SQL VARCHAR v[16777216]; int main(void) { }" ≡ limited L1 }
    ensures largest { verdict "EXEC SQL VARCHAR v[16777212]; int main(void) { }" ≡ None }
    ensures one_byte_too_many { verdict "EXEC SQL VARCHAR v[16777213]; int main(void) { }"
        ≡ limited L1 }
    ensures brackets { verdict_of "EXEC SQL VARCHAR v[3][5];" "v[2].len = sizeof v == 36;" ≡ None }
    ensures initializer { verdict "EXEC SQL VARCHAR v[5] = {2, \"ab\"}; int main(void) { }" ≡ None }
{}

/// L5: a struct host stands for at most 1,000 members.
pub fn member_examples()
    ensures most { checks_of
        "struct ten { int a, b, c, d, e, f, g, h, i, j; }; struct hundred { struct ten a, b, c, d, e, f, g, h, i, j; }; EXEC SQL struct { struct hundred a, b, c, d, e, f, g, h, i; struct ten j, k, l, m, n, o, p, q, r, s; } x;"
        "EXEC SQL SELECT a INTO :x;"
        ≡ None }
    ensures one_more { verdict_of
        "struct ten { int a, b, c, d, e, f, g, h, i, j; }; struct hundred { struct ten a, b, c, d, e, f, g, h, i, j; }; EXEC SQL struct { struct hundred a, b, c, d, e, f, g, h, i, j; int k; } x;"
        "\nEXEC SQL SELECT a INTO :x;"
        ≡ limited L5 }
    ensures in_an_array { verdict_of
        "struct ten { int a, b, c, d, e, f, g, h, i, j; }; struct hundred { struct ten a, b, c, d, e, f, g, h, i, j; }; EXEC SQL struct { struct hundred a, b, c, d, e, f, g, h, i, j; int k; } x[2];"
        "\nEXEC SQL SELECT a INTO :x;"
        ≡ limited L5 }
    ensures fault_first { verdict_of
        "struct ten { int a, b, c, d, e, f, g, h, i, j; }; struct hundred { struct ten a, b, c, d, e, f, g, h, i, j; }; EXEC SQL struct { struct hundred a, b, c, d, e, f, g, h, i, j; int k; } x;"
        "\nEXEC SQL SELECT a INTO :x, :y;"
        ≡ refused F11 2 }
    ensures elements_do_not_count { verdict_of "EXEC SQL int x[2000];" "EXEC SQL SELECT a INTO :x;"
        ≡ None }
{}
