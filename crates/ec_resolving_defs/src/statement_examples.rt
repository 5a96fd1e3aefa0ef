//! Resolved forms of statements, declarations and programs, as the contracts of functions that do nothing.
#![tactic(auto, unfolding(crate::specs::Expressions::library_literal, crate::specs::Initializers::stored_at, crate::specs::Storage::arrange, crate::specs::Storage::ask, crate::specs::Storage::chain, crate::specs::Storage::checks, crate::specs::Storage::pure, crate::specs::Storage::stored, ec_typing_defs::specs::Embedded::denote, ec_typing_defs::specs::Embedded::members_rule, ec_typing_defs::specs::Embedded::reference_rule, ec_typing_defs::specs::Expressions::begin_struct, ec_typing_defs::specs::Expressions::end_struct, ec_typing_defs::specs::Expressions::member_named, ec_typing_defs::specs::Expressions::tag_rule, ec_typing_defs::specs::Expressions::tagged_struct, ec_typing_defs::specs::Expressions::type_or_fault, ec_typing_defs::specs::Expressions::varchar_member, ec_typing_defs::specs::Expressions::varchar_object, ec_typing_defs::specs::Expressions::varchar_struct, ec_typing_defs::specs::Initializers::braces_rule, ec_typing_defs::specs::Initializers::fixed_rule, ec_typing_defs::specs::Initializers::part_rule, ec_typing_defs::specs::Initializers::slot_rule, ec_typing_defs::specs::Initializers::suits_rule, ec_typing_defs::specs::Operands::address_rule, ec_typing_defs::specs::Operands::arrow_rule, ec_typing_defs::specs::Operands::assign_rule, ec_typing_defs::specs::Operands::binary_rule, ec_typing_defs::specs::Operands::bump_rule, ec_typing_defs::specs::Operands::call_by, ec_typing_defs::specs::Operands::call_rule, ec_typing_defs::specs::Operands::cast_rule, ec_typing_defs::specs::Operands::complete_rule, ec_typing_defs::specs::Operands::compound_rule, ec_typing_defs::specs::Operands::index_rule, ec_typing_defs::specs::Operands::length_rule, ec_typing_defs::specs::Operands::member_rule, ec_typing_defs::specs::Operands::name_rule, ec_typing_defs::specs::Operands::named_by, ec_typing_defs::specs::Operands::scalar_cast, ec_typing_defs::specs::Operands::sign_rule, ec_typing_defs::specs::Operands::size_rule, ec_typing_defs::specs::Operands::target_rule, ec_typing_defs::specs::Operands::typed, ec_typing_defs::specs::Operands::value_rule, ec_typing_defs::specs::Operands::within_rule, ec_typing_defs::specs::Programs::begin_function, ec_typing_defs::specs::Programs::know_function, ec_typing_defs::specs::Programs::main_rule, ec_typing_defs::specs::Programs::plain_param, ec_typing_defs::specs::Programs::result_rule, ec_typing_defs::specs::Statements::condition_rule, ec_typing_defs::specs::Statements::object_rule, ec_typing_defs::specs::Statements::return_nothing, ec_typing_defs::specs::Statements::return_rule, ec_typing_defs::specs::Statements::tag_alone, ec_typing_defs::specs::Worlds::ask, ec_typing_defs::specs::Worlds::chain, ec_typing_defs::specs::Worlds::change, ec_typing_defs::specs::Worlds::declare, ec_typing_defs::specs::Worlds::declare_label, ec_typing_defs::specs::Worlds::demand, ec_typing_defs::specs::Worlds::enter, ec_typing_defs::specs::Worlds::free_name, ec_typing_defs::specs::Worlds::free_tag, ec_typing_defs::specs::Worlds::instead, ec_typing_defs::specs::Worlds::keep_within, ec_typing_defs::specs::Worlds::know_better, ec_typing_defs::specs::Worlds::leave, ec_typing_defs::specs::Worlds::new_struct, ec_typing_defs::specs::Worlds::note, ec_typing_defs::specs::Worlds::number_as, ec_typing_defs::specs::Worlds::place, ec_typing_defs::specs::Worlds::pure, ec_typing_defs::specs::Worlds::set_struct))]

ghost use Rattle.std.specs.Prelude.{◌≡◌, pos, true, false, [], ◌∷◌, Some, None, codes};
ghost use Rattle.ec_ctypes.specs.declared.types.arith.Arith.TheVariants.{Short, Int};
ghost use Rattle.ec_ctypes.specs.declared.checked.library.LibName.TheVariants as name;
ghost use Rattle.ec_ctypes.specs.declared.checked.library.Sym.TheVariants as sym;
ghost use Rattle.ec_arguments.specs.Arguments.{symbol, literal as literal_arg, null, int_constant, long_constant, pointer as pointer_arg};
ghost use Rattle.ec_meaning_defs.specs.functions.Functions.{puts};
ghost use Rattle.ec_memory_defs.specs.Memory.{number, pointer_to, little_endian_bytes};
ghost use Rattle.ec_meaning_defs.specs.resolved.Operations.{plus, integers, pointer_plus};
ghost use Rattle.ec_meaning_defs.specs.resolved.Resolved.{object, slot, member, load, whole, store, copy, put, convert, operate, call, known, named, on_line, nothing, evaluate, declare, initialize, block, choose, loop, leave, next, return, goto, label, embedded_statement, library_call, faulty};
ghost use Rattle.ec_meaning_defs.specs.evaluation.State.{stuck};
ghost use Rattle.ec_meaning_defs.specs.evaluation.Examples.{int, char, short, bool, lit, get, set, is_less, bump, read_as, args, all, at, does};
ghost use Rattle.ec_ctypes.specs.trees.Types.{arithmetic};
ghost use Rattle.ec_resolving_defs.specs.Storage.{jumps, stops, calls_function, no_actions};
ghost use Rattle.ec_resolving_defs.specs.Statements.{together};
ghost use Rattle.ec_resolving_defs.specs.Programs.{stuck_program};
ghost use Rattle.ec_resolving_defs.specs.Examples.{statements_of, body_in, sizes_in, parameters_in, at_end, globals_in_text, literals_in_text, shape_of, called_in, written_main, statements_with, embedded, last_form, handled, resolved, shows, cl, literal, i, c, l, h, p, x, r, long, ulong, pointer, as_read};

/// Statements (6.8), each on its line.
pub fn statement_forms()
    ensures expression { statements_of "i = 1;"
        ≡ on_line 1 (evaluate (set i (lit 1))) ∷ [] }
    ensures empty { statements_of ";"
        ≡ on_line 1 (nothing) ∷ [] }
    ensures lines { statements_of "\ni = 1;\n\n;"
        ≡ on_line 2 (evaluate (set i (lit 1))) ∷ on_line 4 nothing ∷ [] }
    ensures if_alone { statements_of "if (p) i = 1;"
        ≡ on_line 1 (choose (load pointer p) (at 1 (set i (lit 1))) nothing) ∷ [] }
    ensures if_else { statements_of "if (c) ; else i = 1;"
        ≡ on_line 1 (choose (load char c) (on_line 1 nothing) (at 1 (set i (lit 1)))) ∷ [] }
    ensures while_loop { statements_of "while (i) break;"
        ≡ on_line 1 (loop true (Some (get i)) None (on_line 1 leave)) ∷ [] }
    ensures do_loop { statements_of "do continue; while (i);"
        ≡ on_line 1 (loop false (Some (get i)) None (on_line 1 next)) ∷ [] }
    ensures for_loop { statements_of "for (i = 0; i < 3; i++) ;"
        ≡ on_line 1
        (together (does (set i (lit 0)) ∷ loop true (Some (is_less (get i) (lit 3)))
        (Some (bump int int (integers Int plus) true i)) (on_line 1 nothing) ∷ [])) ∷ [] }
    ensures for_ever { statements_of "for (;;) ;"
        ≡ on_line 1 (loop true None None (on_line 1 nothing)) ∷ [] }
    ensures calls_in_parts_are_not_used { statements_of "for (f(c, l); f(c, l); (void)f(c, l)) ;"
        ≡ on_line 1
        (together (does (call 0 false cl) ∷ loop true (Some (call 0 true cl))
        (Some (call 0 false cl)) (on_line 1 nothing) ∷ [])) ∷ [] }
    ensures labels_by_their_order { statements_of "goto b; a: goto a; { b: ; }"
        ≡ on_line 1 (goto 1) ∷ on_line 1 (label (named 0) (on_line 1 (goto 0)))
        ∷ on_line 1 (block [] (all (on_line 1 (label (named 1) (on_line 1 nothing)) ∷ []))) ∷ [] }
    ensures return_converts { body_in 0 "long f(char c) { return c; } int main(void) { }"
        ≡ on_line 1 (return (Some (as_read char long (slot 0)))) ∷ [] }
    ensures return_nothing { body_in 0 "void f(void) { return; } int main(void) { }"
        ≡ on_line 1 (return None) ∷ [] }
    ensures return_of_main { statements_of "return l;"
        ≡ on_line 1 (return (Some (as_read long int l))) ∷ [] }
    ensures whole_struct { statements_of "*r;"
        ≡ on_line 1 (evaluate (whole 16 (load pointer r))) ∷ [] }
{}

/// Declarations in blocks: where the objects are, and what is made of one that is reached.
pub fn declaration_forms()
    ensures unset { statements_of "int j;"
        ≡ on_line 1 (declare 0 4) ∷ [] }
    ensures several { statements_of "int j = 1, *k, m[2];"
        ≡ on_line 1 (together
        (initialize 0 4 (args (set (slot 0) (lit 1) ∷ [])) ∷ declare 1 8 ∷ declare 2 8 ∷ [])) ∷ [] }
    ensures struct_alone { statements_of "struct z { int m; };"
        ≡ on_line 1 (nothing) ∷ [] }
    ensures sizes_of_the_body { sizes_in 0
        "int main(void) { char j; struct z { char a; long b; } k[2]; { int m; } short n; }"
        ≡ 1 ∷ 32 ∷ 2 ∷ [] }
    ensures slots_of_inner_blocks { statements_of
        "int j; { int k; k = j; } int m; { int k; k = m; }"
        ≡ on_line 1 (declare 0 4)
        ∷ on_line 1
        (block (4 ∷ []) (all (on_line 1 (declare 2 4) ∷ at 1 (set (slot 2) (get (slot 0))) ∷ [])))
        ∷ on_line 1 (declare 1 4)
        ∷ on_line 1 (block (4 ∷ [])
        (all (on_line 1 (declare 2 4) ∷ at 1 (set (slot 2) (get (slot 1))) ∷ []))) ∷ [] }
    ensures hidden_and_back { statements_of "int i; { char i; i; } i;"
        ≡ on_line 1 (declare 0 4)
        ∷ on_line 1
        (block (1 ∷ []) (all (on_line 1 (declare 1 1) ∷ at 1 (load char (slot 1)) ∷ [])))
        ∷ at 1 (get (slot 0)) ∷ [] }
    ensures its_own_name { statements_of "int i = i;"
        ≡ on_line 1 (initialize 0 4 (args (set (slot 0) (get (slot 0)) ∷ []))) ∷ [] }
    ensures its_own_size { statements_of "int j = sizeof j;"
        ≡ on_line 1 (initialize 0 4 (args (set (slot 0) (convert ulong int (lit 4)) ∷ []))) ∷ [] }
    ensures for_with_a_declaration { statements_of "for (int j = 0; j; ) ;"
        ≡ on_line 1
        (block (4 ∷ [])
        (all (on_line 1 (initialize 0 4 (args (set (slot 0) (lit 0) ∷ [])))
        ∷ on_line 1 (loop true (Some (get (slot 0))) None (on_line 1 nothing)) ∷ []))) ∷ [] }
    ensures parameters_first { body_in 0
        "int f(char a, long b) { int c; c = a; return b; } int main(void) { }"
        ≡ on_line 1 (declare 2 4) ∷ at 1 (set (slot 2) (read_as char (slot 0)))
        ∷ on_line 1 (return (Some (as_read long int (slot 1)))) ∷ [] }
    ensures behind_a_prototype { body_in 0
        "int f(int a, int b); int g(int c); int g(int c) { return c; } int f(int a, int b) { int d; return d; } int main(void) { }"
        ≡ on_line 1 (return (Some (get (slot 0)))) ∷ [] }
{}

/// Initializers of objects in blocks (6.7.8): what is stored where, in order.
pub fn initializer_forms()
    ensures scalar { statements_of "char j = 300;"
        ≡ on_line 1 (initialize 0 1 (args (store char (slot 0) (convert int char (lit 300)) ∷ [])))
        ∷ [] }
    ensures in_braces { statements_of "int j = {3};"
        ≡ on_line 1 (initialize 0 4 (args (set (slot 0) (lit 3) ∷ []))) ∷ [] }
    ensures array { statements_of "short j[3] = {1, i};"
        ≡ on_line 1
        (initialize 0 6
        (args (store short (slot 0) (convert int short (lit 1))
        ∷ store short (member 2 (slot 0)) (convert int short (get i)) ∷ []))) ∷ [] }
    ensures length_by_its_list { statements_of "int j[] = {1, 2, 3}; sizeof j;"
        ≡ on_line 1
        (initialize 0 12
        (args (set (slot 0) (lit 1) ∷ set (member 4 (slot 0)) (lit 2)
        ∷ set (member 8 (slot 0)) (lit 3) ∷ []))) ∷ at 1 (lit 12) ∷ [] }
    ensures rows_of_an_array { statements_of "char j[2][3] = {{1}, 2, 3};"
        ≡ on_line 1
        (initialize 0 6
        (args (store char (slot 0) (convert int char (lit 1))
        ∷ store char (member 3 (slot 0)) (convert int char (lit 2))
        ∷ store char (member 4 (slot 0)) (convert int char (lit 3)) ∷ []))) ∷ [] }
    ensures struct_list { statements_of "struct s j = {'a', 5, {6, 7}};"
        ≡ on_line 1
        (initialize 0 16
        (args (store char (slot 0) (convert int char (lit 97)) ∷ set (member 4 (slot 0)) (lit 5)
        ∷ set (member 8 (slot 0)) (lit 6) ∷ set (member 12 (slot 0)) (lit 7) ∷ []))) ∷ [] }
    ensures without_inner_braces { statements_of "struct s j[2] = {1, 2, 3, 4, 5, 6};"
        ≡ on_line 1
        (initialize 0 32
        (args (store char (slot 0) (convert int char (lit 1)) ∷ set (member 4 (slot 0)) (lit 2)
        ∷ set (member 8 (slot 0)) (lit 3) ∷ set (member 12 (slot 0)) (lit 4)
        ∷ store char (member 16 (slot 0)) (convert int char (lit 5))
        ∷ set (member 20 (slot 0)) (lit 6) ∷ []))) ∷ [] }
    ensures inner_braces_leave_the_rest { statements_of "struct s j[2] = {{1}, 2, 3};"
        ≡ on_line 1
        (initialize 0 32
        (args (store char (slot 0) (convert int char (lit 1)) ∷ store char (member 16 (slot 0))
        (convert int char (lit 2)) ∷ set (member 20 (slot 0)) (lit 3) ∷ []))) ∷ [] }
    ensures struct_by_a_struct { statements_of "struct s j = *r;"
        ≡ on_line 1 (initialize 0 16 (args (copy 16 (slot 0) (load pointer r) ∷ []))) ∷ [] }
    ensures struct_in_a_list { statements_of "struct s j[2] = {x, 4};"
        ≡ on_line 1
        (initialize 0 32
        (args (copy 16 (slot 0) x
        ∷ store char (member 16 (slot 0)) (convert int char (lit 4)) ∷ []))) ∷ [] }
    ensures text { statements_of "char j[] = \"ab\"; puts(\"c\");"
        ≡ on_line 1 (initialize 0 3 (args (put (codes "ab") (slot 0) ∷ [])))
        ∷ at 1 (known puts (args (literal ∷ []))) ∷ [] }
    ensures text_without_its_zero { statements_of "char j[2] = \"ab\";"
        ≡ on_line 1 (initialize 0 2 (args (put (codes "ab") (slot 0) ∷ []))) ∷ [] }
    ensures text_in_braces { statements_of "unsigned char j[4] = {\"ab\"};"
        ≡ on_line 1 (initialize 0 4 (args (put (codes "ab") (slot 0) ∷ []))) ∷ [] }
    ensures texts_in_rows { statements_of "char j[2][3] = {\"a\", \"bc\"};"
        ≡ on_line 1 (initialize 0 6
        (args (put (codes "a") (slot 0) ∷ put (codes "bc") (member 3 (slot 0)) ∷ []))) ∷ [] }
    ensures text_in_a_struct { statements_of "struct { int k; char t[3]; } j = {1, \"a\"};"
        ≡ on_line 1 (initialize 0 8
        (args (set (slot 0) (lit 1) ∷ put (codes "a") (member 4 (slot 0)) ∷ []))) ∷ [] }
    ensures literals_behind_pointers { statements_of "char *j[2] = {\"a\", \"b\"};"
        ≡ on_line 1
        (initialize 0 16
        (args (store pointer (slot 0) literal
        ∷ store pointer (member 8 (slot 0)) (object 20) ∷ []))) ∷ [] }
    ensures trailing_comma_and_braces { statements_of "int j[2][2] = {{1, 2}, {3, },};"
        ≡ on_line 1
        (initialize 0 16
        (args (set (slot 0) (lit 1) ∷ set (member 4 (slot 0)) (lit 2)
        ∷ set (member 8 (slot 0)) (lit 3) ∷ []))) ∷ [] }
    ensures padding_before_a_struct { statements_of
        "struct { char k; struct { long m; } n; char o; } j = {1, 2, 3};"
        ≡ on_line 1
        (initialize 0 24
        (args (store char (slot 0) (convert int char (lit 1))
        ∷ store long (member 8 (slot 0)) (convert int long (lit 2))
        ∷ store char (member 16 (slot 0)) (convert int char (lit 3)) ∷ []))) ∷ [] }
{}

/// Globals with their bytes, and the literals that make an object.
pub fn global_forms()
    ensures zeros { globals_in_text "int k; char m[3]; int main(void) { }"
        ≡ record { size = 4; values = [] } ∷ record { size = 3; values = [] } ∷ [] }
    ensures little_endian { globals_in_text "short k = -2; int main(void) { }"
        ≡ record { size = 2; values = (0, 254 ∷ 255 ∷ []) ∷ [] } ∷ [] }
    ensures constant_expression { globals_in_text
        "unsigned char k = 1 + sizeof(long) * 2; int main(void) { }"
        ≡ record { size = 1; values = (0, 17 ∷ []) ∷ [] } ∷ [] }
    ensures wrapped_and_bool { globals_in_text "char k = 300; bool m = 5; int main(void) { }"
        ≡ record { size = 1; values = (0, 44 ∷ []) ∷ [] }
        ∷ record { size = 1; values = (0, 1 ∷ []) ∷ [] } ∷ [] }
    ensures address_of_a_global { globals_in_text "int k; int *m = &k; int main(void) { }"
        ≡ record { size = 4; values = [] }
        ∷ record { size = 8; values = (0, little_endian_bytes 8 (pointer_to 2 0)) ∷ [] } ∷ [] }
    ensures address_of_itself { globals_in_text "int k; void *m = &m; int main(void) { }"
        ≡ record { size = 4; values = [] }
        ∷ record { size = 8; values = (0, little_endian_bytes 8 (pointer_to 3 0)) ∷ [] } ∷ [] }
    ensures name_of_an_array { globals_in_text "int k[2]; int *m = k; int main(void) { }"
        ≡ record { size = 8; values = [] }
        ∷ record { size = 8; values = (0, little_endian_bytes 8 (pointer_to 2 0)) ∷ [] } ∷ [] }
    ensures literals_behind_all_globals { globals_in_text
        "char *k[2] = {\"a\", \"b\"}; int m; int main(void) { }"
        ≡ record {
          size = 16;
          values = (0, little_endian_bytes 8 (pointer_to 4 0)) ∷
              (8, little_endian_bytes 8 (pointer_to 5 0)) ∷ [];
        } ∷ record { size = 4; values = [] } ∷ [] }
    ensures null { globals_in_text "int *k = NULL, *m = 0; int main(void) { }"
        ≡ record { size = 8; values = (0, little_endian_bytes 8 0) ∷ [] }
        ∷ record { size = 8; values = (0, little_endian_bytes 8 0) ∷ [] } ∷ [] }
    ensures text_global { globals_in_text "char k[4] = \"ab\"; int main(void) { }"
        ≡ record { size = 4; values = (0, codes "ab") ∷ [] } ∷ [] }
    ensures members { globals_in_text
        "struct { char k; int m; } n[2] = {{1, 2}, 3}; int main(void) { }"
        ≡ record { size = 16; values = (0, 1 ∷ []) ∷ (4, 2 ∷ 0 ∷ 0 ∷ 0 ∷ []) ∷ (8, 3 ∷ []) ∷ [] }
        ∷ [] }
    ensures literals { literals_in_text
        "char *k = \"a\"; char m[] = \"b\"; int main(void) { char n[2] = \"c\"; printf(\"d\"); sizeof \"e\"; }"
        ≡ (97 ∷ []) ∷ (100 ∷ []) ∷ (101 ∷ []) ∷ [] }
{}

/// Functions, embedded statements, calls of the library, and programs with a fault.
pub fn program_forms()
    ensures functions_by_their_definitions { shape_of
        "int g(void); int f(void) { return g(); } int g(void) { return 1; } int main(void) { }"
        ≡ (3, 2) }
    ensures number_of_a_later_function { body_in 0
        "int g(void); int f(void) { return g(); } int g(void) { return 1; } int main(void) { }"
        ≡ on_line 1 (return (Some (call 1 true (args [])))) ∷ [] }
    ensures parameters { parameters_in 0
        "void f(bool a, char b, int c[3], struct s { int m; } *d) { } int main(void) { }"
        ≡ bool ∷ char ∷ pointer ∷ pointer ∷ [] }
    ensures main_has_a_value_at_its_end { at_end 0 "int main(void) { }"
        ≡ Some (number (pos 0)) }
    ensures others_have_none { at_end 0 "int f(void) { } int main(void) { }"
        ≡ None }
    ensures stuck_by_a_fault { resolved "int main(void) { return x; }"
        ≡ stuck_program }
    ensures stuck_where_nothing_reaches { resolved
        "void f(void) { x; } int main(void) { return 0; }"
        ≡ stuck_program }
    ensures stuck_without_main { resolved "int f(void) { return 0; }"
        ≡ stuck_program }
    ensures a_stuck_run { shows 9 "int main(void) { puts(\"a\"); return x; }"
        ≡ ([], stuck) }
    ensures embedded_by_their_numbers { statements_with embedded
        "EXEC SQL INCLUDE sqlca; EXEC SQL COMMIT; i; EXEC SQL WHENEVER SQLERROR STOP; EXEC SQL ROLLBACK;"
        ≡ on_line 1 nothing ∷ on_line 1 (embedded_statement 1) ∷ at 1 (get i)
        ∷ on_line 1 nothing ∷ on_line 1 (embedded_statement 3) ∷ [] }
    ensures references_and_actions { last_form handled
        "EXEC SQL WHENEVER NOT FOUND GOTO e; EXEC SQL WHENEVER SQLERROR CALL f(c, l); EXEC SQL WHENEVER SQLWARNING STOP; EXEC SQL SELECT 1 INTO :i:h; e: ;"
        ≡ Some (record {
          number = 3;
          references =
              record { type = Some (arithmetic Int); place = i }
              ∷ record { type = Some (arithmetic Short); place = h } ∷ [];
          actions = record {
            none_found = jumps 0;
            warning = stops;
            error = calls_function (call 0 false cl);
          };
        }) }
    ensures names_where_the_statement_stands { last_form handled
        "EXEC SQL WHENEVER NOT FOUND GOTO e; EXEC SQL WHENEVER SQLERROR CALL f(c, l); EXEC SQL WHENEVER SQLWARNING STOP; e: ; { long c; EXEC SQL SELECT 1 INTO :i:h; }"
        ≡ Some (record {
          number = 3;
          references =
              record { type = Some (arithmetic Int); place = i }
              ∷ record { type = Some (arithmetic Short); place = h } ∷ [];
          actions =
              record {
                none_found = jumps 0;
                warning = stops;
                error = calls_function
                    (call 0 false
                    (args (convert long char (load long (slot 0)) ∷ load long l ∷ [])));
              };
        }) }
    ensures directives_have_no_actions { last_form handled
        "EXEC SQL WHENEVER NOT FOUND GOTO e; EXEC SQL WHENEVER SQLERROR CALL f(c, l); e: ;"
        ≡ Some (record { number = 1; references = []; actions = no_actions }) }
    ensures marks { statements_of
        "EXEC SQL BEGIN DECLARE SECTION; VARCHAR t[5]; EXEC SQL END DECLARE SECTION; t.len = 2; t.arr[0];"
        ≡ on_line 1 nothing ∷ on_line 1 (declare 0 12) ∷ on_line 1 nothing
        ∷ at 1 (set (member 0 (slot 0)) (lit 2))
        ∷ at 1 (load char (operate (pointer_plus 1) (member 4 (slot 0)) (lit 0))) ∷ [] }
    ensures library_call { called_in
        "int x; int main(void) { ECPGdo(3, NULL, ECPGst_normal, \"s\", ECPGt_EOIT, ECPGt_int, &x, 0L, 1L, 4L, ECPGt_NO_INDICATOR, NULL, 0L, 0L, 0L, ECPGt_EORT); puts(\"a\"); }"
        ≡ (
          (
            name.Do,
            int_constant 3 ∷ null ∷ symbol sym.StatementNormal ∷ literal_arg (codes "s")
                ∷ symbol sym.EndOfInputs ∷ symbol sym.Int ∷ pointer_arg (object 2) ∷ long_constant 0
                ∷ long_constant 1 ∷ long_constant 4 ∷ symbol sym.NoIndicator ∷ null
                ∷ long_constant 0
                ∷ long_constant 0 ∷ long_constant 0 ∷ symbol sym.EndOfOutputs ∷ [],
          ) ∷ [],
          (97 ∷ []) ∷ [],
        ) }
    ensures pointers_before_a_call { written_main
        "char *f(void) { return 0; } int main(void) { ECPGtrans(3, f(), \"commit\"); }"
        ≡ at 1 (library_call 0 (args (call 0 true (args []) ∷ []))) ∷ [] }
    ensures left_of_such_a_call { called_in
        "char *f(void) { return 0; } int main(void) { ECPGtrans(3, f(), \"commit\"); }"
        ≡ (
          (
            name.Trans,
            int_constant 3 ∷ pointer_arg faulty ∷ literal_arg (codes "commit") ∷ [],
          ) ∷ [],
          [],
        ) }
{}
