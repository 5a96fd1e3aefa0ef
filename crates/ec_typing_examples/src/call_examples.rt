//! Calls, formats and jumps, as the contracts of functions that do nothing.
#![tactic(auto, unfolding(ec_typing_defs::specs::Expressions::type_or_fault, ec_typing_defs::specs::Expressions::tag_rule, ec_typing_defs::specs::Expressions::tagged_struct, ec_typing_defs::specs::Expressions::begin_struct, ec_typing_defs::specs::Expressions::end_struct, ec_typing_defs::specs::Expressions::member_named, ec_typing_defs::specs::Initializers::fixed_rule, ec_typing_defs::specs::Initializers::suits_rule, ec_typing_defs::specs::Initializers::part_rule, ec_typing_defs::specs::Initializers::slot_rule, ec_typing_defs::specs::Initializers::braces_rule, ec_typing_defs::specs::Operands::typed, ec_typing_defs::specs::Operands::named_by, ec_typing_defs::specs::Operands::name_rule, ec_typing_defs::specs::Operands::value_rule, ec_typing_defs::specs::Operands::address_rule, ec_typing_defs::specs::Operands::target_rule, ec_typing_defs::specs::Operands::sign_rule, ec_typing_defs::specs::Operands::binary_rule, ec_typing_defs::specs::Operands::index_rule, ec_typing_defs::specs::Operands::assign_rule, ec_typing_defs::specs::Operands::compound_rule, ec_typing_defs::specs::Operands::bump_rule, ec_typing_defs::specs::Operands::call_by, ec_typing_defs::specs::Operands::call_rule, ec_typing_defs::specs::Operands::member_rule, ec_typing_defs::specs::Operands::arrow_rule, ec_typing_defs::specs::Operands::scalar_cast, ec_typing_defs::specs::Operands::cast_rule, ec_typing_defs::specs::Operands::size_rule, ec_typing_defs::specs::Operands::length_rule, ec_typing_defs::specs::Operands::within_rule, ec_typing_defs::specs::Operands::complete_rule, ec_typing_defs::specs::Programs::result_rule, ec_typing_defs::specs::Programs::plain_param, ec_typing_defs::specs::Programs::begin_function, ec_typing_defs::specs::Programs::know_function, ec_typing_defs::specs::Programs::main_rule, ec_typing_defs::specs::Statements::object_rule, ec_typing_defs::specs::Statements::tag_alone, ec_typing_defs::specs::Statements::condition_rule, ec_typing_defs::specs::Statements::return_rule, ec_typing_defs::specs::Statements::return_nothing, ec_typing_defs::specs::Worlds::chain, ec_typing_defs::specs::Worlds::pure, ec_typing_defs::specs::Worlds::ask, ec_typing_defs::specs::Worlds::change, ec_typing_defs::specs::Worlds::note, ec_typing_defs::specs::Worlds::demand, ec_typing_defs::specs::Worlds::keep_within, ec_typing_defs::specs::Worlds::place, ec_typing_defs::specs::Worlds::enter, ec_typing_defs::specs::Worlds::leave, ec_typing_defs::specs::Worlds::free_name, ec_typing_defs::specs::Worlds::free_tag, ec_typing_defs::specs::Worlds::declare, ec_typing_defs::specs::Worlds::know_better, ec_typing_defs::specs::Worlds::declare_label, ec_typing_defs::specs::Worlds::number_as, ec_typing_defs::specs::Worlds::new_struct, ec_typing_defs::specs::Worlds::set_struct))]

ghost use Rattle.std.specs.Prelude.{◌≡◌};
ghost use Rattle.ec_base.specs.declared.fault.FaultKind.TheVariants.{F11, F14, F16, F17, F18, F20};
ghost use Rattle.ec_typing_defs.specs.Examples.{verdict, written_verdict, in_main, among_functions, among_written, storing_in, refused, fine};

/// F16, and F14 of arguments (6.5.2.2).
pub fn argument_examples()
    ensures calls { among_functions
        "f(1, \"x\"); g(); i = f('a', 0); f(l, NULL); f(f(1, c), v); main();"
        ≡ fine }
    ensures unknown { among_functions "k();" ≡ refused F16 1 }
    ensures object { among_functions "i();" ≡ refused F16 1 }
    ensures hidden_by_an_object { among_functions "int f; f(1, c);" ≡ refused F16 1 }
    ensures declared_alone { among_functions "h(1);" ≡ refused F16 1 }
    ensures defined_below { verdict
        "int f(void); int main(void) { return f(); } int f(void) { return 1; }"
        ≡ fine }
    ensures defined_below_and_not_declared { verdict
        "int main(void) { return f(); } int f(void) { return 1; }"
        ≡ refused F16 1 }
    ensures itself { verdict "int f(int n) { return f(n - 1); } int main(void) { }" ≡ fine }
    ensures fewer_arguments { among_functions "f(1);" ≡ refused F16 1 }
    ensures more_arguments { among_functions "g(1);" ≡ refused F16 1 }
    ensures argument_of_another_type { among_functions "f(c, c);" ≡ refused F14 1 }
    ensures null_argument { among_functions "f(1, 1);" ≡ refused F14 1 }
    ensures struct_argument { among_functions "f(x, c);" ≡ refused F14 1 }
    ensures void_argument { among_functions "f(g(), c);" ≡ refused F14 1 }
    ensures void_result_used { among_functions "i = g();" ≡ refused F14 1 }
    ensures no_name { among_functions "(f)(1, c);" ≡ refused F16 1 }
    ensures no_name_but_an_element { among_functions "c[0](1);" ≡ refused F16 1 }
    ensures no_name_but_a_call { among_functions "f(1, c)(2);" ≡ refused F16 1 }
    ensures unknown_in_parentheses { among_functions "(k)(1);" ≡ refused F16 1 }
    ensures name_in_what_is_called { among_functions "c[k](1);" ≡ refused F11 1 }
    ensures library_call { among_functions "ECPGdisconnect(1, \"x\");" ≡ refused F16 1 }
    ensures library_call_in_written_c { written_verdict
        "int main(void) {\nECPGdo(2, NULL, ECPGst_normal, \"SELECT\", ECPGt_EOIT, ECPGt_EORT);\nECPGt_int; }"
        ≡ refused F11 3 }
    ensures unknown_name_in_a_library_call { written_verdict
        "int main(void) { ECPGdo(1, NULL, k); }"
        ≡ refused F11 1 }
    ensures symbol_alone_in_written_c { written_verdict
        "int main(void) { ECPGt_int; }"
        ≡ refused F11 1 }
    ensures symbol_in_a_source { among_functions "ECPGdo(1, NULL, ECPGst_normal);" ≡ refused F11 1 }
    ensures known { among_functions
        "puts(c); putchar(i); i = strcmp(c, \"x\"); i = strncmp(c, c, 2); i = memcmp(&x, u, sizeof x); c = strcpy(c, c); c = strncpy(c, c, i); c = strcat(c, c); v = memcpy(&x, &i, 4); u = memset(v, 0, 1); exit(l); sqlprint();"
        ≡ fine }
    ensures unsigned_text { among_functions "strlen(u);" ≡ refused F14 1 }
    ensures unsigned_array_as_text { among_functions
        "unsigned char a[3]; puts(a);"
        ≡ refused F14 1 }
    ensures integer_as_memory { among_functions "memset(i, 0, 1);" ≡ refused F14 1 }
    ensures known_with_fewer { among_functions "strlen();" ≡ refused F16 1 }
    ensures known_with_more { among_functions "sqlprint(1);" ≡ refused F16 1 }
    ensures value_of_exit { among_functions "i = exit(1);" ≡ refused F14 1 }
{}

/// Calls of the library in written C: F16 for one that it doesn't take (PostgreSQL manual, chapter ECPG).
pub fn library_examples()
    ensures nothing_stored { among_written
        "ECPGdo(1, NULL, ECPGst_normal, \"x\", ECPGt_EOIT, ECPGt_EORT);"
        ≡ fine }
    ensures one_host { storing_in "ECPGt_int, &i, 0L, 1L, 4L" ≡ fine }
    ensures nine_values { storing_in "ECPGt_int, &i, 0L, 1L" ≡ refused F16 1 }
    ensures a_value_for_a_pointer { storing_in "ECPGt_int, i, 0L, 1L, 4L" ≡ refused F16 1 }
    ensures int_for_a_long { storing_in "ECPGt_int, &i, 0, 1L, 4L" ≡ refused F16 1 }
    ensures varchar_without_length { storing_in "ECPGt_varchar, &v, 0L, 1L, 12L" ≡ refused F16 1 }
    ensures varchar { storing_in "ECPGt_varchar, &v, 5L, 1L, 12L" ≡ fine }
    ensures texts { among_written
        "ECPGdisconnect(1, \"x\"); ECPGdisconnect(1, c); ECPGdisconnect(1, u); ECPGdisconnect(1, a);"
        ≡ fine }
    ensures no_name { among_written "ECPGdisconnect(1, NULL);" ≡ refused F16 1 }
    ensures pointer_to_no_text { among_written "ECPGdisconnect(1, &i);" ≡ refused F16 1 }
    ensures switches { among_written
        "ECPGsetcommit(1, \"on\", NULL); ECPGsetcommit(1, \"off\", c);"
        ≡ fine }
    ensures no_switch { among_written "ECPGsetcommit(1, \"yes\", NULL);" ≡ refused F16 1 }
    ensures long_line { among_written "ECPGdisconnect(1L, c);" ≡ refused F16 1 }
    ensures no_arguments { among_written "ECPGdo();" ≡ refused F16 1 }
    ensures more_behind { among_written "ECPGdisconnect(1, c, c);" ≡ refused F16 1 }
    ensures symbol_for_a_text { among_written "ECPGdisconnect(1, ECPGt_int);" ≡ refused F16 1 }
    ensures value_of_a_call { among_written "i = ECPGdisconnect(1, c);" ≡ refused F14 1 }
    ensures other_name { among_written "ECPGnothing(1, c);" ≡ refused F16 1 }
{}

/// F17, and what comes before a format (7.19.6.1).
pub fn format_examples()
    ensures plain { among_functions "printf(\"\"); i = printf(\"100%%\\n\");" ≡ fine }
    ensures integers { among_functions
        "printf(\"%d %i %u %x %X %o\", i, 'a', 1U, true, u[0], (short)1);"
        ≡ fine }
    ensures long_integers { among_functions
        "printf(\"%ld %lu %lld %llx\", l, 1UL, 1LL, sizeof x);"
        ≡ fine }
    ensures character_and_text { among_functions "printf(\"%c%s%s%s\", *c, c, u, \"x\");" ≡ fine }
    ensures flags_and_width { among_functions
        "printf(\"%-05d|%0-0d|%*d|%999s|%-*s\", i, i, i, i, c, i, c);"
        ≡ fine }
    ensures precision { among_functions
        "printf(\"%.3s%.*s%5.0s%*.*s%.12345s\", c, i, c, c, i, i, c, c);"
        ≡ fine }
    ensures stream { among_functions "fprintf(stdout, \"%d\", i); fprintf(stderr, \"x\");" ≡ fine }
    ensures long_for_int { among_functions "printf(\"%d\", l);" ≡ refused F17 1 }
    ensures int_for_long { among_functions "printf(\"%ld\", i);" ≡ refused F17 1 }
    ensures pointer_for_int { among_functions "printf(\"%d\", c);" ≡ refused F17 1 }
    ensures unsigned_for_character { among_functions "printf(\"%c\", 1U);" ≡ refused F17 1 }
    ensures int_for_text { among_functions "printf(\"%s\", i);" ≡ refused F17 1 }
    ensures null_for_text { among_functions "printf(\"%s\", NULL);" ≡ refused F17 1 }
    ensures int_array_for_text { among_functions "int a[2]; printf(\"%s\", a);" ≡ refused F17 1 }
    ensures struct_argument { among_functions "printf(\"%d\", x);" ≡ refused F17 1 }
    ensures fewer_arguments { among_functions "printf(\"%d\");" ≡ refused F17 1 }
    ensures more_arguments { among_functions "printf(\"x\", 1);" ≡ refused F17 1 }
    ensures long_for_star { among_functions "printf(\"%*d\", l, i);" ≡ refused F17 1 }
    ensures width_of_four_digits { among_functions "printf(\"%1000d\", i);" ≡ refused F17 1 }
    ensures zeros_are_flags { among_functions "printf(\"%0000999d\", i);" ≡ fine }
    ensures point_alone { among_functions "printf(\"%.s\", c);" ≡ refused F17 1 }
    ensures precision_of_an_integer { among_functions "printf(\"%.3d\", i);" ≡ refused F17 1 }
    ensures long_text { among_functions "printf(\"%ls\", c);" ≡ refused F17 1 }
    ensures long_long_long { among_functions "printf(\"%llld\", l);" ≡ refused F17 1 }
    ensures other_flag { among_functions "printf(\"%+d\", i);" ≡ refused F17 1 }
    ensures other_letter { among_functions "printf(\"%p\", c);" ≡ refused F17 1 }
    ensures flagged_percent { among_functions "printf(\"%-%\");" ≡ refused F17 1 }
    ensures percent_at_the_end { among_functions "printf(\"x%\");" ≡ refused F17 1 }
    ensures zero_byte_ends_it { among_functions "printf(\"%d\\0%s\", i);" ≡ fine }
    ensures zero_byte_in_a_conversion { among_functions "printf(\"%\\0d\", i);" ≡ refused F17 1 }
    ensures no_literal { among_functions "printf(c);" ≡ refused F17 1 }
    ensures literal_in_parentheses { among_functions "printf((\"%d\"), i);" ≡ fine }
    ensures joined_literals { among_functions "printf(\"%\" \"d\", i);" ≡ fine }
    ensures no_format { among_functions "printf();" ≡ refused F16 1 }
    ensures stream_alone { among_functions "fprintf(stdout);" ≡ refused F16 1 }
    ensures other_stream { among_functions "fprintf(c, \"x\");" ≡ refused F14 1 }
    ensures stream_of_printf { among_functions "printf(stdout, \"x\");" ≡ refused F11 1 }
    ensures unknown_argument { among_functions "printf(\"%s\", k);" ≡ refused F11 1 }
    ensures stream_as_an_argument { among_functions
        "fprintf(stdout, \"%d\", stderr);"
        ≡ refused F11 1 }
{}

/// F18 (6.8.6), and F20 (5.1.2.2.1).
pub fn jump_examples()
    ensures goto_nowhere { verdict "int f(void) { goto z; }" ≡ refused F18 1 }
    ensures goto_up_and_down { in_main "a: goto b; b: goto a;" ≡ fine }
    ensures goto_into_a_block { in_main "goto l; { while (0) l: ; }" ≡ fine }
    ensures goto_another_function { verdict
        "int f(void) {\ngoto l; } int main(void) { l: ; }"
        ≡ refused F18 2 }
    ensures label_of_the_function_before { verdict
        "void f(void) { l: ; } int main(void) {\ngoto l; }"
        ≡ refused F18 2 }
    ensures labels_everywhere { in_main
        "goto a; goto b; goto c; goto d; goto e; if (1) a: ; else b: ; for (;;) c: ; do d: ; while (0); f: e: ;"
        ≡ fine }
    ensures break_outside { in_main "break;" ≡ refused F18 1 }
    ensures continue_outside { in_main "{ continue; }" ≡ refused F18 1 }
    ensures in_loops { in_main
        "while (1) { if (1) break; else continue; } do break; while (1); for (;;) continue;"
        ≡ fine }
    ensures behind_a_loop { in_main "while (1) ;\nbreak;" ≡ refused F18 2 }
    ensures in_if { in_main "if (1)\nbreak;" ≡ refused F18 2 }
    ensures no_main { verdict "int x;\nint f(void) { return 0; }" ≡ refused F20 2 }
    ensures empty { verdict "" ≡ refused F20 1 }
    ensures main_declared_alone { verdict "int main(void);" ≡ refused F20 1 }
    ensures main_with_parameters { verdict "int main(int a) { }" ≡ refused F20 1 }
    ensures void_main { verdict "void main(void) { }" ≡ refused F20 1 }
    ensures main_of_pointer { verdict "int *main(void) { }" ≡ refused F20 1 }
    ensures main_as_an_object { verdict "int main;" ≡ refused F20 1 }
    ensures signed_main { verdict "signed main() { }" ≡ fine }
{}
