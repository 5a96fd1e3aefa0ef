//! Whole runs: a text is read, resolved and run; what it prints, and how it ends.
#![tactic(auto, unfolding(crate::specs::Expressions::library_literal, crate::specs::Initializers::stored_at, crate::specs::Storage::arrange, crate::specs::Storage::ask, crate::specs::Storage::chain, crate::specs::Storage::checks, crate::specs::Storage::pure, crate::specs::Storage::stored, ec_typing_defs::specs::Embedded::denote, ec_typing_defs::specs::Embedded::members_rule, ec_typing_defs::specs::Embedded::reference_rule, ec_typing_defs::specs::Expressions::begin_struct, ec_typing_defs::specs::Expressions::end_struct, ec_typing_defs::specs::Expressions::member_named, ec_typing_defs::specs::Expressions::tag_rule, ec_typing_defs::specs::Expressions::tagged_struct, ec_typing_defs::specs::Expressions::type_or_fault, ec_typing_defs::specs::Expressions::varchar_member, ec_typing_defs::specs::Expressions::varchar_object, ec_typing_defs::specs::Expressions::varchar_struct, ec_typing_defs::specs::Initializers::braces_rule, ec_typing_defs::specs::Initializers::fixed_rule, ec_typing_defs::specs::Initializers::part_rule, ec_typing_defs::specs::Initializers::slot_rule, ec_typing_defs::specs::Initializers::suits_rule, ec_typing_defs::specs::Operands::address_rule, ec_typing_defs::specs::Operands::arrow_rule, ec_typing_defs::specs::Operands::assign_rule, ec_typing_defs::specs::Operands::binary_rule, ec_typing_defs::specs::Operands::bump_rule, ec_typing_defs::specs::Operands::call_by, ec_typing_defs::specs::Operands::call_rule, ec_typing_defs::specs::Operands::cast_rule, ec_typing_defs::specs::Operands::complete_rule, ec_typing_defs::specs::Operands::compound_rule, ec_typing_defs::specs::Operands::index_rule, ec_typing_defs::specs::Operands::length_rule, ec_typing_defs::specs::Operands::member_rule, ec_typing_defs::specs::Operands::name_rule, ec_typing_defs::specs::Operands::named_by, ec_typing_defs::specs::Operands::scalar_cast, ec_typing_defs::specs::Operands::sign_rule, ec_typing_defs::specs::Operands::size_rule, ec_typing_defs::specs::Operands::target_rule, ec_typing_defs::specs::Operands::typed, ec_typing_defs::specs::Operands::value_rule, ec_typing_defs::specs::Operands::within_rule, ec_typing_defs::specs::Programs::begin_function, ec_typing_defs::specs::Programs::know_function, ec_typing_defs::specs::Programs::main_rule, ec_typing_defs::specs::Programs::plain_param, ec_typing_defs::specs::Programs::result_rule, ec_typing_defs::specs::Statements::condition_rule, ec_typing_defs::specs::Statements::object_rule, ec_typing_defs::specs::Statements::return_nothing, ec_typing_defs::specs::Statements::return_rule, ec_typing_defs::specs::Statements::tag_alone, ec_typing_defs::specs::Worlds::ask, ec_typing_defs::specs::Worlds::chain, ec_typing_defs::specs::Worlds::change, ec_typing_defs::specs::Worlds::declare, ec_typing_defs::specs::Worlds::declare_label, ec_typing_defs::specs::Worlds::demand, ec_typing_defs::specs::Worlds::enter, ec_typing_defs::specs::Worlds::free_name, ec_typing_defs::specs::Worlds::free_tag, ec_typing_defs::specs::Worlds::instead, ec_typing_defs::specs::Worlds::keep_within, ec_typing_defs::specs::Worlds::know_better, ec_typing_defs::specs::Worlds::leave, ec_typing_defs::specs::Worlds::new_struct, ec_typing_defs::specs::Worlds::note, ec_typing_defs::specs::Worlds::number_as, ec_typing_defs::specs::Worlds::place, ec_typing_defs::specs::Worlds::pure, ec_typing_defs::specs::Worlds::set_struct))]

ghost use Rattle.std.specs.Prelude.{◌≡◌, [], codes};
ghost use Rattle.ec_base.specs.declared.stop.Trap.TheVariants as trap;
ghost use Rattle.ec_meaning_defs.specs.evaluation.State.{exited, trapped, turns_spent};
ghost use Rattle.ec_resolving_defs.specs.Examples.{shows};

/// Operands and arguments from left to right, the left side's place first, `&&` and `||` (docs/RUNNING.md, "Order").
pub fn order_runs()
    ensures operands { shows 9
        "int p(int n) { putchar(n); return n; } int g; int main(void) { return p('a') + p('b') * p('c') == 0; }"
        ≡ (codes "abc", exited 0) }
    ensures arguments { shows 9
        "int p(int n) { putchar(n); return n; } int g; int f(int a, int b) { return b; } int main(void) { return f(p('a'), p('b')) - f(p('c'), 'b'); }"
        ≡ (codes "abc", exited 0) }
    ensures place_before_value { shows 9
        "int p(int n) { putchar(n); return n; } int g; int main(void) { int a[2]; a[p('1') - '1'] = p('x'); return a[0]; }"
        ≡ (codes "1x", exited 120) }
    ensures old_value_before_the_right_side { shows 9
        "int main(void) { int x = 3; x += x = 5; return x; }"
        ≡ ([], exited 8) }
    ensures left_operand_is_read_first { shows 9
        "int main(void) { int x = 3; x = x + (x = 10); return x; }"
        ≡ ([], exited 13) }
    ensures index_of_an_update_once { shows 9
        "int p(int n) { putchar(n); return n; } int g; int main(void) { int a[2] = {1, 2}; a[p('1') - '0'] *= p('3') - '0'; return a[1]; }"
        ≡ (codes "13", exited 6) }
    ensures and_stops { shows 9
        "int p(int n) { putchar(n); return n; } int g; int main(void) { g = 0 && p('a'); return (1 && p('b')) + g; }"
        ≡ (codes "b", exited 1) }
    ensures or_stops { shows 9
        "int p(int n) { putchar(n); return n; } int g; int main(void) { return 1 || p('a'); }"
        ≡ ([], exited 1) }
    ensures assignment_from_the_right { shows 9
        "int main(void) { int a; char b; a = b = 300; return a; }"
        ≡ ([], exited 44) }
    ensures format_reads_all_first { shows 9
        "int main(void) { char *s; printf(\"%d%s\", putchar('a'), s); }"
        ≡ (codes "a", trapped trap.Unset 1) }
{}

/// Bumps of every type, and conversions.
pub fn type_runs()
    ensures char_wraps { shows 9 "int main(void) { char c = 127; c++; return c == -128; }"
        ≡ ([], exited 1) }
    ensures unsigned_char_wraps { shows 9 "int main(void) { unsigned char c = 0; c--; return c; }"
        ≡ ([], exited 255) }
    ensures bool_stays_true { shows 9 "int main(void) { bool b = 1; b++; return b; }"
        ≡ ([], exited 1) }
    ensures bool_decremented { shows 9 "int main(void) { bool b = 0; b--; return b; }"
        ≡ ([], exited 1) }
    ensures short_wraps { shows 9 "int main(void) { short s = 32767; return s++ + (s == -32768); }"
        ≡ ([], exited 0) }
    ensures int_overflows { shows 9 "int main(void) { int i = 2147483647;\n i++; return 0; }"
        ≡ ([], trapped trap.Overflow 2) }
    ensures unsigned_wraps { shows 9
        "int main(void) { unsigned u = 0; u--; return u == 4294967295u; }"
        ≡ ([], exited 1) }
    ensures long_overflows { shows 9
        "int main(void) { long l = 9223372036854775807;\n\n ++l; return 0; }"
        ≡ ([], trapped trap.Overflow 3) }
    ensures unsigned_long_wraps { shows 9
        "int main(void) { unsigned long l = 0; return --l == 18446744073709551615u; }"
        ≡ ([], exited 1) }
    ensures pointer_bumped { shows 9
        "int main(void) { int a[2] = {1, 2}; int *p = a; return *p++ * 10 + *p; }"
        ≡ ([], exited 12) }
    ensures pointer_too_far { shows 9 "int main(void) { int a[2]; int *p = a + 2;\np++; }"
        ≡ ([], trapped trap.Outside 2) }
    ensures value_before_and_behind { shows 9
        "int main(void) { int i = 5; int j = i++ + ++i; return j * 10 + i - 100; }"
        ≡ ([], exited 27) }
    ensures unsigned_comparison { shows 9
        "int main(void) { int i = -1; unsigned u = 1; return i < u; }"
        ≡ ([], exited 0) }
    ensures smaller_types_are_ints { shows 9
        "int main(void) { unsigned char a = 200, b = 100; return a + b > 255; }"
        ≡ ([], exited 1) }
    ensures char_is_signed { shows 9 "int main(void) { char c = 200; return c < 0; }"
        ≡ ([], exited 1) }
    ensures narrowed { shows 9
        "int main(void) { unsigned char c = 513; short s = 65537; return c * 10 + s; }"
        ≡ ([], exited 11) }
    ensures bool_is_truth { shows 9 "int main(void) { bool b = 256; return b; }"
        ≡ ([], exited 1) }
    ensures pointer_to_bool { shows 9 "int main(void) { int i; bool b = &i; return b; }"
        ≡ ([], exited 1) }
    ensures shift_keeps_the_sign { shows 9 "int main(void) { int i = -8; return (i >> 1) + 5; }"
        ≡ ([], exited 1) }
    ensures unsigned_shift { shows 9
        "int main(void) { unsigned u = 4294967295u; return (u << 31 >> 31) + (u >> 28); }"
        ≡ ([], exited 16) }
    ensures difference { shows 9 "int main(void) { long a[5]; return &a[4] - &a[1]; }"
        ≡ ([], exited 3) }
    ensures bytes_of_a_pointer { shows 9
        "int x; int main(void) { char *s = \"hi\"; unsigned char *q = (unsigned char *)&s; return q[4] * 10 + q[0]; }"
        ≡ ([], exited 30) }
    ensures pointer_and_number { shows 9
        "int main(void) { int i; long n = (long)&i; return (int *)n == &i; }"
        ≡ ([], exited 1) }
{}

/// Traps, with their lines.
pub fn trap_runs()
    ensures zero { shows 9 "int main(void) { int i = 0;\nreturn 1 / i; }"
        ≡ ([], trapped trap.Zero 2) }
    ensures remainder_overflows { shows 9
        "int main(void) { int m = -2147483647 - 1; return m % -1; }"
        ≡ ([], trapped trap.Overflow 1) }
    ensures shift_too_far { shows 9 "int main(void) { int i = 32;\n\nreturn 1 << i; }"
        ≡ ([], trapped trap.Shift 3) }
    ensures negative_shifted { shows 9 "int main(void) { int i = -1; return i << 1; }"
        ≡ ([], trapped trap.Overflow 1) }
    ensures unset_local { shows 9 "int main(void) { int i;\nreturn i; }"
        ≡ ([], trapped trap.Unset 2) }
    ensures unset_as_a_statement { shows 9 "int main(void) { int i;\ni; }"
        ≡ ([], trapped trap.Unset 2) }
    ensures null { shows 9 "int main(void) { int *p = NULL;\n*p = 1; }"
        ≡ ([], trapped trap.Null 2) }
    ensures dead { shows 9
        "int *p; void f(void) { int i = 1; p = &i; } int main(void) { f();\nreturn *p; }"
        ≡ ([], trapped trap.Dead 2) }
    ensures outside { shows 9 "int main(void) { int a[2];\na[2] = 1; }"
        ≡ ([], trapped trap.Outside 2) }
    ensures far_outside { shows 9 "int main(void) { int a[2];\na[3]; }"
        ≡ ([], trapped trap.Outside 2) }
    ensures huge_index { shows 9 "int main(void) { int a[2];\na[18446744073709551615u]; }"
        ≡ ([], trapped trap.Outside 2) }
    ensures no_value { shows 9 "int f(void) { }\nint main(void) { int x;\nx = f();\n}"
        ≡ ([], trapped trap.NoValue 3) }
    ensures no_value_unused { shows 9
        "int f(void) { } int main(void) { f(); (void)f(); for (f(); 0; f()) ; return 4; }"
        ≡ ([], exited 4) }
    ensures no_value_under_two_casts { shows 9
        "int f(void) { } int main(void) { (void)(void)f(); return 4; }"
        ≡ ([], trapped trap.NoValue 1) }
    ensures void_under_two_casts { shows 9
        "void f(void) { } int main(void) { (void)(void)f(); return 4; }"
        ≡ ([], exited 4) }
    ensures main_called_has_zero { shows 9
        "int g; int main(void) { if (g++) ; else return main() + 5; }"
        ≡ ([], exited 5) }
    ensures trap_in_a_called_function { shows 9
        "int f(int i) {\nreturn 1 / i;\n}\nint main(void) {\nreturn f(0); }"
        ≡ ([], trapped trap.Zero 2) }
    ensures line_of_a_loop { shows 9 "int main(void) { int i = 1;\nwhile (1 / i)\n{\ni = 0;\n} }"
        ≡ ([], trapped trap.Zero 2) }
    ensures line_of_a_declaration { shows 9 "int main(void) { int a = 1,\nb = 1 / 0; }"
        ≡ ([], trapped trap.Zero 1) }
    ensures text_without_an_end { shows 9 "int main(void) { char s[2] = {'a', 'b'};\nputs(s); }"
        ≡ ([], trapped trap.Outside 2) }
    ensures text_with_an_unset_byte { shows 9 "int main(void) { char s[2]; s[0] = 'a';\nputs(s); }"
        ≡ ([], trapped trap.Unset 2) }
    ensures struct_behind_null { shows 9 "int main(void) { struct s { int m; } *p = NULL;\n*p; }"
        ≡ ([], trapped trap.Null 2) }
    ensures exit_anywhere { shows 9 "void f(void) { exit(300); } int main(void) { f(); return 1; }"
        ≡ ([], exited 44) }
{}

/// Objects of blocks and functions, initializers and copies.
pub fn object_runs()
    ensures struct_copied_with_unset_cells { shows 9
        "int main(void) { struct s { int a; int b; } x, y; x.a = 7; y = x; return y.a; }"
        ≡ ([], exited 7) }
    ensures unset_cell_of_a_copy { shows 9
        "int main(void) { struct s { int a; int b; } x, y; x.a = 7; y = x;\nreturn y.b; }"
        ≡ ([], trapped trap.Unset 2) }
    ensures member_of_an_assignment { shows 9
        "int main(void) { struct s { int a; } x, y = {6}; return (x = y).a + x.a; }"
        ≡ ([], exited 12) }
    ensures initializer_fills_with_zeros { shows 9
        "int main(void) { int a[3] = {1}; struct { char c; long l; } x = {'a'}; return a[2] + x.l; }"
        ≡ ([], exited 0) }
    ensures its_own_initializer { shows 9 "int main(void) { int x = x + 1; return x; }"
        ≡ ([], exited 1) }
    ensures text_array { shows 9
        "int main(void) { char s[] = \"abc\"; s[1] = 'X'; puts(s); return sizeof s; }"
        ≡ (codes "aXc\n", exited 4) }
    ensures call_by_value { shows 9
        "void f(int a) { a = 9; } int main(void) { int a = 1; f(a); return a; }"
        ≡ ([], exited 1) }
    ensures parameter_narrowed { shows 9
        "int f(char c) { return c; } int main(void) { return f(256 + 5); }"
        ≡ ([], exited 5) }
    ensures array_parameter { shows 9
        "void f(int a[3]) { a[1] = 4; } int main(void) { int b[3]; f(b); return b[1]; }"
        ≡ ([], exited 4) }
    ensures recursion { shows 20
        "int f(int n) { if (n < 2) return 1; return n * f(n - 1); } int main(void) { return f(5); }"
        ≡ ([], exited 120) }
    ensures globals_are_zero { shows 9
        "int g; struct { char c; int *p; } s; int main(void) { return g + (s.p == NULL); }"
        ≡ ([], exited 1) }
    ensures global_values { shows 9
        "int g = 5, *p = &g; char *t[2] = {\"a\", \"bc\"}; int main(void) { printf(\"%d%s\", *p, t[1]); }"
        ≡ (codes "5bc", exited 0) }
    ensures unset_again { shows 9
        "int main(void) { int n = 0; again: ; int x; if (n == 0) { n = 1; x = 5; goto again; }\nreturn x; }"
        ≡ ([], trapped trap.Unset 2) }
    ensures hidden_names { shows 9
        "int main(void) { int i = 1; { int i = 2; { int i = 3; printf(\"%d\", i); } printf(\"%d\", i); } printf(\"%d\", i); }"
        ≡ (codes "321", exited 0) }
    ensures blocks_side_by_side { shows 9
        "int main(void) { int a = 1; { int b = 2; a += b; } { int c = 3; a += c; } int d = 4; return a + d; }"
        ≡ ([], exited 10) }
{}

/// Loops and `goto`.
pub fn jump_runs()
    ensures into_a_loop { shows 9
        "int main(void) { int n = 0; goto in; while (n < 3) { n = n + 10; in: n = n + 1; } return n; }"
        ≡ ([], exited 12) }
    ensures out_of_blocks { shows 9
        "int main(void) { int n = 0; { int a; { int b; goto out; } n = 5; } n = 6; out: return n; }"
        ≡ ([], exited 0) }
    ensures into_a_block { shows 9 "int main(void) { goto in; { int x = 5; in: x = 2; return x; } }"
        ≡ ([], exited 2) }
    ensures into_a_block_unset { shows 9
        "int main(void) { goto in; { int x = 5; in: ;\nreturn x; } }"
        ≡ ([], trapped trap.Unset 2) }
    ensures backwards { shows 9 "int main(void) { int n = 0; a: n++; if (n < 4) goto a; return n; }"
        ≡ ([], exited 4) }
    ensures into_an_else { shows 9
        "int main(void) { int n = 0; goto in; if (1) n = 1; else in: n = 2; return n; }"
        ≡ ([], exited 2) }
    ensures into_a_for { shows 9
        "int main(void) { int i = 1; goto in; for (i = 5; i < 3; i++) in: printf(\"%d\", i); }"
        ≡ (codes "12", exited 0) }
    ensures break_and_continue { shows 9
        "int main(void) { int i; for (i = 0; i < 9; i++) { if (i == 2) continue; if (i == 4) break; printf(\"%d\", i); } }"
        ≡ (codes "013", exited 0) }
    ensures do_before_its_test { shows 9
        "int main(void) { int i = 5; do i++; while (i < 3); return i; }"
        ≡ ([], exited 6) }
    ensures continue_in_do { shows 9
        "int main(void) { int i = 0; do { i++; if (i < 3) continue; } while (i < 3); return i; }"
        ≡ ([], exited 3) }
    ensures for_with_a_declaration { shows 9
        "int main(void) { int i = 9; for (int i = 0; i < 3; i++) printf(\"%d\", i); return i; }"
        ≡ (codes "012", exited 9) }
    ensures nested_loops { shows 20
        "int main(void) { int i, j; for (i = 0; i < 3; i++) for (j = 0; j < 3; j++) { if (j > i) break; printf(\"%d\", j); } }"
        ≡ (codes "001012", exited 0) }
{}

/// What costs a turn.
pub fn turn_runs()
    ensures a_body_is_a_turn { shows 3 "int main(void) { while (1) printf(\"x\"); }"
        ≡ (codes "xxx", turns_spent) }
    ensures no_turn_without_a_body { shows 0 "int main(void) { while (0) ; return 1; }"
        ≡ ([], exited 1) }
    ensures main_takes_none { shows 0 "int main(void) { return 2; }"
        ≡ ([], exited 2) }
    ensures known_functions_take_none { shows 0 "int main(void) { puts(\"a\"); }"
        ≡ (codes "a\n", exited 0) }
    ensures a_call_is_one { shows 0 "void f(void) { } int main(void) { f(); }"
        ≡ ([], turns_spent) }
    ensures arguments_before_the_turn { shows 1
        "int f(int n) { putchar(n); return n; } int main(void) { f(f('a')); }"
        ≡ (codes "a", turns_spent) }
    ensures a_goto_is_one { shows 0 "int main(void) { putchar('a'); goto b; b: putchar('b'); }"
        ≡ (codes "a", turns_spent) }
    ensures test_before_the_turn { shows 1 "int main(void) { while (putchar('a')) ; }"
        ≡ (codes "aa", turns_spent) }
    ensures do_takes_one_first { shows 0 "int main(void) { do putchar('a'); while (0); }"
        ≡ ([], turns_spent) }
    ensures entered_by_goto { shows 1 "int main(void) { goto in; do in: putchar('a'); while (0); }"
        ≡ (codes "a", exited 0) }
{}

/// Known functions.
pub fn known_runs()
    ensures widths { shows 9
        "int main(void) { printf(\"[%5d|%-5d|%05d|%*d]\", 42, 42, -42, -4, 7); }"
        ≡ (codes "[   42|42   |-0042|7   ]", exited 0) }
    ensures styles { shows 9
        "int main(void) { printf(\"%u %x %X %o %c%%\", -1, 255, 255, 8, 'A'); }"
        ≡ (codes "4294967295 ff FF 10 A%", exited 0) }
    ensures long_ones { shows 9 "int main(void) { printf(\"%ld %lu %llx\", -5l, 5ul, 255ll); }"
        ≡ (codes "-5 5 ff", exited 0) }
    ensures texts { shows 9 "int main(void) { printf(\"%.2s|%5s|%-4s|\", \"abc\", \"d\", \"e\"); }"
        ≡ (codes "ab|    d|e   |", exited 0) }
    ensures count { shows 9
        "int main(void) { int n = printf(\"abc\"); return n * 10 + putchar('x') / 120; }"
        ≡ (codes "abcx", exited 31) }
    ensures texts_compared { shows 9
        "int main(void) { return strcmp(\"a\", \"b\") + strcmp(\"b\", \"a\") * 2 + strncmp(\"ab\", \"ac\", 1) + (memcmp(\"a\", \"a\", 1) == 0); }"
        ≡ ([], exited 2) }
    ensures texts_copied { shows 9
        "int main(void) { char s[8]; strcpy(s, \"ab\"); strcat(s, \"cd\"); puts(s); return strlen(s); }"
        ≡ (codes "abcd\n", exited 4) }
    ensures memory_copied { shows 9
        "int main(void) { int a[2] = {1, 2}, b[2]; memcpy(b, a, sizeof a); memset(a, 1, 4); return b[1] + (a[0] == 16843009); }"
        ≡ ([], exited 3) }
    ensures errors_apart { shows 9
        "int main(void) { fprintf(stderr, \"e\"); fprintf(stdout, \"o\"); }"
        ≡ (codes "o", exited 0) }
{}
