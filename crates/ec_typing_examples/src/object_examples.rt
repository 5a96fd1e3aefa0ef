//! Constants, initializers and sizes, as the contracts of functions that do nothing.
#![tactic(auto, unfolding(ec_typing_defs::specs::Expressions::type_or_fault, ec_typing_defs::specs::Expressions::tag_rule, ec_typing_defs::specs::Expressions::tagged_struct, ec_typing_defs::specs::Expressions::begin_struct, ec_typing_defs::specs::Expressions::end_struct, ec_typing_defs::specs::Expressions::member_named, ec_typing_defs::specs::Initializers::fixed_rule, ec_typing_defs::specs::Initializers::suits_rule, ec_typing_defs::specs::Initializers::part_rule, ec_typing_defs::specs::Initializers::slot_rule, ec_typing_defs::specs::Initializers::braces_rule, ec_typing_defs::specs::Operands::typed, ec_typing_defs::specs::Operands::named_by, ec_typing_defs::specs::Operands::name_rule, ec_typing_defs::specs::Operands::value_rule, ec_typing_defs::specs::Operands::address_rule, ec_typing_defs::specs::Operands::target_rule, ec_typing_defs::specs::Operands::sign_rule, ec_typing_defs::specs::Operands::binary_rule, ec_typing_defs::specs::Operands::index_rule, ec_typing_defs::specs::Operands::assign_rule, ec_typing_defs::specs::Operands::compound_rule, ec_typing_defs::specs::Operands::bump_rule, ec_typing_defs::specs::Operands::call_by, ec_typing_defs::specs::Operands::call_rule, ec_typing_defs::specs::Operands::member_rule, ec_typing_defs::specs::Operands::arrow_rule, ec_typing_defs::specs::Operands::scalar_cast, ec_typing_defs::specs::Operands::cast_rule, ec_typing_defs::specs::Operands::size_rule, ec_typing_defs::specs::Operands::length_rule, ec_typing_defs::specs::Operands::within_rule, ec_typing_defs::specs::Operands::complete_rule, ec_typing_defs::specs::Programs::result_rule, ec_typing_defs::specs::Programs::plain_param, ec_typing_defs::specs::Programs::begin_function, ec_typing_defs::specs::Programs::know_function, ec_typing_defs::specs::Programs::main_rule, ec_typing_defs::specs::Statements::object_rule, ec_typing_defs::specs::Statements::tag_alone, ec_typing_defs::specs::Statements::condition_rule, ec_typing_defs::specs::Statements::return_rule, ec_typing_defs::specs::Statements::return_nothing, ec_typing_defs::specs::Worlds::chain, ec_typing_defs::specs::Worlds::pure, ec_typing_defs::specs::Worlds::ask, ec_typing_defs::specs::Worlds::change, ec_typing_defs::specs::Worlds::note, ec_typing_defs::specs::Worlds::demand, ec_typing_defs::specs::Worlds::keep_within, ec_typing_defs::specs::Worlds::place, ec_typing_defs::specs::Worlds::enter, ec_typing_defs::specs::Worlds::leave, ec_typing_defs::specs::Worlds::free_name, ec_typing_defs::specs::Worlds::free_tag, ec_typing_defs::specs::Worlds::declare, ec_typing_defs::specs::Worlds::know_better, ec_typing_defs::specs::Worlds::declare_label, ec_typing_defs::specs::Worlds::number_as, ec_typing_defs::specs::Worlds::new_struct, ec_typing_defs::specs::Worlds::set_struct))]

ghost use Rattle.std.specs.Prelude.{◌≡◌, Err};
ghost use Rattle.ec_base.specs.declared.fault.FaultKind.TheVariants.{F7, F9, F14, F16, F19};
ghost use Rattle.ec_base.specs.declared.fault.LimitKind.TheVariants.{L1};
ghost use Rattle.ec_base.specs.declared.stop.Stop.TheVariants.{Refused};
ghost use Rattle.ec_typing_defs.specs.Examples.{with_main, in_main, refused, limited, fine};

/// F19: array lengths, and initializers at file level (6.6, 6.7.5.2, 6.7.8).
pub fn constant_examples()
    ensures lengths { with_main
        "int a[3], b['a'], c[sizeof(long) * 2], d[(int)3000000000U == -1294967296], e[true], f[-1 < 0U ? 1 : 1];"
        ≡ Err (Refused F9 (record { 0 = 1 })) }
    ensures more_lengths { with_main
        "int a[3], b['a'], c[sizeof(long) * 2], e[true], f[(char)257], g[1 << 3 | 1], h[sizeof a / sizeof a[0]], i[!0], j[~0 + 2], k[+1];"
        ≡ fine }
    ensures zero { with_main "int a[0];" ≡ refused F19 1 }
    ensures negative { with_main "int a[-1];" ≡ refused F19 1 }
    ensures unsigned_wraps { with_main "int a[0U - 1U == 4294967295U];" ≡ fine }
    ensures negative_below_unsigned { with_main "int a[-1 < 0U];" ≡ refused F19 1 }
    ensures unsigned_char_is_promoted { with_main "int a[(unsigned char)255 + 1 == 256];" ≡ fine }
    ensures conversion_of_lengths { with_main
        "int a[(char)200 == -56], b[(bool)256], c[(unsigned short)-1 == 65535];"
        ≡ fine }
    ensures variable { in_main "int n; int a[n];" ≡ refused F19 1 }
    ensures variable_in_a_parameter { with_main "int f(int n, int a[n]);" ≡ refused F19 1 }
    ensures length_of_a_parameter { with_main "int f(int a[0]);" ≡ refused F19 1 }
    ensures null_length { with_main "int a[NULL];" ≡ refused F19 1 }
    ensures pointer_cast { with_main "int a[(int)(char *)4];" ≡ refused F19 1 }
    ensures literal { with_main "int a[\"x\"];" ≡ refused F19 1 }
    ensures size_of_variable { in_main "int n; int a[sizeof n], b[sizeof(n++)];" ≡ fine }
    ensures division_by_zero { with_main "int a[1 / 0];" ≡ refused F19 1 }
    ensures remainder_by_zero { with_main "int a[1 % 0];" ≡ refused F19 1 }
    ensures overflow { with_main "int a[2147483647 + 1];" ≡ refused F19 1 }
    ensures no_overflow { with_main "bool a[2147483647 + 1L == 2147483648];" ≡ fine }
    ensures least_divided { with_main "int a[(-2147483647 - 1) / -1];" ≡ refused F19 1 }
    ensures least_remainder { with_main "int a[(-2147483647 - 1) % -1 + 1];" ≡ refused F19 1 }
    ensures negated_least { with_main "int a[-(-2147483647 - 1) != 0];" ≡ refused F19 1 }
    ensures shift_of_negative { with_main "int a[(-1 << 1) + 3];" ≡ refused F19 1 }
    ensures shift_out_of_range { with_main "int a[1 << 32];" ≡ refused F19 1 }
    ensures shift_by_negative { with_main "int a[1 << -1];" ≡ refused F19 1 }
    ensures shift_that_does_not_fit { with_main "int a[(1 << 31) != 0];" ≡ refused F19 1 }
    ensures shift_that_fits { with_main
        "int a[(1L << 31) != 0], b[(1U << 31) != 0], c[(-5 >> 1) == -3];"
        ≡ fine }
    ensures shift_amount_keeps_its_type { with_main "int a[(1 << 40L) != 0];" ≡ refused F19 1 }
    ensures quotients { with_main
        "int a[-7 / 2 == -3], b[-7 % 2 == -1], c[7 / -2 == -3], d[7 % -2 == 1];"
        ≡ fine }
    ensures bits { with_main
        "int a[(-1 & 255) == 255], b[(6 ^ -1) == -7], c[(-8 | 3) == -5];"
        ≡ fine }
    ensures stopped_and { with_main "int a[(0 && 1 / 0) + 1], b[(1 || 1 / 0)];" ≡ fine }
    ensures and_that_goes_on { with_main "int a[(1 && 1 / 0) + 1];" ≡ refused F19 1 }
    ensures trap_on_the_left { with_main "int a[1 / 0 || 1];" ≡ refused F19 1 }
    ensures stopped_with_a_variable { in_main "int n; int a[1 || n];" ≡ refused F19 1 }
    ensures globals { with_main
        "int a = 1 + 2 * 3; char *b = \"x\", c[] = \"x\", *d = c, *e = NULL, *f = 0; int *g = &a; int **h = &g; void *i = &sqlca; long j = sizeof c; int k[2] = {1, -1}; char *l[] = {\"x\", c, 0};"
        ≡ fine }
    ensures address_of_a_target { with_main
        "int a; int *b = &*&a, c[2], *d = &*c, *e = &*&*&a; char *f = &*\"x\"; void *g = &*NULL;"
        ≡ fine }
    ensures global_by_target { with_main "int a; int b = *&a;" ≡ refused F19 1 }
    ensures global_by_array_target { with_main "int a[2]; int *b = *&a;" ≡ refused F19 1 }
    ensures global_by_pointer_target { with_main "int *a; int *b = &*a;" ≡ refused F19 1 }
    ensures address_of_two_targets { with_main "int *a; int *b = &**&a;" ≡ refused F19 1 }
    ensures global_by_name { with_main "int a; int b = a;" ≡ refused F19 1 }
    ensures global_by_call { with_main "int f(void) { return 1; }\nint a = f();" ≡ refused F19 2 }
    ensures global_by_element { with_main "int a[2]; int *b = &a[1];" ≡ refused F19 1 }
    ensures global_by_sum { with_main "int a[2]; int *b = a + 1;" ≡ refused F19 1 }
    ensures global_by_cast { with_main "int *a = (int *)0;" ≡ refused F19 1 }
    ensures global_by_member { with_main "struct { int m; } a; int *b = &a.m;" ≡ refused F19 1 }
    ensures global_by_trap { with_main "int a = 1 / 0;" ≡ refused F19 1 }
    ensures global_by_assignment { with_main "int a; int b = a = 1;" ≡ refused F19 1 }
    ensures global_in_braces { with_main "int a; int b[2] = {1, a};" ≡ refused F19 1 }
    ensures global_struct { with_main "struct s { int m; } a; struct s b = a;" ≡ refused F19 1 }
    ensures global_of_another_type { with_main "int a; char *b = &a;" ≡ refused F14 1 }
    ensures local_by_anything { in_main "int a = 1; int b = a, c[2] = {a, b}, *d = &c[1];" ≡ fine }
{}

/// F14 of initializers (6.7.8).
pub fn initializer_examples()
    ensures scalar_in_braces { in_main "int a = {1}; char *b = {\"x\"};" ≡ fine }
    ensures scalar_in_two_braces { in_main "int a = {{1}};" ≡ refused F14 1 }
    ensures two_for_a_scalar { in_main "int a = {1, 2};" ≡ refused F14 1 }
    ensures pointer_for_integer { in_main "int a = \"x\";" ≡ refused F14 1 }
    ensures array { in_main "int a[3] = {1, 2}, b[3] = {1, 2, 3,}, c[2] = {{1}, 2};" ≡ fine }
    ensures too_many { in_main "int a[2] = {1, 2, 3};" ≡ refused F14 1 }
    ensures array_by_expression { in_main "int a[2]; int b[2] = a;" ≡ refused F14 1 }
    ensures array_by_number { in_main "int a[2] = 0;" ≡ refused F14 1 }
    ensures text { in_main
        "char a[3] = \"xy\", b[2] = \"xy\", c[] = \"xy\", d[3] = {\"xy\"}; unsigned char e[] = \"x\"; signed char f[] = {\"x\"};"
        ≡ fine }
    ensures text_too_long { in_main "char a[2] = \"xyz\";" ≡ refused F14 1 }
    ensures text_and_more { in_main "char a[4] = {\"xy\", 0};" ≡ refused F14 1 }
    ensures text_for_integers { in_main "int a[4] = \"xy\";" ≡ refused F14 1 }
    ensures characters { in_main "char a[] = {'x', 0};" ≡ fine }
    ensures two_dimensions { in_main
        "int a[2][2] = {{1, 2}, {3}}, b[2][2] = {1, 2, 3, 4}, c[2][2] = {{1}, 2, 3};"
        ≡ fine }
    ensures too_many_within { in_main "int a[2][2] = {{1, 2, 3}};" ≡ refused F14 1 }
    ensures too_many_in_a_row { in_main "int a[2][2] = {1, 2, 3, 4, 5};" ≡ refused F14 1 }
    ensures too_many_mixed { in_main "int a[2][2] = {{1}, 2, 3, 4};" ≡ refused F14 1 }
    ensures texts { in_main
        "char a[2][3] = {\"ab\", {\"c\"}}, b[2][3] = {'a', 'b', 'c', \"de\"};"
        ≡ fine }
    ensures text_within { in_main "char b[2][3] = {'a', \"de\"};" ≡ refused F14 1 }
    ensures plain_struct { in_main
        "struct s { int m; char *n; } a = {1, \"x\"}, b = {1}, c = a, d[2] = {a, {2}}, e[] = {1, \"x\", a};"
        ≡ fine }
    ensures struct_by_number { in_main "struct s { int m; } a = 1;" ≡ refused F14 1 }
    ensures struct_too_many { in_main "struct s { int m; } a = {1, 2};" ≡ refused F14 1 }
    ensures struct_of_another_type { in_main
        "struct s { int m; } a; struct t { int m; } b = a;"
        ≡ refused F14 1 }
    ensures member_of_another_type { in_main
        "struct s { int m; char *n; } a = {\"x\"};"
        ≡ refused F14 1 }
    ensures nested { in_main
        "struct s { int m[2]; struct { char c[3]; long l; } n; } a = {1, 2, \"xy\", 3}, b = {{1}, {\"xy\", 3}}, c = {{1, 2}, {{'x'}}};"
        ≡ fine }
    ensures nested_too_many { in_main
        "struct s { int m[2]; struct { char c[3]; long l; } n; } a = {1, 2, \"xy\", 3, 4};"
        ≡ refused F14 1 }
    ensures nested_too_many_within { in_main
        "struct s { int m[2]; struct { char c[3]; long l; } n; } a = {{1, 2, 3}};"
        ≡ refused F14 1 }
    ensures structs_as_they_stand { in_main
        "struct s { int m; } a; struct t { struct s x; struct s y; } b = {a, 1}, c = {1, a};"
        ≡ fine }
    ensures braces_behind_the_end { in_main "int a[1] = {1, {2}};" ≡ refused F14 1 }
    ensures length_is_told { in_main
        "int a[] = {1, 2, 3}; int b[sizeof a == 12], c[][2] = {1, 2, 3}, d[sizeof c == 16]; char e[] = \"xy\", f[sizeof e == 3], g[] = {\"xy\"}, h[sizeof g == 3], i[][4] = {\"x\", \"y\"}, j[sizeof i == 8];"
        ≡ fine }
    ensures no_length_in_itself { in_main "int a[] = {sizeof a};" ≡ refused F14 1 }
    ensures no_length_from_another_literal { in_main
        "int a[] = \"x\"; int b[sizeof a];"
        ≡ refused F14 1 }
    ensures element_of_itself { in_main "int a[] = {1, a[0]};" ≡ fine }
    ensures nothing_is_said_of_what_has_no_type { in_main
        "int a[1] = {\nk(), 1, 2};"
        ≡ refused F16 1 }
{}

/// L1 (a type of more than 2^24 bytes), and sizes.
pub fn limit_examples()
    ensures array { with_main "char a[16777216];" ≡ fine }
    ensures array_too_large { with_main "char a[16777217];" ≡ limited L1 }
    ensures array_of_ints { with_main "int a[4194304];" ≡ fine }
    ensures array_of_ints_too_large { with_main "int a[4194305];" ≡ limited L1 }
    ensures rows_of_an_array { with_main "char a[2][8388608];" ≡ fine }
    ensures rows_too_large { with_main "char a[2][8388609];" ≡ limited L1 }
    ensures pointed_to { with_main "char (*a)[1];" ≡ Err (Refused F7 (record { 0 = 1 })) }
    ensures struct_members { with_main "struct s { char a[16777215]; char b; };" ≡ fine }
    ensures struct_too_large { with_main "struct s { char a[16777215]; short b; };" ≡ limited L1 }
    ensures struct_rounded_up { with_main "struct s { long a; char b[16777208]; };" ≡ fine }
    ensures struct_rounded_up_too_large { with_main
        "struct s { long a; char b[16777209]; };"
        ≡ limited L1 }
    ensures no_object { in_main "sizeof(struct { char a[16777217]; });" ≡ limited L1 }
    ensures pointers { with_main "char *a[2097152];" ≡ fine }
    ensures pointers_too_large { with_main "char *a[2097153];" ≡ limited L1 }
    ensures parameter { with_main "int f(char a[16777217]);" ≡ fine }
    ensures rows_of_a_parameter { with_main "int f(char a[2][16777217]);" ≡ limited L1 }
    ensures told_length { with_main
        "struct s { char a[8388609]; } x[] = {{{0}}, {{0}}};"
        ≡ limited L1 }
    ensures very_large { with_main
        "long a[18446744073709551615U][18446744073709551615U];"
        ≡ limited L1 }
    ensures size_of_a_large_type { with_main
        "struct s {\nchar a[16777217]; };\nint b[sizeof(struct s)];"
        ≡ limited L1 }
    ensures fault_before_limit { with_main "char a[16777217] = 1;" ≡ refused F14 1 }
    ensures limit_at_an_earlier_place { with_main "char a[16777217];\nint b[0];" ≡ limited L1 }
    ensures fault_at_an_earlier_place { with_main "int b[0];\nchar a[16777217];" ≡ refused F19 1 }
{}
