//! Types and places, as the contracts of functions that do nothing.
#![tactic(auto, unfolding(ec_typing_defs::specs::Expressions::type_or_fault, ec_typing_defs::specs::Expressions::tag_rule, ec_typing_defs::specs::Expressions::tagged_struct, ec_typing_defs::specs::Expressions::begin_struct, ec_typing_defs::specs::Expressions::end_struct, ec_typing_defs::specs::Expressions::member_named, ec_typing_defs::specs::Initializers::fixed_rule, ec_typing_defs::specs::Initializers::suits_rule, ec_typing_defs::specs::Initializers::part_rule, ec_typing_defs::specs::Initializers::slot_rule, ec_typing_defs::specs::Initializers::braces_rule, ec_typing_defs::specs::Operands::typed, ec_typing_defs::specs::Operands::named_by, ec_typing_defs::specs::Operands::name_rule, ec_typing_defs::specs::Operands::value_rule, ec_typing_defs::specs::Operands::address_rule, ec_typing_defs::specs::Operands::target_rule, ec_typing_defs::specs::Operands::sign_rule, ec_typing_defs::specs::Operands::binary_rule, ec_typing_defs::specs::Operands::index_rule, ec_typing_defs::specs::Operands::assign_rule, ec_typing_defs::specs::Operands::compound_rule, ec_typing_defs::specs::Operands::bump_rule, ec_typing_defs::specs::Operands::call_by, ec_typing_defs::specs::Operands::call_rule, ec_typing_defs::specs::Operands::member_rule, ec_typing_defs::specs::Operands::arrow_rule, ec_typing_defs::specs::Operands::scalar_cast, ec_typing_defs::specs::Operands::cast_rule, ec_typing_defs::specs::Operands::size_rule, ec_typing_defs::specs::Operands::length_rule, ec_typing_defs::specs::Operands::within_rule, ec_typing_defs::specs::Operands::complete_rule, ec_typing_defs::specs::Programs::result_rule, ec_typing_defs::specs::Programs::plain_param, ec_typing_defs::specs::Programs::begin_function, ec_typing_defs::specs::Programs::know_function, ec_typing_defs::specs::Programs::main_rule, ec_typing_defs::specs::Statements::object_rule, ec_typing_defs::specs::Statements::tag_alone, ec_typing_defs::specs::Statements::condition_rule, ec_typing_defs::specs::Statements::return_rule, ec_typing_defs::specs::Statements::return_nothing, ec_typing_defs::specs::Worlds::chain, ec_typing_defs::specs::Worlds::pure, ec_typing_defs::specs::Worlds::ask, ec_typing_defs::specs::Worlds::change, ec_typing_defs::specs::Worlds::note, ec_typing_defs::specs::Worlds::demand, ec_typing_defs::specs::Worlds::keep_within, ec_typing_defs::specs::Worlds::place, ec_typing_defs::specs::Worlds::enter, ec_typing_defs::specs::Worlds::leave, ec_typing_defs::specs::Worlds::free_name, ec_typing_defs::specs::Worlds::free_tag, ec_typing_defs::specs::Worlds::declare, ec_typing_defs::specs::Worlds::know_better, ec_typing_defs::specs::Worlds::declare_label, ec_typing_defs::specs::Worlds::number_as, ec_typing_defs::specs::Worlds::new_struct, ec_typing_defs::specs::Worlds::set_struct))]

ghost use Rattle.std.specs.Prelude.{◌≡◌, Err};
ghost use Rattle.ec_base.specs.declared.fault.FaultKind.TheVariants.{F7, F10, F14, F15, F19};
ghost use Rattle.ec_typing_defs.specs.Examples.{verdict, with_main, in_main, among_declarations, refused, fine};
ghost use Rattle.ec_base.specs.declared.stop.Stop.TheVariants.{Refused};

/// F14: operators over types that they don't take (6.5.2.1, 6.5.3, 6.5.5 to 6.5.14).
pub fn operator_examples()
    ensures sum { among_declarations "i + 1L; p + i; i + p; a + 1; c + true;" ≡ fine }
    ensures sum_of_pointers { among_declarations "p + p;" ≡ refused F14 1 }
    ensures sum_of_void_pointer { among_declarations "v + 1;" ≡ refused F14 1 }
    ensures sum_of_incomplete_pointer { among_declarations "w + 1;" ≡ refused F14 1 }
    ensures sum_of_structs { among_declarations "x + 1;" ≡ refused F14 1 }
    ensures difference { among_declarations "p - i; p - a; p - p; i - 1;" ≡ fine }
    ensures integer_minus_pointer { among_declarations "i - p;" ≡ refused F14 1 }
    ensures difference_of_two_types { among_declarations "p - c;" ≡ refused F14 1 }
    ensures difference_of_void_pointers { among_declarations "v - v;" ≡ refused F14 1 }
    ensures product_of_pointer { among_declarations "p * 2;" ≡ refused F14 1 }
    ensures shift_of_pointer { among_declarations "p << 1;" ≡ refused F14 1 }
    ensures bits_of_pointer { among_declarations "p & 1;" ≡ refused F14 1 }
    ensures equality { among_declarations
        "p == a; p == v; v == c; p == 0; NULL != p; p == 1 - 1; q == NULL; v == 0;"
        ≡ fine }
    ensures equality_of_two_types { among_declarations "p == c;" ≡ refused F14 1 }
    ensures equality_with_an_integer { among_declarations "p == 1;" ≡ refused F14 1 }
    ensures equality_with_a_variable { among_declarations "p == i;" ≡ refused F14 1 }
    ensures equality_of_structs { among_declarations "x == x;" ≡ refused F14 1 }
    ensures order { among_declarations "p < a; v <= v; w > w; i >= 'a';" ≡ fine }
    ensures order_with_void_pointer { among_declarations "p < v;" ≡ refused F14 1 }
    ensures order_with_null { among_declarations "p > 0;" ≡ refused F14 1 }
    ensures truth { among_declarations "p && i; !v || a; !i;" ≡ fine }
    ensures truth_of_struct { among_declarations "x && 1;" ≡ refused F14 1 }
    ensures not_struct { among_declarations "!x;" ≡ refused F14 1 }
    ensures sign_of_pointer { among_declarations "-p;" ≡ refused F14 1 }
    ensures complement { among_declarations "~i; ~'a'; +true; -i;" ≡ fine }
    ensures complement_of_pointer { among_declarations "~p;" ≡ refused F14 1 }
    ensures target_of_integer { among_declarations "*i;" ≡ refused F14 1 }
    ensures target_of_array { among_declarations "*a; *\"x\"; *&i; **&p;" ≡ fine }
    ensures target_of_void_pointer { among_declarations
        "*v; *w; (void)*v; (void)*w; &*v == v; &*w == w;"
        ≡ fine }
    ensures value_of_void { among_declarations "i = *v;" ≡ refused F14 1 }
    ensures value_of_incomplete_struct { among_declarations "*w == 0;" ≡ refused F14 1 }
    ensures element { among_declarations "a[1]; 1[a]; p[i]; \"x\"[0]; q[1].m;" ≡ fine }
    ensures element_of_integer { among_declarations "i[1];" ≡ refused F14 1 }
    ensures element_by_pointer { among_declarations "a[p];" ≡ refused F14 1 }
    ensures element_of_void { among_declarations "v[0];" ≡ refused F14 1 }
    ensures element_of_incomplete { among_declarations "w[0];" ≡ refused F14 1 }
    ensures member_of_integer { among_declarations "i.m;" ≡ refused F14 1 }
    ensures member_of_pointer { among_declarations "q.m;" ≡ refused F14 1 }
    ensures arrow_of_struct { among_declarations "x->m;" ≡ refused F14 1 }
    ensures arrow_of_integer_pointer { among_declarations "p->m;" ≡ refused F14 1 }
    ensures arrow_of_array { among_declarations "struct s y[2]; y->m; (*y).m;" ≡ fine }
    ensures count { among_declarations "i++; --p; c++; ++x.m;" ≡ fine }
    ensures count_of_struct { among_declarations "x++;" ≡ refused F14 1 }
    ensures count_of_void_pointer { among_declarations "v++;" ≡ refused F14 1 }
    ensures count_of_incomplete_pointer { among_declarations "++w;" ≡ refused F14 1 }
    ensures sizes { among_declarations
        "sizeof i; sizeof(int *); sizeof x; sizeof(struct s); sizeof *q; sizeof \"x\"; sizeof a; sizeof w;"
        ≡ fine }
    ensures size_of_void { among_declarations "sizeof(void);" ≡ refused F14 1 }
    ensures size_of_incomplete_struct { among_declarations "sizeof(struct u);" ≡ refused F14 1 }
    ensures size_of_void_target { among_declarations "sizeof *v;" ≡ refused F14 1 }
    ensures size_of_function { among_declarations "sizeof main;" ≡ refused F14 1 }
    ensures casts { among_declarations
        "(int)p; (char *)i; (void)x; (void)a; (long)c; (int *)v; (bool)p; (struct s *)p;"
        ≡ fine }
    ensures cast_to_struct { among_declarations "(struct s)x;" ≡ refused F14 1 }
    ensures cast_of_struct { among_declarations "(int)x;" ≡ refused F14 1 }
    ensures cast_of_void { among_declarations "(int)(void)0;" ≡ refused F14 1 }
    ensures function_as_a_value { among_declarations "main;" ≡ refused F14 1 }
    ensures function_address { among_declarations "&main;" ≡ refused F14 1 }
    ensures known_function_as_a_value { among_declarations "strlen;" ≡ refused F14 1 }
{}

/// F14 and F15 of assignments (6.5.16; 6.5.2.4; 6.5.3.1; 6.5.3.2): F14 looks at the types alone, F15 at the place.
pub fn assignment_examples()
    ensures integers { among_declarations "i = 1L; *c = 300; x.m = 'a'; a[0] = true;" ≡ fine }
    ensures pointers { among_declarations
        "p = a; p = v; v = c; p = 0; c = \"x\"; p = NULL; v = &v; q = &x; w = v;"
        ≡ fine }
    ensures pointer_from_integer { among_declarations "p = 1;" ≡ refused F14 1 }
    ensures pointer_from_variable { among_declarations "p = i;" ≡ refused F14 1 }
    ensures pointer_from_another { among_declarations "p = c;" ≡ refused F14 1 }
    ensures char_pointer_from_int_pointer { among_declarations "c = p;" ≡ refused F14 1 }
    ensures unsigned_from_char_pointer { among_declarations
        "unsigned char *d = c;"
        ≡ refused F14 1 }
    ensures signed_from_char_pointer { among_declarations "signed char *d = c;" ≡ fine }
    ensures pointer_to_pointer { among_declarations "int **d = &p; *d = p; v = d;" ≡ fine }
    ensures pointer_to_void_pointer { among_declarations "void **d = &p;" ≡ refused F14 1 }
    ensures integer_from_pointer { among_declarations "i = p;" ≡ refused F14 1 }
    ensures bool_from_pointer { among_declarations "bool b = p; b = x.n;" ≡ fine }
    ensures structs { among_declarations "x = *q; *q = x; x = x;" ≡ fine }
    ensures other_struct { among_declarations "struct t { int m; } y; y = x;" ≡ refused F14 1 }
    ensures struct_from_integer { among_declarations "x = 0;" ≡ refused F14 1 }
    ensures from_void { among_declarations "i = (void)0;" ≡ refused F14 1 }
    ensures to_array { among_declarations "a = a;" ≡ refused F15 1 }
    ensures to_array_from_any { among_declarations "a = 1;" ≡ refused F15 1 }
    ensures to_value { among_declarations "i + 1 = 2;" ≡ refused F15 1 }
    ensures to_call { among_declarations "strlen(c) = 2;" ≡ refused F15 1 }
    ensures to_literal_element { among_declarations "\"x\"[0] = 'y';" ≡ fine }
    ensures to_constant { among_declarations "1 = \"x\";" ≡ refused F14 1 }
    ensures to_constant_of_its_type { among_declarations "1 = 2;" ≡ refused F15 1 }
    ensures to_true { among_declarations "true = 0;" ≡ refused F15 1 }
    ensures to_cast { among_declarations "(int)i = 1;" ≡ refused F15 1 }
    ensures to_assignment { among_declarations "(i = 1) = 2;" ≡ refused F15 1 }
    ensures to_void_target { among_declarations "*v = 1;" ≡ refused F14 1 }
    ensures chain { among_declarations "i = a[1] = *p = 3;" ≡ fine }
    ensures member_of_a_value { among_declarations "(x = *q).m; i = (x = *q).m;" ≡ fine }
    ensures to_member_of_a_value { among_declarations "(x = *q).m = 1;" ≡ refused F15 1 }
    ensures compound { among_declarations
        "i += 2; i <<= 3L; p += i; p -= 1; i %= 'a'; c += true; *c ^= 1;"
        ≡ fine }
    ensures compound_of_pointers { among_declarations "p -= a;" ≡ refused F14 1 }
    ensures compound_of_pointer_by_product { among_declarations "p *= 2;" ≡ refused F14 1 }
    ensures compound_of_void_pointer { among_declarations "v += 1;" ≡ refused F14 1 }
    ensures compound_by_pointer { among_declarations "i += p;" ≡ refused F14 1 }
    ensures compound_of_struct { among_declarations "x += 1;" ≡ refused F14 1 }
    ensures compound_to_value { among_declarations "i + 1 += 2;" ≡ refused F15 1 }
    ensures compound_to_array { among_declarations "a += 1;" ≡ refused F15 1 }
    ensures count_of_value { among_declarations "(i + 1)++;" ≡ refused F15 1 }
    ensures count_of_count { among_declarations "++i++;" ≡ refused F15 1 }
    ensures count_of_array { among_declarations "a++;" ≡ refused F15 1 }
    ensures address { among_declarations
        "&i; &a; &a[1]; &x.m; &*p; &q->n; &\"x\"; &sqlca; &*(p + 1); &p[i];"
        ≡ fine }
    ensures address_of_value { among_declarations "&1;" ≡ refused F15 1 }
    ensures address_of_sum { among_declarations "&(i + 1);" ≡ refused F15 1 }
    ensures address_of_call { among_declarations "&strlen(c);" ≡ refused F15 1 }
    ensures address_of_address { among_declarations "&&i;" ≡ Err (Refused F7 (record { 0 = 1 })) }
    ensures address_of_an_address { among_declarations "& &i;" ≡ refused F15 1 }
    ensures address_of_an_array { among_declarations "v = &a; p = *&a;" ≡ fine }
    ensures address_of_an_array_is_no_int_pointer { among_declarations "p = &a;" ≡ refused F14 1 }
{}

/// F14 of types, objects, parameters, results, `return` and conditions (6.7.2, 6.7, 6.7.5.3, 6.8.4 to 6.8.6).
pub fn declaration_examples()
    ensures words { with_main
        "long unsigned int long a; int signed b; short int unsigned c; signed d; const char const e; unsigned f; bool g;"
        ≡ fine }
    ensures three_longs { with_main "long long long a;" ≡ refused F14 1 }
    ensures signed_unsigned { with_main "signed unsigned a;" ≡ refused F14 1 }
    ensures unsigned_bool { with_main "unsigned bool a;" ≡ refused F14 1 }
    ensures two_ints { with_main "int int a;" ≡ refused F14 1 }
    ensures short_long { with_main "short long a;" ≡ refused F14 1 }
    ensures long_char { with_main "long char a;" ≡ refused F14 1 }
    ensures void_words { with_main "unsigned void *a;" ≡ refused F14 1 }
    ensures char_is_signed { with_main "int f(char *c); int f(signed char *c);" ≡ fine }
    ensures long_is_not_long_long { with_main
        "int f(long *c);\nint f(long long *c);"
        ≡ refused F10 2 }
    ensures void_object { with_main "void a;" ≡ refused F14 1 }
    ensures void_pointer { with_main "void *a; void **b;" ≡ fine }
    ensures void_member { with_main "struct s {\nint m; void a; };" ≡ refused F14 2 }
    ensures void_elements { with_main "void a[3];" ≡ refused F14 1 }
    ensures void_elements_without_number { with_main "void a[0];" ≡ refused F14 1 }
    ensures incomplete_elements_without_number { with_main "struct s; struct s a[-1];"
        ≡ refused F14 1 }
    ensures open_elements_without_number { with_main "int a[0][];" ≡ refused F14 1 }
    ensures elements_of_elements_without_number { with_main "void a[2][0];" ≡ refused F14 1 }
    ensures complete_elements_without_number { with_main "struct s; struct s *a[0];"
        ≡ refused F19 1 }
    ensures open_array_of_no_elements { with_main "int a[][0];" ≡ refused F19 1 }
    ensures void_members_without_number { with_main "struct s { void a[0]; };" ≡ refused F14 1 }
    ensures incomplete_object { with_main "struct s; struct s a;" ≡ refused F14 1 }
    ensures incomplete_pointer { with_main
        "struct s; struct s *a, **b; struct t { struct s *p; } c;"
        ≡ fine }
    ensures object_before_its_members { with_main
        "struct s;\nstruct s a;\nstruct s { int m; };"
        ≡ refused F14 2 }
    ensures struct_in_itself { with_main "struct s {\nstruct s a; };" ≡ refused F14 2 }
    ensures array_without_length { in_main "int a[];" ≡ refused F14 1 }
    ensures array_with_initializer { in_main
        "int a[] = {1}; char b[] = \"x\"; int c[][2] = {1, 2, 3};"
        ≡ fine }
    ensures inner_length_missing { in_main "int a[2][] = {{1}, {2}};" ≡ refused F14 1 }
    ensures member_without_length { with_main "struct s {\nint m;\nint a[]; };" ≡ refused F14 3 }
    ensures member_with_initializer { with_main "struct s {\nint m = 1; };" ≡ refused F14 2 }
    ensures struct_parameter { with_main "struct s { int m; }; int f(struct s x);" ≡ refused F14 1 }
    ensures struct_pointer_parameter { with_main
        "struct s { int m; }; int f(struct s *x, struct s y[]);"
        ≡ fine }
    ensures struct_result { with_main "struct s { int m; }; struct s f(void);" ≡ refused F14 1 }
    ensures void_parameter { with_main "int f(int a, void);" ≡ refused F14 1 }
    ensures named_void_parameter { with_main "int f(void a);" ≡ refused F14 1 }
    ensures void_list { with_main "int f(void); int g(const void);" ≡ fine }
    ensures unnamed_parameter { with_main "int f(int, char *);" ≡ fine }
    ensures unnamed_in_a_definition { with_main "int f(int) { return 0; }" ≡ refused F14 1 }
    ensures array_parameter { with_main
        "int f(int a[], int b[][3], int c[2][3]) { a++; return b[0][0] + c[1][2]; }"
        ≡ fine }
    ensures inner_length_missing_in_a_parameter { with_main "int f(int a[3][]);" ≡ refused F14 1 }
    ensures void_array_parameter { with_main "int f(void a[]);" ≡ refused F14 1 }
    ensures void_parameter_without_number { with_main "int f(void a[0]);" ≡ refused F14 1 }
    ensures void_rows_of_a_parameter { with_main "int f(void a[2][0]);" ≡ refused F14 1 }
    ensures returns { verdict
        "int f(char *s) { return *s; } char *g(void) { return 0; } void h(void) { return; } int main(void) { return 1L; }"
        ≡ fine }
    ensures return_of_nothing { verdict
        "int f(void) {\nreturn; } int main(void) { }"
        ≡ refused F14 2 }
    ensures return_from_void { verdict
        "void f(void) {\nreturn 1; } int main(void) { }"
        ≡ refused F14 2 }
    ensures return_of_void { verdict
        "void f(void) { } void g(void) {\nreturn f(); } int main(void) { }"
        ≡ refused F14 2 }
    ensures return_of_pointer { verdict
        "int f(char *s) {\nreturn s; } int main(void) { }"
        ≡ refused F14 2 }
    ensures conditions { among_declarations
        "if (p) ; while (!c) ; do ; while (i); for (x; q; (void)0) ; for (;;) ;"
        ≡ fine }
    ensures struct_condition { among_declarations "if (x) ;" ≡ refused F14 1 }
    ensures void_condition { among_declarations "while ((void)0) ;" ≡ refused F14 1 }
    ensures void_statement { among_declarations "(void)0; x; for ((void)i; i; (void)i) ;" ≡ fine }
    ensures condition_of_for { among_declarations "for (; x; ) ;" ≡ refused F14 1 }
    ensures condition_of_do { among_declarations "do {\nbreak;\n} while (x);" ≡ refused F14 1 }
{}
