//! Where violations stand, which of them decides, and what a program without one is, as the contracts of functions that do nothing.
#![tactic(auto, unfolding(ec_typing_defs::specs::Expressions::type_or_fault, ec_typing_defs::specs::Expressions::tag_rule, ec_typing_defs::specs::Expressions::tagged_struct, ec_typing_defs::specs::Expressions::begin_struct, ec_typing_defs::specs::Expressions::end_struct, ec_typing_defs::specs::Expressions::member_named, ec_typing_defs::specs::Initializers::fixed_rule, ec_typing_defs::specs::Initializers::suits_rule, ec_typing_defs::specs::Initializers::part_rule, ec_typing_defs::specs::Initializers::slot_rule, ec_typing_defs::specs::Initializers::braces_rule, ec_typing_defs::specs::Operands::typed, ec_typing_defs::specs::Operands::named_by, ec_typing_defs::specs::Operands::name_rule, ec_typing_defs::specs::Operands::value_rule, ec_typing_defs::specs::Operands::address_rule, ec_typing_defs::specs::Operands::target_rule, ec_typing_defs::specs::Operands::sign_rule, ec_typing_defs::specs::Operands::binary_rule, ec_typing_defs::specs::Operands::index_rule, ec_typing_defs::specs::Operands::assign_rule, ec_typing_defs::specs::Operands::compound_rule, ec_typing_defs::specs::Operands::bump_rule, ec_typing_defs::specs::Operands::call_by, ec_typing_defs::specs::Operands::call_rule, ec_typing_defs::specs::Operands::member_rule, ec_typing_defs::specs::Operands::arrow_rule, ec_typing_defs::specs::Operands::scalar_cast, ec_typing_defs::specs::Operands::cast_rule, ec_typing_defs::specs::Operands::size_rule, ec_typing_defs::specs::Operands::length_rule, ec_typing_defs::specs::Operands::within_rule, ec_typing_defs::specs::Operands::complete_rule, ec_typing_defs::specs::Programs::result_rule, ec_typing_defs::specs::Programs::plain_param, ec_typing_defs::specs::Programs::begin_function, ec_typing_defs::specs::Programs::know_function, ec_typing_defs::specs::Programs::main_rule, ec_typing_defs::specs::Statements::object_rule, ec_typing_defs::specs::Statements::tag_alone, ec_typing_defs::specs::Statements::condition_rule, ec_typing_defs::specs::Statements::return_rule, ec_typing_defs::specs::Statements::return_nothing, ec_typing_defs::specs::Worlds::chain, ec_typing_defs::specs::Worlds::pure, ec_typing_defs::specs::Worlds::ask, ec_typing_defs::specs::Worlds::change, ec_typing_defs::specs::Worlds::note, ec_typing_defs::specs::Worlds::demand, ec_typing_defs::specs::Worlds::keep_within, ec_typing_defs::specs::Worlds::place, ec_typing_defs::specs::Worlds::enter, ec_typing_defs::specs::Worlds::leave, ec_typing_defs::specs::Worlds::free_name, ec_typing_defs::specs::Worlds::free_tag, ec_typing_defs::specs::Worlds::declare, ec_typing_defs::specs::Worlds::know_better, ec_typing_defs::specs::Worlds::declare_label, ec_typing_defs::specs::Worlds::number_as, ec_typing_defs::specs::Worlds::new_struct, ec_typing_defs::specs::Worlds::set_struct))]

ghost use Rattle.std.specs.Prelude.{◌≡◌, [], ◌∷◌, ◌++◌, codes};
ghost use Rattle.ec_base.specs.declared.fault.FaultKind.TheVariants.{F10, F11, F14, F15, F16, F18, F19, F20};
ghost use Rattle.ec_base.specs.declared.fault.LimitKind.TheVariants.{L1};
ghost use Rattle.ec_ctypes.specs.declared.types.arith.Arith.TheVariants.{Char, Long};
ghost use Rattle.ec_ctypes.specs.trees.Types.{void, arithmetic, pointer, array, structure};
ghost use Rattle.ec_ctypes.specs.LayoutExamples.{struct};
ghost use Rattle.ec_ctypes.specs.SqlcaStructs.{sqlca_structs};
ghost use Rattle.ec_typing_defs.specs.Types.{int_type};
ghost use Rattle.ec_typing_defs.specs.Examples.{verdict, violations_in, typed_in, tagged_struct, refused, limited, fault_at, limit_at};

/// All violations of a text, in the order in which the parts are looked at, with their places: functions, declarations, declarations of members and statements, counted from 0 in the order of the text (the end is the last).
pub fn place_examples()
    ensures jump_alone { violations_in
        "int f(void) { goto z; }"
        ≡ fault_at 1 F18 1 ∷ fault_at 2 F20 1 ∷ [] }
    ensures nothing { violations_in "int main(void) { return 0; }" ≡ [] }
    ensures two_in_a_declaration { violations_in
        "int x, x, y = z; int main(void) { }"
        ≡ fault_at 0 F10 1 ∷ fault_at 0 F11 1 ∷ [] }
    ensures two_in_a_statement { violations_in
        "int main(void) {\n1 = 1(x); }"
        ≡ fault_at 1 F11 2 ∷ fault_at 1 F16 2 ∷ fault_at 1 F15 2 ∷ [] }
    ensures both_of_an_assignment { violations_in
        "int main(void) { 1 = \"x\"; }"
        ≡ fault_at 1 F15 1 ∷ fault_at 1 F14 1 ∷ [] }
    ensures condition_of_do { violations_in
        "int main(void) {\ndo {\ny;\n} while (x); }"
        ≡ fault_at 3 F11 3 ∷ fault_at 1 F11 2 ∷ [] }
    ensures members_are_places { violations_in
        "struct {\nint m;\nvoid m; } x[0]; int main(void) { }"
        ≡ fault_at 2 F14 3 ∷ fault_at 2 F10 3 ∷ fault_at 0 F19 1 ∷ [] }
    ensures parameters_belong_to_their_function { violations_in
        "int f(int a,\nint a,\nvoid b); int main(void) { }"
        ≡ fault_at 0 F10 1 ∷ fault_at 0 F14 1 ∷ [] }
    ensures blocks_loops_and_labels { violations_in
        "int main(void) { { x; } while (x) x; l: x; for (int i = x; ; ) ; x; }"
        ≡ fault_at 2 F11 1 ∷ fault_at 3 F11 1 ∷ fault_at 4 F11 1
        ∷ fault_at 6 F11 1 ∷ fault_at 9 F11 1 ∷ fault_at 12 F11 1 ∷ [] }
    ensures struct_and_member_too_large { violations_in
        "struct s {\nchar a[16777217]; }; int main(void) { }"
        ≡ limit_at 1 L1 ∷ limit_at 0 L1 ∷ [] }
    ensures end { violations_in "int x;\n\n" ≡ fault_at 1 F20 3 ∷ [] }
{}

/// Which of several violations decides: the least place, there a fault before a limit, and of two faults the lower number.
pub fn first_examples()
    ensures jump_before_main { verdict "int f(void) { goto z; }" ≡ refused F18 1 }
    ensures two_declarations { verdict "int f(void) { return x; }\nint f;" ≡ refused F11 1 }
    ensures condition_of_do_before_its_body { verdict
        "int main(void) {\ndo {\ny;\n} while (x); }"
        ≡ refused F11 2 }
    ensures lower_number { verdict "int main(void) { 1 = \"x\"; }" ≡ refused F14 1 }
    ensures fault_before_limit { verdict "char a[16777217], b[0];" ≡ refused F19 1 }
    ensures limit_before_fault { verdict "char a[16777217];\nchar b[0];" ≡ limited L1 }
    ensures struct_before_its_members { verdict
        "struct s {\nchar a[16777217]; void b; };"
        ≡ limited L1 }
    ensures parameters_before_body { verdict
        "int main(void) { x; }\nint f(int a, int a) { goto l; }"
        ≡ refused F11 1 }
    ensures later_declaration_stands { verdict "long x;\nint *x;\nint *y = &x;" ≡ refused F10 2 }
{}

/// A rule speaks only where its parts have types.
pub fn silent_examples()
    ensures operand { violations_in "int main(void) { x + sqlca; }" ≡ fault_at 1 F11 1 ∷ [] }
    ensures assignment { violations_in "int main(void) { x = sqlca; }" ≡ fault_at 1 F11 1 ∷ [] }
    ensures left_side_alone { violations_in
        "int main(void) { 1 = x; }"
        ≡ fault_at 1 F11 1 ∷ fault_at 1 F15 1 ∷ [] }
    ensures argument { violations_in
        "int f(int a) { return a; } int main(void) { f(x); f(x, 1); }"
        ≡ fault_at 3 F11 1 ∷ fault_at 4 F11 1 ∷ fault_at 4 F16 1 ∷ [] }
    ensures parameter { violations_in
        "int f(struct s *a) { return 1; } int main(void) { f(1); }"
        ≡ fault_at 0 F11 1 ∷ [] }
    ensures object { violations_in
        "int main(void) { struct s *a; a->m; *a; a = 1; a; }"
        ≡ fault_at 2 F11 1 ∷ [] }
    ensures length { violations_in
        "int main(void) { int a[x]; a[0] = 1; sizeof a; }"
        ≡ fault_at 2 F11 1 ∷ [] }
    ensures result { violations_in
        "struct s *f(void) { return 1; } int main(void) { }"
        ≡ fault_at 0 F11 1 ∷ [] }
    ensures member { violations_in
        "struct s { struct t m; } a; int b[sizeof a]; int c[sizeof a.m]; int main(void) { a.m = 1; }"
        ≡ fault_at 1 F11 1 ∷ [] }
    ensures initializer { violations_in
        "int a = x, b[] = {x}, c[sizeof b]; int main(void) { }"
        ≡ fault_at 0 F11 1 ∷ fault_at 0 F11 1 ∷ [] }
    ensures condition { violations_in
        "int main(void) { if (x) ; return x; }"
        ≡ fault_at 1 F11 1 ∷ fault_at 3 F11 1 ∷ [] }
    ensures incomplete_object_in_its_initializer { violations_in
        "struct s; struct s a = a; int main(void) { a; }"
        ≡ fault_at 1 F14 1 ∷ [] }
{}

/// The structs of a program by the places where their members close, and the types of its declarations in the order of the text. Two structs, those of `sqlca`, stand before all others.
pub fn typed_examples()
    ensures numbers { typed_in
        "struct u; struct s { struct { char c; } x; struct s *p; struct u *w; } y, *z[2]; int f(struct s *a, char b[3], int); int f(struct s *a, char b[3], int c) { int i = 1, j[] = {1, 2}; { long i; } return 0; } int main(void) { }"
        ≡ (
          sqlca_structs ++ (struct ((codes "c", arithmetic Char) ∷ [])
              ∷ tagged_struct "s" ((codes "x", structure 2)
              ∷ (codes "p", pointer (structure 3)) ∷ (codes "w", pointer (structure 4)) ∷ [])
              ∷ tagged_struct "u" [] ∷ []),
          (0, structure 3) ∷ (1, array (pointer (structure 3)) 2) ∷ (2, int_type)
              ∷ (3, pointer (structure 3)) ∷ (4, pointer (arithmetic Char))
              ∷ (5, int_type) ∷ (6, int_type)
              ∷ (7, pointer (structure 3)) ∷ (8, pointer (arithmetic Char)) ∷ (9, int_type)
              ∷ (10, int_type) ∷ (11, array int_type 2)
              ∷ (12, arithmetic Long) ∷ (13, int_type) ∷ [],
        ) }
    ensures inner_tags { typed_in
        "struct s { int m; }; int main(void) { struct s { long m; } a; { struct t *b; struct t { struct s *c; } d; } }"
        ≡ (
          sqlca_structs ++ (tagged_struct "s" ((codes "m", int_type) ∷ [])
              ∷ tagged_struct "s" ((codes "m", arithmetic Long) ∷ [])
              ∷ tagged_struct "t" ((codes "c", pointer (structure 3)) ∷ []) ∷ []),
          (0, int_type) ∷ (1, structure 3) ∷ (2, void) ∷ (3, structure 4) ∷ [],
        ) }
    ensures nothing { typed_in "" ≡ (sqlca_structs, []) }
{}
