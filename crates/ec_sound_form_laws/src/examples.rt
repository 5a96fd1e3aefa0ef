//! Programs that are computed to be sound.
#![tactic(auto, unfolding(ec_resolving_defs::specs::Expressions::library_literal, ec_resolving_defs::specs::Initializers::stored_at, ec_resolving_defs::specs::Storage::arrange, ec_resolving_defs::specs::Storage::ask, ec_resolving_defs::specs::Storage::chain, ec_resolving_defs::specs::Storage::checks, ec_resolving_defs::specs::Storage::pure, ec_resolving_defs::specs::Storage::stored, ec_typing_defs::specs::Embedded::denote, ec_typing_defs::specs::Embedded::members_rule, ec_typing_defs::specs::Embedded::reference_rule, ec_typing_defs::specs::Expressions::begin_struct, ec_typing_defs::specs::Expressions::end_struct, ec_typing_defs::specs::Expressions::member_named, ec_typing_defs::specs::Expressions::tag_rule, ec_typing_defs::specs::Expressions::tagged_struct, ec_typing_defs::specs::Expressions::type_or_fault, ec_typing_defs::specs::Expressions::varchar_member, ec_typing_defs::specs::Expressions::varchar_object, ec_typing_defs::specs::Expressions::varchar_struct, ec_typing_defs::specs::Initializers::braces_rule, ec_typing_defs::specs::Initializers::fixed_rule, ec_typing_defs::specs::Initializers::part_rule, ec_typing_defs::specs::Initializers::slot_rule, ec_typing_defs::specs::Initializers::suits_rule, ec_typing_defs::specs::Operands::address_rule, ec_typing_defs::specs::Operands::arrow_rule, ec_typing_defs::specs::Operands::assign_rule, ec_typing_defs::specs::Operands::binary_rule, ec_typing_defs::specs::Operands::bump_rule, ec_typing_defs::specs::Operands::call_by, ec_typing_defs::specs::Operands::call_rule, ec_typing_defs::specs::Operands::cast_rule, ec_typing_defs::specs::Operands::complete_rule, ec_typing_defs::specs::Operands::compound_rule, ec_typing_defs::specs::Operands::index_rule, ec_typing_defs::specs::Operands::length_rule, ec_typing_defs::specs::Operands::member_rule, ec_typing_defs::specs::Operands::name_rule, ec_typing_defs::specs::Operands::named_by, ec_typing_defs::specs::Operands::scalar_cast, ec_typing_defs::specs::Operands::sign_rule, ec_typing_defs::specs::Operands::size_rule, ec_typing_defs::specs::Operands::target_rule, ec_typing_defs::specs::Operands::typed, ec_typing_defs::specs::Operands::value_rule, ec_typing_defs::specs::Operands::within_rule, ec_typing_defs::specs::Programs::begin_function, ec_typing_defs::specs::Programs::know_function, ec_typing_defs::specs::Programs::main_rule, ec_typing_defs::specs::Programs::plain_param, ec_typing_defs::specs::Programs::result_rule, ec_typing_defs::specs::Statements::condition_rule, ec_typing_defs::specs::Statements::object_rule, ec_typing_defs::specs::Statements::return_nothing, ec_typing_defs::specs::Statements::return_rule, ec_typing_defs::specs::Statements::tag_alone, ec_typing_defs::specs::Worlds::ask, ec_typing_defs::specs::Worlds::chain, ec_typing_defs::specs::Worlds::change, ec_typing_defs::specs::Worlds::declare, ec_typing_defs::specs::Worlds::declare_label, ec_typing_defs::specs::Worlds::demand, ec_typing_defs::specs::Worlds::enter, ec_typing_defs::specs::Worlds::free_name, ec_typing_defs::specs::Worlds::free_tag, ec_typing_defs::specs::Worlds::instead, ec_typing_defs::specs::Worlds::keep_within, ec_typing_defs::specs::Worlds::know_better, ec_typing_defs::specs::Worlds::leave, ec_typing_defs::specs::Worlds::new_struct, ec_typing_defs::specs::Worlds::note, ec_typing_defs::specs::Worlds::number_as, ec_typing_defs::specs::Worlds::place, ec_typing_defs::specs::Worlds::pure, ec_typing_defs::specs::Worlds::set_struct))]

ghost use Rattle.std.specs.Prelude.{◌≡◌, ℕ, true, false, [], ◌∷◌, Ok, None};
ghost use Rattle.ec_ctypes.specs.declared.tree.expr.BinOp.TheVariants.{And};
ghost use Rattle.ec_typing_defs.specs.Examples.{verdict};
ghost use Rattle.ec_typing_defs.specs.Types.{int_type, is_compound};
ghost use Rattle.ec_typing_defs.specs.Worlds.{World};
ghost use Rattle.ec_meaning_defs.specs.evaluation.State.{stuck};
ghost use Rattle.ec_meaning_defs.specs.resolved.Resolved.{Exp, faulty};
ghost use Rattle.ec_resolving_defs.specs.Conversions.{compound};
ghost use Rattle.ec_resolving_defs.specs.Examples.{shows};
ghost use Rattle.ec_sound_defs.specs.Sorts.{number_sort, address_sort, any_sort};
ghost use Rattle.ec_sound_form_laws.specs.Examples.{taking, is_sound_text, calls_of_text};

/// Programs that are accepted are computed to be sound, and one with a violation isn't.
pub fn sound_examples()
    ensures least { is_sound_text (taking 0 number_sort ∷ [])
        "int main(void) { return 0; }" ≡ true }
    ensures calls { is_sound_text (taking 2 number_sort ∷ taking 1 address_sort ∷ taking 0 any_sort ∷ taking 0 number_sort ∷ [])
        "long f(char c, int *p) { return c + *p; } char *g(char *s) { return s + 1; } void h(void) { return; } int main(void) { int x = 3; h(); (void) g(\"ab\"); return f('a', &x); }" ≡ true }
    ensures places { is_sound_text (taking 0 number_sort ∷ [])
        "struct s { char k; int m; int t[2]; } y; int a[3] = {1, 2}; int main(void) { struct s x = {1, 2, {3}}; struct s *r = &x; y = x; r->t[1] += a[0]++ + *a; return (y = *r).m + sizeof x - (&a[2] - a); }" ≡ true }
    ensures statements { is_sound_text (taking 0 number_sort ∷ [])
        "int main(void) { int i; for (i = 0; i < 3; i++) { char c = i; if (c) continue; else break; } do { goto out; } while (!i); out: while (1) { int k[2]; k[0] = i; { out2: break; } } return i == 0 || i && 1; }" ≡ true }
    ensures formats { is_sound_text (taking 0 number_sort ∷ [])
        "int main(void) { char t[3] = \"ab\"; printf(\"%*d%.*s%c%%%lu\", 3, 4, 2, t, 'c', 5ul); fprintf(stderr, \"%s\", t); strcpy(t, \"c\"); puts(t); memset(t, 0, 3); exit(strlen(t)); }" ≡ true }
    ensures no_address { is_sound_text (taking 1 number_sort ∷ taking 0 number_sort ∷ [])
        "char *g(char *s) { return s; } int main(void) { return *g(\"a\"); }" ≡ false }
    ensures refused { is_sound_text (taking 0 number_sort ∷ [])
        "int main(void) { return x; }" ≡ false }
{}

/// Calls of the library in written C are calls, and a list that is none isn't.
pub fn call_examples()
    ensures taken { calls_of_text
        "int main(void) { int x; char *q; ECPGdo(1, NULL, ECPGst_normal, \"x\", ECPGt_char, q, 0L, 1L, 8L, ECPGt_NO_INDICATOR, NULL, 0L, 0L, 0L, ECPGt_EOIT, ECPGt_int, &x, 0L, 1L, 4L, ECPGt_NO_INDICATOR, NULL, 0L, 0L, 0L, ECPGt_EORT); ECPGtrans(2, NULL, \"commit\"); }"
        ≡ (2, true) }
    ensures no_length { calls_of_text
        "int main(void) { ECPGtrans(2, NULL); }" ≡ (1, false) }
{}

/// A whole program, which stands in `examples/exec/primes.c`.
pub fn sound_program()
    ensures { is_sound_text
        (taking 0 any_sort ∷ taking 2 address_sort ∷ taking 0 number_sort ∷ [])
        "#include <stdio.h>\n#include <string.h>\n\nstruct tally {\n    int count;\n    long sum;\n};\n\nchar composite[100];\n\nstatic void sieve(void)\n{\n    memset(composite, 0, sizeof composite);\n    for (int i = 2; i < 100; i++)\n        for (int j = i + i; j < 100; j += i)\n            composite[j] = 1;\n}\n\nstatic struct tally *add(struct tally *t, int n)\n{\n    t->count++;\n    t->sum += n;\n    return t;\n}\n\nint main(void)\n{\n    struct tally t = { 0, 0 };\n    sieve();\n    for (int n = 2; n < 100; n++) {\n        if (composite[n])\n            continue;\n        printf(\"%3d\", n);\n        if (add(&t, n)->count % 10 == 0)\n            puts(\"\");\n    }\n    printf(\"\\n%d primes, whose sum is %ld\\n\", t.count, t.sum);\n    fprintf(stderr, \"a sieve of %lu bytes\\n\", sizeof composite);\n    return t.count;\n}\n" ≡ true }
{}

/// What the checks of types alone let through, though its run is stuck: a VARCHAR as a type, which the phase of declare
/// sections refuses, and `&&=`, which the grammar does not have. So the law asks for programs that are read from a text,
/// with all phases.
pub fn other_phases_are_needed()
    ensures varchar_has_no_violation { verdict "int main(void) { return (VARCHAR) 1; }" ≡ Ok None }
    ensures varchar_is_stuck { shows 9 "int main(void) { return (VARCHAR) 1; }" ≡ ([], stuck) }
    ensures and_assigns { is_compound (λ t. true) And int_type int_type ≡ true }
    ensures and_is_faulty { (w : World) (place e : Exp)
        → compound w And false int_type place int_type e ≡ faulty }
{}
