//! Resolved forms of expressions, as the contracts of functions that do nothing.
#![tactic(auto, unfolding(crate::specs::Expressions::library_literal, crate::specs::Initializers::stored_at, crate::specs::Storage::arrange, crate::specs::Storage::ask, crate::specs::Storage::chain, crate::specs::Storage::checks, crate::specs::Storage::pure, crate::specs::Storage::stored, ec_typing_defs::specs::Embedded::denote, ec_typing_defs::specs::Embedded::members_rule, ec_typing_defs::specs::Embedded::reference_rule, ec_typing_defs::specs::Expressions::begin_struct, ec_typing_defs::specs::Expressions::end_struct, ec_typing_defs::specs::Expressions::member_named, ec_typing_defs::specs::Expressions::tag_rule, ec_typing_defs::specs::Expressions::tagged_struct, ec_typing_defs::specs::Expressions::type_or_fault, ec_typing_defs::specs::Expressions::varchar_member, ec_typing_defs::specs::Expressions::varchar_object, ec_typing_defs::specs::Expressions::varchar_struct, ec_typing_defs::specs::Initializers::braces_rule, ec_typing_defs::specs::Initializers::fixed_rule, ec_typing_defs::specs::Initializers::part_rule, ec_typing_defs::specs::Initializers::slot_rule, ec_typing_defs::specs::Initializers::suits_rule, ec_typing_defs::specs::Operands::address_rule, ec_typing_defs::specs::Operands::arrow_rule, ec_typing_defs::specs::Operands::assign_rule, ec_typing_defs::specs::Operands::binary_rule, ec_typing_defs::specs::Operands::bump_rule, ec_typing_defs::specs::Operands::call_by, ec_typing_defs::specs::Operands::call_rule, ec_typing_defs::specs::Operands::cast_rule, ec_typing_defs::specs::Operands::complete_rule, ec_typing_defs::specs::Operands::compound_rule, ec_typing_defs::specs::Operands::index_rule, ec_typing_defs::specs::Operands::length_rule, ec_typing_defs::specs::Operands::member_rule, ec_typing_defs::specs::Operands::name_rule, ec_typing_defs::specs::Operands::named_by, ec_typing_defs::specs::Operands::scalar_cast, ec_typing_defs::specs::Operands::sign_rule, ec_typing_defs::specs::Operands::size_rule, ec_typing_defs::specs::Operands::target_rule, ec_typing_defs::specs::Operands::typed, ec_typing_defs::specs::Operands::value_rule, ec_typing_defs::specs::Operands::within_rule, ec_typing_defs::specs::Programs::begin_function, ec_typing_defs::specs::Programs::know_function, ec_typing_defs::specs::Programs::main_rule, ec_typing_defs::specs::Programs::plain_param, ec_typing_defs::specs::Programs::result_rule, ec_typing_defs::specs::Statements::condition_rule, ec_typing_defs::specs::Statements::object_rule, ec_typing_defs::specs::Statements::return_nothing, ec_typing_defs::specs::Statements::return_rule, ec_typing_defs::specs::Statements::tag_alone, ec_typing_defs::specs::Worlds::ask, ec_typing_defs::specs::Worlds::chain, ec_typing_defs::specs::Worlds::change, ec_typing_defs::specs::Worlds::declare, ec_typing_defs::specs::Worlds::declare_label, ec_typing_defs::specs::Worlds::demand, ec_typing_defs::specs::Worlds::enter, ec_typing_defs::specs::Worlds::free_name, ec_typing_defs::specs::Worlds::free_tag, ec_typing_defs::specs::Worlds::instead, ec_typing_defs::specs::Worlds::keep_within, ec_typing_defs::specs::Worlds::know_better, ec_typing_defs::specs::Worlds::leave, ec_typing_defs::specs::Worlds::new_struct, ec_typing_defs::specs::Worlds::note, ec_typing_defs::specs::Worlds::number_as, ec_typing_defs::specs::Worlds::place, ec_typing_defs::specs::Worlds::pure, ec_typing_defs::specs::Worlds::set_struct))]

ghost use Rattle.std.specs.Prelude.{◌≡◌, true, false, [], ◌∷◌};
ghost use Rattle.ec_ctypes.specs.declared.types.arith.Arith.TheVariants.{Int, UInt, Long, ULong, LLong};
ghost use Rattle.ec_meaning_defs.specs.functions.Formats.{absent, plain, integer, text, signed_decimal, unsigned_decimal};
ghost use Rattle.ec_meaning_defs.specs.functions.Functions.{standard_output, standard_error, print, puts, putchar, strncmp, memset, exit, sqlprint};
ghost use Rattle.ec_meaning_defs.specs.resolved.Operations.{plus, minus, times, divided, remainder, bits_and, bits_or, integers, shift_left, shift_right, compare, equal, unequal, less, at_least, pointer_plus, plus_pointer, pointer_minus, pointers_apart};
ghost use Rattle.ec_meaning_defs.specs.resolved.Resolved.{object, member, load, whole, store, copy, update, convert, negate, flip, not, operate, both, either, call, known};
ghost use Rattle.ec_meaning_defs.specs.evaluation.Examples.{int, char, short, unsigned, bool, lit, below, get, set, null, bump, read_as, args};
ghost use Rattle.ec_resolving_defs.specs.Examples.{forms, form, field, literal, i, c, l, u, b, p, q, v, a, x, y, r, d, h, n, o, w, uchar, long, ulong, llong, pointer, as_read};

/// Names and literals (6.5.1): an object is its address, and is read where its value is wanted.
pub fn name_forms()
    ensures object { form "i;"
        ≡ get i }
    ensures pointer_object { form "p;"
        ≡ load pointer p }
    ensures array_is_its_address { form "a;"
        ≡ a }
    ensures struct_as_a_statement { form "x;"
        ≡ whole 16 x }
    ensures target_of_void { form "*v;"
        ≡ load pointer v }
    ensures target_of_an_open_struct { form "*w;"
        ≡ load pointer w }
    ensures sqlca { form "sqlca.sqlcode;"
        ≡ load long (member 16 (object 1)) }
    ensures sqlcode_alone { form "SQLCODE;"
        ≡ load long (member 16 (object 1)) }
    ensures null { form "p = NULL;"
        ≡ store pointer p null }
    ensures true_is_an_int { form "i = true;"
        ≡ set i (lit 1) }
    ensures false_is_an_int { form "l = false;"
        ≡ store long l (convert int long (lit 0)) }
    ensures character { form "i = '\\377';"
        ≡ set i (below 0) }
    ensures literal { form "q = \"ab\";"
        ≡ store pointer q literal }
{}

/// Operators on values (6.5.3.3, 6.5.5 to 6.5.14), with the conversions of their operands.
pub fn operator_forms()
    ensures minus { form "-i;"
        ≡ negate Int (get i) }
    ensures minus_of_a_char { form "-c;"
        ≡ negate Int (read_as char c) }
    ensures minus_of_an_unsigned { form "-u;"
        ≡ negate UInt (load unsigned u) }
    ensures plus_promotes { form "+h;"
        ≡ read_as short h }
    ensures flip_of_a_long { form "~l;"
        ≡ flip Long (load long l) }
    ensures not_of_a_bool { form "!b;"
        ≡ not (load bool b) }
    ensures not_of_a_pointer { form "!p;"
        ≡ not (load pointer p) }
    ensures common_type { form "i + l;"
        ≡ operate (integers Long plus) (as_read int long i) (load long l) }
    ensures of_smaller_types { form "c * d;"
        ≡ operate (integers Int times) (read_as char c) (read_as uchar d) }
    ensures of_unsigned { form "i - u;"
        ≡ operate (integers UInt minus) (as_read int unsigned i) (load unsigned u) }
    ensures long_and_unsigned_long { form "l / n;"
        ≡ operate (integers ULong divided) (as_read long ulong l) (load ulong n) }
    ensures long_and_long_long { form "l % o;"
        ≡ operate (integers LLong remainder) (as_read long llong l) (load llong o) }
    ensures bits { form "b & c;"
        ≡ operate (integers Int bits_and) (read_as bool b) (read_as char c) }
    ensures shift_left { form "c << l;"
        ≡ operate (shift_left Int) (read_as char c) (load long l) }
    ensures shift_right_by_a_char { form "l >> c;"
        ≡ operate (shift_right Long) (load long l) (read_as char c) }
    ensures comparison { form "i < u;"
        ≡ operate (compare less) (as_read int unsigned i) (load unsigned u) }
    ensures comparison_of_chars { form "c == d;"
        ≡ operate (compare equal) (read_as char c) (read_as uchar d) }
    ensures both_sides_as_they_are { form "c && l;"
        ≡ both (load char c) (load long l) }
    ensures either_of_pointers { form "p || i;"
        ≡ either (load pointer p) (get i) }
    ensures pointers_compared { form "p >= a;"
        ≡ operate (compare at_least) (load pointer p) a }
    ensures pointer_and_null { form "p != 0;"
        ≡ operate (compare unequal) (load pointer p) (convert int pointer (lit 0)) }
    ensures null_and_pointer { form "0L == v;"
        ≡ operate (compare equal) (convert long pointer (lit 0)) (load pointer v) }
    ensures pointer_plus { form "p + c;"
        ≡ operate (pointer_plus 4) (load pointer p) (load char c) }
    ensures plus_pointer { form "1 + r;"
        ≡ operate (plus_pointer 16) (lit 1) (load pointer r) }
    ensures pointer_minus { form "q - n;"
        ≡ operate (pointer_minus 1) (load pointer q) (load ulong n) }
    ensures apart { form "&x - r;"
        ≡ operate (pointers_apart 16) x (load pointer r) }
    ensures apart_in_an_array { form "a - p;"
        ≡ operate (pointers_apart 4) a (load pointer p) }
{}

/// Places (6.5.2.1, 6.5.2.3, 6.5.3.2).
pub fn place_forms()
    ensures target { form "*p;"
        ≡ get (load pointer p) }
    ensures address { form "v = &i;"
        ≡ store pointer v i }
    ensures address_of_an_array { form "v = &a;"
        ≡ store pointer v a }
    ensures address_of_a_target { form "v = &*p;"
        ≡ store pointer v (load pointer p) }
    ensures address_of_a_target_of_void { form "v = &*v;"
        ≡ store pointer v (load pointer v) }
    ensures element { form "a[c];"
        ≡ get (operate (pointer_plus 4) a (load char c)) }
    ensures element_turned_round { form "2[p];"
        ≡ get (operate (plus_pointer 4) (lit 2) (load pointer p)) }
    ensures member { form "x.m;"
        ≡ get (member 4 x) }
    ensures first_member { form "x.k;"
        ≡ load char (member 0 x) }
    ensures member_behind_a_pointer { form "r->m;"
        ≡ get (member 4 (load pointer r)) }
    ensures array_member { form "r->t[1];"
        ≡ get (operate (pointer_plus 4) (member 8 (load pointer r)) (lit 1)) }
    ensures member_of_an_element { form "r[2].t;"
        ≡ member 8 (operate (pointer_plus 16) (load pointer r) (lit 2)) }
    ensures member_of_an_assignment { form "(x = y).m;"
        ≡ get (member 4 (copy 16 x y)) }
{}

/// Assignments (6.5.16), `++` and `--` (6.5.2.4, 6.5.3.1).
pub fn assignment_forms()
    ensures int { form "i = 5;"
        ≡ set i (lit 5) }
    ensures narrowed { form "c = i;"
        ≡ store char c (convert int char (get i)) }
    ensures widened { form "l = c;"
        ≡ store long l (as_read char long c) }
    ensures same_size { form "o = l;"
        ≡ store llong o (as_read long llong l) }
    ensures to_bool { form "b = i;"
        ≡ store bool b (convert int bool (get i)) }
    ensures pointer_to_bool { form "b = p;"
        ≡ store bool b (as_read pointer bool p) }
    ensures pointer { form "v = p;"
        ≡ store pointer v (load pointer p) }
    ensures zero_to_a_pointer { form "p = 0;"
        ≡ store pointer p (convert int pointer (lit 0)) }
    ensures array_to_a_pointer { form "p = a;"
        ≡ store pointer p a }
    ensures chain { form "c = i = 7;"
        ≡ store char c (convert int char (set i (lit 7))) }
    ensures a_struct { form "x = *r;"
        ≡ copy 16 x (load pointer r) }
    ensures struct_chain { form "x = y = *r;"
        ≡ copy 16 x (copy 16 y (load pointer r)) }
    ensures place_of_an_expression { form "*p = a[0];"
        ≡ set (load pointer p) (get (operate (pointer_plus 4) a (lit 0))) }
    ensures add { form "i += c;"
        ≡ update (record {
          kind = int;
          widened = int;
          operation = integers Int plus;
          gives_old = false;
        }) i (read_as char c) }
    ensures char_and_int { form "c += i;"
        ≡ update (record {
          kind = char;
          widened = int;
          operation = integers Int plus;
          gives_old = false;
        }) c (get i) }
    ensures int_and_unsigned_long { form "i *= n;"
        ≡ update (record {
          kind = int;
          widened = ulong;
          operation = integers ULong times;
          gives_old = false;
        }) i (load ulong n) }
    ensures unsigned_and_int { form "u -= i;"
        ≡ update (record {
          kind = unsigned;
          widened = unsigned;
          operation = integers UInt minus;
          gives_old = false;
        }) u (as_read int unsigned i) }
    ensures shifted { form "c <<= l;"
        ≡ update (record {
          kind = char;
          widened = int;
          operation = shift_left Int;
          gives_old = false;
        }) c (load long l) }
    ensures shifted_by_a_char { form "n >>= c;"
        ≡ update (record {
          kind = ulong;
          widened = ulong;
          operation = shift_right ULong;
          gives_old = false;
        }) n (read_as char c) }
    ensures bool_or { form "b |= i;"
        ≡ update (record {
          kind = bool;
          widened = int;
          operation = integers Int bits_or;
          gives_old = false;
        }) b (get i) }
    ensures pointer_moved { form "r += c;"
        ≡ update (record {
          kind = pointer;
          widened = pointer;
          operation = pointer_plus 16;
          gives_old = false;
        }) r (load char c) }
    ensures pointer_moved_back { form "q -= 2;"
        ≡ update (record {
          kind = pointer;
          widened = pointer;
          operation = pointer_minus 1;
          gives_old = false;
        }) q (lit 2) }
    ensures before { form "++i;"
        ≡ bump int int (integers Int plus) false i }
    ensures behind { form "i--;"
        ≡ bump int int (integers Int minus) true i }
    ensures char_before { form "--c;"
        ≡ bump char int (integers Int minus) false c }
    ensures bool_behind { form "b++;"
        ≡ bump bool int (integers Int plus) true b }
    ensures long_behind { form "l++;"
        ≡ update (record {
          kind = long;
          widened = long;
          operation = integers Long plus;
          gives_old = true;
        }) l (convert int long (lit 1)) }
    ensures pointer_behind { form "p++;"
        ≡ bump pointer pointer (pointer_plus 4) true p }
    ensures pointer_before { form "--r;"
        ≡ bump pointer pointer (pointer_minus 16) false r }
{}

/// Calls (6.5.2.2), of functions of the program and of known ones; where a call's value isn't used.
pub fn call_forms()
    ensures arguments_as_parameters { form "i = f(i, c);"
        ≡ set i (call 0 true (args (convert int char (get i) ∷ as_read char long c ∷ []))) }
    ensures not_used { form "f(c, l);"
        ≡ call 0 false (args (load char c ∷ load long l ∷ [])) }
    ensures not_used_cast_to_void { form "(void)f(c, l);"
        ≡ call 0 false (args (load char c ∷ load long l ∷ [])) }
    ensures used_under_two_casts { form "(void)(void)f(c, l);"
        ≡ call 0 true (args (load char c ∷ load long l ∷ [])) }
    ensures used_under_another_cast { form "(int)f(c, l);"
        ≡ call 0 true (args (load char c ∷ load long l ∷ [])) }
    ensures used_as_an_operand { form "f(c, l) || 1;"
        ≡ either (call 0 true (args (load char c ∷ load long l ∷ []))) (lit 1) }
    ensures without_a_result { form "g();"
        ≡ call 1 false (args []) }
    ensures without_a_result_under_two_casts { form "(void)(void)g();"
        ≡ call 1 false (args []) }
    ensures itself { form "main();"
        ≡ call 2 false (args []) }
    ensures puts { form "puts(q);"
        ≡ known puts (args (load pointer q ∷ [])) }
    ensures putchar { form "putchar(l);"
        ≡ known putchar (args (convert long int (load long l) ∷ [])) }
    ensures size_of_a_front { form "strncmp(q, \"x\", i);"
        ≡ known strncmp (args (load pointer q ∷ literal ∷ as_read int ulong i ∷ [])) }
    ensures fill { form "memset(&x, c, sizeof x);"
        ≡ known memset (args (x ∷ read_as char c ∷ lit 16 ∷ [])) }
    ensures exit { form "exit(b);"
        ≡ known exit (args (read_as bool b ∷ [])) }
    ensures sqlprint { form "sqlprint();"
        ≡ known sqlprint (args []) }
    ensures format { form "printf(\"%d %s\\n\", c, q);"
        ≡ known (print standard_output (integer field false signed_decimal ∷ plain (32 ∷ [])
        ∷ text field absent ∷ plain (10 ∷ []) ∷ [])) (args (read_as char c ∷ load pointer q ∷ [])) }
    ensures format_to_the_second_output { form "fprintf(stderr, \"%lu\", n);"
        ≡ known (print standard_error (integer field true unsigned_decimal ∷ []))
        (args (load ulong n ∷ [])) }
    ensures format_to_the_first_output { form "fprintf(stdout, \"a\");"
        ≡ known (print standard_output (plain (97 ∷ []) ∷ [])) (args []) }
    ensures format_is_an_object { forms "puts(\"a\"); printf(\"b\"); puts(\"c\");"
        ≡ known puts (args (object 19 ∷ [])) ∷ known (print standard_output (plain (98 ∷ []) ∷ []))
        (args []) ∷ known puts (args (object 21 ∷ [])) ∷ [] }
{}

/// Casts (6.5.4) and sizes (6.5.3.4).
pub fn cast_forms()
    ensures to_a_narrower_type { form "(char)i;"
        ≡ convert int char (get i) }
    ensures to_its_own_type { form "(int)i;"
        ≡ get i }
    ensures to_bool { form "(bool)p;"
        ≡ as_read pointer bool p }
    ensures pointer_to_a_number { form "(long)p;"
        ≡ as_read pointer long p }
    ensures array_to_a_number { form "(unsigned)a;"
        ≡ convert pointer unsigned a }
    ensures number_to_a_pointer { form "(int *)l;"
        ≡ as_read long pointer l }
    ensures pointer_to_a_pointer { form "(char *)p;"
        ≡ load pointer p }
    ensures to_void { form "(void)i;"
        ≡ get i }
    ensures struct_to_void { form "(void)x;"
        ≡ whole 16 x }
    ensures size_of_a_type { form "sizeof(long);"
        ≡ lit 8 }
    ensures size_of_an_array { form "sizeof a;"
        ≡ lit 12 }
    ensures size_of_a_pointer { form "sizeof(struct s *);"
        ≡ lit 8 }
    ensures size_of_a_literal_is_an_object { forms "sizeof \"ab\"; puts(\"c\");"
        ≡ lit 3 ∷ known puts (args (object 20 ∷ [])) ∷ [] }
    ensures literal_in_a_type { forms "(struct { char k[sizeof \"ab\"]; } *)v; puts(\"c\");"
        ≡ load pointer v ∷ known puts (args (object 20 ∷ [])) ∷ [] }
    ensures size_evaluates_nothing { form "sizeof(i++);"
        ≡ lit 4 }
{}
