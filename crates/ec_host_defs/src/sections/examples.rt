//! What is said of marks and VARCHARs, as the contracts of functions that do nothing. Declarations are counted from 0.

ghost use Rattle.std.specs.Prelude.{◌≡◌, [], ◌∷◌, Ok};
ghost use Rattle.ec_base.specs.declared.fault.FaultKind.TheVariants.{F9, F13};
ghost use Rattle.ec_host_defs.specs.sections.Examples.{hosts_in, refused};

/// What is declared between two marks, or by a declaration behind EXEC SQL, stands in a section.
pub fn host_examples()
    ensures none { hosts_in "int x; int main(void) { int y; }" ≡ Ok [] }
    ensures in_place { hosts_in "int x; EXEC SQL int y, z; int w;" ≡ Ok (1 ∷ 2 ∷ []) }
    ensures between_marks { hosts_in
        "int x; EXEC SQL BEGIN DECLARE SECTION; int y; EXEC SQL END DECLARE SECTION; int z;"
        ≡ Ok (1 ∷ []) }
    ensures parameters_count { hosts_in
        "int f(int a, int); EXEC SQL int y;"
        ≡ Ok (3 ∷ []) }
    ensures members_do_not { hosts_in "struct { int a, b; } x; EXEC SQL int y;" ≡ Ok (1 ∷ []) }
    ensures function_and_parameters { hosts_in
        "EXEC SQL BEGIN DECLARE SECTION; int f(int a) { int b; EXEC SQL END DECLARE SECTION; int c; }"
        ≡ Ok (0 ∷ 1 ∷ 2 ∷ []) }
    ensures in_blocks { hosts_in
        "int main(void) { int a; if (a) { EXEC SQL int b; } else { int c; EXEC SQL int d; } for (int e; ; ) ; l: { EXEC SQL int g; } }"
        ≡ Ok (2 ∷ 4 ∷ 6 ∷ []) }
{}

/// Marks pair like brackets over the whole program, and no section stands in another.
pub fn mark_examples()
    ensures open_alone { hosts_in "int x;\nEXEC SQL BEGIN DECLARE SECTION; int y;" ≡ refused F9 2 }
    ensures close_alone { hosts_in "int x;\nEXEC SQL END DECLARE SECTION; int y;" ≡ refused F9 2 }
    ensures two_opens_one_close { hosts_in
        "EXEC SQL BEGIN DECLARE SECTION;\nEXEC SQL BEGIN DECLARE SECTION;\nEXEC SQL END DECLARE SECTION;"
        ≡ refused F9 1 }
    ensures section_in_a_section { hosts_in
        "EXEC SQL BEGIN DECLARE SECTION;\nEXEC SQL BEGIN DECLARE SECTION;\nEXEC SQL END DECLARE SECTION;\nEXEC SQL END DECLARE SECTION;"
        ≡ refused F9 2 }
    ensures in_place_in_a_section { hosts_in
        "EXEC SQL BEGIN DECLARE SECTION;\nEXEC SQL int x;\nEXEC SQL END DECLARE SECTION;"
        ≡ refused F9 2 }
    ensures closed_twice { hosts_in
        "EXEC SQL BEGIN DECLARE SECTION;\nEXEC SQL END DECLARE SECTION;\nEXEC SQL END DECLARE SECTION;"
        ≡ refused F9 3 }
    ensures across_a_block { hosts_in
        "int main(void) { {\nEXEC SQL BEGIN DECLARE SECTION; } EXEC SQL END DECLARE SECTION; }"
        ≡ Ok [] }
    ensures open_in_a_function { hosts_in
        "int f(void) {\nEXEC SQL BEGIN DECLARE SECTION; }\nint main(void) { }"
        ≡ refused F9 2 }
    ensures one_behind_the_other { hosts_in
        "EXEC SQL BEGIN DECLARE SECTION; EXEC SQL END DECLARE SECTION; EXEC SQL BEGIN DECLARE SECTION; EXEC SQL END DECLARE SECTION;"
        ≡ Ok [] }
{}

/// A VARCHAR stands in a section, has a length, and is no pointer and no parameter.
pub fn varchar_examples()
    ensures in_place { hosts_in "EXEC SQL VARCHAR v[5];" ≡ Ok (0 ∷ []) }
    ensures lower_case { hosts_in "EXEC SQL varchar v[5], w[3][2];" ≡ Ok (0 ∷ 1 ∷ []) }
    ensures outside { hosts_in "int x;\nVARCHAR v[5];" ≡ refused F9 2 }
    ensures outside_without_length { hosts_in "VARCHAR v;" ≡ refused F9 1 }
    ensures without_length { hosts_in "int x;\nEXEC SQL VARCHAR v;" ≡ refused F13 2 }
    ensures open_length { hosts_in "EXEC SQL VARCHAR v[];" ≡ refused F13 1 }
    ensures last_length_counts { hosts_in "EXEC SQL VARCHAR v[5][0];" ≡ refused F13 1 }
    ensures outer_length_is_left_to_the_checks { hosts_in "EXEC SQL VARCHAR v[0][5];"
        ≡ Ok (0 ∷ []) }
    ensures second_declarator { hosts_in "EXEC SQL VARCHAR v[5], w;" ≡ refused F13 1 }
    ensures pointer { hosts_in "EXEC SQL VARCHAR *v[5];" ≡ refused F9 1 }
    ensures parameter { hosts_in
        "EXEC SQL BEGIN DECLARE SECTION;\nint f(int a,\nVARCHAR v[5]);\nEXEC SQL END DECLARE SECTION;"
        ≡ refused F9 2 }
    ensures result { hosts_in
        "EXEC SQL BEGIN DECLARE SECTION;\nVARCHAR f(void);\nEXEC SQL END DECLARE SECTION;"
        ≡ refused F13 2 }
    ensures result_outside { hosts_in "VARCHAR f(void);" ≡ refused F9 1 }
    ensures pointer_result { hosts_in
        "EXEC SQL BEGIN DECLARE SECTION; VARCHAR *f(void); EXEC SQL END DECLARE SECTION;"
        ≡ refused F9 1 }
    ensures member { hosts_in "EXEC SQL struct {\nVARCHAR v[5]; } x;" ≡ Ok (0 ∷ []) }
    ensures member_outside { hosts_in "struct {\nVARCHAR v[5]; } x;" ≡ refused F9 2 }
    ensures member_without_length { hosts_in "EXEC SQL struct {\nVARCHAR v; } x;" ≡ refused F13 2 }
    ensures type_name { hosts_in
        "int main(void) { EXEC SQL BEGIN DECLARE SECTION;\nsizeof(VARCHAR);\nEXEC SQL END DECLARE SECTION; }"
        ≡ refused F13 2 }
    ensures type_name_outside { hosts_in "int main(void) {\nsizeof(VARCHAR); }" ≡ refused F9 2 }
    ensures pointer_to_type_name { hosts_in
        "int main(void) { EXEC SQL BEGIN DECLARE SECTION;\n(VARCHAR *)0;\nEXEC SQL END DECLARE SECTION; }"
        ≡ refused F9 2 }
    ensures behind_the_section { hosts_in
        "EXEC SQL BEGIN DECLARE SECTION; int x; EXEC SQL END DECLARE SECTION;\nVARCHAR v[5];"
        ≡ refused F9 2 }
    ensures struct_in_a_cast { hosts_in
        "int main(void) {\n(struct {\nVARCHAR v[5]; } *)0; }"
        ≡ refused F9 3 }
    ensures nothing_declared { hosts_in "EXEC SQL VARCHAR;" ≡ Ok [] }
    ensures nothing_declared_outside { hosts_in "VARCHAR;" ≡ refused F9 1 }
{}

/// A length is made of integer and character constants and operators alone.
pub fn length_examples()
    ensures operators { hosts_in "EXEC SQL VARCHAR v[(1 + 2) * 3 - 'a' / 97 << 2];" ≡ Ok (0 ∷ []) }
    ensures comparisons { hosts_in "EXEC SQL VARCHAR v[1 < 2 && !(3 == 4)];" ≡ Ok (0 ∷ []) }
    ensures unary { hosts_in "EXEC SQL VARCHAR v[- -5], w[~-2], x[+3];" ≡ Ok (0 ∷ 1 ∷ 2 ∷ []) }
    ensures zero { hosts_in "EXEC SQL VARCHAR v[5 - 5];" ≡ refused F13 1 }
    ensures negative { hosts_in "EXEC SQL VARCHAR v[-5];" ≡ refused F13 1 }
    ensures unsigned_wraps { hosts_in "EXEC SQL VARCHAR v[0u - 1];" ≡ Ok (0 ∷ []) }
    ensures trap { hosts_in "EXEC SQL VARCHAR v[1 / 0];" ≡ refused F13 1 }
    ensures overflow { hosts_in "EXEC SQL VARCHAR v[2147483647 + 1];" ≡ refused F13 1 }
    ensures skipped_trap { hosts_in "EXEC SQL VARCHAR v[1 || 1 / 0];" ≡ Ok (0 ∷ []) }
    ensures size { hosts_in "EXEC SQL VARCHAR v[sizeof(int)];" ≡ refused F13 1 }
    ensures cast { hosts_in "EXEC SQL VARCHAR v[(int)5];" ≡ refused F13 1 }
    ensures name { hosts_in "EXEC SQL VARCHAR v[true];" ≡ refused F13 1 }
{}

/// The least place decides, and at one place the lower number.
pub fn order_examples()
    ensures two_places { hosts_in
        "EXEC SQL VARCHAR v;\nVARCHAR w[5];"
        ≡ refused F13 1 }
    ensures one_place { hosts_in "EXEC SQL VARCHAR v, *w[5];" ≡ refused F9 1 }
    ensures open_mark_before_a_fault { hosts_in
        "EXEC SQL BEGIN DECLARE SECTION;\nVARCHAR v;"
        ≡ refused F9 1 }
    ensures fault_before_an_open_mark { hosts_in
        "VARCHAR v[5];\nEXEC SQL BEGIN DECLARE SECTION;"
        ≡ refused F9 1 }
    ensures fault_in_a_closed_section { hosts_in
        "EXEC SQL BEGIN DECLARE SECTION;\nVARCHAR v;\nEXEC SQL END DECLARE SECTION;\nEXEC SQL BEGIN DECLARE SECTION;"
        ≡ refused F13 2 }
    ensures struct_before_its_members { hosts_in
        "EXEC SQL struct {\nVARCHAR v; } x[sizeof(VARCHAR)];"
        ≡ refused F13 1 }
    ensures condition_of_do_behind_a_mark { hosts_in
        "int main(void) {\ndo { EXEC SQL BEGIN DECLARE SECTION;\n} while (sizeof(VARCHAR)); EXEC SQL END DECLARE SECTION; }"
        ≡ refused F13 2 }
    ensures condition_of_do_behind_the_section { hosts_in
        "int main(void) { EXEC SQL BEGIN DECLARE SECTION;\ndo if (1) ; else { EXEC SQL END DECLARE SECTION; ;\n} while (sizeof(VARCHAR)); }"
        ≡ refused F9 2 }
    ensures condition_of_do_behind_a_whole_section { hosts_in
        "int main(void) {\ndo { EXEC SQL BEGIN DECLARE SECTION; { EXEC SQL END DECLARE SECTION; }\n} while (sizeof(VARCHAR)); }"
        ≡ refused F9 2 }
    ensures body_of_do_behind_its_condition { hosts_in
        "int main(void) {\ndo {\nsizeof(VARCHAR);\n} while (sizeof(VARCHAR)); }"
        ≡ refused F9 2 }
{}
