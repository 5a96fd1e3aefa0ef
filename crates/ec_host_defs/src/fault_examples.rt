//! Hosts with indicators, and what is refused of hosts and cursors, as the contracts of functions that do nothing.
#![tactic(auto, unfolding(ec_typing_defs::specs::Embedded::reference_rule, ec_typing_defs::specs::Embedded::members_rule, ec_typing_defs::specs::Embedded::denote, ec_typing_defs::specs::Expressions::type_or_fault, ec_typing_defs::specs::Expressions::tag_rule, ec_typing_defs::specs::Expressions::tagged_struct, ec_typing_defs::specs::Expressions::begin_struct, ec_typing_defs::specs::Expressions::end_struct, ec_typing_defs::specs::Expressions::member_named, ec_typing_defs::specs::Expressions::varchar_struct, ec_typing_defs::specs::Expressions::varchar_object, ec_typing_defs::specs::Expressions::varchar_member, ec_typing_defs::specs::Initializers::fixed_rule, ec_typing_defs::specs::Initializers::suits_rule, ec_typing_defs::specs::Initializers::part_rule, ec_typing_defs::specs::Initializers::slot_rule, ec_typing_defs::specs::Initializers::braces_rule, ec_typing_defs::specs::Operands::typed, ec_typing_defs::specs::Operands::named_by, ec_typing_defs::specs::Operands::name_rule, ec_typing_defs::specs::Operands::value_rule, ec_typing_defs::specs::Operands::address_rule, ec_typing_defs::specs::Operands::target_rule, ec_typing_defs::specs::Operands::sign_rule, ec_typing_defs::specs::Operands::binary_rule, ec_typing_defs::specs::Operands::index_rule, ec_typing_defs::specs::Operands::assign_rule, ec_typing_defs::specs::Operands::compound_rule, ec_typing_defs::specs::Operands::bump_rule, ec_typing_defs::specs::Operands::call_by, ec_typing_defs::specs::Operands::call_rule, ec_typing_defs::specs::Operands::member_rule, ec_typing_defs::specs::Operands::arrow_rule, ec_typing_defs::specs::Operands::scalar_cast, ec_typing_defs::specs::Operands::cast_rule, ec_typing_defs::specs::Operands::size_rule, ec_typing_defs::specs::Operands::length_rule, ec_typing_defs::specs::Operands::within_rule, ec_typing_defs::specs::Operands::complete_rule, ec_typing_defs::specs::Programs::result_rule, ec_typing_defs::specs::Programs::plain_param, ec_typing_defs::specs::Programs::begin_function, ec_typing_defs::specs::Programs::know_function, ec_typing_defs::specs::Programs::main_rule, ec_typing_defs::specs::Statements::object_rule, ec_typing_defs::specs::Statements::tag_alone, ec_typing_defs::specs::Statements::condition_rule, ec_typing_defs::specs::Statements::return_rule, ec_typing_defs::specs::Statements::return_nothing, ec_typing_defs::specs::Worlds::chain, ec_typing_defs::specs::Worlds::pure, ec_typing_defs::specs::Worlds::ask, ec_typing_defs::specs::Worlds::change, ec_typing_defs::specs::Worlds::note, ec_typing_defs::specs::Worlds::demand, ec_typing_defs::specs::Worlds::keep_within, ec_typing_defs::specs::Worlds::instead, ec_typing_defs::specs::Worlds::place, ec_typing_defs::specs::Worlds::enter, ec_typing_defs::specs::Worlds::leave, ec_typing_defs::specs::Worlds::free_name, ec_typing_defs::specs::Worlds::free_tag, ec_typing_defs::specs::Worlds::declare, ec_typing_defs::specs::Worlds::know_better, ec_typing_defs::specs::Worlds::declare_label, ec_typing_defs::specs::Worlds::number_as, ec_typing_defs::specs::Worlds::new_struct, ec_typing_defs::specs::Worlds::set_struct, ec_embedded::specs::Connections::user_form, ec_embedded::specs::Connections::plain_tail, ec_embedded::specs::Connections::parted_tail, ec_embedded::specs::Connections::target_form, ec_embedded::specs::Connections::connect_form, ec_embedded::specs::Connections::set_connection_form, ec_embedded::specs::Connections::disconnect_form, ec_embedded::specs::Connections::autocommit_form, ec_embedded::specs::Descriptors::allocate_form, ec_embedded::specs::Descriptors::item_form, ec_embedded::specs::Descriptors::got_form, ec_embedded::specs::Descriptors::get_form, ec_embedded::specs::Descriptors::other_item_form, ec_embedded::specs::Descriptors::set_item_form, ec_embedded::specs::Descriptors::assigned_form, ec_embedded::specs::Descriptors::setting_form, ec_embedded::specs::Descriptors::behind_host_form, ec_embedded::specs::Descriptors::set_value_form, ec_embedded::specs::Descriptors::set_form, ec_embedded::specs::Directives::condition_form, ec_embedded::specs::Directives::argument_form, ec_embedded::specs::Directives::arguments_form, ec_embedded::specs::Directives::do_form, ec_embedded::specs::Directives::action_form, ec_embedded::specs::Directives::whenever_form, ec_embedded::specs::Directives::include_form, ec_embedded::specs::Directives::cursor_form, ec_embedded::specs::Dynamic::prepare_form, ec_embedded::specs::Dynamic::lists_form, ec_embedded::specs::Dynamic::execute_form, ec_embedded::specs::Dynamic::deallocate_form, ec_embedded::specs::Dynamic::deallocate_at_form, ec_embedded::specs::Dynamic::open_form, ec_embedded::specs::References::suffix_form, ec_embedded::specs::References::name_form, ec_embedded::specs::References::indicator_form, ec_embedded::specs::References::spelled_indicator_form, ec_embedded::specs::References::text_form, ec_embedded::specs::References::spelled_text_form, ec_embedded::specs::References::statement_text_form, ec_embedded::specs::References::constant_form, ec_embedded::specs::References::value_form, ec_embedded::specs::References::spelled_value_form, ec_embedded::specs::References::ins_form, ec_embedded::specs::References::outs_form, ec_embedded::specs::References::using_form, ec_embedded::specs::ServerText::reference_at, ec_embedded::specs::ServerText::host_at, ec_embedded::specs::ServerText::into_list, ec_embedded::specs::ServerText::server_at, ec_embedded::specs::ServerText::transaction_at, ec_embedded::specs::Statements::declare_at, ec_embedded::specs::Statements::at_form))]

ghost use Rattle.std.specs.Prelude.{◌≡◌, [], ◌∷◌, Some, None};
ghost use Rattle.ec_base.specs.declared.fault.FaultKind.TheVariants.{F9, F11, F21, F22, F23, F24, F25, F26, F27, F28};
ghost use Rattle.ec_ctypes.specs.declared.checked.library.Sym.TheVariants as sym;
ghost use Rattle.ec_host_defs.specs.Examples.{outputs_of, inputs_of, verdict, verdict_of, refused, name, address, first_of, dot, place, one_indicator};

/// An indicator is a short, an int, a long or a long long, in a section too; one of an array is an array of as many or more,
/// and one of a struct is a struct of as many.
pub fn indicator_examples()
    ensures short { outputs_of "EXEC SQL int x; EXEC SQL short i;" ":x :i"
        ≡ Some (place sym.Int (address (name "x")) 0 1 4 (one_indicator sym.Short (address
        (name "i")) 2) ∷ []) }
    ensures int { outputs_of "EXEC SQL int x, i;" ":x INDICATOR :i"
        ≡ Some (place sym.Int (address (name "x")) 0 1 4 (one_indicator sym.Int (address
        (name "i")) 4) ∷ []) }
    ensures long { inputs_of "EXEC SQL char x[3]; EXEC SQL long i;" ":x:i"
        ≡ Some (place sym.Char (name "x") 3 1 3 (one_indicator sym.Long (address (name "i")) 8)
        ∷ []) }
    ensures long_long { outputs_of "EXEC SQL VARCHAR v[5]; EXEC SQL long long i;" ":v :i"
        ≡ Some (place sym.Varchar (address (name "v")) 5 1 12 (one_indicator sym.LongLong
        (address (name "i")) 8) ∷ []) }
    ensures array { outputs_of "EXEC SQL int x[3]; EXEC SQL short i[4];" ":x :i"
        ≡ Some (place sym.Int (name "x") 0 3 4 (Some (sym.Short, name "i", 4, 2)) ∷ []) }
    ensures of_a_struct { outputs_of
        "EXEC SQL struct { char c; int n; } x; EXEC SQL struct { short a; long b; } i;" ":x :i"
        ≡ Some (place sym.Char (address (dot (name "x") "c")) 1 1 1 (one_indicator sym.Short
        (address (dot (name "i") "a")) 2) ∷ place sym.Int (address (dot (name "x") "n")) 0 1 4
        (one_indicator sym.Long (address (dot (name "i") "b")) 8) ∷ []) }
    ensures inner_struct { outputs_of
        "EXEC SQL struct { int a; struct { int b; } y; } x; EXEC SQL struct { struct { int c; } z; int d; } i;"
        ":x :i"
        ≡ Some (place sym.Int (address (dot (name "x") "a")) 0 1 4 (one_indicator sym.Int
        (address (dot (dot (name "i") "z") "c")) 4) ∷ place sym.Int (address (dot (dot (name "x")
        "y") "b")) 0 1 4 (one_indicator sym.Int (address (dot (name "i") "d")) 4) ∷ []) }
    ensures structs { outputs_of
        "EXEC SQL struct { char c; int n; } x[2]; EXEC SQL struct { short a, b; } i[2];" ":x :i"
        ≡ Some (place sym.Char (address (dot (first_of (name "x")) "c")) 1 2 8 (Some
        (sym.Short, address (dot (first_of (name "i")) "a"), 2, 4)) ∷ place sym.Int
        (address (dot (first_of (name "x")) "n")) 0 2 8 (Some (
          sym.Short,
          address
              (dot (first_of (name "i")) "b"),
          2,
          4,
        )) ∷ []) }
{}

/// F21: the variable of a reference is declared outside of a section. An index may be.
pub fn section_examples()
    ensures outside { verdict_of "int y;" "\nEXEC SQL SELECT a INTO :y;" ≡ refused F21 2 }
    ensures input { verdict_of "int y;" "\nEXEC SQL SELECT :y;" ≡ refused F21 2 }
    ensures indicator { verdict_of "EXEC SQL int x; short i;" "\nEXEC SQL SELECT a INTO :x :i;"
        ≡ refused F21 2 }
    ensures index { verdict_of "EXEC SQL int x[2]; int i;" "\nEXEC SQL SELECT a INTO :x[i];"
        ≡ None }
    ensures text { verdict_of "char s[9];" "\nEXEC SQL EXECUTE IMMEDIATE :s;" ≡ refused F21 2 }
    ensures in_a_section_of_the_function { verdict_of ""
        "EXEC SQL BEGIN DECLARE SECTION; int y; EXEC SQL END DECLARE SECTION; EXEC SQL SELECT a INTO :y;"
        ≡ None }
    ensures in_place_in_a_block { verdict_of "int y;"
        "{ EXEC SQL int y; EXEC SQL SELECT a INTO :y; }"
        ≡ None }
    ensures hidden_by_another { verdict_of "EXEC SQL int y;"
        "{ int y;\nEXEC SQL SELECT a INTO :y; }"
        ≡ refused F21 2 }
    ensures parameter { verdict
        "EXEC SQL BEGIN DECLARE SECTION; int f(int y) { EXEC SQL END DECLARE SECTION; EXEC SQL SELECT a INTO :y; return 0; } int main(void) { }"
        ≡ None }
    ensures constant { verdict_of "" "\nEXEC SQL SELECT :true;" ≡ refused F21 2 }
    ensures sqlca { verdict_of "" "\nEXEC SQL SELECT :sqlca.sqlcode;" ≡ refused F21 2 }
    ensures function { verdict_of "" "\nEXEC SQL SELECT :main;" ≡ refused F21 2 }
    ensures known_function { verdict_of "" "\nEXEC SQL SELECT :strlen;" ≡ refused F21 2 }
{}

/// F22: the type is none that may stand there.
pub fn type_examples()
    ensures function_in_a_section { verdict
        "EXEC SQL BEGIN DECLARE SECTION; int f(void); EXEC SQL END DECLARE SECTION; int main(void) {\nEXEC SQL SELECT :f; }"
        ≡ refused F22 2 }
    ensures constant_as_index { verdict_of "EXEC SQL int x[2];" "\nEXEC SQL SELECT :x[true];"
        ≡ refused F22 2 }
    ensures number_as_text { verdict_of "EXEC SQL int s;" "\nEXEC SQL EXECUTE IMMEDIATE :s;"
        ≡ refused F22 2 }
    ensures character_as_text { verdict_of "EXEC SQL char s;" "\nEXEC SQL EXECUTE IMMEDIATE :s;"
        ≡ refused F22 2 }
    ensures texts_as_text { verdict_of "EXEC SQL char s[2][9];" "\nEXEC SQL EXECUTE IMMEDIATE :s;"
        ≡ refused F22 2 }
    ensures struct_as_text { verdict_of
        "EXEC SQL struct { int len; char arr[5]; } s;" "\nEXEC SQL EXECUTE IMMEDIATE :s;"
        ≡ refused F22 2 }
    ensures texts { verdict_of
        "EXEC SQL char a[9], *b; EXEC SQL unsigned char c[9], *d; EXEC SQL VARCHAR e[9];"
        "EXEC SQL EXECUTE IMMEDIATE :a; EXEC SQL EXECUTE IMMEDIATE :b; EXEC SQL EXECUTE IMMEDIATE :c; EXEC SQL EXECUTE IMMEDIATE :d; EXEC SQL EXECUTE IMMEDIATE :e;"
        ≡ None }
    ensures struct_as_item { verdict_of
        "EXEC SQL struct { int n; } x;" "\nEXEC SQL GET DESCRIPTOR d VALUE 1 :x = DATA;"
        ≡ refused F22 2 }
    ensures array_as_item { verdict_of
        "EXEC SQL int x[2];" "\nEXEC SQL SET DESCRIPTOR d VALUE 1 DATA = :x;"
        ≡ refused F22 2 }
    ensures text_as_item { verdict_of
        "EXEC SQL char x[2];" "EXEC SQL GET DESCRIPTOR d VALUE 1 :x = DATA;"
        ≡ None }
    ensures struct_as_index { verdict_of
        "EXEC SQL struct { int n; } x; EXEC SQL int y;"
        "\nEXEC SQL GET DESCRIPTOR d VALUE :x :y = DATA;"
        ≡ refused F22 2 }
    ensures array_as_count { verdict_of
        "EXEC SQL int x[2];" "\nEXEC SQL GET DESCRIPTOR d :x = COUNT;"
        ≡ refused F22 2 }
{}

/// F23: an indicator of another type, with too few elements, or where there is none. F25: an indicator struct of another
/// number of members or elements.
pub fn indicator_faults()
    ensures unsigned { verdict_of "EXEC SQL int x; EXEC SQL unsigned short i;"
        "\nEXEC SQL SELECT a INTO :x :i;"
        ≡ refused F23 2 }
    ensures character { verdict_of "EXEC SQL int x; EXEC SQL char i;"
        "\nEXEC SQL SELECT a INTO :x :i;"
        ≡ refused F23 2 }
    ensures truth { verdict_of "EXEC SQL int x; EXEC SQL bool i;" "\nEXEC SQL SELECT a INTO :x :i;"
        ≡ refused F23 2 }
    ensures array_of_one { verdict_of "EXEC SQL int x; EXEC SQL short i[2];"
        "\nEXEC SQL SELECT a INTO :x :i;"
        ≡ refused F23 2 }
    ensures one_of_an_array { verdict_of "EXEC SQL int x[2]; EXEC SQL short i;"
        "\nEXEC SQL SELECT a INTO :x :i;"
        ≡ refused F23 2 }
    ensures too_few { verdict_of "EXEC SQL int x[3]; EXEC SQL short i[2];"
        "\nEXEC SQL SELECT a INTO :x :i;"
        ≡ refused F23 2 }
    ensures as_many { verdict_of "EXEC SQL int x[3]; EXEC SQL short i[3];"
        "EXEC SQL SELECT a INTO :x :i;"
        ≡ None }
    ensures struct_of_one { verdict_of "EXEC SQL int x; EXEC SQL struct { short a; } i;"
        "\nEXEC SQL SELECT a INTO :x :i;"
        ≡ refused F23 2 }
    ensures one_of_a_struct { verdict_of "EXEC SQL struct { int n; } x; EXEC SQL short i;"
        "\nEXEC SQL SELECT a INTO :x :i;"
        ≡ refused F23 2 }
    ensures of_a_name { verdict_of "EXEC SQL char s[9]; EXEC SQL short i;"
        "\nEXEC SQL EXECUTE IMMEDIATE :s :i;"
        ≡ refused F23 2 }
    ensures of_an_item { verdict_of "EXEC SQL int x, i;"
        "\nEXEC SQL GET DESCRIPTOR d VALUE 1 :x :i = DATA;"
        ≡ refused F23 2 }
    ensures of_an_index { verdict_of "EXEC SQL int x, k, i;"
        "EXEC SQL GET DESCRIPTOR d VALUE :k INDICATOR :i :x = DATA;"
        ≡ None }
    ensures of_a_count { verdict_of "EXEC SQL int x, i;"
        "EXEC SQL GET DESCRIPTOR d :x INDICATOR :i = COUNT;"
        ≡ None }
    ensures fewer_members { verdict_of
        "EXEC SQL struct { int a, b; } x; EXEC SQL struct { short a; } i;"
        "\nEXEC SQL SELECT a INTO :x :i;"
        ≡ refused F25 2 }
    ensures more_members { verdict_of
        "EXEC SQL struct { int a, b; } x; EXEC SQL struct { short a, b, c; } i;"
        "\nEXEC SQL SELECT a INTO :x :i;"
        ≡ refused F25 2 }
    ensures inner_members_count { verdict_of
        "EXEC SQL struct { int a; struct { int b, c; } y; } x; EXEC SQL struct { short a, b; } i;"
        "\nEXEC SQL SELECT a INTO :x :i;"
        ≡ refused F25 2 }
    ensures other_elements { verdict_of
        "EXEC SQL struct { int a; } x[2]; EXEC SQL struct { short a; } i[3];"
        "\nEXEC SQL SELECT a INTO :x :i;"
        ≡ refused F25 2 }
    ensures one_struct_of_many { verdict_of
        "EXEC SQL struct { int a; } x[2]; EXEC SQL struct { short a; } i;"
        "\nEXEC SQL SELECT a INTO :x :i;"
        ≡ refused F23 2 }
    ensures type_before_number { verdict_of
        "EXEC SQL struct { int a, b; } x; EXEC SQL struct { char a; } i;"
        "\nEXEC SQL SELECT a INTO :x :i;"
        ≡ refused F23 2 }
{}

/// The fault of the lowest number at one statement, and the first statement with one. Checks come before hosts.
pub fn order_examples()
    ensures two_hosts { verdict_of "EXEC SQL int *p; int y;" "\nEXEC SQL SELECT a INTO :p, :y;"
        ≡ refused F21 2 }
    ensures array_and_pointer { verdict_of "EXEC SQL int x[2], *p;" "\nEXEC SQL SELECT :x, :p;"
        ≡ refused F22 2 }
    ensures array_and_indicator { verdict_of
        "EXEC SQL int x[2], y; EXEC SQL char i;" "\nEXEC SQL SELECT :x, :y :i;"
        ≡ refused F23 2 }
    ensures two_statements { verdict_of "EXEC SQL int x[2]; int y;"
        "EXEC SQL SELECT :x;\nEXEC SQL SELECT :y;"
        ≡ refused F24 1 }
    ensures checks_first { verdict_of "int y;" "EXEC SQL SELECT :y;\nz;" ≡ refused F11 2 }
    ensures declarations_first { verdict_of "" "z;\nVARCHAR v[5];" ≡ refused F9 2 }
{}

/// F26, F27 and F28. Each variable of the cursor's hosts is the same declaration at OPEN.
pub fn cursor_faults()
    ensures same { verdict
        "EXEC SQL int k; int main(void) { k = 1; EXEC SQL DECLARE c CURSOR FOR SELECT a FROM t WHERE b = :k; k = 2; EXEC SQL OPEN c; }"
        ≡ None }
    ensures another { verdict
        "EXEC SQL int k;\nint main(void) {\nk = 1;\nEXEC SQL DECLARE c CURSOR FOR SELECT a FROM t WHERE b = :k;\nk = 2;\n{ EXEC SQL int k = 3; EXEC SQL OPEN c; }\nreturn 0;\n}"
        ≡ refused F28 6 }
    ensures not_in_scope { verdict
        "int main(void) { { EXEC SQL int k; EXEC SQL DECLARE c CURSOR FOR SELECT :k; }\nEXEC SQL OPEN c; }"
        ≡ refused F28 2 }
    ensures index_of_a_host { verdict
        "EXEC SQL int k[2]; int i; int main(void) { EXEC SQL DECLARE c CURSOR FOR SELECT :k[i]; {\nint i; EXEC SQL OPEN c; } }"
        ≡ refused F28 2 }
    ensures indicator_of_a_host { verdict
        "EXEC SQL int k, i; int main(void) { EXEC SQL DECLARE c CURSOR FOR SELECT :k :i; {\nEXEC SQL int i; EXEC SQL OPEN c; } }"
        ≡ refused F28 2 }
    ensures behind_its_own { verdict
        "EXEC SQL int k, j; int main(void) { EXEC SQL DECLARE c CURSOR FOR SELECT :k; { EXEC SQL int j; EXEC SQL OPEN c USING :j; } }"
        ≡ None }
    ensures unknown { verdict_of "" "\nEXEC SQL OPEN c;" ≡ refused F26 2 }
    ensures declared_below { verdict_of ""
        "\nEXEC SQL OPEN c; EXEC SQL DECLARE c CURSOR FOR SELECT 1;"
        ≡ refused F26 2 }
    ensures any_case { verdict_of "" "EXEC SQL DECLARE Cur CURSOR FOR SELECT 1; EXEC SQL OPEN cUR;"
        ≡ None }
    ensures twice { verdict_of ""
        "EXEC SQL DECLARE c CURSOR FOR SELECT 1;\nEXEC SQL DECLARE C CURSOR FOR s;"
        ≡ refused F27 2 }
    ensures at_file_level { verdict
        "EXEC SQL int k; EXEC SQL DECLARE c CURSOR FOR SELECT :k; int main(void) { EXEC SQL OPEN c; }"
        ≡ None }
    ensures faults_of_declare { verdict_of "EXEC SQL int k[2];"
        "\nEXEC SQL DECLARE c CURSOR FOR SELECT :k;"
        ≡ refused F24 2 }
{}
