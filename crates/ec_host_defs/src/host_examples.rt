//! What hosts of each type are, as the contracts of functions that do nothing. A place is a symbol, a pointer, the length
//! of a text, the number of elements, their distance, and the indicator.
#![tactic(auto, unfolding(ec_typing_defs::specs::Embedded::reference_rule, ec_typing_defs::specs::Embedded::members_rule, ec_typing_defs::specs::Embedded::denote, ec_typing_defs::specs::Expressions::type_or_fault, ec_typing_defs::specs::Expressions::tag_rule, ec_typing_defs::specs::Expressions::tagged_struct, ec_typing_defs::specs::Expressions::begin_struct, ec_typing_defs::specs::Expressions::end_struct, ec_typing_defs::specs::Expressions::member_named, ec_typing_defs::specs::Expressions::varchar_struct, ec_typing_defs::specs::Expressions::varchar_object, ec_typing_defs::specs::Expressions::varchar_member, ec_typing_defs::specs::Initializers::fixed_rule, ec_typing_defs::specs::Initializers::suits_rule, ec_typing_defs::specs::Initializers::part_rule, ec_typing_defs::specs::Initializers::slot_rule, ec_typing_defs::specs::Initializers::braces_rule, ec_typing_defs::specs::Operands::typed, ec_typing_defs::specs::Operands::named_by, ec_typing_defs::specs::Operands::name_rule, ec_typing_defs::specs::Operands::value_rule, ec_typing_defs::specs::Operands::address_rule, ec_typing_defs::specs::Operands::target_rule, ec_typing_defs::specs::Operands::sign_rule, ec_typing_defs::specs::Operands::binary_rule, ec_typing_defs::specs::Operands::index_rule, ec_typing_defs::specs::Operands::assign_rule, ec_typing_defs::specs::Operands::compound_rule, ec_typing_defs::specs::Operands::bump_rule, ec_typing_defs::specs::Operands::call_by, ec_typing_defs::specs::Operands::call_rule, ec_typing_defs::specs::Operands::member_rule, ec_typing_defs::specs::Operands::arrow_rule, ec_typing_defs::specs::Operands::scalar_cast, ec_typing_defs::specs::Operands::cast_rule, ec_typing_defs::specs::Operands::size_rule, ec_typing_defs::specs::Operands::length_rule, ec_typing_defs::specs::Operands::within_rule, ec_typing_defs::specs::Operands::complete_rule, ec_typing_defs::specs::Programs::result_rule, ec_typing_defs::specs::Programs::plain_param, ec_typing_defs::specs::Programs::begin_function, ec_typing_defs::specs::Programs::know_function, ec_typing_defs::specs::Programs::main_rule, ec_typing_defs::specs::Statements::object_rule, ec_typing_defs::specs::Statements::tag_alone, ec_typing_defs::specs::Statements::condition_rule, ec_typing_defs::specs::Statements::return_rule, ec_typing_defs::specs::Statements::return_nothing, ec_typing_defs::specs::Worlds::chain, ec_typing_defs::specs::Worlds::pure, ec_typing_defs::specs::Worlds::ask, ec_typing_defs::specs::Worlds::change, ec_typing_defs::specs::Worlds::note, ec_typing_defs::specs::Worlds::demand, ec_typing_defs::specs::Worlds::keep_within, ec_typing_defs::specs::Worlds::instead, ec_typing_defs::specs::Worlds::place, ec_typing_defs::specs::Worlds::enter, ec_typing_defs::specs::Worlds::leave, ec_typing_defs::specs::Worlds::free_name, ec_typing_defs::specs::Worlds::free_tag, ec_typing_defs::specs::Worlds::declare, ec_typing_defs::specs::Worlds::know_better, ec_typing_defs::specs::Worlds::declare_label, ec_typing_defs::specs::Worlds::number_as, ec_typing_defs::specs::Worlds::new_struct, ec_typing_defs::specs::Worlds::set_struct, ec_embedded::specs::Connections::user_form, ec_embedded::specs::Connections::plain_tail, ec_embedded::specs::Connections::parted_tail, ec_embedded::specs::Connections::target_form, ec_embedded::specs::Connections::connect_form, ec_embedded::specs::Connections::set_connection_form, ec_embedded::specs::Connections::disconnect_form, ec_embedded::specs::Connections::autocommit_form, ec_embedded::specs::Descriptors::allocate_form, ec_embedded::specs::Descriptors::item_form, ec_embedded::specs::Descriptors::got_form, ec_embedded::specs::Descriptors::get_form, ec_embedded::specs::Descriptors::other_item_form, ec_embedded::specs::Descriptors::set_item_form, ec_embedded::specs::Descriptors::assigned_form, ec_embedded::specs::Descriptors::setting_form, ec_embedded::specs::Descriptors::behind_host_form, ec_embedded::specs::Descriptors::set_value_form, ec_embedded::specs::Descriptors::set_form, ec_embedded::specs::Directives::condition_form, ec_embedded::specs::Directives::argument_form, ec_embedded::specs::Directives::arguments_form, ec_embedded::specs::Directives::do_form, ec_embedded::specs::Directives::action_form, ec_embedded::specs::Directives::whenever_form, ec_embedded::specs::Directives::include_form, ec_embedded::specs::Directives::cursor_form, ec_embedded::specs::Dynamic::prepare_form, ec_embedded::specs::Dynamic::lists_form, ec_embedded::specs::Dynamic::execute_form, ec_embedded::specs::Dynamic::deallocate_form, ec_embedded::specs::Dynamic::deallocate_at_form, ec_embedded::specs::Dynamic::open_form, ec_embedded::specs::References::suffix_form, ec_embedded::specs::References::name_form, ec_embedded::specs::References::indicator_form, ec_embedded::specs::References::spelled_indicator_form, ec_embedded::specs::References::text_form, ec_embedded::specs::References::spelled_text_form, ec_embedded::specs::References::statement_text_form, ec_embedded::specs::References::constant_form, ec_embedded::specs::References::value_form, ec_embedded::specs::References::spelled_value_form, ec_embedded::specs::References::ins_form, ec_embedded::specs::References::outs_form, ec_embedded::specs::References::using_form, ec_embedded::specs::ServerText::reference_at, ec_embedded::specs::ServerText::host_at, ec_embedded::specs::ServerText::into_list, ec_embedded::specs::ServerText::server_at, ec_embedded::specs::ServerText::transaction_at, ec_embedded::specs::Statements::declare_at, ec_embedded::specs::Statements::at_form))]

ghost use Rattle.std.specs.Prelude.{◌≡◌, [], ◌∷◌, Some, None, codes};
ghost use Rattle.ec_base.specs.declared.fault.FaultKind.TheVariants.{F22, F24};
ghost use Rattle.ec_ctypes.specs.declared.checked.library.Sym.TheVariants as sym;
ghost use Rattle.ec_ctypes.specs.trees.Exprs.{arrow, index};
ghost use Rattle.ec_host_defs.specs.Examples.{outputs_of, inputs_of, verdict_of, refused, name, address, first_of, dot, number, place, one_int};

/// One element of each type: a character is an array of one, an array of characters and a pointer are their own pointers,
/// and a VARCHAR has its struct's size as the distance.
pub fn element_examples()
    ensures int { outputs_of "EXEC SQL int x;" ":x" ≡ Some (one_int (address (name "x")) ∷ []) }
    ensures short { outputs_of "EXEC SQL short x;" ":x"
        ≡ Some (place sym.Short (address (name "x")) 0 1 2 None ∷ []) }
    ensures unsigned_short { outputs_of "EXEC SQL unsigned short x;" ":x"
        ≡ Some (place sym.UnsignedShort (address (name "x")) 0 1 2 None ∷ []) }
    ensures unsigned_int { outputs_of "EXEC SQL unsigned x;" ":x"
        ≡ Some (place sym.UnsignedInt (address (name "x")) 0 1 4 None ∷ []) }
    ensures long { outputs_of "EXEC SQL long x;" ":x"
        ≡ Some (place sym.Long (address (name "x")) 0 1 8 None ∷ []) }
    ensures unsigned_long { outputs_of "EXEC SQL unsigned long x;" ":x"
        ≡ Some (place sym.UnsignedLong (address (name "x")) 0 1 8 None ∷ []) }
    ensures long_long { outputs_of "EXEC SQL long long x;" ":x"
        ≡ Some (place sym.LongLong (address (name "x")) 0 1 8 None ∷ []) }
    ensures unsigned_long_long { outputs_of "EXEC SQL unsigned long long x;" ":x"
        ≡ Some (place sym.UnsignedLongLong (address (name "x")) 0 1 8 None ∷ []) }
    ensures truth { outputs_of "EXEC SQL bool x;" ":x"
        ≡ Some (place sym.Bool (address (name "x")) 0 1 1 None ∷ []) }
    ensures character { outputs_of "EXEC SQL char x;" ":x"
        ≡ Some (place sym.Char (address (name "x")) 1 1 1 None ∷ []) }
    ensures unsigned_character { outputs_of "EXEC SQL unsigned char x;" ":x"
        ≡ Some (place sym.UnsignedChar (address (name "x")) 1 1 1 None ∷ []) }
    ensures characters { outputs_of "EXEC SQL char x[10];" ":x"
        ≡ Some (place sym.Char (name "x") 10 1 10 None ∷ []) }
    ensures unsigned_characters { outputs_of "EXEC SQL unsigned char x[10];" ":x"
        ≡ Some (place sym.UnsignedChar (name "x") 10 1 10 None ∷ []) }
    ensures pointer { outputs_of "EXEC SQL char *x;" ":x"
        ≡ Some (place sym.Char (address (name "x")) 0 1 8 None ∷ []) }
    ensures unsigned_pointer { outputs_of "EXEC SQL unsigned char *x;" ":x"
        ≡ Some (place sym.UnsignedChar (address (name "x")) 0 1 8 None ∷ []) }
    ensures varchar { outputs_of "EXEC SQL VARCHAR v[5];" ":v"
        ≡ Some (place sym.Varchar (address (name "v")) 5 1 12 None ∷ []) }
    ensures varchar_of_four { outputs_of "EXEC SQL varchar v[4];" ":v"
        ≡ Some (place sym.Varchar (address (name "v")) 4 1 8 None ∷ []) }
    ensures varchar_of_one { outputs_of "EXEC SQL VARCHAR v[1];" ":v"
        ≡ Some (place sym.Varchar (address (name "v")) 1 1 8 None ∷ []) }
{}

/// Arrays of these, except of pointers, are arrays of elements; an array of characters is one element.
pub fn array_examples()
    ensures ints { outputs_of "EXEC SQL int x[3];" ":x"
        ≡ Some (place sym.Int (name "x") 0 3 4 None ∷ []) }
    ensures truths { outputs_of "EXEC SQL bool x[3];" ":x"
        ≡ Some (place sym.Bool (name "x") 0 3 1 None ∷ []) }
    ensures one { outputs_of "EXEC SQL long x[1];" ":x"
        ≡ Some (place sym.Long (name "x") 0 1 8 None ∷ []) }
    ensures texts { outputs_of "EXEC SQL char x[3][10];" ":x"
        ≡ Some (place sym.Char (name "x") 10 3 10 None ∷ []) }
    ensures varchars { outputs_of "EXEC SQL VARCHAR v[3][10];" ":v"
        ≡ Some (place sym.Varchar (name "v") 10 3 16 None ∷ []) }
    ensures pointers { verdict_of "EXEC SQL char *x[3];" "\nEXEC SQL SELECT a INTO :x;"
        ≡ refused F22 2 }
    ensures rows_of_ints { verdict_of "EXEC SQL int x[3][4];" "\nEXEC SQL SELECT a INTO :x;"
        ≡ refused F22 2 }
    ensures rows_of_texts { verdict_of "EXEC SQL char x[2][3][10];" "\nEXEC SQL SELECT a INTO :x;"
        ≡ refused F22 2 }
    ensures rows_of_varchars { verdict_of
        "EXEC SQL VARCHAR v[2][3][10];" "\nEXEC SQL SELECT a INTO :v;"
        ≡ refused F22 2 }
    ensures ints_as_input { verdict_of "EXEC SQL int x[3];" "\nEXEC SQL SELECT :x;"
        ≡ refused F24 2 }
    ensures varchars_as_input { verdict_of "EXEC SQL VARCHAR v[3][10];" "\nEXEC SQL SELECT :v;"
        ≡ refused F24 2 }
    ensures pointers_as_input { verdict_of "EXEC SQL char *x[3];" "\nEXEC SQL SELECT :x;"
        ≡ refused F22 2 }
    ensures text_as_input { inputs_of "EXEC SQL char x[10];" ":x"
        ≡ Some (place sym.Char (name "x") 10 1 10 None ∷ []) }
{}

/// A struct stands for its members in order, inner structs too. The distance of a member of one struct is its own size.
pub fn struct_examples()
    ensures members { outputs_of "EXEC SQL struct { char c; int n; } x;" ":x"
        ≡ Some (place sym.Char (address (dot (name "x") "c")) 1 1 1 None ∷ one_int
        (address (dot (name "x") "n")) ∷ []) }
    ensures texts { outputs_of
        "EXEC SQL struct { char s[4]; char *p; VARCHAR v[5]; bool b; } x;" ":x"
        ≡ Some (place sym.Char (dot (name "x") "s") 4 1 4 None ∷ place sym.Char
        (address (dot (name "x") "p")) 0 1 8 None ∷ place sym.Varchar
        (address (dot (name "x") "v")) 5 1 12 None ∷ place sym.Bool
        (address (dot (name "x") "b")) 0 1 1 None ∷ []) }
    ensures inner_structs { outputs_of
        "EXEC SQL struct { int a; struct { int b; struct { int c; } y; } z; int d; } x;" ":x"
        ≡ Some (one_int (address (dot (name "x") "a")) ∷ one_int (address (dot (dot (name "x")
        "z") "b")) ∷ one_int (address (dot (dot (dot (name "x") "z") "y") "c")) ∷ one_int
        (address (dot (name "x") "d")) ∷ []) }
    ensures by_tag { outputs_of "struct s { int a; }; EXEC SQL struct s x;" ":x"
        ≡ Some (one_int (address (dot (name "x") "a")) ∷ []) }
    ensures as_input { inputs_of "EXEC SQL struct { int a; long b; } x;" ":x"
        ≡ Some (one_int (address (dot (name "x") "a")) ∷ place sym.Long
        (address (dot (name "x") "b")) 0 1 8 None ∷ []) }
    ensures array_member { verdict_of
        "EXEC SQL struct { int a; int b[2]; } x;" "\nEXEC SQL SELECT a INTO :x;"
        ≡ refused F22 2 }
    ensures array_of_varchars_as_member { verdict_of
        "EXEC SQL struct { VARCHAR v[2][3]; } x;" "\nEXEC SQL SELECT a INTO :x;"
        ≡ refused F22 2 }
    ensures array_of_structs_as_member { verdict_of
        "EXEC SQL struct { struct { int a; } b[2]; } x;" "\nEXEC SQL SELECT a INTO :x;"
        ≡ refused F22 2 }
    ensures inner_array_member { verdict_of
        "EXEC SQL struct { struct { int a[2]; } b; } x;" "\nEXEC SQL SELECT a INTO :x;"
        ≡ refused F22 2 }
    ensures other_pointer_member { verdict_of
        "EXEC SQL struct { int *p; } x;" "\nEXEC SQL SELECT a INTO :x;"
        ≡ refused F22 2 }
{}

/// In an array of structs each leaf is that of the first struct, and the distance is the struct's size.
pub fn structs_examples()
    ensures members { outputs_of "EXEC SQL struct p { char c; int n; } a[2];" ":a"
        ≡ Some (place sym.Char (address (dot (first_of (name "a")) "c")) 1 2 8 None ∷ place
        sym.Int (address (dot (first_of (name "a")) "n")) 0 2 8 None ∷ []) }
    ensures texts { outputs_of "EXEC SQL struct { char s[3]; VARCHAR v[5]; } a[4];" ":a"
        ≡ Some (place sym.Char (dot (first_of (name "a")) "s") 3 4 16 None ∷ place sym.Varchar
        (address (dot (first_of (name "a")) "v")) 5 4 16 None ∷ []) }
    ensures inner_structs { outputs_of
        "EXEC SQL struct { struct { char c; char d; } y; long n; } a[2];" ":a"
        ≡ Some (place sym.Char (address (dot (dot (first_of (name "a")) "y") "c")) 1 2 16 None ∷
        place sym.Char (address (dot (dot (first_of (name "a")) "y") "d")) 1 2 16 None ∷ place
        sym.Long (address (dot (first_of (name "a")) "n")) 0 2 16 None ∷ []) }
    ensures one_of_them { outputs_of "EXEC SQL struct p { char c; int n; } a[2];" ":a[1]"
        ≡ Some (place sym.Char (address (dot (index (name "a") (number 1)) "c")) 1 1 1 None ∷
        one_int (address (dot (index (name "a") (number 1)) "n")) ∷ []) }
    ensures rows { verdict_of "EXEC SQL struct { int a; } x[2][3];" "\nEXEC SQL SELECT a INTO :x;"
        ≡ refused F22 2 }
    ensures as_input { verdict_of "EXEC SQL struct { int a; } x[2];" "\nEXEC SQL SELECT :x;"
        ≡ refused F24 2 }
{}

/// A reference may name a member or an element; its indexes may stand outside of sections.
pub fn reference_examples()
    ensures member { outputs_of "EXEC SQL struct { char c; int n; } x;" ":x.n"
        ≡ Some (one_int (address (dot (name "x") "n")) ∷ []) }
    ensures through_a_pointer { outputs_of "struct s { int n; }; EXEC SQL struct s *p;" ":p->n"
        ≡ Some (one_int (address (arrow (name "p") (codes "n"))) ∷ []) }
    ensures element { outputs_of "EXEC SQL int a[3]; int i;" ":a[i]"
        ≡ Some (one_int (address (index (name "a") (name "i"))) ∷ []) }
    ensures element_of_a_pointer { outputs_of "EXEC SQL long *p; short i;" ":p[i]"
        ≡ Some (place sym.Long (address (index (name "p") (name "i"))) 0 1 8 None ∷ []) }
    ensures row { outputs_of "EXEC SQL int a[3][4];" ":a[1]"
        ≡ Some (place sym.Int (index (name "a") (number 1)) 0 4 4 None ∷ []) }
    ensures members_of_elements { outputs_of
        "EXEC SQL struct { struct { int n[2]; } y[3]; } x;" ":x.y[2].n[1]"
        ≡ Some (one_int (address (index (dot (index (dot (name "x") "y") (number 2)) "n")
        (number 1))) ∷ []) }
    ensures length_of_a_varchar { outputs_of "EXEC SQL VARCHAR v[5];" ":v.len"
        ≡ Some (one_int (address (dot (name "v") "len")) ∷ []) }
    ensures characters_of_a_varchar { outputs_of "EXEC SQL VARCHAR v[5];" ":v.arr"
        ≡ Some (place sym.Char (dot (name "v") "arr") 5 1 5 None ∷ []) }
    ensures plain_pointer { verdict_of "EXEC SQL int *p;" "\nEXEC SQL SELECT a INTO :p;"
        ≡ refused F22 2 }
    ensures pointer_to_struct { verdict_of
        "struct s { int n; }; EXEC SQL struct s *p;" "\nEXEC SQL SELECT a INTO :p;"
        ≡ refused F22 2 }
{}
