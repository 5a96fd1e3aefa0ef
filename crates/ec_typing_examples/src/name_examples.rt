//! Names: which may be declared, and which are in scope, as the contracts of functions that do nothing.
#![tactic(auto, unfolding(ec_typing_defs::specs::Expressions::type_or_fault, ec_typing_defs::specs::Expressions::tag_rule, ec_typing_defs::specs::Expressions::tagged_struct, ec_typing_defs::specs::Expressions::begin_struct, ec_typing_defs::specs::Expressions::end_struct, ec_typing_defs::specs::Expressions::member_named, ec_typing_defs::specs::Initializers::fixed_rule, ec_typing_defs::specs::Initializers::suits_rule, ec_typing_defs::specs::Initializers::part_rule, ec_typing_defs::specs::Initializers::slot_rule, ec_typing_defs::specs::Initializers::braces_rule, ec_typing_defs::specs::Operands::typed, ec_typing_defs::specs::Operands::named_by, ec_typing_defs::specs::Operands::name_rule, ec_typing_defs::specs::Operands::value_rule, ec_typing_defs::specs::Operands::address_rule, ec_typing_defs::specs::Operands::target_rule, ec_typing_defs::specs::Operands::sign_rule, ec_typing_defs::specs::Operands::binary_rule, ec_typing_defs::specs::Operands::index_rule, ec_typing_defs::specs::Operands::assign_rule, ec_typing_defs::specs::Operands::compound_rule, ec_typing_defs::specs::Operands::bump_rule, ec_typing_defs::specs::Operands::call_by, ec_typing_defs::specs::Operands::call_rule, ec_typing_defs::specs::Operands::member_rule, ec_typing_defs::specs::Operands::arrow_rule, ec_typing_defs::specs::Operands::scalar_cast, ec_typing_defs::specs::Operands::cast_rule, ec_typing_defs::specs::Operands::size_rule, ec_typing_defs::specs::Operands::length_rule, ec_typing_defs::specs::Operands::within_rule, ec_typing_defs::specs::Operands::complete_rule, ec_typing_defs::specs::Programs::result_rule, ec_typing_defs::specs::Programs::plain_param, ec_typing_defs::specs::Programs::begin_function, ec_typing_defs::specs::Programs::know_function, ec_typing_defs::specs::Programs::main_rule, ec_typing_defs::specs::Statements::object_rule, ec_typing_defs::specs::Statements::tag_alone, ec_typing_defs::specs::Statements::condition_rule, ec_typing_defs::specs::Statements::return_rule, ec_typing_defs::specs::Statements::return_nothing, ec_typing_defs::specs::Worlds::chain, ec_typing_defs::specs::Worlds::pure, ec_typing_defs::specs::Worlds::ask, ec_typing_defs::specs::Worlds::change, ec_typing_defs::specs::Worlds::note, ec_typing_defs::specs::Worlds::demand, ec_typing_defs::specs::Worlds::keep_within, ec_typing_defs::specs::Worlds::place, ec_typing_defs::specs::Worlds::enter, ec_typing_defs::specs::Worlds::leave, ec_typing_defs::specs::Worlds::free_name, ec_typing_defs::specs::Worlds::free_tag, ec_typing_defs::specs::Worlds::declare, ec_typing_defs::specs::Worlds::know_better, ec_typing_defs::specs::Worlds::declare_label, ec_typing_defs::specs::Worlds::number_as, ec_typing_defs::specs::Worlds::new_struct, ec_typing_defs::specs::Worlds::set_struct))]

ghost use Rattle.std.specs.Prelude.{◌≡◌};
ghost use Rattle.ec_base.specs.declared.fault.FaultKind.TheVariants.{F10, F11, F12};
ghost use Rattle.ec_typing_defs.specs.Examples.{verdict, written_verdict, with_main, in_main, among_declarations, refused, fine};

/// F10: a name, a tag, a label or a member that is declared again in its scope (6.2.1, 6.7).
pub fn redeclared_examples()
    ensures object { with_main "int x;\nint x;" ≡ refused F10 2 }
    ensures object_in_one_declaration { with_main "int x, x;" ≡ refused F10 1 }
    ensures inner_object { in_main "int x; { int x; }" ≡ fine }
    ensures two_blocks { in_main "{ int x; } { int x; }" ≡ fine }
    ensures parameter_and_body { with_main "int f(int x) {\nint x; return 0; }" ≡ refused F10 2 }
    ensures parameter_and_inner_block { with_main "int f(int x) { { int x; } return 0; }" ≡ fine }
    ensures two_parameters { with_main "int f(int x,\nint x);" ≡ refused F10 1 }
    ensures object_named_as_its_function { with_main "int f(int f) { return f; }" ≡ fine }
    ensures function_and_object { with_main "int f;\nint f(void);" ≡ refused F10 2 }
    ensures function_again { with_main
        "int f(int x); int f(int y) { return y; } int f(int);"
        ≡ fine }
    ensures function_of_another_type { with_main "int f(int x);\nint f(long x);" ≡ refused F10 2 }
    ensures function_of_another_result { with_main "int f(int x);\nlong f(int x);" ≡ refused F10 2 }
    ensures function_with_other_parameters { with_main
        "int f(int x);\nint f(void);"
        ≡ refused F10 2 }
    ensures array_and_pointer_parameters { with_main "int f(int a[3]); int f(int *b);" ≡ fine }
    ensures function_twice_defined { with_main
        "int f(void) { return 1; }\nint f(void) { return 1; }"
        ≡ refused F10 2 }
    ensures tag { with_main "struct s { int m; };\nstruct s { int m; };" ≡ refused F10 2 }
    ensures tag_in_itself { with_main "struct s {\nstruct s { int m; } x; };" ≡ refused F10 2 }
    ensures tag_declared_and_listed { with_main
        "struct s; struct s; struct s { int m; }; struct s;"
        ≡ fine }
    ensures inner_tag { in_main "struct s { int m; }; { struct s { long m; }; }" ≡ fine }
    ensures tag_and_object { in_main "struct s { int s; } s;" ≡ fine }
    ensures member { with_main "struct s {\nint m;\nlong m; };" ≡ refused F10 3 }
    ensures members_of_two_structs { with_main "struct s { int m; }; struct t { int m; };" ≡ fine }
    ensures label { in_main "\nl: ;\nl: ;" ≡ refused F10 3 }
    ensures label_in_another_block { in_main "{ l: ; } { l: ; }" ≡ refused F10 1 }
    ensures labels_of_two_functions { verdict
        "int f(void) { l: return 1; } int main(void) { l: ; }"
        ≡ fine }
    ensures label_and_object { in_main "int l; l: ;" ≡ fine }
{}

/// F11: a name, a tag or a member that is not in scope.
pub fn undeclared_examples()
    ensures name { in_main "x;" ≡ refused F11 1 }
    ensures name_declared_below { in_main "x; int x;" ≡ refused F11 1 }
    ensures name_of_a_block_that_was_left { in_main "{ int x; } x;" ≡ refused F11 1 }
    ensures name_of_another_function { verdict
        "int f(int x) { return x; } int main(void) { return x; }"
        ≡ refused F11 1 }
    ensures name_in_its_own_initializer { in_main "int x = x;" ≡ fine }
    ensures name_in_a_declarator_before_it { in_main "int x = y, y;" ≡ refused F11 1 }
    ensures name_of_a_loop { in_main "for (int i = 0; i < 3; i++) ; i;" ≡ refused F11 1 }
    ensures tag { in_main "struct s *p;" ≡ refused F11 1 }
    ensures tag_declared { in_main "struct s; struct s *p;" ≡ fine }
    ensures tag_in_its_own_members { in_main "struct s { struct s *p; };" ≡ fine }
    ensures tag_of_a_block_that_was_left { in_main
        "{ struct s { int m; }; } struct s *p;"
        ≡ refused F11 1 }
    ensures tag_of_a_condition { in_main
        "if (sizeof(struct s { int m; })) ; struct s *p;"
        ≡ refused F11 1 }
    ensures tag_of_a_condition_within { in_main
        "if (sizeof(struct s { int m; })) { struct s *p; }"
        ≡ fine }
    ensures tag_of_a_body { in_main
        "while (0) sizeof(struct s { int m; }); struct s *p;"
        ≡ refused F11 1 }
    ensures tag_of_parameters { with_main
        "int f(struct s { int m; } *p) { struct s x; return 0; }"
        ≡ fine }
    ensures tag_of_parameters_behind { with_main
        "int f(struct s { int m; } *p);\nstruct s *q;"
        ≡ refused F11 2 }
    ensures tag_of_a_result { with_main "struct s { int m; } *f(void); struct s x;" ≡ fine }
    ensures member { among_declarations "x.k;" ≡ refused F11 1 }
    ensures member_of_a_pointer { among_declarations "q->k;" ≡ refused F11 1 }
    ensures member_of_another_struct { among_declarations
        "struct t { int k; } y; x.k;"
        ≡ refused F11 1 }
    ensures member_of_an_incomplete_struct { among_declarations "w->m;" ≡ refused F11 1 }
    ensures members_there { among_declarations
        "x.m; q->n->m; sqlca.sqlcode; SQLCODE; SQLSTATE[4]; sqlca.sqlerrm.sqlerrmc;"
        ≡ fine }
    ensures no_member_of_sqlca { in_main "sqlca.sqltext;" ≡ refused F11 1 }
    ensures stream { in_main "stdout;" ≡ refused F11 1 }
    ensures stream_as_an_argument { among_declarations "printf(\"%p\", stdout);" ≡ refused F11 1 }
    ensures name_in_an_unknown_call { in_main "f(x);" ≡ refused F11 1 }
    ensures name_in_a_length { in_main "int a[n];" ≡ refused F11 1 }
    ensures name_in_a_list { in_main "int a[2] = {1, n};" ≡ refused F11 1 }
{}

/// F12: a declared name that is reserved.
pub fn reserved_examples()
    ensures object { with_main "int sqlca;" ≡ refused F12 1 }
    ensures parameter { with_main "int f(int NULL);" ≡ refused F12 1 }
    ensures function { with_main "int strlen(char *s) { return 0; }" ≡ refused F12 1 }
    ensures member { with_main "struct s {\nint true; };" ≡ refused F12 2 }
    ensures label { in_main "stdout: ;" ≡ refused F12 1 }
    ensures tag { with_main "struct ECPGs;" ≡ refused F12 1 }
    ensures code { with_main "long SQLCODE;" ≡ refused F12 1 }
    ensures state { in_main "SQLSTATE: ;" ≡ refused F12 1 }
    ensures beginning { with_main "int ECPGx;" ≡ refused F12 1 }
    ensures library_call { with_main "int ECPGdo(void);" ≡ refused F12 1 }
    ensures other_letters { with_main "int ecpgx, xECPG, Null, TRUE, SqlCode;" ≡ fine }
    ensures varchar_name { with_main "int varchar_v;" ≡ refused F12 1 }
    ensures varchar_tag { with_main "struct varchar_v { int m; };" ≡ refused F12 1 }
    ensures varchar_tag_in_written_c { written_verdict
        "struct varchar_v { int m; }; int main(void) { }"
        ≡ fine }
    ensures varchar_name_in_written_c { written_verdict
        "int varchar_v; int main(void) { }"
        ≡ refused F12 1 }
    ensures exec { with_main "struct eXec { int m; };" ≡ refused F12 1 }
    ensures exec_as_an_object { with_main "int EXEC;" ≡ fine }
    ensures in_use { with_main "int x = true; char *p = NULL;" ≡ fine }
{}
