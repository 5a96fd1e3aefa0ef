//! What statements are, as the contracts of functions that do nothing.

ghost use Rattle.std.specs.Prelude.{◌≡◌, true, false, pos, [], ◌∷◌, ◌++◌, Some, None, Ok, Err, codes};
ghost use Rattle.ec_base.specs.declared.fault.FaultKind.TheVariants.{F8, F9};
ghost use Rattle.ec_base.specs.declared.fault.LimitKind.TheVariants.{L4};
ghost use Rattle.ec_base.specs.declared.stop.Stop.TheVariants.{Refused, Limit};
ghost use Rattle.ec_ctypes.specs.declared.embedded.emb.Cond.TheVariants as Cond;
ghost use Rattle.ec_ctypes.specs.declared.embedded.emb.Item.TheVariants as Item;
ghost use Rattle.ec_ctypes.specs.declared.types.arith.Arith.TheVariants.{Int, Long};
ghost use Rattle.ec_ctypes.specs.trees.Embedded as tree;
ghost use Rattle.ec_ctypes.specs.trees.Embedded.{word_arg, host_arg, host_with_indicator, host_input, const_input, listed_ins, area_ins, no_outs, listed_outs, area_outs};
ghost use Rattle.ec_ctypes.specs.trees.Exprs.{identifier, integer, character, member, arrow, index, no_exprs, exprs};
ghost use Rattle.ec_ctypes.specs.trees.Types.{arithmetic};
ghost use Rattle.ec_embedded.specs.Examples.{answer_to, plain, with_indicator, b, p, gives, at, dead_on, left_out_on};
ghost use Rattle.ec_embedded.specs.Parameters.{parameters};
ghost use Rattle.ec_embedded.specs.Terminals.{step_by, input, reference, suffix};

/// Statements that pass to the server, and transaction control.
#[tactic(auto, unfolding(crate::specs::ServerText::reference_at, crate::specs::ServerText::host_at, crate::specs::ServerText::into_list, crate::specs::ServerText::server_at, crate::specs::ServerText::transaction_at, crate::specs::References::suffix_form, crate::specs::References::name_form, crate::specs::References::indicator_form, crate::specs::References::spelled_indicator_form, crate::specs::References::text_form, crate::specs::References::spelled_text_form, crate::specs::References::statement_text_form, crate::specs::References::constant_form, crate::specs::References::value_form, crate::specs::References::spelled_value_form, crate::specs::References::ins_form, crate::specs::References::outs_form, crate::specs::References::using_form, crate::specs::Statements::declare_at, crate::specs::Statements::at_form))]
pub fn server_examples()
    ensures sent { answer_to
        "EXEC SQL select  /* c */ a,b\nfrom \"T x\" -- d;\nwhere c=:x::int and s='a  b';"
        ≡ gives (tree.server_text (b "select a,b from \"T x\" where c=" ∷ p "x" ∷ b
        "::int and s='a  b'" ∷ []) no_outs) }
    ensures into { answer_to "EXEC SQL SELECT a INTO :x, :y FROM t;"
        ≡ gives (tree.server_text (b "SELECT a FROM t" ∷ []) (listed_outs (plain "x" ∷ plain
        "y" ∷ []))) }
    ensures into_area { answer_to "EXEC SQL FETCH c INTO SQL DESCRIPTOR d;"
        ≡ gives (tree.server_text (b "FETCH c" ∷ []) (area_outs (word_arg (codes "d")))) }
    ensures into_area_behind_a_colon { answer_to "EXEC SQL FETCH c INTO SQL DESCRIPTOR :\n5;"
        ≡ dead_on 2 }
    ensures into_area_cut_at_the_colon { answer_to "EXEC SQL FETCH c INTO SQL DESCRIPTOR :\n;"
        ≡ dead_on 2 }
    ensures into_area_of_a_name { answer_to "EXEC SQL FETCH c INTO SQL DESCRIPTOR\n\"d\";"
        ≡ dead_on 2 }
    ensures comma_without_host { answer_to "EXEC SQL SELECT a INTO :x, b;"
        ≡ gives (tree.server_text (b "SELECT a , b" ∷ []) (listed_outs (plain "x" ∷ []))) }
    ensures second_into { answer_to "EXEC SQL SELECT a INTO :x\nINTO :y;" ≡ dead_on 2 }
    ensures into_in_parentheses { answer_to "EXEC SQL f ( INTO :x );"
        ≡ gives (tree.server_text (b "f ( INTO " ∷ p "x" ∷ b " )" ∷ []) no_outs) }
    ensures indicators { answer_to "EXEC SQL SELECT a INTO :x :i, :y INDICATOR :j;"
        ≡ gives (tree.server_text (b "SELECT a" ∷ []) (listed_outs (with_indicator "x" "i" ∷
        with_indicator "y" "j" ∷ []))) }
    ensures half_a_suffix { answer_to "EXEC SQL SELECT :x. y;"
        ≡ gives (tree.server_text (b "SELECT " ∷ p "x" ∷ b ". y" ∷ []) no_outs) }
    ensures large_index { answer_to "EXEC SQL SELECT\n:x[9223372036854775808];" ≡ dead_on 2 }
    ensures half_a_large_index { answer_to "EXEC SQL SELECT :x[9223372036854775808;"
        ≡ gives (tree.server_text (b "SELECT " ∷ p "x" ∷ b "[9223372036854775808" ∷ [])
        no_outs) }
    ensures gap_behind_arrow { answer_to "EXEC SQL SELECT :x ->y;"
        ≡ gives (tree.server_text (b "SELECT " ∷ p "x" ∷ b " ->y" ∷ []) no_outs) }
    ensures set_passes { answer_to "EXEC SQL SET x = 1;"
        ≡ gives (tree.server_text (b "SET x = 1" ∷ []) no_outs) }
    ensures escaped_quote { answer_to "EXEC SQL SELECT E'a\\'b';"
        ≡ gives (tree.server_text (b "SELECT E'a\\'b'" ∷ []) no_outs) }
    ensures empty { answer_to "EXEC SQL\n;" ≡ dead_on 2 }
    ensures control { answer_to "EXEC SQL commit work;"
        ≡ gives (tree.trans (codes "commit work")) }
    ensures host_in_control { answer_to "EXEC SQL ROLLBACK TO\n:s;" ≡ dead_on 2 }
    ensures control_at { answer_to "EXEC SQL AT c COMMIT;"
        ≡ at (word_arg (codes "c")) (tree.trans (codes "COMMIT")) }
    ensures too_many_suffixes { answer_to
        "EXEC SQL SELECT :x.y.y.y.y.y.y.y.y.y.y.y.y.y.y.y.y.y.y.y.y.y.y.y.y.y.y.y.y.y.y.y.y.y.y.y.y.y.y.y.y.y.y.y.y.y.y.y.y.y.y.y.y.y.y.y.y.y.y.y.y.y.y.y.y.y;"
        ≡ Err (Limit L4) }
{}

/// Cursors.
#[tactic(auto, unfolding(crate::specs::ServerText::reference_at, crate::specs::ServerText::host_at, crate::specs::ServerText::into_list, crate::specs::ServerText::server_at, crate::specs::ServerText::transaction_at, crate::specs::References::suffix_form, crate::specs::References::name_form, crate::specs::References::indicator_form, crate::specs::References::spelled_indicator_form, crate::specs::References::text_form, crate::specs::References::spelled_text_form, crate::specs::References::statement_text_form, crate::specs::References::constant_form, crate::specs::References::value_form, crate::specs::References::spelled_value_form, crate::specs::References::ins_form, crate::specs::References::outs_form, crate::specs::References::using_form, crate::specs::Directives::condition_form, crate::specs::Directives::argument_form, crate::specs::Directives::arguments_form, crate::specs::Directives::do_form, crate::specs::Directives::action_form, crate::specs::Directives::whenever_form, crate::specs::Directives::include_form, crate::specs::Directives::cursor_form, crate::specs::Dynamic::prepare_form, crate::specs::Dynamic::lists_form, crate::specs::Dynamic::execute_form, crate::specs::Dynamic::deallocate_form, crate::specs::Dynamic::deallocate_at_form, crate::specs::Dynamic::open_form, crate::specs::Statements::declare_at, crate::specs::Statements::at_form))]
pub fn cursor_examples()
    ensures statement { answer_to "EXEC SQL DECLARE c CURSOR FOR SELECT a FROM t WHERE b = :x;"
        ≡ gives (tree.declare_cursor (codes "c") (b
        "DECLARE c CURSOR FOR SELECT a FROM t WHERE b = " ∷ p "x" ∷ []) None) }
    ensures prepared { answer_to "EXEC SQL DECLARE c NO SCROLL CURSOR WITH HOLD FOR s;"
        ≡ gives (tree.declare_cursor (codes "c") (b "DECLARE c NO SCROLL CURSOR WITH HOLD FOR "
        ∷ []) (Some (codes "s"))) }
    ensures into { answer_to "EXEC SQL DECLARE c CURSOR FOR SELECT a\nINTO :x;" ≡ dead_on 2 }
    ensures nothing_behind { answer_to "EXEC SQL DECLARE c CURSOR FOR\n;" ≡ dead_on 2 }
    ensures behind_at { answer_to "EXEC SQL AT c\nDECLARE c CURSOR FOR s;" ≡ dead_on 2 }
    ensures open { answer_to "EXEC SQL OPEN c USING - 5 , 'it''s' , :x;"
        ≡ gives (tree.open_cursor (codes "c") (listed_ins (const_input (codes "-5") ∷
        const_input (codes "it's") ∷ host_input (plain "x") ∷ []))) }
    ensures open_area { answer_to "EXEC SQL AT k OPEN c USING SQL DESCRIPTOR :d;"
        ≡ at (word_arg (codes "k")) (tree.open_cursor (codes "c") (area_ins (host_arg
        (identifier (codes "d"))))) }
{}

/// Connections.
#[tactic(auto, unfolding(crate::specs::References::suffix_form, crate::specs::References::name_form, crate::specs::References::indicator_form, crate::specs::References::spelled_indicator_form, crate::specs::References::text_form, crate::specs::References::spelled_text_form, crate::specs::References::statement_text_form, crate::specs::References::constant_form, crate::specs::References::value_form, crate::specs::References::spelled_value_form, crate::specs::References::ins_form, crate::specs::References::outs_form, crate::specs::References::using_form, crate::specs::Connections::user_form, crate::specs::Connections::plain_tail, crate::specs::Connections::parted_tail, crate::specs::Connections::target_form, crate::specs::Connections::connect_form, crate::specs::Connections::set_connection_form, crate::specs::Connections::disconnect_form, crate::specs::Connections::autocommit_form, crate::specs::Statements::declare_at, crate::specs::Statements::at_form))]
pub fn connection_examples()
    ensures target { answer_to "EXEC SQL CONNECT TO a :b USER u / :p;"
        ≡ gives (tree.connect (word_arg (codes "a:b")) None (Some (word_arg (codes "u"))) (Some
        (host_arg (identifier (codes "p"))))) }
    ensures all_parts { answer_to
        "EXEC SQL CONNECT TO 'unix:postgresql://h' AS a USER :u IDENTIFIED BY p;"
        ≡ gives (tree.connect (word_arg (codes "unix:postgresql://h")) (Some (word_arg (codes
        "a"))) (Some (host_arg (identifier (codes "u")))) (Some (word_arg (codes "p")))) }
    ensures default_target { answer_to "EXEC SQL CONNECT TO default;"
        ≡ gives (tree.connect (word_arg (codes "DEFAULT")) None None None) }
    ensures quoted_default { answer_to "EXEC SQL CONNECT TO 'default';"
        ≡ gives (tree.connect (word_arg (codes "default")) None None None) }
    ensures host_target { answer_to "EXEC SQL CONNECT TO :h\nx;" ≡ dead_on 2 }
    ensures glued_as { answer_to "EXEC SQL CONNECT TO :AS\nx;" ≡ dead_on 2 }
    ensures parted_as { answer_to "EXEC SQL CONNECT TO : AS x;"
        ≡ gives (tree.connect (word_arg (codes ":")) (Some (word_arg (codes "x"))) None None) }
    ensures to { answer_to "EXEC SQL SET CONNECTION TO;"
        ≡ gives (tree.set_connection (word_arg (codes "TO"))) }
    ensures to_default { answer_to "EXEC SQL SET CONNECTION = default;"
        ≡ gives (tree.set_connection (word_arg (codes "DEFAULT"))) }
    ensures all { answer_to "EXEC SQL disconnect all;"
        ≡ gives (tree.disconnect (word_arg (codes "ALL"))) }
    ensures current { answer_to "EXEC SQL DISCONNECT;"
        ≡ gives (tree.disconnect (word_arg (codes "CURRENT"))) }
    ensures autocommit { answer_to "EXEC SQL AT DEFAULT SET AUTOCOMMIT = on;"
        ≡ at (word_arg (codes "DEFAULT")) (tree.autocommit true) }
    ensures no_at { answer_to "EXEC SQL AT c SET\nCONNECTION x;" ≡ dead_on 2 }
    ensures no_name { answer_to "EXEC SQL AT\n5 TYPE x;" ≡ dead_on 2 }
    ensures indicator_of_a_name { answer_to "EXEC SQL DISCONNECT :c :i;"
        ≡ gives (tree.disconnect (host_with_indicator (identifier (codes "c")) (identifier
        (codes "i")))) }
{}

/// Prepared statements.
#[tactic(auto, unfolding(crate::specs::References::suffix_form, crate::specs::References::name_form, crate::specs::References::indicator_form, crate::specs::References::spelled_indicator_form, crate::specs::References::text_form, crate::specs::References::spelled_text_form, crate::specs::References::statement_text_form, crate::specs::References::constant_form, crate::specs::References::value_form, crate::specs::References::spelled_value_form, crate::specs::References::ins_form, crate::specs::References::outs_form, crate::specs::References::using_form, crate::specs::Dynamic::prepare_form, crate::specs::Dynamic::lists_form, crate::specs::Dynamic::execute_form, crate::specs::Dynamic::deallocate_form, crate::specs::Dynamic::deallocate_at_form, crate::specs::Dynamic::open_form, crate::specs::Statements::declare_at, crate::specs::Statements::at_form))]
pub fn dynamic_examples()
    ensures prepare { answer_to "EXEC SQL PREPARE s FROM 'SELECT 1';"
        ≡ gives (tree.prepare (codes "s") (word_arg (codes "SELECT 1"))) }
    ensures lists { answer_to "EXEC SQL AT c EXECUTE s USING 5 , :x INTO :y;"
        ≡ at (word_arg (codes "c")) (tree.execute (codes "s") (listed_ins (const_input (codes
        "5") ∷ host_input (plain "x") ∷ [])) (listed_outs (plain "y" ∷ []))) }
    ensures twice { answer_to "EXEC SQL EXECUTE s USING 5\nUSING 6;" ≡ dead_on 2 }
    ensures short { answer_to "EXEC SQL EXECUTE s USING\n;" ≡ dead_on 2 }
    ensures immediate { answer_to "EXEC SQL EXECUTE IMMEDIATE :t;"
        ≡ gives (tree.execute_immediate (host_arg (identifier (codes "t")))) }
    ensures named_immediate { answer_to "EXEC SQL EXECUTE IMMEDIATE INTO :x;"
        ≡ gives (tree.execute (codes "IMMEDIATE") (listed_ins []) (listed_outs (plain "x" ∷
        []))) }
    ensures suffix { answer_to "EXEC SQL EXECUTE s INTO :x[03].y;"
        ≡ gives (tree.execute (codes "s") (listed_ins []) (listed_outs (record {
          value = member
              (index (identifier (codes "x")) (integer 3 (arithmetic Int))) (codes "y");
          indicator =
              None;
        } ∷ []))) }
    ensures half_a_suffix { answer_to "EXEC SQL EXECUTE s INTO :x.\ny;" ≡ dead_on 2 }
    ensures long_index { answer_to "EXEC SQL EXECUTE s INTO :x[9223372036854775807];"
        ≡ gives (tree.execute (codes "s") (listed_ins []) (listed_outs (record {
          value = index
              (identifier (codes "x")) (integer 9223372036854775807 (arithmetic Long));
          indicator =
              None;
        } ∷ []))) }
    ensures large_index { answer_to "EXEC SQL EXECUTE s INTO :x[9223372036854775808];"
        ≡ dead_on 1 }
    ensures parted_colon { answer_to "EXEC SQL EXECUTE s INTO :\ny;" ≡ dead_on 2 }
    ensures deallocate { answer_to "EXEC SQL AT c DEALLOCATE PREPARE s;"
        ≡ at (word_arg (codes "c")) (tree.deallocate (codes "s")) }
    ensures named_prepare { answer_to "EXEC SQL DEALLOCATE PREPARE;"
        ≡ gives (tree.deallocate (codes "PREPARE")) }
    ensures free_area { answer_to "EXEC SQL DEALLOCATE DESCRIPTOR 'd';"
        ≡ gives (tree.free_area (word_arg (codes "d"))) }
    ensures named_descriptor { answer_to "EXEC SQL DEALLOCATE DESCRIPTOR;"
        ≡ gives (tree.deallocate (codes "DESCRIPTOR")) }
    ensures area_behind_at { answer_to "EXEC SQL AT c DEALLOCATE DESCRIPTOR\nd;" ≡ dead_on 2 }
{}

/// Descriptors.
#[tactic(auto, unfolding(crate::specs::References::suffix_form, crate::specs::References::name_form, crate::specs::References::indicator_form, crate::specs::References::spelled_indicator_form, crate::specs::References::text_form, crate::specs::References::spelled_text_form, crate::specs::References::statement_text_form, crate::specs::References::constant_form, crate::specs::References::value_form, crate::specs::References::spelled_value_form, crate::specs::References::ins_form, crate::specs::References::outs_form, crate::specs::References::using_form, crate::specs::Descriptors::allocate_form, crate::specs::Descriptors::item_form, crate::specs::Descriptors::got_form, crate::specs::Descriptors::get_form, crate::specs::Descriptors::other_item_form, crate::specs::Descriptors::set_item_form, crate::specs::Descriptors::assigned_form, crate::specs::Descriptors::setting_form, crate::specs::Descriptors::behind_host_form, crate::specs::Descriptors::set_value_form, crate::specs::Descriptors::set_form, crate::specs::Statements::declare_at, crate::specs::Statements::at_form))]
pub fn descriptor_examples()
    ensures allocate { answer_to "EXEC SQL ALLOCATE DESCRIPTOR d;"
        ≡ gives (tree.allocate_area (word_arg (codes "d"))) }
    ensures allocate_else { answer_to "EXEC SQL ALLOCATE\nx;" ≡ dead_on 2 }
    ensures get_count { answer_to "EXEC SQL GET DESCRIPTOR :d :n = COUNT;"
        ≡ gives (tree.get_count (host_arg (identifier (codes "d"))) (plain "n")) }
    ensures get_items { answer_to "EXEC SQL GET DESCRIPTOR d VALUE :i :x = DATA , :j = INDICATOR;"
        ≡ gives (tree.get_items (word_arg (codes "d")) (host_input (plain "i")) ((
          Item.Content,
          plain "x",
        ) ∷ (Item.Indicator, plain "j") ∷ [])) }
    ensures spelled_indicator { answer_to
        "EXEC SQL GET DESCRIPTOR d VALUE :i INDICATOR :k :x = TYPE;"
        ≡ gives (tree.get_items (word_arg (codes "d")) (host_input (with_indicator "i" "k"))
        ((Item.Code, plain "x") ∷ [])) }
    ensures count_with_index { answer_to "EXEC SQL GET DESCRIPTOR d VALUE 1 :x =\nCOUNT;"
        ≡ dead_on 2 }
    ensures set_count { answer_to "EXEC SQL SET DESCRIPTOR d COUNT = 3;"
        ≡ gives (tree.set_count (word_arg (codes "d")) (const_input (codes "3"))) }
    ensures set_items { answer_to "EXEC SQL SET DESCRIPTOR d VALUE 1 DATA = :x , INDICATOR = - 1;"
        ≡ gives (tree.set_items (word_arg (codes "d")) (const_input (codes "1")) ((
          Item.Content,
          host_input (plain "x"),
        ) ∷ (Item.Indicator, const_input (codes "-1")) ∷ [])) }
    ensures index_with_indicator { answer_to
        "EXEC SQL SET DESCRIPTOR d VALUE :i INDICATOR :k TYPE = 4;"
        ≡ gives (tree.set_items (word_arg (codes "d")) (host_input (with_indicator "i" "k"))
        ((Item.Code, const_input (codes "4")) ∷ [])) }
    ensures item_indicator { answer_to "EXEC SQL SET DESCRIPTOR d VALUE :i INDICATOR = 0;"
        ≡ gives (tree.set_items (word_arg (codes "d")) (host_input (plain "i"))
        ((Item.Indicator, const_input (codes "0")) ∷ [])) }
    ensures set_name { answer_to "EXEC SQL SET DESCRIPTOR d VALUE 1\nNAME = 0;" ≡ dead_on 2 }
{}

/// Directives.
#[tactic(auto, unfolding(crate::specs::References::suffix_form, crate::specs::References::name_form, crate::specs::References::indicator_form, crate::specs::References::spelled_indicator_form, crate::specs::References::text_form, crate::specs::References::spelled_text_form, crate::specs::References::statement_text_form, crate::specs::References::constant_form, crate::specs::References::value_form, crate::specs::References::spelled_value_form, crate::specs::References::ins_form, crate::specs::References::outs_form, crate::specs::References::using_form, crate::specs::Directives::condition_form, crate::specs::Directives::argument_form, crate::specs::Directives::arguments_form, crate::specs::Directives::do_form, crate::specs::Directives::action_form, crate::specs::Directives::whenever_form, crate::specs::Directives::include_form, crate::specs::Directives::cursor_form, crate::specs::Statements::declare_at, crate::specs::Statements::at_form))]
pub fn directive_examples()
    ensures next { answer_to "EXEC SQL WHENEVER NOT FOUND DO CONTINUE;"
        ≡ gives (tree.whenever Cond.NotFound tree.next_action) }
    ensures goto { answer_to "EXEC SQL WHENEVER SQLWARNING GO TO l;"
        ≡ gives (tree.whenever Cond.Warning (tree.goto_action (codes "l"))) }
    ensures call { answer_to "EXEC SQL WHENEVER SQLERROR DO break ( 1 , a , 'x' );"
        ≡ gives (tree.whenever Cond.Error (tree.call_action (codes "break") (exprs (integer 1
        (arithmetic Int)) (exprs (identifier (codes "a")) (exprs (character (pos 120))
        no_exprs))))) }
    ensures code_as_argument { answer_to "EXEC SQL WHENEVER SQLERROR CALL f ( SQLCODE );"
        ≡ gives (tree.whenever Cond.Error (tree.call_action (codes "f") (exprs (member
        (identifier (codes "sqlca")) (codes "sqlcode")) no_exprs))) }
    ensures text_as_argument { answer_to "EXEC SQL WHENEVER SQLERROR CALL f (\n'xy' );"
        ≡ dead_on 2 }
    ensures large_argument { answer_to
        "EXEC SQL WHENEVER SQLERROR CALL f ( 2147483648 ,\n9223372036854775808 );"
        ≡ dead_on 2 }
    ensures found_alone { answer_to "EXEC SQL WHENEVER\nFOUND STOP;" ≡ dead_on 2 }
    ensures include { answer_to "EXEC SQL INCLUDE SQLCA;" ≡ gives tree.include_sqlca }
    ensures include_number { answer_to "EXEC SQL INCLUDE\n5;" ≡ dead_on 2 }
{}

/// Statements that are left out.
#[tactic(auto, unfolding(crate::specs::ServerText::reference_at, crate::specs::ServerText::host_at, crate::specs::ServerText::into_list, crate::specs::ServerText::server_at, crate::specs::ServerText::transaction_at, crate::specs::References::suffix_form, crate::specs::References::name_form, crate::specs::References::indicator_form, crate::specs::References::spelled_indicator_form, crate::specs::References::text_form, crate::specs::References::spelled_text_form, crate::specs::References::statement_text_form, crate::specs::References::constant_form, crate::specs::References::value_form, crate::specs::References::spelled_value_form, crate::specs::References::ins_form, crate::specs::References::outs_form, crate::specs::References::using_form, crate::specs::Statements::declare_at, crate::specs::Statements::at_form))]
pub fn left_out_examples()
    ensures file { answer_to "EXEC SQL INCLUDE \"f\";" ≡ left_out_on 1 }
    ensures angles { answer_to "EXEC SQL INCLUDE <f>;" ≡ left_out_on 1 }
    ensures single_quotes { answer_to "EXEC SQL INCLUDE 'f';" ≡ left_out_on 1 }
    ensures dotted_name { answer_to "EXEC SQL INCLUDE sqlca.h;" ≡ left_out_on 1 }
    ensures path { answer_to "EXEC SQL INCLUDE ../f;" ≡ left_out_on 1 }
    ensures path_from_the_root { answer_to "EXEC SQL INCLUDE /f;" ≡ left_out_on 1 }
    ensures further_word { answer_to "EXEC SQL INCLUDE sqlca x;" ≡ left_out_on 1 }
    ensures word_behind_at { answer_to "EXEC SQL AT c\nTYPE x;" ≡ left_out_on 2 }
    ensures prepare_as { answer_to "EXEC SQL PREPARE s AS SELECT;" ≡ left_out_on 1 }
    ensures deallocate_all { answer_to "EXEC SQL DEALLOCATE ALL;" ≡ left_out_on 1 }
    ensures area { answer_to "EXEC SQL FETCH c INTO\nDESCRIPTOR d;" ≡ left_out_on 1 }
    ensures area_of_open { answer_to "EXEC SQL OPEN c USING DESCRIPTOR d;" ≡ left_out_on 1 }
    ensures table_of_that_name { answer_to "EXEC SQL INSERT INTO DESCRIPTOR x;"
        ≡ gives (tree.server_text (b "INSERT INTO DESCRIPTOR x" ∷ []) no_outs) }
{}

/// A statement has at most 1,000 inputs, and a reference 64 suffixes; each reference begins a count of its own.
pub fn limit_examples()
    ensures last_input { step_by input (record { inputs = 999; suffixes = 3 })
        ≡ Some (record { inputs = 1000; suffixes = 0 }) }
    ensures no_input { step_by input (record { inputs = 1000; suffixes = 0 }) ≡ None }
    ensures output { step_by reference (record { inputs = 1000; suffixes = 64 })
        ≡ Some (record { inputs = 1000; suffixes = 0 }) }
    ensures last_suffix { step_by suffix (record { inputs = 0; suffixes = 63 })
        ≡ Some (record { inputs = 0; suffixes = 64 }) }
    ensures no_suffix { step_by suffix (record { inputs = 0; suffixes = 64 }) ≡ None }
{}

/// The parameters that a host of as many leaves stands for.
#[tactic(none)]
pub fn parameter_examples()
    ensures none { parameters 1 0 ≡ codes "" }
    ensures one { parameters 1 1 ≡ codes "$1" }
    ensures more { parameters 9 3 ≡ codes "$9, $10, $11" }
{}
