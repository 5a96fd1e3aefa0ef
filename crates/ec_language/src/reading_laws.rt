//! How whole texts are read, as the contracts of functions that do nothing.

ghost use Rattle.std.specs.Prelude.{false, codes, Ok, Err};
ghost use Rattle.ec_base.specs.declared.fault.FaultKind.TheVariants.{F2, F5, F7};
ghost use Rattle.ec_base.specs.declared.stop.Stop.TheVariants.{Refused};
ghost use Rattle.ec_language.specs.First.{Reads};
ghost use Rattle.ec_language.specs.ReadText.{read_text};
ghost use Rattle.ec_language.specs.ReadingExample.{example_unit};

/// Each text is read: it has a tree, or something in it is refused. A plain reading finds it.
pub fn each_text_is_read(text: &[u8], written: bool)
    ensures { Reads written text.now (read_text written text.now) }
{}

/// A program with a declaration, a statement and a call; and what becomes of it, and of others, where something is wrong.
pub fn reading_examples()
    ensures program { Reads false
        (codes
        "EXEC SQL int x;\nint main(void) {\nEXEC SQL SELECT a FROM t INTO :x;\nprintf(\"%d\\n\", x);\nreturn 0;\n}\n")
        (Ok example_unit) }
    ensures without_its_last_line { Reads false
        (codes
        "EXEC SQL int x;\nint main(void) {\nEXEC SQL SELECT a FROM t INTO :x;\nprintf(\"%d\\n\", x);\nreturn 0;\n")
        (Err (Refused F7 (record { 0 = 6 }))) }
    ensures no_semicolon { Reads false (codes "int main(void) { return 0 }")
        (Err (Refused F7 (record { 0 = 1 }))) }
    ensures bad_number { Reads false (codes "int a = 08;") (Err (Refused F5 (record { 0 = 1 }))) }
    ensures open_quote { Reads false (codes "int main(void) { char c = 'a")
        (Err (Refused F2 (record { 0 = 1 }))) }
    ensures pieces_before_tokens { Reads false (codes "int a = 08;\n'")
        (Err (Refused F2 (record { 0 = 2 }))) }
    ensures tokens_before_syntax { Reads false (codes "int 1;\nint a = 08;")
        (Err (Refused F5 (record { 0 = 2 }))) }
{}
