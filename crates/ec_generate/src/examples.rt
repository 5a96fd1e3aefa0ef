//! Worked examples of generated programs.
ghost use Rattle.std.specs.Prelude.{◌≡◌, ◌++◌, codes, length};
ghost use Rattle.ec_generate.specs.Generated.{generated, opening, closing};

/// How long the first program is, and the second one, computed.
pub fn program_examples()
    ensures one { length (generated 1) ≡ 268 }
    ensures two { generated 2 ≡ opening
        ++ codes "EXEC SQL SELECT 1 + 1 INTO :k :i;\nif (sqlca.sqlcode == 0 && i == 0) s = s + k;\n"
        ++ codes "EXEC SQL SELECT 2 + 1 INTO :k :i;\nif (sqlca.sqlcode == 0 && i == 0) s = s + k;\n"
        ++ closing }
{}
