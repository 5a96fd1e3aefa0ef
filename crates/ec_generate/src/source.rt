//! The program of a number, made.
ghost use Rattle.std.specs.Prelude.{◌≡◌, ◌++◌, IfOk, OnOk};
ghost use Rattle.ec_generate.specs.Generated.{generated, question};

use ec_base::{Bytes, OutOfMemory};
use itoa::Buffer;
use std::alloc::Global;

// What stands before the questions.
const OPENING: &[u8] = b"EXEC SQL BEGIN DECLARE SECTION;\n\
int k;\n\
short i;\n\
EXEC SQL END DECLARE SECTION;\n\
int main(void) {\n\
long s = 0;\n\
EXEC SQL CONNECT TO gen;\n";

// What stands behind them.
const CLOSING: &[u8] = b"EXEC SQL DISCONNECT ALL;\n\
printf(\"%ld\\n\", s);\n\
return 0;\n\
}\n";

// Puts the question of a number.
fn push_question(text: &mut Bytes, number: u32) -> Result<(), OutOfMemory>
    ensures { OnOk result (text.new ≡ text.old ++ question number) }
{
    text.extend_from_slice(b"EXEC SQL SELECT ")?;
    text.extend_from_slice(Buffer::new().format(number).as_bytes())?;
    text.extend_from_slice(b" + 1 INTO :k :i;\nif (sqlca.sqlcode == 0 && i == 0) s = s + k;\n")
}

/// The source of the program of a number: it connects to `gen`, asks for each number from 1 to its own what one more is, adds
/// the answers that came, and prints the sum (PostgreSQL manual, chapter ECPG; `printf` as in ISO C 7.19.6.1).
pub fn program(alloc: Global, number: u32) -> Result<Bytes, OutOfMemory>
    ensures { IfOk result (λ text. text ≡ generated number) }
{
    let mut text = Bytes::new(alloc);
    text.extend_from_slice(OPENING)?;
    let mut asked = 0;
    while asked < number {
        asked += 1;
        push_question(&mut text, asked)?;
    }
    text.extend_from_slice(CLOSING)?;
    Ok(text)
}
