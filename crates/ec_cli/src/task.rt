//! What the words ask the tool for.
ghost use Rattle.std.specs.Prelude.{◌≡◌, IfOk};
ghost use Rattle.ec_cli.specs.Tasks.{task, task_of};

use crate::form::Form;
use ec_base::OutOfMemory;
use ec_words::{Command, USUAL_TURNS, read_words};
use std::alloc::Global;

/// What the tool is asked for.
#[derive(Clone, Copy, Debug, PartialEq, Eq)]
pub enum Task {
    /// The C of a source.
    Translate,
    /// The run of a text of a form, for so many turns.
    Run(Form, u64),
}

// What a command asks for.
fn task_of(command: &Command) -> Task
    ensures { result ≡ task_of command.now }
{
    match command {
        Command::Translate => Task::Translate,
        Command::Exec(run) => Task::Run(Form::Written, run.turns),
        Command::Run(run) => Task::Run(Form::Source, run.turns),
        Command::Record(run) => Task::Run(Form::Recorded, run.turns),
        Command::Gen(program) => Task::Run(Form::Generated(program.number), USUAL_TURNS),
    }
}

/// What the words ask for, or none exactly where they name no command.
pub fn read_task(alloc: Global, words: &[String]) -> Result<Option<Task>, OutOfMemory>
    ensures { IfOk result (λ it. it ≡ task words.now) }
{
    match read_words(alloc, words)? {
        Some(command) => Ok(Some(task_of(&command))),
        None => Ok(None),
    }
}
