//! Transaction control in the words of PostgreSQL: which text asks for it, exactly by `specs/Control.antt`.
ghost use Rattle.std.specs.Prelude.{◌≡◌, codes, true, false, Some, None, option_map};
ghost use Rattle.ec_sqlitelink.specs.Control.{is_end, behind_work, mode_begun, isolation_begun, then_due, step, may_end, are_modes, begun, begin, commit, rollback, rollback_to, chain_word, chain_choice, chain_at, name_of, name_at, point_at, rolled_back, started, control_in};
ghost use Rattle.ec_sqlitelink.specs.Control as spec;
ghost use Rattle.ec_sqlitelink.specs.declared.control.Due.TheVariants.{ModeOrEnd};
ghost use Rattle.ec_sqlitelink.specs.Reading.{word_of, left, control_of};

use crate::marks::is_word_byte;
use crate::words::{Word, Words};

/// What a statement asks of transactions.
#[derive(Clone, Copy, Debug)]
pub enum Control<'a> {
    /// One begins.
    Begin,
    /// It is committed. Behind a chained one the next begins at once.
    Commit { chain: bool },
    /// It is rolled back, and the next begins at once where it is chained.
    Rollback { chain: bool },
    /// A savepoint of that name is made.
    Savepoint(&'a [u8]),
    /// What was done since the savepoint is rolled back.
    RollbackTo(&'a [u8]),
    /// The savepoint is forgotten, and what was done since stays.
    Release(&'a [u8]),
}

/// What may stand next in a list of modes.
#[derive(Clone, Copy, Debug, PartialEq, Eq)]
pub enum Due {
    /// A mode.
    Mode,
    /// A mode or the end.
    ModeOrEnd,
    /// A comma, a mode or the end.
    CommaOrEnd,
    /// `LEVEL`.
    Level,
    /// A level of isolation.
    Isolation,
    /// `COMMITTED` or `UNCOMMITTED`.
    Committed,
    /// `READ`.
    Read,
    /// `ONLY` or `WRITE`.
    Access,
    /// `DEFERRABLE`.
    Deferrable,
}

/// Whether nothing is left but `;`.
pub fn is_end(words: Words<'_>) -> bool
    ensures { result ≡ is_end (left words.entry) }
{
    let mut words = words;
    while let Some(word) = words.next() {
        if !word.is(b";") {
            return false;
        }
    }
    true
}

// The words behind WORK or TRANSACTION, if they begin with one of them.
fn behind_work(words: Words<'_>) -> Words<'_>
    ensures { left result ≡ behind_work (left words.entry) }
{
    let mut words = words;
    let _ = words.take(b"WORK") || words.take(b"TRANSACTION");
    words
}

// What may stand behind the word that begins a mode.
fn mode_begun(word: Word<'_>) -> Option<Due>
    ensures { result ≡ mode_begun (word_of word.entry) }
{
    if word.is(b"ISOLATION") {
        Some(Due::Level)
    } else if word.is(b"READ") {
        Some(Due::Access)
    } else if word.is(b"NOT") {
        Some(Due::Deferrable)
    } else if word.is(b"DEFERRABLE") {
        Some(Due::CommaOrEnd)
    } else {
        None
    }
}

// What may stand behind the word that begins a level of isolation.
fn isolation_begun(word: Word<'_>) -> Option<Due>
    ensures { result ≡ isolation_begun (word_of word.entry) }
{
    if word.is(b"READ") {
        Some(Due::Committed)
    } else if word.is(b"REPEATABLE") {
        Some(Due::Read)
    } else if word.is(b"SERIALIZABLE") {
        Some(Due::CommaOrEnd)
    } else {
        None
    }
}

// What is due behind a word that has to be so.
fn then_due(is_so: bool, due: Due) -> Option<Due>
    ensures { result ≡ then_due is_so due }
{
    if is_so { Some(due) } else { None }
}

// What may stand behind a word of a list of modes, if it may stand where that was due.
fn step(due: Due, word: Word<'_>) -> Option<Due>
    ensures { result ≡ step due (word_of word.entry) }
{
    match due {
        Due::Mode | Due::ModeOrEnd => mode_begun(word),
        Due::CommaOrEnd if word.is(b",") => Some(Due::Mode),
        Due::CommaOrEnd => mode_begun(word),
        Due::Level => then_due(word.is(b"LEVEL"), Due::Isolation),
        Due::Isolation => isolation_begun(word),
        Due::Committed => {
            then_due(
                word.is(b"COMMITTED") || word.is(b"UNCOMMITTED"),
                Due::CommaOrEnd,
            )
        }
        Due::Read => then_due(word.is(b"READ"), Due::CommaOrEnd),
        Due::Access => then_due(word.is(b"ONLY") || word.is(b"WRITE"), Due::CommaOrEnd),
        Due::Deferrable => then_due(word.is(b"DEFERRABLE"), Due::CommaOrEnd),
    }
}

// Whether a list of modes may end there.
fn may_end(due: Due) -> bool
    ensures { result ≡ may_end due }
{
    matches!(due, Due::ModeOrEnd | Due::CommaOrEnd)
}

// Whether the words are a list of modes, up to the end.
fn are_modes(words: Words<'_>) -> bool
    ensures { result ≡ are_modes (Some ModeOrEnd) (left words.entry) }
{
    let mut words = words;
    let mut due = Due::ModeOrEnd;
    while !is_end(words) {
        let Some(word) = words.next() else {
            break;
        };
        match step(due, word) {
            Some(next) => due = next,
            None => return false,
        }
    }
    may_end(due)
}

// A transaction that begins with these modes.
fn begun<'a>(words: Words<'_>) -> Option<Control<'a>>
    ensures { option_map control_of result ≡ begun (left words.entry) }
{
    if are_modes(words) {
        Some(Control::Begin)
    } else {
        None
    }
}

// The choice for a chain, if it ends with its last word.
fn chain_word(chain: bool, words: Words<'_>) -> Option<bool>
    ensures { result ≡ chain_word chain (left words.entry) }
{
    let mut words = words;
    if words.take(b"CHAIN") && is_end(words) {
        Some(chain)
    } else {
        None
    }
}

// The choice for or against a chain.
fn chain_choice(words: Words<'_>) -> Option<bool>
    ensures { result ≡ chain_choice (left words.entry) }
{
    let mut words = words;
    let chain = !words.take(b"NO");
    chain_word(chain, words)
}

// Whether a transaction is chained, by the words up to the end.
fn chain_at(words: Words<'_>) -> Option<bool>
    ensures { result ≡ chain_at (left words.entry) }
{
    if is_end(words) {
        return Some(false);
    }
    let mut words = words;
    if words.take(b"AND") {
        chain_choice(words)
    } else {
        None
    }
}

// The name that a word is.
fn name_of(word: Word<'_>) -> Option<&[u8]>
    ensures { option_map (λ name. name.now) result ≡ name_of (word_of word.entry) }
{
    match word {
        Word::Quoted(name) => Some(name),
        Word::Plain(name) => match name {
            [byte, ..] if is_word_byte(*byte) && !byte.is_ascii_digit() => Some(name),
            _ => None,
        },
    }
}

// A name and the end.
fn name_at(words: Words<'_>) -> Option<&[u8]>
    ensures { option_map (λ name. name.now) result ≡ name_at (left words.entry) }
{
    let mut words = words;
    match words.next() {
        Some(word) if is_end(words) => name_of(word),
        _ => None,
    }
}

// The name of a savepoint, with SAVEPOINT before it or without. Alone that is the name.
fn point_at(words: Words<'_>) -> Option<&[u8]>
    ensures { option_map (λ name. name.now) result ≡ point_at (left words.entry) }
{
    let mut behind = words;
    if behind.take(b"SAVEPOINT") {
        if let Some(name) = name_at(behind) {
            return Some(name);
        }
    }
    name_at(words)
}

// The rest of a START.
fn started<'a>(words: Words<'_>) -> Option<Control<'a>>
    ensures { option_map control_of result ≡ started (left words.entry) }
{
    let mut behind = words;
    if behind.take(b"TRANSACTION") {
        begun(behind)
    } else {
        None
    }
}

// The rest of a COMMIT.
fn committed<'a>(words: Words<'_>) -> Option<Control<'a>>
    ensures { option_map control_of result ≡ option_map commit (chain_at (left words.entry)) }
{
    match chain_at(words) {
        Some(chain) => Some(Control::Commit { chain }),
        None => None,
    }
}

// The rest of an ABORT.
fn aborted<'a>(words: Words<'_>) -> Option<Control<'a>>
    ensures { option_map control_of result ≡ option_map rollback (chain_at (left words.entry)) }
{
    match chain_at(words) {
        Some(chain) => Some(Control::Rollback { chain }),
        None => None,
    }
}

// The rest of a ROLLBACK.
fn rolled_back(words: Words<'_>) -> Option<Control<'_>>
    ensures { option_map control_of result ≡ rolled_back (left words.entry) }
{
    let mut behind = words;
    if behind.take(b"TO") {
        match point_at(behind) {
            Some(name) => Some(Control::RollbackTo(name)),
            None => None,
        }
    } else {
        aborted(words)
    }
}

// The rest of a SAVEPOINT.
fn savepoint(words: Words<'_>) -> Option<Control<'_>>
    ensures { option_map control_of result
        ≡ option_map spec.savepoint (name_at (left words.entry)) }
{
    match name_at(words) {
        Some(name) => Some(Control::Savepoint(name)),
        None => None,
    }
}

// The rest of a RELEASE.
fn release(words: Words<'_>) -> Option<Control<'_>>
    ensures { option_map control_of result
        ≡ option_map spec.release (point_at (left words.entry)) }
{
    match point_at(words) {
        Some(name) => Some(Control::Release(name)),
        None => None,
    }
}

/// What the text asks of transactions, if it is one of the forms.
pub fn read_control(text: &[u8]) -> Option<Control<'_>>
    ensures { option_map control_of result ≡ control_in text.now }
{
    let mut words = Words::new(text);
    if words.take(b"BEGIN") {
        begun(behind_work(words))
    } else if words.take(b"START") {
        started(words)
    } else if words.take(b"COMMIT") || words.take(b"END") {
        committed(behind_work(words))
    } else if words.take(b"ABORT") {
        aborted(behind_work(words))
    } else if words.take(b"ROLLBACK") {
        rolled_back(behind_work(words))
    } else if words.take(b"SAVEPOINT") {
        savepoint(words)
    } else if words.take(b"RELEASE") {
        release(words)
    } else {
        None
    }
}

/// Worked examples of the forms, computed.
pub fn control_examples()
    ensures plain { control_in (codes "BEGIN") ≡ Some begin }
    ensures work { control_in (codes "commit work;") ≡ Some (commit false) }
    ensures chained { control_in (codes "/* c */ END and chain -- on") ≡ Some (commit true) }
    ensures unchained { control_in (codes "Abort Transaction And No Chain ; ;")
        ≡ Some (rollback false) }
    ensures modes { control_in (codes
        "START TRANSACTION ISOLATION LEVEL REPEATABLE READ, READ ONLY NOT DEFERRABLE")
        ≡ Some begin }
    ensures quoted { control_in (codes "SAVEPOINT \"a b\"")
        ≡ Some (spec.savepoint (codes "a b")) }
    ensures open { control_in (codes "SAVEPOINT \"a b") ≡ None }
    ensures back { control_in (codes "ROLLBACK WORK TO SAVEPOINT s")
        ≡ Some (rollback_to (codes "s")) }
    ensures alone { control_in (codes "ROLLBACK TO savepoint")
        ≡ Some (rollback_to (codes "savepoint")) }
    ensures released { control_in (codes "RELEASE s_1") ≡ Some (spec.release (codes "s_1")) }
    ensures half { control_in (codes "COMMIT AND") ≡ None }
    ensures comma { control_in (codes "BEGIN READ ONLY,") ≡ None }
    ensures level { control_in (codes "BEGIN ISOLATION LEVEL") ≡ None }
    ensures name { control_in (codes "\"COMMIT\"") ≡ None }
    ensures number { control_in (codes "SAVEPOINT 1") ≡ None }
    ensures two { control_in (codes "COMMIT; COMMIT") ≡ None }
    ensures other { control_in (codes "SELECT 1") ≡ None }
{}
