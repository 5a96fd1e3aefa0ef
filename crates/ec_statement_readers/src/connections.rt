//! Statements on connections (PostgreSQL manual, "Managing Database Connections").

ghost use Rattle.std.specs.Prelude.{◌≡◌, IfOk, option_map};
ghost use Rattle.ec_clex.specs.Sql.{sql_view};
ghost use Rattle.ec_ctypes.specs.views.Embedded.{emb_kind_view, text_arg_view};
ghost use Rattle.ec_references.specs.Readers.{next_is};
ghost use Rattle.ec_references.specs.States.{CursorReads, seen};
ghost use Rattle.ec_statement_readers.specs.Readers as spec;
ghost use Rattle.ec_statement_readers.specs.Views.{bytes_view};

use ec_base::{Boxed, Bytes, List, OutOfMemory};
use ec_clex::SqlToken;
use ec_ctypes::{EmbKind, Host, TextArg};
use ec_embedded::shapes::Failure;
use ec_references::{
    Class, Cursor, begins_text, connection, copy_bytes, ended_connection, hosted, indicator,
    named_place, or_default, text_argument, text_of_host, unquoted,
};
use std::alloc::Global;

/// DISCONNECT
#[inline(never)]
#[tactic(auto, unfolding(crate::specs::Readers::disconnecting))]
pub fn disconnect(alloc: Global, cursor: &mut Cursor<'_>) -> Result<EmbKind, Failure>
    ensures { CursorReads emb_kind_view spec.disconnecting cursor.old result cursor.new }
{
    cursor.word(b"DISCONNECT")?;
    if begins_text(cursor) {
        return Ok(EmbKind::Disconnect(ended_connection(alloc, cursor)?));
    }
    Ok(EmbKind::Disconnect(TextArg::Word(List::from_slice(alloc, b"CURRENT")?)))
}

/// The name behind TO, or TO itself.
#[tactic(auto, unfolding(crate::specs::Readers::name_or_to))]
fn name_or_to(alloc: Global, cursor: &mut Cursor<'_>, to: &SqlToken<'_>) -> Result<EmbKind, Failure>
    ensures { CursorReads emb_kind_view (spec.name_or_to (sql_view to.now))
        cursor.old result cursor.new }
{
    if begins_text(cursor) {
        return Ok(EmbKind::SetConnection(connection(alloc, cursor)?));
    }
    Ok(EmbKind::SetConnection(TextArg::Word(copy_bytes(alloc, to)?)))
}

/// A name with nothing before it.
#[tactic(auto, unfolding(crate::specs::Readers::bare_name))]
fn bare_name(alloc: Global, cursor: &mut Cursor<'_>) -> Result<EmbKind, Failure>
    ensures { CursorReads emb_kind_view spec.bare_name cursor.old result cursor.new }
{
    if cursor.at(Class::NotTo) {
        let token = cursor.take(Class::NotTo)?;
        return Ok(EmbKind::SetConnection(TextArg::Word(or_default(alloc, token.bytes)?)));
    }
    if cursor.at(Class::Quote) {
        let token = cursor.take(Class::Quote)?;
        return Ok(EmbKind::SetConnection(TextArg::Word(unquoted(alloc, token)?)));
    }
    let host = hosted(alloc, cursor)?;
    Ok(EmbKind::SetConnection(text_of_host(alloc, host)?))
}

/// SET CONNECTION
#[inline(never)]
#[tactic(auto, unfolding(crate::specs::Readers::setting_connection))]
pub fn set_connection(alloc: Global, cursor: &mut Cursor<'_>) -> Result<EmbKind, Failure>
    ensures { CursorReads emb_kind_view spec.setting_connection cursor.old result cursor.new }
{
    cursor.word(b"SET")?;
    cursor.word(b"CONNECTION")?;
    if cursor.at_word(b"TO") {
        let to = cursor.word(b"TO")?;
        return name_or_to(alloc, cursor, to);
    }
    if cursor.at_sign(b"=") {
        cursor.sign(b"=")?;
        return Ok(EmbKind::SetConnection(connection(alloc, cursor)?));
    }
    bare_name(alloc, cursor)
}

/// TO or `=`
fn to_or_equal<'a>(cursor: &mut Cursor<'a>) -> Result<&'a SqlToken<'a>, Failure>
    ensures { CursorReads (λ t. sql_view t.now) spec.to_or_equal cursor.old result cursor.new }
{
    if cursor.at_word(b"TO") {
        return cursor.word(b"TO");
    }
    cursor.sign(b"=")
}

/// SET AUTOCOMMIT
#[inline(never)]
#[tactic(auto, unfolding(crate::specs::Readers::setting_autocommit))]
pub fn set_autocommit(cursor: &mut Cursor<'_>) -> Result<EmbKind, Failure>
    ensures { CursorReads emb_kind_view spec.setting_autocommit cursor.old result cursor.new }
{
    cursor.word(b"SET")?;
    cursor.word(b"AUTOCOMMIT")?;
    to_or_equal(cursor)?;
    if cursor.at_word(b"ON") {
        cursor.word(b"ON")?;
        return Ok(EmbKind::Autocommit(true));
    }
    cursor.word(b"OFF")?;
    Ok(EmbKind::Autocommit(false))
}

/// The connection that AT names.
#[inline(never)]
#[tactic(auto, unfolding(crate::specs::Readers::at_name))]
pub fn at_name(alloc: Global, cursor: &mut Cursor<'_>) -> Result<TextArg, Failure>
    ensures { CursorReads text_arg_view spec.at_name cursor.old result cursor.new }
{
    cursor.word(b"AT")?;
    connection(alloc, cursor)
}

/// A password behind the words before it.
#[tactic(auto, unfolding(crate::specs::Readers::some_password))]
fn some_password(alloc: Global, cursor: &mut Cursor<'_>) -> Result<TextArg, Failure>
    ensures { CursorReads text_arg_view spec.some_password cursor.old result cursor.new }
{
    if cursor.at_word(b"IDENTIFIED") {
        cursor.word(b"IDENTIFIED")?;
        cursor.word(b"BY")?;
        return text_argument(alloc, cursor);
    }
    if cursor.at_word(b"USING") {
        cursor.word(b"USING")?;
        return text_argument(alloc, cursor);
    }
    cursor.sign(b"/")?;
    text_argument(alloc, cursor)
}

/// Whether a password begins here.
fn begins_password(cursor: &Cursor<'_>) -> bool
    ensures { result ≡ spec.begins_password (seen cursor.now).tokens }
{
    cursor.at_word(b"IDENTIFIED") || cursor.at_word(b"USING") || cursor.at_sign(b"/")
}

/// A password, if there is one.
#[tactic(auto, unfolding(crate::specs::Readers::password))]
fn password(alloc: Global, cursor: &mut Cursor<'_>) -> Result<Option<Boxed<TextArg>>, Failure>
    ensures { CursorReads (option_map text_arg_view) spec.password cursor.old result cursor.new }
{
    if begins_password(cursor) {
        let text = some_password(alloc, cursor)?;
        return Ok(Some(Boxed::new(alloc, text)?));
    }
    Ok(None)
}

/// A user with or without a password.
#[tactic(auto, unfolding(crate::specs::Readers::user))]
fn user(
    alloc: Global,
    cursor: &mut Cursor<'_>,
    target: Boxed<TextArg>,
    name: Option<Boxed<TextArg>>,
) -> Result<EmbKind, Failure>
    ensures { CursorReads emb_kind_view
        (spec.user (text_arg_view target) (option_map text_arg_view name))
        cursor.old result cursor.new }
{
    let user = text_argument(alloc, cursor)?;
    let user = Boxed::new(alloc, user)?;
    let password = password(alloc, cursor)?;
    Ok(EmbKind::Connect {
        target: target.into_inner(),
        name,
        user: Some(user),
        password,
    })
}

/// USER with a user, or nothing.
#[tactic(auto, unfolding(crate::specs::Readers::user_or_none))]
fn user_or_none(
    alloc: Global,
    cursor: &mut Cursor<'_>,
    target: Boxed<TextArg>,
    name: Option<Boxed<TextArg>>,
) -> Result<EmbKind, Failure>
    ensures { CursorReads emb_kind_view
        (spec.user_or_none (text_arg_view target) (option_map text_arg_view name))
        cursor.old result cursor.new }
{
    if cursor.at_word(b"USER") {
        cursor.word(b"USER")?;
        return user(alloc, cursor, target, name);
    }
    Ok(EmbKind::Connect {
        target: target.into_inner(),
        name,
        user: None,
        password: None,
    })
}

/// AS with a name and USER with a user, each or not.
#[tactic(auto, unfolding(crate::specs::Readers::plain_tail))]
fn plain_tail(
    alloc: Global,
    cursor: &mut Cursor<'_>,
    target: Boxed<TextArg>,
) -> Result<EmbKind, Failure>
    ensures { CursorReads emb_kind_view (spec.plain_tail (text_arg_view target))
        cursor.old result cursor.new }
{
    if cursor.at_word(b"AS") {
        cursor.word(b"AS")?;
        let name = connection(alloc, cursor)?;
        let name = Boxed::new(alloc, name)?;
        return user_or_none(alloc, cursor, target, Some(name));
    }
    if cursor.at_word(b"USER") {
        cursor.word(b"USER")?;
        return user(alloc, cursor, target, None);
    }
    Ok(EmbKind::Connect {
        target: target.into_inner(),
        name: None,
        user: None,
        password: None,
    })
}

/// The same behind a `:` that stands alone.
#[tactic(auto, unfolding(crate::specs::Readers::parted_tail))]
fn parted_tail(
    alloc: Global,
    cursor: &mut Cursor<'_>,
    target: Boxed<TextArg>,
) -> Result<EmbKind, Failure>
    ensures { CursorReads emb_kind_view (spec.parted_tail (text_arg_view target))
        cursor.old result cursor.new }
{
    if cursor.at_parted(b"AS") {
        cursor.parted(b"AS")?;
        let name = connection(alloc, cursor)?;
        let name = Boxed::new(alloc, name)?;
        return user_or_none(alloc, cursor, target, Some(name));
    }
    if cursor.at_parted(b"USER") {
        cursor.parted(b"USER")?;
        return user(alloc, cursor, target, None);
    }
    Ok(EmbKind::Connect {
        target: target.into_inner(),
        name: None,
        user: None,
        password: None,
    })
}

/// The bytes of a target.
#[derive(Drop)]
pub struct TargetBytes {
    pub bytes: Bytes,
    /// Whether they are those of one token.
    pub alone: bool,
}

/// With the next token.
fn one_more_token(cursor: &mut Cursor<'_>, mut target: TargetBytes) -> Result<TargetBytes, Failure>
    ensures { CursorReads bytes_view (spec.one_more_byte (bytes_view target))
        cursor.old result cursor.new }
{
    let token = cursor.take(Class::TargetMore)?;
    target.bytes.extend_from_slice(token.bytes)?;
    Ok(TargetBytes {
        bytes: target.bytes,
        alone: false,
    })
}

/// With all tokens up to AS, USER or the end.
fn more_tokens(cursor: &mut Cursor<'_>, mut target: TargetBytes) -> Result<TargetBytes, Failure>
    ensures { CursorReads bytes_view (spec.more_bytes (bytes_view target))
        cursor.old result cursor.new }
{
    for _turn in 0..cursor.left() {
        if !cursor.at(Class::TargetMore) {
            return Ok(target);
        }
        target = one_more_token(cursor, target)?;
    }
    Ok(target)
}

/// A target by its bytes. DEFAULT alone is a word.
fn text_of_bytes(alloc: Global, target: TargetBytes) -> Result<TextArg, OutOfMemory>
    ensures { IfOk result (λ text. text_arg_view text ≡ spec.bytes_text (bytes_view target)) }
{
    if target.alone {
        return Ok(TextArg::Word(or_default(alloc, target.bytes.as_slice())?));
    }
    Ok(TextArg::Word(target.bytes))
}

/// A target that is neither a quote nor a host.
fn started_bytes(alloc: Global, cursor: &mut Cursor<'_>) -> Result<TextArg, Failure>
    ensures { CursorReads text_arg_view spec.started_bytes cursor.old result cursor.new }
{
    let token = cursor.take(Class::TargetStart)?;
    let bytes = copy_bytes(alloc, token)?;
    let target = more_tokens(cursor, TargetBytes { bytes, alone: true })?;
    Ok(text_of_bytes(alloc, target)?)
}

/// A target that begins with a `:` and is no host.
fn colon_bytes(
    alloc: Global,
    cursor: &mut Cursor<'_>,
    colon: &SqlToken<'_>,
) -> Result<TextArg, Failure>
    ensures { CursorReads text_arg_view (spec.colon_bytes (sql_view colon.now))
        cursor.old result cursor.new }
{
    let token = cursor.take(Class::TargetBehind)?;
    let mut bytes = copy_bytes(alloc, colon)?;
    bytes.extend_from_slice(token.bytes)?;
    let target = more_tokens(
        cursor,
        TargetBytes {
            bytes,
            alone: false,
        },
    )?;
    Ok(text_of_bytes(alloc, target)?)
}

/// A host behind its `:`.
fn host_target(alloc: Global, cursor: &mut Cursor<'_>) -> Result<TextArg, Failure>
    ensures { CursorReads text_arg_view spec.host_target cursor.old result cursor.new }
{
    let value = named_place(alloc, cursor)?;
    let value = Boxed::new(alloc, value)?;
    let indicator = indicator(alloc, cursor)?;
    Ok(text_of_host(
        alloc,
        Host {
            value: value.into_inner(),
            indicator,
        },
    )?)
}

/// The target that is a `:` alone, and what stands behind it.
#[tactic(auto, unfolding(crate::specs::Readers::colon_alone))]
fn colon_alone(
    alloc: Global,
    cursor: &mut Cursor<'_>,
    colon: &SqlToken<'_>,
) -> Result<EmbKind, Failure>
    ensures { CursorReads emb_kind_view (spec.colon_alone (sql_view colon.now))
        cursor.old result cursor.new }
{
    let bytes = or_default(alloc, colon.bytes)?;
    let target = Boxed::new(alloc, TextArg::Word(bytes))?;
    parted_tail(alloc, cursor, target)
}

/// The target that begins with a `:`, and what stands behind it.
#[tactic(auto, unfolding(crate::specs::Readers::target_behind_colon))]
fn target_behind_colon(
    alloc: Global,
    cursor: &mut Cursor<'_>,
    colon: &SqlToken<'_>,
) -> Result<EmbKind, Failure>
    ensures { CursorReads emb_kind_view (spec.target_behind_colon (sql_view colon.now))
        cursor.old result cursor.new }
{
    if cursor.at(Class::GluedWord) {
        let target = host_target(alloc, cursor)?;
        let target = Boxed::new(alloc, target)?;
        return plain_tail(alloc, cursor, target);
    }
    if cursor.at(Class::TargetBehind) {
        let target = colon_bytes(alloc, cursor, colon)?;
        let target = Boxed::new(alloc, target)?;
        return plain_tail(alloc, cursor, target);
    }
    colon_alone(alloc, cursor, colon)
}

/// The target, and what stands behind it.
#[tactic(auto, unfolding(crate::specs::Readers::targeted))]
fn targeted(alloc: Global, cursor: &mut Cursor<'_>) -> Result<EmbKind, Failure>
    ensures { CursorReads emb_kind_view spec.targeted cursor.old result cursor.new }
{
    if cursor.at(Class::Quote) {
        let token = cursor.take(Class::Quote)?;
        let bytes = unquoted(alloc, token)?;
        let target = Boxed::new(alloc, TextArg::Word(bytes))?;
        return plain_tail(alloc, cursor, target);
    }
    if cursor.at(Class::Colon) {
        let colon = cursor.take(Class::Colon)?;
        return target_behind_colon(alloc, cursor, colon);
    }
    let target = started_bytes(alloc, cursor)?;
    let target = Boxed::new(alloc, target)?;
    plain_tail(alloc, cursor, target)
}

/// CONNECT
#[inline(never)]
#[tactic(auto, unfolding(crate::specs::Readers::connecting))]
pub fn connect(alloc: Global, cursor: &mut Cursor<'_>) -> Result<EmbKind, Failure>
    ensures { CursorReads emb_kind_view spec.connecting cursor.old result cursor.new }
{
    cursor.word(b"CONNECT")?;
    cursor.word(b"TO")?;
    targeted(alloc, cursor)
}
