//! Statements on SQL descriptors (PostgreSQL manual, "Using Descriptor Areas").

ghost use Rattle.std.specs.Prelude.{◌≡◌, IfOk, map};
ghost use Rattle.ec_ctypes.specs.views.Embedded.{emb_kind_view, get_item_view, input_view, set_item_view, text_arg_view};
ghost use Rattle.ec_ctypes.specs.views.Exprs.{expr_view, expr_option_view};
ghost use Rattle.ec_references.specs.Readers as parts;
ghost use Rattle.ec_references.specs.States.{CursorReads};
ghost use Rattle.ec_statement_readers.specs.Readers as spec;
ghost use Rattle.ec_statement_readers.specs.Views.{settings_view};
ghost use Rattle.ec_embedded.specs.Descriptors.{index_host};

use ec_base::{Boxed, List, OutOfMemory};
use ec_ctypes::{EmbKind, Expr, Host, Input, Item, TextArg};
use ec_embedded::shapes::Failure;
use ec_references::{
    Class, Cursor, constant, hosted, input_reference, referenced, spelled_text, spelled_value,
    text_argument, value,
};
use std::alloc::Global;

/// ALLOCATE DESCRIPTOR
#[inline(never)]
#[tactic(auto, unfolding(crate::specs::Readers::allocating))]
pub fn allocate(alloc: Global, cursor: &mut Cursor<'_>) -> Result<EmbKind, Failure>
    ensures { CursorReads emb_kind_view spec.allocating cursor.old result cursor.new }
{
    cursor.word(b"ALLOCATE")?;
    cursor.word(b"DESCRIPTOR")?;
    Ok(EmbKind::Allocate(text_argument(alloc, cursor)?))
}

/// An item that is got.
#[tactic(auto, unfolding(crate::specs::Readers::got_item))]
fn got_item(cursor: &mut Cursor<'_>) -> Result<Item, Failure>
    ensures { CursorReads (λ item. item) spec.got_item cursor.old result cursor.new }
{
    if cursor.at_word(b"DATA") {
        cursor.word(b"DATA")?;
        return Ok(Item::Content);
    }
    if cursor.at_word(b"INDICATOR") {
        cursor.word(b"INDICATOR")?;
        return Ok(Item::Indicator);
    }
    if cursor.at_word(b"NAME") {
        cursor.word(b"NAME")?;
        return Ok(Item::Label);
    }
    if cursor.at_word(b"TYPE") {
        cursor.word(b"TYPE")?;
        return Ok(Item::Code);
    }
    cursor.word(b"RETURNED_OCTET_LENGTH")?;
    Ok(Item::Octets)
}

/// A host and the item that it gets.
#[tactic(auto, unfolding(crate::specs::Readers::got))]
fn got(alloc: Global, cursor: &mut Cursor<'_>) -> Result<(Item, Host), Failure>
    ensures { CursorReads get_item_view spec.got cursor.old result cursor.new }
{
    let host = hosted(alloc, cursor)?;
    let host = Boxed::new(alloc, host)?;
    cursor.sign(b"=")?;
    let item = got_item(cursor)?;
    Ok((item, host.into_inner()))
}

/// One more of these.
fn further_got(
    alloc: Global,
    cursor: &mut Cursor<'_>,
    mut items: List<(Item, Host)>,
) -> Result<List<(Item, Host)>, Failure>
    ensures { CursorReads (map get_item_view) (parts.one_further spec.got (map get_item_view items))
        cursor.old result cursor.new }
{
    cursor.sign(b",")?;
    let item = got(alloc, cursor)?;
    items.push(item)?;
    Ok(items)
}

/// All others.
fn more_got(
    alloc: Global,
    cursor: &mut Cursor<'_>,
    mut items: List<(Item, Host)>,
) -> Result<List<(Item, Host)>, Failure>
    ensures { CursorReads (map get_item_view) (parts.further spec.got (map get_item_view items))
        cursor.old result cursor.new }
{
    for _turn in 0..cursor.left() {
        if !cursor.at_sign(b",") {
            return Ok(items);
        }
        items = further_got(alloc, cursor, items)?;
    }
    Ok(items)
}

/// GET DESCRIPTOR, of items.
#[tactic(auto, unfolding(crate::specs::Readers::got_items))]
fn got_items(
    alloc: Global,
    cursor: &mut Cursor<'_>,
    area: Boxed<TextArg>,
) -> Result<EmbKind, Failure>
    ensures { CursorReads emb_kind_view (spec.got_items (text_arg_view area))
        cursor.old result cursor.new }
{
    cursor.word(b"VALUE")?;
    let index = spelled_value(alloc, cursor)?;
    let index = Boxed::new(alloc, index)?;
    let first = got(alloc, cursor)?;
    let mut items = List::new(alloc);
    items.push(first)?;
    let items = more_got(alloc, cursor, items)?;
    Ok(EmbKind::Get {
        area: area.into_inner(),
        index,
        items,
    })
}

/// GET DESCRIPTOR, of the count.
#[tactic(auto, unfolding(crate::specs::Readers::got_count))]
fn got_count(
    alloc: Global,
    cursor: &mut Cursor<'_>,
    area: Boxed<TextArg>,
) -> Result<EmbKind, Failure>
    ensures { CursorReads emb_kind_view (spec.got_count (text_arg_view area))
        cursor.old result cursor.new }
{
    let host = hosted(alloc, cursor)?;
    let host = Boxed::new(alloc, host)?;
    cursor.sign(b"=")?;
    cursor.word(b"COUNT")?;
    Ok(EmbKind::GetCount(area.into_inner(), host))
}

/// GET DESCRIPTOR
#[inline(never)]
#[tactic(auto, unfolding(crate::specs::Readers::getting))]
pub fn get(alloc: Global, cursor: &mut Cursor<'_>) -> Result<EmbKind, Failure>
    ensures { CursorReads emb_kind_view spec.getting cursor.old result cursor.new }
{
    cursor.word(b"GET")?;
    cursor.word(b"DESCRIPTOR")?;
    let area = spelled_text(alloc, cursor)?;
    let area = Boxed::new(alloc, area)?;
    if cursor.at_word(b"VALUE") {
        return got_items(alloc, cursor, area);
    }
    got_count(alloc, cursor, area)
}

/// `=` and a value.
#[tactic(auto, unfolding(crate::specs::Readers::assigned))]
fn assigned(alloc: Global, cursor: &mut Cursor<'_>) -> Result<Input, Failure>
    ensures { CursorReads input_view spec.assigned cursor.old result cursor.new }
{
    cursor.sign(b"=")?;
    value(alloc, cursor)
}

/// An item that is set, but INDICATOR.
#[tactic(auto, unfolding(crate::specs::Readers::other_item))]
fn other_item(cursor: &mut Cursor<'_>) -> Result<Item, Failure>
    ensures { CursorReads (λ item. item) spec.other_item cursor.old result cursor.new }
{
    if cursor.at_word(b"DATA") {
        cursor.word(b"DATA")?;
        return Ok(Item::Content);
    }
    cursor.word(b"TYPE")?;
    Ok(Item::Code)
}

/// An item that is set.
#[tactic(auto, unfolding(crate::specs::Readers::set_item))]
fn set_item(cursor: &mut Cursor<'_>) -> Result<Item, Failure>
    ensures { CursorReads (λ item. item) spec.set_item cursor.old result cursor.new }
{
    if cursor.at_word(b"DATA") || cursor.at_word(b"TYPE") {
        return other_item(cursor);
    }
    cursor.word(b"INDICATOR")?;
    Ok(Item::Indicator)
}

/// An item and its value.
#[tactic(auto, unfolding(crate::specs::Readers::setting))]
fn setting(alloc: Global, cursor: &mut Cursor<'_>) -> Result<(Item, Input), Failure>
    ensures { CursorReads set_item_view spec.setting cursor.old result cursor.new }
{
    let item = set_item(cursor)?;
    let value = assigned(alloc, cursor)?;
    Ok((item, value))
}

/// An item but INDICATOR, and its value.
#[tactic(auto, unfolding(crate::specs::Readers::other_setting))]
fn other_setting(alloc: Global, cursor: &mut Cursor<'_>) -> Result<(Item, Input), Failure>
    ensures { CursorReads set_item_view spec.other_setting cursor.old result cursor.new }
{
    let item = other_item(cursor)?;
    let value = assigned(alloc, cursor)?;
    Ok((item, value))
}

/// One more setting.
fn further_setting(
    alloc: Global,
    cursor: &mut Cursor<'_>,
    mut items: List<(Item, Input)>,
) -> Result<List<(Item, Input)>, Failure>
    ensures { CursorReads (map set_item_view)
        (parts.one_further spec.setting (map set_item_view items)) cursor.old result cursor.new }
{
    cursor.sign(b",")?;
    let item = setting(alloc, cursor)?;
    items.push(item)?;
    Ok(items)
}

/// All other settings.
fn more_settings(
    alloc: Global,
    cursor: &mut Cursor<'_>,
    mut items: List<(Item, Input)>,
) -> Result<List<(Item, Input)>, Failure>
    ensures { CursorReads (map set_item_view) (parts.further spec.setting (map set_item_view items))
        cursor.old result cursor.new }
{
    for _turn in 0..cursor.left() {
        if !cursor.at_sign(b",") {
            return Ok(items);
        }
        items = further_setting(alloc, cursor, items)?;
    }
    Ok(items)
}

/// An index, and the items that are set.
#[derive(Drop)]
pub struct Settings {
    pub index: Boxed<Input>,
    pub items: List<(Item, Input)>,
}

/// The settings of this index, the first of which is read.
fn settings_behind(
    alloc: Global,
    cursor: &mut Cursor<'_>,
    index: Boxed<Input>,
    first: (Item, Input),
) -> Result<Settings, Failure>
    ensures { CursorReads settings_view
        (spec.settings_behind (input_view index) (set_item_view first))
        cursor.old result cursor.new }
{
    let mut items = List::new(alloc);
    items.push(first)?;
    let items = more_settings(alloc, cursor, items)?;
    Ok(Settings { index, items })
}

/// The settings of this index.
fn all_settings(
    alloc: Global,
    cursor: &mut Cursor<'_>,
    index: Boxed<Input>,
) -> Result<Settings, Failure>
    ensures { CursorReads settings_view (spec.all_settings (input_view index))
        cursor.old result cursor.new }
{
    let first = setting(alloc, cursor)?;
    settings_behind(alloc, cursor, index, first)
}

/// An index that is a host.
fn host_index(
    alloc: Global,
    value: Boxed<Expr>,
    indicator: Option<Boxed<Expr>>,
) -> Result<Boxed<Input>, OutOfMemory>
    ensures { IfOk result
        (λ input. input_view input ≡ index_host (expr_view value) (expr_option_view indicator)) }
{
    Boxed::new(
        alloc,
        Input::Host(Host {
            value: value.into_inner(),
            indicator,
        }),
    )
}

/// The indicator of the index, and the settings.
#[tactic(auto, unfolding(crate::specs::Readers::indicated_settings))]
fn indicated_settings(
    alloc: Global,
    cursor: &mut Cursor<'_>,
    value: Boxed<Expr>,
) -> Result<Settings, Failure>
    ensures { CursorReads settings_view (spec.indicated_settings (expr_view value))
        cursor.old result cursor.new }
{
    let indicator = referenced(alloc, cursor)?;
    let indicator = Boxed::new(alloc, indicator)?;
    let index = host_index(alloc, value, Some(indicator))?;
    all_settings(alloc, cursor, index)
}

/// What stands behind the word INDICATOR: the indicator of the index, or the value of the item.
#[tactic(auto, unfolding(crate::specs::Readers::behind_indicator))]
fn behind_indicator(
    alloc: Global,
    cursor: &mut Cursor<'_>,
    value: Boxed<Expr>,
) -> Result<Settings, Failure>
    ensures { CursorReads settings_view (spec.behind_indicator (expr_view value))
        cursor.old result cursor.new }
{
    if cursor.at(Class::Colon) {
        return indicated_settings(alloc, cursor, value);
    }
    let index = host_index(alloc, value, None)?;
    let first = assigned(alloc, cursor)?;
    settings_behind(alloc, cursor, index, (Item::Indicator, first))
}

/// What stands behind an index that is a host.
#[tactic(auto, unfolding(crate::specs::Readers::behind_host))]
fn behind_host(
    alloc: Global,
    cursor: &mut Cursor<'_>,
    value: Boxed<Expr>,
) -> Result<Settings, Failure>
    ensures { CursorReads settings_view (spec.behind_host (expr_view value))
        cursor.old result cursor.new }
{
    if cursor.at(Class::Colon) {
        return indicated_settings(alloc, cursor, value);
    }
    if cursor.at_word(b"INDICATOR") {
        cursor.word(b"INDICATOR")?;
        return behind_indicator(alloc, cursor, value);
    }
    let index = host_index(alloc, value, None)?;
    let first = other_setting(alloc, cursor)?;
    settings_behind(alloc, cursor, index, first)
}

/// An index and the items.
#[tactic(auto, unfolding(crate::specs::Readers::set_values))]
fn set_values(alloc: Global, cursor: &mut Cursor<'_>) -> Result<Settings, Failure>
    ensures { CursorReads settings_view spec.set_values cursor.old result cursor.new }
{
    if cursor.at(Class::InputColon) {
        let value = input_reference(alloc, cursor)?;
        let value = Boxed::new(alloc, value)?;
        return behind_host(alloc, cursor, value);
    }
    let index = constant(alloc, cursor)?;
    let index = Boxed::new(alloc, index)?;
    all_settings(alloc, cursor, index)
}

/// SET DESCRIPTOR
#[inline(never)]
#[tactic(auto, unfolding(crate::specs::Readers::setting_area))]
pub fn set(alloc: Global, cursor: &mut Cursor<'_>) -> Result<EmbKind, Failure>
    ensures { CursorReads emb_kind_view spec.setting_area cursor.old result cursor.new }
{
    cursor.word(b"SET")?;
    cursor.word(b"DESCRIPTOR")?;
    let area = text_argument(alloc, cursor)?;
    let area = Boxed::new(alloc, area)?;
    if cursor.at_word(b"COUNT") {
        cursor.word(b"COUNT")?;
        let count = assigned(alloc, cursor)?;
        let count = Boxed::new(alloc, count)?;
        return Ok(EmbKind::SetCount(area.into_inner(), count));
    }
    cursor.word(b"VALUE")?;
    let Settings { index, items } = set_values(alloc, cursor)?;
    Ok(EmbKind::Set {
        area: area.into_inner(),
        index,
        items,
    })
}
