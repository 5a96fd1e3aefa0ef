//! The symbols of the library by their names (PostgreSQL manual, chapter ECPG).

ghost use Rattle.std.specs.Prelude.{◌≡◌};
ghost use Rattle.ec_ctypes.specs.Texts.{symbol_text};
ghost use Rattle.ec_language.specs.Letters.{same_text};
ghost use Rattle.ec_typing_defs.specs.Known as known;
ghost use Rattle.ec_typing_defs.specs.Library.{named_among};

use ec_ctypes::Sym;

static SYMBOLS: [Sym; 27] = [
    Sym::Char,
    Sym::UnsignedChar,
    Sym::Short,
    Sym::UnsignedShort,
    Sym::Int,
    Sym::UnsignedInt,
    Sym::Long,
    Sym::UnsignedLong,
    Sym::LongLong,
    Sym::UnsignedLongLong,
    Sym::Bool,
    Sym::Varchar,
    Sym::Const,
    Sym::Descriptor,
    Sym::NoIndicator,
    Sym::EndOfInputs,
    Sym::EndOfOutputs,
    Sym::StatementNormal,
    Sym::StatementExecute,
    Sym::StatementExecImmediate,
    Sym::StatementOpen,
    Sym::ItemData,
    Sym::ItemIndicator,
    Sym::ItemName,
    Sym::ItemType,
    Sym::ItemOctets,
    Sym::EndOfItems,
];

/// Whether the symbol has this name.
fn is_named(symbol: Sym, name: &[u8]) -> bool
    ensures { result ≡ same_text (symbol_text symbol) name.now }
{
    symbol.text().as_bytes() == name
}

/// The first of these symbols that has this name.
fn symbol_among(symbols: &[Sym], name: &[u8]) -> Option<Sym>
    ensures { result ≡ named_among symbol_text name.now symbols.now }
{
    for symbol in symbols {
        if is_named(*symbol, name) {
            return Some(*symbol);
        }
    }
    None
}

/// The symbol of this name.
pub(crate) fn symbol_named(name: &[u8]) -> Option<Sym>
    ensures { result ≡ named_among symbol_text name.now known.symbols }
{
    symbol_among(&SYMBOLS, name)
}
