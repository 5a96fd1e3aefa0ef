//! What holds of every text and its tokens, as the contracts of functions that do nothing.

ghost use Rattle.std.specs.Prelude.{◌≡◌, ℕ, ◌++◌, Bool, true, false, List, Option, Some, None, Result, Err, ◌⊎◌};
ghost use Rattle.ec_base.specs.declared.fault.FaultKind.{FaultKind};
ghost use Rattle.ec_base.specs.declared.fault.LimitKind.TheVariants.{L2};
ghost use Rattle.ec_base.specs.declared.stop.Stop.{Stop};
ghost use Rattle.ec_base.specs.declared.stop.Stop.TheVariants.{Limit};
ghost use Rattle.ec_ctypes.specs.declared.text.piece.Piece.{Piece};
ghost use Rattle.ec_ctypes.specs.trees.Tokens.{TokData, TokenData};
ghost use Rattle.ec_language.specs.Letters.{Text};
ghost use Rattle.ec_language.specs.Lexemes.{Class, class_of, Longest};
ghost use Rattle.ec_language.specs.Pieces.{Pieces};
ghost use Rattle.ec_language.specs.Syntax.{EndsOnce};
ghost use Rattle.ec_language.specs.Tokens.{Part, Step, Item, NoItem, CParts, TokensWithin, Tokens, TokensOrStop, SqlTokensOrStop, SqlTokens, HasSqlTokens, HaveSqlTokens};
ghost use Rattle.ec_language.specs.SqlTokens.{SqlToken};
ghost use Rattle.ec_language.specs.ReadTokens.{lexeme, ReadItem, read_item, c_parts, read_tokens};

/// What stands at the beginning of a text has one longest match at most, and a plain reading finds it.
pub fn matches_are_read()
    ensures found { (text u rest : Text) (class : Class) → lexeme text ≡ Some (class, u, rest)
        → (text ≡ u ++ rest) × Longest u rest class }
    ensures there { (u rest : Text) (class : Class) → Longest u rest class
        → lexeme (u ++ rest) ≡ Some (class, u, rest) }
    ensures none { (text u rest : Text) → lexeme text ≡ None → text ≡ u ++ rest
        → class_of u ≡ None }
    ensures one { (u rest v behind : Text) (class other : Class) → u ++ rest ≡ v ++ behind
        → Longest u rest class → Longest v behind other
        → (u ≡ v) × (rest ≡ behind) × (class ≡ other) }
{}

/// What stands at the beginning of C text is one thing at most, and a plain reading finds it.
pub fn items_are_read()
    ensures found { (written fresh : Bool) (text : Text) (it : ReadItem)
        → read_item written fresh text ≡ Some it → (text ≡ it.bytes ++ it.rest)
        × Item written fresh it.bytes it.rest it.tok it.step }
    ensures there { (written fresh : Bool) (u rest : Text) (tok : Option (Result TokData FaultKind))
        (step : Step) → Item written fresh u rest tok step
        → read_item written fresh (u ++ rest) ≡ Some
        (record { bytes = u; tok = tok; step = step; rest = rest }) }
    ensures one { (written fresh : Bool) (u rest v behind : Text)
        (tok other : Option (Result TokData FaultKind)) (step next : Step) → u ++ rest ≡ v ++ behind
        → Item written fresh u rest tok step → Item written fresh v behind other next
        → (u ≡ v) × (rest ≡ behind) × (tok ≡ other) × (step ≡ next) }
    ensures none { (written fresh : Bool) (text : Text) → read_item written fresh text ≡ None
        → NoItem written fresh text }
{}

/// C text, whatever it is, has one list of parts, which ends on one line.
pub fn parts_are_read()
    ensures there { (written : Bool) (line : ℕ) (fresh : Bool) (text : Text)
        → CParts written line fresh text (c_parts written line fresh text).parts
        (c_parts written line fresh text).last }
    ensures only { (written : Bool) (line : ℕ) (fresh : Bool) (text : Text) (parts : List Part)
        (last : ℕ) → CParts written line fresh text parts last
        → c_parts written line fresh text ≡ record { parts = parts; last = last } }
{}

/// The pieces of a text have their tokens or one stop: what a plain reading gives. With and without a limit it is the same,
/// unless the limit is passed. Of the tokens the last is the end, and no other.
pub fn tokens_are_read()
    ensures there { (text : Text) (pieces : List Piece) (written : Bool) → Pieces text pieces
        → TokensOrStop written pieces (read_tokens written pieces) }
    ensures there_in_written { (pieces : List Piece) → TokensOrStop true pieces
        (read_tokens true pieces) }
    ensures only { (pieces : List Piece) (written : Bool) (answer : Result (List TokenData) Stop)
        → TokensOrStop written pieces answer → answer ≡ read_tokens written pieces }
    ensures one { (pieces : List Piece) (written : Bool)
        (answer other : Result (List TokenData) Stop) → TokensOrStop written pieces answer
        → TokensOrStop written pieces other → answer ≡ other }
    ensures limits_aside { (pieces : List Piece) (written : Bool)
        (answer other : Result (List TokenData) Stop) → TokensWithin None written pieces answer
        → TokensOrStop written pieces other → (other ≡ answer) ⊎ (other ≡ Err (Limit L2)) }
    ensures end { (pieces : List Piece) (written : Bool) (tokens : List TokenData)
        → Tokens written pieces tokens → EndsOnce tokens }
{}

/// An embedded statement has its tokens or one fault. Where the pieces of a source have tokens, each of its statements has.
pub fn statement_tokens_are_read()
    ensures one { (line : ℕ) (bytes : Text) (answer other : Result (List SqlToken) Stop)
        → SqlTokensOrStop line bytes answer → SqlTokensOrStop line bytes other → answer ≡ other }
    ensures there { (line : ℕ) (bytes : Text)
        → HasSqlTokens bytes → (tokens : List SqlToken) × SqlTokens line bytes tokens }
    ensures of_pieces { (pieces : List Piece) (tokens : List TokenData)
        → Tokens false pieces tokens → HaveSqlTokens pieces }
{}
