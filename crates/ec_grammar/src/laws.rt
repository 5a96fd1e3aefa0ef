//! What holds of the kinds of tokens, computed.

ghost use Rattle.std.specs.Prelude.{◌≡◌, map};
ghost use Rattle.ec_language.specs.Keywords.{other_keywords};
ghost use Rattle.ec_language.specs.Productions as g;
ghost use Rattle.ec_grammar.specs.Kinds.{keywords, terminal};

/// The keywords that have kinds of their own are those of the language, and each kind is the terminal of its keyword.
pub fn keywords_are_the_languages()
    ensures texts { map (λ k. k.text) keywords ≡ other_keywords }
    ensures terminals { map (λ k. terminal k.kind) keywords ≡ map g.keyword other_keywords }
{}
