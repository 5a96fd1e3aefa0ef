//! Worked examples of what words name.
ghost use Rattle.std.specs.Prelude.{◌≡◌, codes, true, false, [], ◌∷◌, None, Some};
ghost use Rattle.ec_words.specs.Links.{links_of};
ghost use Rattle.ec_words.specs.Words.{asked};
ghost use Rattle.ec_words.specs.Examples.{run, gen};
ghost use Rattle.ec_words.specs.declared.links.LinkSpec.TheVariants.{Memory, File, Replay};
ghost use Rattle.ec_words.specs.declared.words.Command.TheVariants.{Translate, Exec, Record};

/// What lists of words name, computed.
pub fn word_examples()
    ensures plain { asked (codes "run" ∷ []) ≡ run 1000000 [] }
    ensures none { asked [] ≡ None }
    ensures other { asked (codes "runs" ∷ []) ≡ None }
    ensures help { asked (codes "--help" ∷ []) ≡ None }
    ensures help_behind { asked (codes "run" ∷ codes "--help" ∷ []) ≡ None }
    ensures next { asked (codes "run" ∷ codes "--turns" ∷ codes "0007" ∷ []) ≡ run 7 [] }
    ensures too_many { asked (codes "run" ∷ codes "--turns=1000000001" ∷ []) ≡ None }
    ensures empty { asked (codes "run" ∷ codes "--turns=" ∷ []) ≡ None }
    ensures twice { asked (codes "run" ∷ codes "--turns=1" ∷ codes "--turns=1" ∷ []) ≡ None }
    ensures no_value { asked (codes "run" ∷ codes "--turns" ∷ []) ≡ None }
    ensures marks { asked (codes "exec" ∷ codes "++a=memory" ∷ []) ≡
        Some (Exec (record { turns = 1000000; links = Memory true (codes "+a") ∷ [] })) }
    ensures no_name { asked (codes "run" ∷ codes "+=memory" ∷ []) ≡ None }
    ensures no_path { asked (codes "run" ∷ codes "a=file:" ∷ []) ≡ None }
    ensures dash { asked (codes "run" ∷ codes "-x=memory" ∷ []) ≡ None }
    ensures order { asked (codes "run" ∷ codes "a=memory" ∷ codes "--replay" ∷ codes "t"
        ∷ codes "+b=file:c=d" ∷ [])
        ≡ run 1000000 (Memory false (codes "a") ∷ Replay (codes "t")
        ∷ File true (codes "b") (codes "c=d") ∷ []) }
    ensures dashes { asked (codes "run" ∷ codes "--replay" ∷ codes "--" ∷ codes "x" ∷ [])
        ≡ None }
    ensures dash_path { asked (codes "run" ∷ codes "--replay=-x" ∷ []) ≡ None }
    ensures no_option { asked (codes "run" ∷ codes "--" ∷ codes "--turns=2" ∷ []) ≡ None }
    ensures once { asked (codes "run" ∷ codes "--" ∷ codes "--" ∷ []) ≡ None }
    ensures behind { asked (codes "run" ∷ codes "--turns=2" ∷ codes "--" ∷ codes "a=memory"
        ∷ []) ≡ run 2 (Memory false (codes "a") ∷ []) }
    ensures program { asked (codes "gen" ∷ codes "--" ∷ codes "7" ∷ codes "gen=memory" ∷ [])
        ≡ gen 7 (Memory false (codes "gen") ∷ []) }
    ensures largest { asked (codes "gen" ∷ codes "4294967295" ∷ []) ≡ gen 4294967295 [] }
    ensures no_program { asked (codes "gen" ∷ codes "0" ∷ []) ≡ None }
    ensures too_large { asked (codes "gen" ∷ codes "4294967296" ∷ []) ≡ None }
    ensures number_last { asked (codes "gen" ∷ codes "a=memory" ∷ codes "7" ∷ []) ≡ None }
    ensures no_turns { asked (codes "gen" ∷ codes "7" ∷ codes "--turns=5" ∷ []) ≡ None }
    ensures translation { asked (codes "translate" ∷ codes "--" ∷ []) ≡ Some Translate }
    ensures no_link { asked (codes "translate" ∷ codes "a=memory" ∷ []) ≡ None }
    ensures recording { asked (codes "record" ∷ codes "--turns=9" ∷ codes "--replay=t" ∷ [])
        ≡ Some (Record (record { turns = 9; links = Replay (codes "t") ∷ [] })) }
    ensures links { links_of (asked (codes "record" ∷ codes "--replay=t" ∷ codes "a=memory" ∷ []))
        ≡ Replay (codes "t") ∷ Memory false (codes "a") ∷ [] }
    ensures no_links { links_of (asked (codes "run" ∷ codes "a=memory" ∷ codes "b" ∷ [])) ≡ [] }
{}
