//! Laws of transcripts.
ghost use Rattle.std.specs.Prelude.{◌≡◌, ◌++◌, codes};
ghost use Rattle.ec_transcript.specs.declared.version.Version.TheVariants.{One, Two};
ghost use Rattle.ec_transcript.specs.Examples.{one_row};
ghost use Rattle.ec_transcript.specs.Laws.{OfOnePair, IsWrittenSo, WritesTheSame, WritesTheNext};

/// A text is the transcript of one pair of slots and log, in one version; what is written is a transcript; and what
/// was read and is written again is the same text, with the first line of version 2.
pub fn transcripts_are_exact()
    ensures one { OfOnePair }
    ensures written { IsWrittenSo }
    ensures same { WritesTheSame }
    ensures next { WritesTheNext }
{}

/// The transcript of one statement with one row, computed.
pub fn transcript_example()
    ensures one { one_row One ≡ codes "ecpg-transcript 1\n"
        ++ codes "slot ready \"db\"\n@ 0\n> text \"SELECT a FROM t\" 0\n< rows I 1 1\nc \"a\" 4\nr \"7\"\n" }
    ensures two { one_row Two ≡ codes "ecpg-transcript 2\n"
        ++ codes "slot ready \"db\"\n@ 0\n> text \"SELECT a FROM t\" 0\n< rows I 1 1\nc \"a\" 4\nr \"7\"\n" }
{}
