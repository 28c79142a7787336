//! Worked texts, as facts about the definitions of characters, tokens, terms and depth.

ghost use Rattle.asm_terms.specs.Worked.{LargestIntegers, LargerInteger, Floats, NoSign, Escapes, NoSurrogate, JoinedStrings, QuotesInBinary, Identifiers, NoPid, FullStop, NoFullStop, CommentEnd, Utf8, Latin1, ContinuedList, Deepest, TooDeep, RoomBeforehand};

/// Does nothing: its contract is what worked texts mean by the definitions.
pub fn worked_texts()
    ensures largest_integers { LargestIntegers }
    ensures larger_integer { LargerInteger }
    ensures floats { Floats }
    ensures no_sign { NoSign }
    ensures escapes { Escapes }
    ensures no_surrogate { NoSurrogate }
    ensures joined_strings { JoinedStrings }
    ensures quotes_in_binary { QuotesInBinary }
    ensures identifiers { Identifiers }
    ensures no_pid { NoPid }
    ensures full_stop { FullStop }
    ensures no_full_stop { NoFullStop }
    ensures comment_end { CommentEnd }
    ensures utf8 { Utf8 }
    ensures latin1 { Latin1 }
    ensures continued_list { ContinuedList }
    ensures deepest { Deepest }
    ensures too_deep { TooDeep }
    ensures room_beforehand { RoomBeforehand }
{}
