//! What a command may be told, whatever a disk holds.

ghost use Rattle.std.specs.Prelude.{◌≡◌, [], ◌∷◌, Some, None, true, false};
ghost use Rattle.strat_model.specs.Answer.{as_told, plain};
ghost use Rattle.strat_model.specs.Request.{Put, Get, Scan, Info, NextPairs, Stat};
ghost use Rattle.strat_model.specs.declared.replies.Refusal.TheVariants as why;
ghost use Rattle.strat_model.specs.declared.replies.Reply.TheVariants as reply;
ghost use Rattle.strat_store.specs.Applying.{refusal_of_look};
ghost use Rattle.strat_store.specs.Getting.{MayTellOfKey};
ghost use Rattle.strat_store.specs.Ranging.{HasPairsFor, MayTellOfRange};
ghost use Rattle.strat_store_pins.specs.Examples.{cursor, cursors, memory};

/// A key that was found has one pair, and one that is absent or met a fault none.
pub fn a_key_has_one_pair_where_it_was_found()
    ensures found { HasPairsFor (Get 0 (97 ∷ [])) (as_told reply.Found ((97 ∷ [], []) ∷ []))
        × (¬ HasPairsFor (Get 0 (97 ∷ [])) (as_told reply.Found [])) }
    ensures more { ¬ HasPairsFor (Get 0 (97 ∷ []))
        (as_told reply.Found ((97 ∷ [], []) ∷ (98 ∷ [], []) ∷ [])) }
    ensures none { HasPairsFor (Get 0 (97 ∷ [])) (plain reply.Absent)
        × (¬ HasPairsFor (Get 0 (97 ∷ [])) (as_told reply.Absent ((97 ∷ [], []) ∷ []))) }
    ensures err { ¬ HasPairsFor (Get 0 (97 ∷ []))
        (as_told (reply.Refused why.DeviceFault) ((97 ∷ [], []) ∷ [])) }
{}

/// A page has as many pairs as its limit at most, and just as many where others are said to follow.
pub fn a_page_has_its_limit_at_most()
    ensures scan { HasPairsFor (Scan 0 [] [] 2) (as_told (reply.Pairs false) ((97 ∷ [], []) ∷ []))
        × (¬ HasPairsFor (Scan 0 [] [] 2) (as_told (reply.Pairs true) ((97 ∷ [], []) ∷ [])))
        × (¬ HasPairsFor (Scan 0 [] [] 1)
        (as_told (reply.Pairs false) ((97 ∷ [], []) ∷ (98 ∷ [], []) ∷ []))) }
    ensures next { HasPairsFor (NextPairs 3 1) (as_told (reply.Pairs true) ((97 ∷ [], []) ∷ []))
        × (¬ HasPairsFor (NextPairs 3 1) (as_told (reply.Pairs true) []))
        × (¬ HasPairsFor (NextPairs 3 1)
        (as_told (reply.Pairs false) ((97 ∷ [], []) ∷ (98 ∷ [], []) ∷ []))) }
{}

/// The answer to any other command has none.
pub fn other_answers_have_no_pairs()
    ensures ok { HasPairsFor Stat (plain (reply.Stat 1 0 0 0))
        × HasPairsFor (Put 0 (97 ∷ []) []) (plain reply.Done) }
    ensures none { (¬ HasPairsFor Stat (as_told (reply.Stat 1 0 0 0) ((97 ∷ [], []) ∷ [])))
        × (¬ HasPairsFor (Put 0 (97 ∷ []) []) (as_told reply.Done ((97 ∷ [], []) ∷ [])))
        × (¬ HasPairsFor (Info 0) (as_told (reply.Pairs false) ((97 ∷ [], []) ∷ []))) }
{}

/// A key of a version that is there is found or absent, and a range has pairs, unless a fault is told.
pub fn a_version_that_is_there_is_not_denied()
    ensures ok { MayTellOfKey reply.Absent × MayTellOfRange (reply.Pairs true) }
    ensures err { MayTellOfKey (reply.Refused (why.Damaged 7))
        × MayTellOfRange (reply.Refused why.DeviceFault) }
    ensures none { (¬ MayTellOfKey (reply.Refused why.UnknownVersion))
        × (¬ MayTellOfRange (reply.Refused why.UnknownVersion)) }
{}

/// A look-up is refused for a version or a cursor that is not there, and for nothing else in memory.
pub fn a_look_up_is_refused_for_what_is_not_there()
    ensures ok { (refusal_of_look (memory (cursors [] [])) (Get 0 []) ≡ None)
        × (refusal_of_look (memory (cursors [] [])) (Scan 0 [] [] 1) ≡ None)
        × (refusal_of_look (memory (cursors (cursor 3 None [] ∷ []) [])) (NextPairs 3 1) ≡ None) }
    ensures err { (refusal_of_look (memory (cursors [] [])) (Get 1 []) ≡ Some why.UnknownVersion)
        × (refusal_of_look (memory (cursors [] [])) (Scan 1 [] [] 1) ≡ Some why.UnknownVersion)
        × (refusal_of_look (memory (cursors (cursor 3 None [] ∷ []) [])) (NextPairs 4 1)
        ≡ Some why.UnknownCursor) }
{}
