//! Commands and replies at the bounds of their fields and sizes, and their bytes. Each is the contract of a
//! function that does nothing.

#![tactic(auto, unfolding(strat_base::specs::Numbers::be, strat_base::specs::Numbers::number))]

ghost use Rattle.std.specs.Prelude.{◌≡◌, [], ◌∷◌, ◌++◌, replicate, Some, None, true, false};
ghost use Rattle.strat_model.specs.declared.replies.Refusal.TheVariants as why;
ghost use Rattle.strat_model.specs.declared.replies.Reply.TheVariants as reply;
ghost use Rattle.strat_model.specs.Answer.{plain, as_told};
ghost use Rattle.strat_model.specs.Request.{Put, Delete, Get, Clone, Scan, Info, OpenCursor, NextPairs, CloseCursor, Stat, DropVersion};
ghost use Rattle.strat_model.specs.Spelling.{command_bytes, command_body, size_refusal, FitsFields, FitsParent, FitsReply, FitsPairs, HasForm, reply_body, tag_of};
ghost use Rattle.strat_model.specs.Stream.{Whole, Rest, Long, ending_of, IsBody};

/// A key has 1 to 255 bytes.
pub fn keys_have_1_to_255_bytes()
    ensures none { (size_refusal (Put 0 [] []) ≡ Some why.KeySize)
        × (size_refusal (Delete 0 []) ≡ Some why.KeySize)
        × (size_refusal (Get 0 []) ≡ Some why.KeySize) }
    ensures least { (size_refusal (Put 0 (97 ∷ []) []) ≡ None)
        × (size_refusal (Delete 0 (97 ∷ [])) ≡ None)
        × (size_refusal (Get 0 (97 ∷ [])) ≡ None) }
    ensures most { (size_refusal (Put 0 (replicate 255 97) []) ≡ None)
        × (size_refusal (Delete 0 (replicate 255 97)) ≡ None)
        × (size_refusal (Get 0 (replicate 255 97)) ≡ None) }
    ensures more { (size_refusal (Put 0 (replicate 256 97) []) ≡ Some why.KeySize)
        × (size_refusal (Delete 0 (replicate 256 97)) ≡ Some why.KeySize)
        × (size_refusal (Get 0 (replicate 256 97)) ≡ Some why.KeySize) }
{}

/// A value has up to 1,024 bytes.
pub fn values_have_up_to_1024_bytes()
    ensures most { size_refusal (Put 0 (97 ∷ []) (replicate 1024 49)) ≡ None }
    ensures more { size_refusal (Put 0 (97 ∷ []) (replicate 1025 49)) ≡ Some why.ValueSize }
{}

/// A bound has up to 255 bytes and is refused as a key is; a limit is 1 to 256.
pub fn ranges_are_refused_for_bounds_and_limits()
    ensures bounds { (size_refusal (Scan 0 [] (replicate 255 97) 1) ≡ None)
        × (size_refusal (Scan 0 (replicate 256 97) [] 1) ≡ Some why.KeySize)
        × (size_refusal (Scan 0 [] (replicate 256 97) 1) ≡ Some why.KeySize)
        × (size_refusal (OpenCursor 0 (replicate 255 97) []) ≡ None)
        × (size_refusal (OpenCursor 0 (replicate 256 97) []) ≡ Some why.KeySize)
        × (size_refusal (OpenCursor 0 [] (replicate 256 97)) ≡ Some why.KeySize) }
    ensures limits { (size_refusal (Scan 0 [] [] 0) ≡ Some why.ScanSize)
        × (size_refusal (Scan 0 [] [] 256) ≡ None)
        × (size_refusal (Scan 0 [] [] 257) ≡ Some why.ScanSize)
        × (size_refusal (NextPairs 1 0) ≡ Some why.ScanSize)
        × (size_refusal (NextPairs 1 256) ≡ None)
        × (size_refusal (NextPairs 1 257) ≡ Some why.ScanSize) }
    ensures none { (size_refusal (Clone 0) ≡ None) × (size_refusal (Info 0) ≡ None)
        × (size_refusal (CloseCursor 1) ≡ None) × (size_refusal Stat ≡ None)
        × (size_refusal (DropVersion 0) ≡ None) }
{}

/// Of two unlawful sizes that of a key or a bound is told.
pub fn the_size_of_a_key_is_told_first()
    ensures value { (size_refusal (Put 0 [] (replicate 1025 49)) ≡ Some why.KeySize)
        × (size_refusal (Put 0 (replicate 256 97) (replicate 1025 49)) ≡ Some why.KeySize) }
    ensures limit { size_refusal (Scan 0 (replicate 256 97) [] 0) ≡ Some why.KeySize }
{}

/// The bytes of each command.
pub fn bytes_of_commands()
    ensures put { command_body 16909060 (Put 513 (97 ∷ 98 ∷ []) (49 ∷ []))
        ≡ 1 ∷ 2 ∷ 3 ∷ 4 ∷ 1 ∷ 0 ∷ 0 ∷ 2 ∷ 1 ∷ 0 ∷ 2 ∷ 97 ∷ 98 ∷ 0 ∷ 1 ∷ 49 ∷ [] }
    ensures delete { command_bytes (Delete 1 (97 ∷ []))
        ≡ 2 ∷ 0 ∷ 0 ∷ 0 ∷ 1 ∷ 0 ∷ 1 ∷ 97 ∷ [] }
    ensures get { command_bytes (Get 4294967295 (97 ∷ []))
        ≡ 3 ∷ 255 ∷ 255 ∷ 255 ∷ 255 ∷ 0 ∷ 1 ∷ 97 ∷ [] }
    ensures clone { command_bytes (Clone 258) ≡ 4 ∷ 0 ∷ 0 ∷ 1 ∷ 2 ∷ [] }
    ensures scan { command_bytes (Scan 0 (97 ∷ []) [] 256)
        ≡ 5 ∷ 0 ∷ 0 ∷ 0 ∷ 0 ∷ 0 ∷ 1 ∷ 97 ∷ 0 ∷ 0 ∷ 1 ∷ 0 ∷ [] }
    ensures info { command_bytes (Info 258) ≡ 6 ∷ 0 ∷ 0 ∷ 1 ∷ 2 ∷ [] }
    ensures open { command_bytes (OpenCursor 0 [] (122 ∷ []))
        ≡ 7 ∷ 0 ∷ 0 ∷ 0 ∷ 0 ∷ 0 ∷ 0 ∷ 0 ∷ 1 ∷ 122 ∷ [] }
    ensures next { command_bytes (NextPairs 258 2)
        ≡ 8 ∷ 0 ∷ 0 ∷ 0 ∷ 0 ∷ 0 ∷ 0 ∷ 1 ∷ 2 ∷ 0 ∷ 2 ∷ [] }
    ensures close { command_bytes (CloseCursor 1)
        ≡ 9 ∷ 0 ∷ 0 ∷ 0 ∷ 0 ∷ 0 ∷ 0 ∷ 0 ∷ 1 ∷ [] }
    ensures stat { command_bytes Stat ≡ 10 ∷ [] }
    ensures drop { command_bytes (DropVersion 258) ≡ 11 ∷ 0 ∷ 0 ∷ 1 ∷ 2 ∷ [] }
{}

/// The tag of a body that has four bytes is the number in them, and 0 of any other.
pub fn a_tag_has_four_bytes()
    ensures some { tag_of (0 ∷ 0 ∷ 1 ∷ 2 ∷ []) ≡ 258 }
    ensures more { tag_of (1 ∷ 2 ∷ 3 ∷ 4 ∷ 255 ∷ []) ≡ 16909060 }
    ensures none { tag_of (170 ∷ 187 ∷ 204 ∷ []) ≡ 0 }
{}

/// The bytes of replies with numbers: for no parent the greatest number, for a version with a child a 1.
pub fn bytes_of_replies()
    ensures made { reply_body 7 (plain (reply.Made 258))
        ≡ 0 ∷ 0 ∷ 0 ∷ 7 ∷ 4 ∷ 0 ∷ 0 ∷ 1 ∷ 2 ∷ [] }
    ensures root { reply_body 6 (plain (reply.Info None 0 false))
        ≡ 0 ∷ 0 ∷ 0 ∷ 6 ∷ 5 ∷ 255 ∷ 255 ∷ 255 ∷ 255 ∷ 0 ∷ 0 ∷ 0 ∷ 0 ∷ 0 ∷ [] }
    ensures child { reply_body 6 (plain (reply.Info (Some 258) 3 true))
        ≡ 0 ∷ 0 ∷ 0 ∷ 6 ∷ 5 ∷ 0 ∷ 0 ∷ 1 ∷ 2 ∷ 0 ∷ 0 ∷ 0 ∷ 3 ∷ 1 ∷ [] }
    ensures stat { reply_body 11 (plain (reply.Stat 1 2 3 4))
        ≡ (0 ∷ 0 ∷ 0 ∷ 11 ∷ 7 ∷ []) ++ (0 ∷ 0 ∷ 0 ∷ 1 ∷ 0 ∷ 0 ∷ 0 ∷ 2 ∷ [])
        ++ (0 ∷ 0 ∷ 0 ∷ 3 ∷ 0 ∷ 0 ∷ 0 ∷ 4 ∷ []) }
    ensures opened { reply_body 5 (plain (reply.Opened 258))
        ≡ 0 ∷ 0 ∷ 0 ∷ 5 ∷ 6 ∷ 0 ∷ 0 ∷ 0 ∷ 0 ∷ 0 ∷ 0 ∷ 1 ∷ 2 ∷ [] }
    ensures cursor { (reply_body 3 (plain (reply.Refused why.UnknownCursor))
        ≡ 0 ∷ 0 ∷ 0 ∷ 3 ∷ 18 ∷ [])
        × (reply_body 3 (plain (reply.Refused why.CursorLimit)) ≡ 0 ∷ 0 ∷ 0 ∷ 3 ∷ 21 ∷ []) }
    ensures zero { reply_body 2 (plain (reply.Refused why.Root)) ≡ 0 ∷ 0 ∷ 0 ∷ 2 ∷ 27 ∷ [] }
    ensures damaged { reply_body 1 (plain (reply.Refused (why.Damaged 7)))
        ≡ 0 ∷ 0 ∷ 0 ∷ 1 ∷ 34 ∷ 0 ∷ 0 ∷ 0 ∷ 7 ∷ [] }
{}

/// The bytes of pages: a flag, the number of the pairs, and each pair's key and value.
pub fn bytes_of_pages()
    ensures none { reply_body 3 (as_told (reply.Pairs false) [])
        ≡ 0 ∷ 0 ∷ 0 ∷ 3 ∷ 3 ∷ 0 ∷ 0 ∷ 0 ∷ [] }
    ensures some { reply_body 3 (as_told (reply.Pairs true)
        ((97 ∷ [], 49 ∷ []) ∷ (97 ∷ 98 ∷ [], []) ∷ []))
        ≡ (0 ∷ 0 ∷ 0 ∷ 3 ∷ 3 ∷ 1 ∷ 0 ∷ 2 ∷ []) ++ (0 ∷ 1 ∷ 97 ∷ 0 ∷ 1 ∷ 49 ∷ [])
        ++ (0 ∷ 2 ∷ 97 ∷ 98 ∷ 0 ∷ 0 ∷ []) }
{}

/// A page has up to 256 pairs, each with a key of 1 to 255 bytes and a value of up to 1,024. A reply without
/// pairs has none beside it, and a value that was found stands under a question mark.
pub fn pages_have_up_to_256_pairs_of_lawful_sizes()
    ensures most { FitsPairs (reply.Pairs true) (replicate 256 (97 ∷ [], [])) }
    ensures more { ¬ FitsPairs (reply.Pairs true) (replicate 257 (97 ∷ [], [])) }
    ensures key { FitsPairs (reply.Pairs false) ((replicate 255 97, []) ∷ [])
        × (¬ FitsPairs (reply.Pairs false) (([], []) ∷ []))
        × (¬ FitsPairs (reply.Pairs false) ((replicate 256 97, []) ∷ [])) }
    ensures value { FitsPairs (reply.Pairs false) ((97 ∷ [], replicate 1024 49) ∷ [])
        × (¬ FitsPairs (reply.Pairs false) ((97 ∷ [], replicate 1025 49) ∷ [])) }
    ensures none { FitsPairs reply.Done [] × (¬ FitsPairs reply.Done ((97 ∷ [], []) ∷ [])) }
    ensures found { FitsPairs reply.Found ((63 ∷ [], replicate 1024 49) ∷ [])
        × (¬ FitsPairs reply.Found ((97 ∷ [], 49 ∷ []) ∷ []))
        × (¬ FitsPairs reply.Found ((63 ∷ [], replicate 1025 49) ∷ []))
        × (¬ FitsPairs reply.Found []) }
{}

/// Bodies of cursors' commands, and of one that drops a version, have a form, whatever the sizes of these.
pub fn cursors_have_forms()
    ensures open { HasForm (0 ∷ 0 ∷ 0 ∷ 5 ∷ 7 ∷ 0 ∷ 0 ∷ 0 ∷ 0 ∷ 0 ∷ 0 ∷ 0 ∷ 0 ∷ []) 5
        (OpenCursor 0 [] []) }
    ensures next { HasForm (0 ∷ 0 ∷ 0 ∷ 6 ∷ 8 ∷ 0 ∷ 0 ∷ 0 ∷ 0 ∷ 0 ∷ 0 ∷ 0 ∷ 1 ∷ 1 ∷ 1 ∷ []) 6
        (NextPairs 1 257) }
    ensures close { HasForm (0 ∷ 0 ∷ 0 ∷ 7 ∷ 9 ∷ 0 ∷ 0 ∷ 0 ∷ 0 ∷ 0 ∷ 0 ∷ 0 ∷ 1 ∷ []) 7
        (CloseCursor 1) }
    ensures drop { HasForm (0 ∷ 0 ∷ 0 ∷ 2 ∷ 11 ∷ 0 ∷ 0 ∷ 0 ∷ 1 ∷ []) 2 (DropVersion 1) }
{}

/// The greatest numbers of commands: four bytes for a version, eight for a cursor, two for a limit.
pub fn numbers_of_commands_fit_their_fields()
    ensures version { FitsFields (Clone 4294967295) × (¬ FitsFields (Clone 4294967296))
        × FitsFields (Info 4294967295) × (¬ FitsFields (Info 4294967296))
        × FitsFields (DropVersion 4294967295) × (¬ FitsFields (DropVersion 4294967296)) }
    ensures key { FitsFields (Put 4294967295 [] []) × (¬ FitsFields (Put 4294967296 [] []))
        × FitsFields (Delete 4294967295 []) × (¬ FitsFields (Delete 4294967296 []))
        × FitsFields (Get 4294967295 []) × (¬ FitsFields (Get 4294967296 [])) }
    ensures range { FitsFields (Scan 4294967295 [] [] 65535)
        × (¬ FitsFields (Scan 4294967296 [] [] 1)) × (¬ FitsFields (Scan 0 [] [] 65536))
        × FitsFields (OpenCursor 4294967295 [] []) × (¬ FitsFields (OpenCursor 4294967296 [] [])) }
    ensures cursor { FitsFields (NextPairs 18446744073709551615 65535)
        × (¬ FitsFields (NextPairs 18446744073709551616 1)) × (¬ FitsFields (NextPairs 1 65536))
        × FitsFields (CloseCursor 18446744073709551615)
        × (¬ FitsFields (CloseCursor 18446744073709551616)) }
{}

/// The greatest numbers of replies. The greatest number of a parent is one less, since it stands for none.
pub fn numbers_of_replies_fit_their_fields()
    ensures made { FitsReply (reply.Made 4294967295) × (¬ FitsReply (reply.Made 4294967296)) }
    ensures none { FitsParent None }
    ensures parent { FitsParent (Some 4294967294) × (¬ FitsParent (Some 4294967295)) }
    ensures depth { FitsReply (reply.Info None 4294967295 true)
        × (¬ FitsReply (reply.Info None 4294967296 true)) }
    ensures opened { FitsReply (reply.Opened 18446744073709551615)
        × (¬ FitsReply (reply.Opened 18446744073709551616)) }
    ensures stat { FitsReply (reply.Stat 4294967295 4294967295 4294967295 4294967295)
        × (¬ FitsReply (reply.Stat 4294967296 0 0 0))
        × (¬ FitsReply (reply.Stat 0 4294967296 0 0))
        × (¬ FitsReply (reply.Stat 0 0 4294967296 0))
        × (¬ FitsReply (reply.Stat 0 0 0 4294967296)) }
    ensures block { FitsReply (reply.Refused (why.Damaged 4294967295))
        × (¬ FitsReply (reply.Refused (why.Damaged 4294967296))) }
{}

/// Behind the last whole frame stands nothing, the part of a frame, or the length of one that is too long: a body has up to
/// 2,048 bytes.
pub fn streams_end_in_three_ways()
    ensures whole { ending_of [] ≡ Whole }
    ensures rest { (ending_of (0 ∷ []) ≡ Rest) × (ending_of (0 ∷ 0 ∷ 8 ∷ 0 ∷ []) ≡ Rest) }
    ensures long { ending_of (0 ∷ 0 ∷ 8 ∷ 1 ∷ []) ≡ Long }
    ensures body { IsBody (replicate 2048 0) × (¬ IsBody (replicate 2049 0)) }
{}
