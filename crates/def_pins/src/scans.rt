//! The sizes of scans at their bounds. Each is the contract of a function that does nothing.

ghost use Rattle.std.specs.Prelude.{◌≡◌, [], replicate, true, false};
ghost use Rattle.strat_model.specs.Request.{Delete, Scan, OpenCursor, NextPairs};
ghost use Rattle.strat_model.specs.Spelling.{is_bound, is_limit, has_lawful_sizes};

/// A scan asks for 1 to 256 pairs.
pub fn scans_ask_for_up_to_256_pairs()
    ensures none { is_limit 0 ≡ false }
    ensures least { is_limit 1 ≡ true }
    ensures most { is_limit 256 ≡ true }
    ensures more { is_limit 257 ≡ false }
{}

/// A bound of a range has up to 255 bytes, and may have none.
pub fn bounds_have_up_to_255_bytes()
    ensures none { is_bound [] ≡ true }
    ensures most { is_bound (replicate 255 97) ≡ true }
    ensures more { is_bound (replicate 256 97) ≡ false }
{}

/// Both bounds and the limit of a command are looked at. An empty key is none, while an empty bound is one.
pub fn each_size_of_a_command_counts()
    ensures scan { (has_lawful_sizes (Scan 0 [] (replicate 255 97) 256) ≡ true)
        × (has_lawful_sizes (Scan 0 (replicate 256 97) [] 256) ≡ false)
        × (has_lawful_sizes (Scan 0 [] (replicate 256 97) 256) ≡ false)
        × (has_lawful_sizes (Scan 0 [] [] 257) ≡ false) }
    ensures open { (has_lawful_sizes (OpenCursor 0 [] (replicate 255 97)) ≡ true)
        × (has_lawful_sizes (OpenCursor 0 (replicate 256 97) []) ≡ false)
        × (has_lawful_sizes (OpenCursor 0 [] (replicate 256 97)) ≡ false) }
    ensures next { (has_lawful_sizes (NextPairs 1 256) ≡ true)
        × (has_lawful_sizes (NextPairs 1 257) ≡ false) }
    ensures key { has_lawful_sizes (Delete 0 []) ≡ false }
{}
