//! Laws of images, moments and trails. Each is the contract of a function that does nothing.

ghost use Rattle.std.specs.Prelude.{ℕ, ◌+◌, List, [], ◌∷◌, ◌++◌, length};
ghost use Rattle.def_crash.specs.Image.{Image};
ghost use Rattle.def_crash.specs.Moments.{DiskView, Passes, TearsOnly, OnlyReads, IsDurable};
ghost use Rattle.def_crash.specs.Trail.{Trail};

/// What is seen as a disk. The laws hold of each type and each way to see it, so nothing has to implement this.
pub trait Viewed {
    /// Its content, and what a crash at each moment so far might leave.
    ghost view: { Self → DiskView };
}

/// What an image may show, as a table. The laws hold of each type and each meaning, so nothing has to implement this.
pub trait Showable {
    /// The image shows it.
    ghost shows: { Image → Self → Type 0 };
}

/// Two calls that tear only one range tear only that range together.
#[tactic(auto, using(crate::proofs::MomentLemmas::tears_trans))]
pub fn torn_ranges_compose<D: Viewed>()
    ensures { (old mid new : D) (at n : ℕ) → Passes (D.view old) (D.view mid)
        → Passes (D.view mid) (D.view new) → TearsOnly (D.view old) (D.view mid) at n
        → TearsOnly (D.view mid) (D.view new) at n → TearsOnly (D.view old) (D.view new) at n }
{}

/// A disk that was only read is durable if it was durable before.
#[tactic(auto, using(crate::proofs::MomentLemmas::reads_keep_durable))]
pub fn reads_keep_what_is_durable<D: Viewed>()
    ensures { (old new : D) → OnlyReads (D.view old) (D.view new) → IsDurable (D.view old)
        → IsDurable (D.view new) }
{}

/// A trail with a mark for each of its tables, and one that goes on from its last table, are one trail.
#[tactic(auto, using(crate::proofs::TrailLemmas::trail_join))]
pub fn trails_join<D: Viewed, T: Showable>()
    ensures { (mid new : D) (start n : ℕ) (xs ys : List T) (x : T)
        → Passes (D.view mid) (D.view new)
        → Trail T.shows (D.view mid) start (xs ++ x ∷ []) (length xs)
        → Trail T.shows (D.view new) (D.view mid).moment (x ∷ ys) n
        → Trail T.shows (D.view new) start (xs ++ x ∷ ys) (length xs + n) }
{}

/// A trail with a mark for each of its tables still holds after a read.
#[tactic(auto, using(crate::proofs::TrailLemmas::trail_read))]
pub fn trails_outlast_reads<D: Viewed, T: Showable>()
    ensures { (old new : D) (start : ℕ) (xs : List T) (x : T)
        → OnlyReads (D.view old) (D.view new)
        → Trail T.shows (D.view old) start (xs ++ x ∷ []) (length xs)
        → Trail T.shows (D.view new) start (xs ++ x ∷ []) (length xs) }
{}
