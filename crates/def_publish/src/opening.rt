//! Laws of an opening. Each is the contract of a function that does nothing.

ghost use Rattle.std.specs.Prelude.{◌≡◌, ◌≢◌, ◌<◌, ℕ, [], ◌∷◌, length};
ghost use Rattle.def_crash.specs.Image.{Image};
ghost use Rattle.def_crash.specs.Moments.{Exposes, Images, Since, Passes, TearsOnly, IsDurable};
ghost use Rattle.def_crash.specs.Trail.{Trail};
ghost use Rattle.def_bytes.specs.Layout.{region_at, other_region, open_flag};
ghost use Rattle.def_meaning.specs.StateTable.{table_of};
ghost use Rattle.def_state.specs.Sound.{IsSound};
ghost use Rattle.def_publish.specs.Contents.{Contents, contents_state};
ghost use Rattle.def_publish.specs.Standing.{ReadsAs, ShowsTable, LeavesContent, ContentsStand};

use def_crash::laws::Viewed;

/// Contents that were read from a durable disk stand on it, unless their journal leaves room and the
/// first gate of the other region is open. Where the journal is full an open gate there is damage.
pub fn contents_that_were_read_stand<D: Viewed>()
    ensures stands { (d : D) (f : Image) (x : Contents) → Exposes (D.view d) f
        → IsDurable (D.view d) → LeavesContent (D.view d) → ReadsAs f x
        → IsSound (contents_state x)
        → (length x.journal < x.sb.mem
        → f (region_at x.sb.mem (other_region x.sb.region)) ≢ open_flag)
        → ContentsStand (D.view d) x }
    ensures full { (c : Image) (x : Contents) → ReadsAs c x → length x.journal ≡ x.sb.mem
        → c (region_at x.sb.mem (other_region x.sb.region)) ≢ open_flag }
{}

/// A call that tears one region's first gate alone, as `turn` does, changes no image's contents, and so no image's table: each
/// image since then has those of one of before in which the other region is active and has room, whatever other images show.
pub fn each_image_keeps_its_contents<D: Viewed>()
    ensures { (old new : D) (mem gate : ℕ)
        → TearsOnly (D.view old) (D.view new) (region_at mem gate) 1
        → (c : Image) → Since (D.view new) (D.view old).moment c
        → (d : Image) × Images (D.view old) d
        × ((x : Contents) → ReadsAs d x → x.sb.mem ≡ mem → other_region x.sb.region ≡ gate
        → length x.journal < mem → ReadsAs c x) }
{}

/// Where the journal leaves room the first gate of the other region may be shut: meanwhile each image
/// reads as before and shows the one table, and once it is shut the contents stand.
pub fn shutting_the_other_region_keeps_contents<D: Viewed>()
    ensures images { (old new : D) (x : Contents) → length x.journal < x.sb.mem
        → ((c : Image) → Images (D.view old) c → ReadsAs c x)
        → TearsOnly (D.view old) (D.view new) (region_at x.sb.mem (other_region x.sb.region)) 1
        → (c : Image) → Since (D.view new) (D.view old).moment c → ReadsAs c x }
    ensures trail { (old new : D) (x : Contents) → length x.journal < x.sb.mem
        → ((c : Image) → Images (D.view old) c → ReadsAs c x)
        → TearsOnly (D.view old) (D.view new) (region_at x.sb.mem (other_region x.sb.region)) 1
        → IsSound (contents_state x) → Passes (D.view old) (D.view new)
        → Trail ShowsTable (D.view new) (D.view old).moment (table_of (contents_state x) ∷ []) 0 }
    ensures stands { (old new : D) (x : Contents) → length x.journal < x.sb.mem
        → ((c : Image) → Images (D.view old) c → ReadsAs c x)
        → TearsOnly (D.view old) (D.view new) (region_at x.sb.mem (other_region x.sb.region)) 1
        → IsSound (contents_state x) → Passes (D.view old) (D.view new)
        → (f : Image) → Exposes (D.view old) f → IsDurable (D.view old) → LeavesContent (D.view new)
        → ((c : Image) → Images (D.view new) c
        → c (region_at x.sb.mem (other_region x.sb.region)) ≢ open_flag)
        → ContentsStand (D.view new) x }
{}
