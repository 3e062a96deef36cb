//! Laws of what is read of a disk. Each is the contract of a function that does nothing.

ghost use Rattle.std.specs.Prelude.{◌≡◌, ◌≢◌, ◌≤◌, ◌<◌, ◌-◌, ◌*◌, ℕ, List, [], ◌∷◌, length, Ok};
ghost use Rattle.def_bytes.specs.Chain.{IsChain};
ghost use Rattle.def_bytes.specs.Chained.{manifest_at};
ghost use Rattle.def_crash.specs.Image.{Image};
ghost use Rattle.def_bytes.specs.Layout.{region_at, open_flag};
ghost use Rattle.def_bytes.specs.Manifest.{Manifest, SpellsManifest};
ghost use Rattle.def_bytes.specs.Records.{Logged, journal_of, journal_in_two};

/// A manifest in either format is read from the chain of blocks that holds it.
pub fn chains_are_read_as_written()
    ensures { (format : ℕ) (c : Image) (b : ℕ) (blocks bytes : List ℕ) (m : Manifest)
        → SpellsManifest format bytes m → IsChain c (b ∷ blocks) bytes
        → manifest_at format c b (length bytes)
        ≡ Ok (record { manifest = m; blocks = b ∷ blocks }) }
{}

/// What recovery takes as the journal is that of both regions, of at most two changes fewer than they take, and each such
/// journal is taken. It is empty where the active region's first gate is closed.
pub fn recovery_takes_the_journal_of_both_regions()
    ensures whole { (c : Image) (mem active : ℕ) (logged : List Logged) → 0 < mem
        → journal_in_two c mem active ≡ Ok logged
        → (journal_of c mem active ≡ Ok logged) × (length logged ≤ 2 * mem - 2) }
    ensures taken { (c : Image) (mem active : ℕ) (logged : List Logged) → 0 < mem
        → journal_of c mem active ≡ Ok logged → length logged ≤ 2 * mem - 2
        → journal_in_two c mem active ≡ Ok logged }
    ensures none { (c : Image) (mem active : ℕ) → 0 < mem → c (region_at mem active) ≢ open_flag
        → journal_in_two c mem active ≡ Ok [] }
{}
