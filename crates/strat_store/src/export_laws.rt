//! Laws of a store whose version is read whole. Each is the contract of a function that does nothing.

ghost use Rattle.std.specs.Prelude.{◌≡◌, ℕ, true, Option};
ghost use Rattle.def_crash.specs.Image.{Image};
ghost use Rattle.def_crash.specs.Moments.{Exposes};
ghost use Rattle.def_meaning.specs.StateTable.{table_of};
ghost use Rattle.def_publish.specs.Contents.{Contents, contents_state};
ghost use Rattle.strat_cursor.specs.Looking.{NamesNoBlock, arrays_asked};
ghost use Rattle.strat_memory.specs.Held.{Held, IsConsistent, StandsWith};
ghost use Rattle.strat_model.specs.Step.{pairs_at};
ghost use Rattle.strat_publish.specs.Outcomes.{IsDamagedIn};
ghost use Rattle.strat_store.specs.Exporting.{IsReadWhole};
ghost use Rattle.strat_memory.specs.Memory.{has_version};

use strat_disk::Disk;

/// Where a store stands, what its memtable and the arrays of a version have is the version's map in the table, and none of
/// these arrays has a block that is no block of entries.
pub fn a_version_is_read_from_its_arrays<D: Disk>()
    ensures ok { (d : D) (s : Held) (x : Contents) (f : Image) (v : ℕ) → IsConsistent s
        → StandsWith (D.view d) s x → Exposes (D.view d) f
        → has_version s.memory v ≡ true
        → IsReadWhole f s v (pairs_at (table_of (contents_state x)) v) }
    ensures damaged { (d : D) (s : Held) (x : Contents) (f : Image) (v b : ℕ) → IsConsistent s
        → StandsWith (D.view d) s x → Exposes (D.view d) f
        → ¬ NamesNoBlock (D.view d).content (arrays_asked s.memory.parents s.levels v) b }
{}

/// A block of one of a version's arrays that is no block of entries is damaged in the store.
pub fn what_an_export_names_is_damaged()
    ensures ok { (content : Option Image) (s : Held) (v b : ℕ)
        → NamesNoBlock content (arrays_asked s.memory.parents s.levels v) b
        → IsDamagedIn content s.memory s.levels b }
{}
