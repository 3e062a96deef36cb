//! Laws of changes, entries and version trees. Each is the contract of a function that does nothing.

ghost use Rattle.std.specs.Prelude.{◌≡◌, ℕ, ◌<◌, ◌≤◌, List, [], ◌∷◌, ◌++◌, length, Some, IsTrue, false};
ghost use Rattle.strat_base.specs.Change.{Change, Put, Clone, DropVersion, is_lawful, change_bytes, change_in, BeginsWithChange};
ghost use Rattle.strat_base.specs.Entries.{Entry};
ghost use Rattle.strat_base.specs.EntryBytes.{fits_fields, entry_bytes, entry_in, BeginsWithEntry};
ghost use Rattle.strat_base.specs.Marks.{Marks, is_dropped, has_living_child, none_dropped};
ghost use Rattle.strat_base.specs.Numbers.{AreBytes};
ghost use Rattle.strat_base.specs.Samples.{says, gone};
ghost use Rattle.strat_base.specs.Tree.{Parents, path, is_ancestor, below, has_child, with_child, IsTree};

/// A new child has itself and its parent's ancestors; no older version's ancestors change.
pub fn child_keeps_ancestors()
    ensures tree { (parents : Parents) (p : ℕ) → IsTree parents → p < length parents
        → IsTree (with_child parents p) }
    ensures same { (parents : Parents) (p u v : ℕ) → IsTree parents → p < length parents
        → v < length parents → is_ancestor (with_child parents p) u v ≡ is_ancestor parents u v }
    ensures child { (parents : Parents) (p : ℕ) → IsTree parents → p < length parents
        → path (with_child parents p) (length parents) ≡ length parents ∷ path parents p }
{}

/// Where no version was dropped, every version lives, and a living child is a child.
#[tactic(auto, using(crate::proofs::MarkLemmas::living_at, crate::proofs::MarkLemmas::living_child))]
pub fn without_drops_all_versions_live()
    ensures living { (marks : Marks) (v : ℕ) → IsTrue (none_dropped marks)
        → is_dropped marks v ≡ false }
    ensures child { (parents : Parents) (marks : Marks) (v : ℕ) → IsTrue (none_dropped marks)
        → has_living_child parents marks v ≡ has_child parents v }
{}

/// Of a version and its ancestors below a horizon, `below` is the greatest.
pub fn below_is_greatest()
    ensures found { (parents : Parents) (v h : ℕ) → IsTree parents → v < length parents → 0 < h
        → IsTrue (is_ancestor parents (below parents v h) v) × (below parents v h < h) }
    ensures greatest { (parents : Parents) (u v h : ℕ) → IsTree parents
        → IsTrue (is_ancestor parents u v) → u < h → u ≤ below parents v h }
{}

/// A change is read exactly where its bytes stand.
pub fn changes_are_read_as_written()
    ensures read { (c : Change) (rest : List ℕ) → IsTrue (is_lawful c)
        → change_in (change_bytes c ++ rest) ≡ Some c }
    ensures written { (bytes : List ℕ) (c : Change) → AreBytes bytes → change_in bytes ≡ Some c
        → BeginsWithChange bytes c }
    ensures size { (c : Change) → IsTrue (is_lawful c) → length (change_bytes c) ≤ 1287 }
{}

/// The bytes of a put of `a` with the value `1` at version 0, and of a clone and a drop of version 513.
#[tactic(auto, unfolding(crate::specs::Numbers::be))]
pub fn bytes_of_changes()
    ensures put { change_bytes (Put 0 (0x61 ∷ []) (0x31 ∷ []))
        ≡ 1 ∷ 0 ∷ 0 ∷ 0 ∷ 0 ∷ 1 ∷ 0x61 ∷ 0 ∷ 1 ∷ 0x31 ∷ [] }
    ensures clone { change_bytes (Clone 513) ≡ 3 ∷ 0 ∷ 0 ∷ 2 ∷ 1 ∷ [] }
    ensures drop { change_bytes (DropVersion 513) ≡ 4 ∷ 0 ∷ 0 ∷ 2 ∷ 1 ∷ [] }
{}

/// An entry is read exactly where its bytes stand.
pub fn entries_are_read_as_written()
    ensures read { (e : Entry) (rest : List ℕ) → IsTrue (fits_fields e)
        → entry_in (entry_bytes e ++ rest) ≡ Some e }
    ensures written { (bytes : List ℕ) (e : Entry) → AreBytes bytes → entry_in bytes ≡ Some e
        → BeginsWithEntry bytes e }
    ensures size { (e : Entry) → IsTrue (fits_fields e) → length (entry_bytes e) ≤ 1287 }
{}

/// The bytes of `a` with the value `1` at version 0, and of `a` gone from version 258 on.
#[tactic(auto, unfolding(crate::specs::Numbers::be))]
pub fn bytes_of_entries()
    ensures put { entry_bytes (says 0x61 0 0x31)
        ≡ 1 ∷ 0x61 ∷ 0 ∷ 0 ∷ 0 ∷ 0 ∷ 1 ∷ 0 ∷ 1 ∷ 0x31 ∷ [] }
    ensures gone { entry_bytes (gone 0x61 258) ≡ 1 ∷ 0x61 ∷ 0 ∷ 0 ∷ 1 ∷ 2 ∷ 0 ∷ [] }
{}
