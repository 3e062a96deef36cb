//! Laws of what an image reads as, and where that is read. Each is the contract of a function that does nothing.

ghost use Rattle.std.specs.Prelude.{◌≡◌, ◌≤◌, ◌<◌, ◌*◌, ℕ, List, length, Some, Ok};
ghost use Rattle.strat_base.specs.Change.{Change, change_bytes, change_in};
ghost use Rattle.def_crash.specs.Blocks.{AgreeOn};
ghost use Rattle.def_crash.specs.Image.{Image, SameIn};
ghost use Rattle.def_bytes.specs.Layout.{region_at, region_size, other_region, first_free};
ghost use Rattle.def_bytes.specs.Records.{Logged, region_records, journal_in_two};
ghost use Rattle.def_bytes.specs.SuperBlock.{newest_in};
ghost use Rattle.strat_model.specs.Table.{Table};
ghost use Rattle.def_recovery.specs.Opening.{recover, reads_as};
ghost use Rattle.def_meaning.specs.StateTable.{table_of};
ghost use Rattle.def_state.specs.Sound.{IsSound};
ghost use Rattle.def_state.specs.State.{State};
ghost use Rattle.def_publish.specs.Contents.{Contents, contents_head, contents_state, named_blocks};
ghost use Rattle.def_publish.specs.Standing.{LiesIn, ReadsAs, ShowsTable};

/// An image that reads as contents is one in which recovery finds their head, and that reads as their
/// state; each image that reads as a state reads as contents of it. Where the state is sound it shows its table.
pub fn recovery_finds_contents()
    ensures head { (c : Image) (x : Contents) → ReadsAs c x
        → recover c ≡ Ok (Some (contents_head x)) }
    ensures state { (c : Image) (x : Contents) → ReadsAs c x
        → reads_as c ≡ Some (contents_state x) }
    ensures contents { (c : Image) (s : State) → reads_as c ≡ Some s
        → (x : Contents) × ReadsAs c x × (contents_state x ≡ s) }
    ensures table { (c : Image) (x : Contents) → IsSound (contents_state x) → ReadsAs c x
        → ShowsTable c (table_of (contents_state x)) }
{}

/// An image reads as one thing, and shows one table.
pub fn contents_are_unique()
    ensures contents { (c : Image) (x y : Contents) → ReadsAs c x → ReadsAs c y → x ≡ y }
    ensures table { (c : Image) (t u : Table) → ShowsTable c t → ShowsTable c u → t ≡ u }
{}

/// Contents are read from the slots, the journal regions and the blocks that they name: images that
/// agree there read as the same.
pub fn contents_are_read_from_their_blocks()
    ensures reads { (f c : Image) (x : Contents) → ReadsAs f x
        → SameIn 0 (4096 * first_free x.sb.mem) f c → AgreeOn (named_blocks x) f c → ReadsAs c x }
    ensures same { (f c : Image) (x : Contents) → ReadsAs f x
        → SameIn 0 (4096 * first_free x.sb.mem) f c → AgreeOn (named_blocks x) f c
        → (reads_as c ≡ reads_as f) × (recover c ≡ recover f) }
    ensures lies { (f c : Image) (x : Contents) → LiesIn f x → AgreeOn (named_blocks x) f c
        → LiesIn c x }
    ensures newest { (f c : Image) → SameIn 0 8192 f c → newest_in c ≡ newest_in f }
{}

/// A journal is read from the bytes of its region, since a change that is read has at most 1,287 bytes,
/// whatever bytes it is read from. The other region counts only where it is full.
pub fn journals_are_read_from_their_region()
    ensures change { (bytes : List ℕ) (c : Change) → change_in bytes ≡ Some c
        → length (change_bytes c) ≤ 1287 }
    ensures region { (f c : Image) (mem region : ℕ)
        → SameIn (region_at mem region) (region_size mem) f c
        → region_records c mem region ≡ region_records f mem region }
    ensures same { (f c : Image) (mem active : ℕ)
        → SameIn (region_at mem active) (region_size mem) f c
        → SameIn (region_at mem (other_region active)) (region_size mem) f c
        → journal_in_two c mem active ≡ journal_in_two f mem active }
    ensures room { (f c : Image) (mem active : ℕ) (logged : List Logged)
        → SameIn (region_at mem active) (region_size mem) f c → length logged < mem
        → journal_in_two f mem active ≡ Ok logged → journal_in_two c mem active ≡ Ok logged }
{}
