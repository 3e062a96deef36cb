//! Contents that follow others: their numbers, checkpoints that are refused, and how many changes may be in the journal.
//! Each is the contract of a function that does nothing.

ghost use Rattle.std.specs.Prelude.{◌≡◌, List, [], ◌∷◌, Option, None, Err};
ghost use Rattle.strat_base.specs.Change.{Clone};
ghost use Rattle.strat_base.specs.declared.descriptors.LevelDesc.{LevelDesc};
ghost use Rattle.def_crash.specs.Image.{Image};
ghost use Rattle.def_recovery.specs.Disks.{chain_manifest};
ghost use Rattle.def_recovery.specs.Opening.{recover};
ghost use Rattle.def_publish.specs.Contents.{Contents, contents_state, sealed_part, later_part, sealed_state};
ghost use Rattle.def_publish.specs.Next.{IsNextOf, IsSoundNext, MayBeNext};
ghost use Rattle.def_publish.specs.Publication.{Succeeds, IsPrepared, IsPromotedFrom};
ghost use Rattle.def_publish.specs.Standing.{ContentsStand};
ghost use Rattle.def_state.specs.Sound.{IsSound};
ghost use Rattle.def_publish.specs.Worked.{resting, chain_logged, chain_next, chain_again, chain_made, published_disk, at_generation};
ghost use Rattle.strat_store_pins.specs.Publications.{chain_grown, chain_behind, new_logged, new_next, at_format, twice_disk};

/// The next contents count just the entries that were written, and number the next array behind those that were made; they
/// are in the other slot, with the other region.
pub fn the_next_contents_have_these_numbers()
    ensures ok { IsNextOf chain_logged chain_next chain_made [] [] }
    ensures written { (¬ IsNextOf chain_logged (record chain_next {
      chained = record { manifest = record chain_manifest { written = 0 }; blocks = 8 ∷ [] };
    }) chain_made [] []) × (¬ IsNextOf chain_logged (record chain_next {
      chained = record { manifest = record chain_manifest { written = 2 }; blocks = 8 ∷ [] };
    }) chain_made [] []) }
    ensures number { (¬ IsNextOf chain_logged (record chain_next {
      chained = record { manifest = record chain_manifest { next_array = 1 }; blocks = 8 ∷ [] };
    }) chain_made [] []) × (¬ IsNextOf chain_logged (record chain_next {
      chained = record { manifest = record chain_manifest { next_array = 3 }; blocks = 8 ∷ [] };
    }) chain_made [] []) }
    ensures same { ¬ IsNextOf chain_logged (record chain_next { slot = 0 }) chain_made [] [] }
{}

/// Contents that follow soundly are sound, and so were those that they follow.
pub fn sound_contents_follow_sound_ones()
    ensures before { (f g : Image) (old new : Contents) (made : Option LevelDesc)
        (taken kept : List LevelDesc) → IsSoundNext f g old new made taken kept
        → IsSound (contents_state old) }
    ensures after { (f g : Image) (old new : Contents) (made : Option LevelDesc)
        (taken kept : List LevelDesc) → IsSoundNext f g old new made taken kept
        → IsSound (contents_state new) }
{}

/// Of five changes, where a region takes four, the fifth came behind.
pub fn the_fifth_change_came_behind()
    ensures front { sealed_part chain_grown ≡ chain_logged.journal }
    ensures rest { later_part chain_grown ≡ Clone 3 ∷ [] }
    ensures state { (sealed_state chain_grown).journal ≡ chain_logged.journal }
{}

/// A journal of one change may be published, and one of a change more than a region takes: that is the next journal.
pub fn publications_may_come_at_other_fills()
    ensures ok { Succeeds new_logged new_next }
    ensures promoted { IsPromotedFrom new_logged new_next }
    ensures later { Succeeds chain_grown chain_behind }
    ensures rest { IsPromotedFrom chain_grown chain_behind }
{}

/// Contents may not take the place of others over the newest slot, with an older generation, with the same region, with
/// changes twice, without the one behind a full region, or without a pair. They may not be the next where there are more
/// checkpoints than changes, nor keep another format than the newest.
pub fn wrong_publications_are_refused()
    ensures slot { ¬ Succeeds chain_logged (record chain_next { slot = 0 }) }
    ensures older { ¬ Succeeds chain_logged (at_generation 1 chain_next) }
    ensures region { ¬ Succeeds chain_logged (record chain_next {
      sb = record (chain_next.sb) { region = 0 };
    }) }
    ensures doubled { ¬ Succeeds chain_logged (record chain_next {
      journal = chain_logged.journal;
    }) }
    ensures lost { ¬ Succeeds chain_grown chain_next }
    ensures value { ¬ Succeeds chain_logged (record chain_next { levels = [] }) }
    ensures few { ¬ MayBeNext published_disk published_disk (at_generation 5 chain_next)
        (at_generation 6 chain_again) None [] chain_next.chained.manifest.levels }
    ensures format { ¬ IsPromotedFrom (at_format 1 chain_logged) (at_format 1 chain_next) }
{}

/// Before the old region is shut nothing stands that could be published again: that would read the old records once
/// more, and recovery would call the disk damaged.
pub fn nothing_is_published_before_the_old_region_is_shut()
    ensures none { ¬ ContentsStand (resting published_disk) chain_next }
    ensures prepared { ¬ IsPrepared (resting published_disk) chain_next chain_again }
    ensures damaged { recover twice_disk ≡ Err 2 }
{}
