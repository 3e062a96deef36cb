//! Journals up to their last change. Each is the contract of a function that does nothing.

#![tactic(auto, unfolding(strat_base::specs::Numbers::be, strat_base::specs::Numbers::number, strat_base::specs::Change::change_in, def_crash::specs::Image::window, def_crash::specs::Image::over, def_bytes::specs::Records::records))]

ghost use Rattle.std.specs.Prelude.{◌≡◌, ◌≤◌, ◌+◌, ◌-◌, ℕ, List, [], ◌∷◌, ◌++◌, length, map, Ok, Err};
ghost use Rattle.strat_base.specs.Change.{Clone};
ghost use Rattle.def_crash.specs.Image.{Image};
ghost use Rattle.def_bytes.specs.Layout.{region_first};
ghost use Rattle.def_bytes.specs.Records.{Logged, first_records, journal_of, records_behind};
ghost use Rattle.def_pins.specs.Formats.{put_of, with_puts};
ghost use Rattle.def_pins.specs.States.{after_puts};
ghost use Rattle.def_state.specs.Sound.{Takes};

/// What stands in both regions is the journal, also where both are full.
pub fn both_regions_may_be_full()
    ensures ok { journal_of (with_puts (97 ∷ 98 ∷ 99 ∷ 100 ∷ []) (101 ∷ 102 ∷ 103 ∷ 104 ∷ [])) 4 0
        ≡ Ok (map (λ key. record { change = put_of key; block = 2 }) (97 ∷ 98 ∷ 99 ∷ 100 ∷ [])
        ++ map (λ key. record { change = put_of key; block = 4 })
        (101 ∷ 102 ∷ 103 ∷ 104 ∷ [])) }
{}

/// Behind a full region it reads at most two records fewer than a region takes. Where one fewer stand, the region's
/// first block is damaged, whatever comes behind them: no more of it is read.
pub fn a_region_behind_a_full_one_may_not_be_full()
    ensures most { (c : Image) (mem region : ℕ) (front : List Logged)
        → first_records c mem region (mem - 1) ≡ Ok front → length front ≡ mem - 1
        → records_behind c mem region ≡ Err (region_first mem region) }
    ensures fits { (c : Image) (mem region : ℕ) (front : List Logged)
        → first_records c mem region (mem - 1) ≡ Ok front → length front + 2 ≤ mem
        → records_behind c mem region ≡ Ok front }
{}

/// A sound state takes a change behind five, where a region takes four, and none behind six.
pub fn a_change_is_taken_while_the_journal_has_room()
    ensures ok { Takes (after_puts 5) (Clone 0) }
    ensures none { ¬ Takes (after_puts 6) (Clone 0) }
{}
