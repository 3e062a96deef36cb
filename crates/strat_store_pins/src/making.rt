//! When a disk is blank, what a formatting may write, and which gates it leaves shut. Each is the contract of a function that
//! does nothing.

ghost use Rattle.std.specs.Prelude.{◌≡◌, ◌≢◌, ◌==◌, ◌||◌, if◌then◌else◌, ℕ, [], Some, Ok};
ghost use Rattle.def_crash.specs.Image.{Image};
ghost use Rattle.def_bytes.specs.Layout.{open_flag, region_at};
ghost use Rattle.def_bytes.specs.Manifest.{new_manifest};
ghost use Rattle.def_publish.specs.Worked.{resting};
ghost use Rattle.def_recovery.specs.Head.{Head};
ghost use Rattle.def_recovery.specs.Opening.{recover};
ghost use Rattle.strat_open.specs.Format.{IsBlank, IsFormatted, IsNewStore};

/// A disk is blank where neither slot begins with an open gate, whatever else it has: here open gates everywhere else.
pub fn a_disk_with_both_slots_shut_is_blank()
    ensures ok { IsBlank (resting (λ i. 0)) }
    ensures same { IsBlank (resting (λ i. if (i == 0) || (i == 4096) then 1 else open_flag)) }
    ensures none { (¬ IsBlank (resting (λ i. if i == 0 then open_flag else 0)))
        × (¬ IsBlank (resting (λ i. if i == 4096 then open_flag else 0))) }
{}

/// A formatting for a journal of four changes may write both slots, the first byte of either region, and block 6, to the byte.
pub fn a_formatting_writes_slots_gates_and_a_block()
    ensures ok { IsFormatted 4 8191 × IsFormatted 4 8192 × IsFormatted 4 16384
        × IsFormatted 4 24576 × IsFormatted 4 28671 }
    ensures none { (¬ IsFormatted 4 8193) × (¬ IsFormatted 4 16383) × (¬ IsFormatted 4 16385)
        × (¬ IsFormatted 4 24575) × (¬ IsFormatted 4 28672) }
{}

/// In a new store the second slot and the second region are shut. Recovery finds the format in which it was made, the manifest of
/// an empty store, and no change.
pub fn a_new_store_has_one_slot_and_one_region_open()
    ensures ok { (format mem changes versions : ℕ) (c : Image)
        → IsNewStore format mem changes versions c
        → (c 4096 ≢ 167) × (c (region_at mem 1) ≢ 167) }
    ensures found { (format mem changes versions : ℕ) (c : Image)
        → IsNewStore format mem changes versions c
        → (h : Head) × (recover c ≡ Ok (Some h)) × (h.sb.format ≡ format)
        × (h.manifest ≡ new_manifest) × (h.journal ≡ []) }
{}
