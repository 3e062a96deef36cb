//! Laws of logs and of those who follow them. Each is a call that does nothing, and its clauses are what it says.

ghost use Rattle.std.specs.Prelude.{◌≡◌, ◌≤◌, ◌<◌, ◌⊎◌, ℕ, ◌+◌, List, [], ◌∷◌, length, take, Some, slice_get};
ghost use Rattle.std.specs.List.{AllByRecursion};
ghost use Rattle.strat_base.specs.Change.{Change};
ghost use Rattle.strat_base.specs.Change as change;
ghost use Rattle.def_crash.specs.Image.{Image};
ghost use Rattle.def_crash.specs.Moments.{Images};
ghost use Rattle.def_crash.specs.Trail.{At, Trail};
ghost use Rattle.strat_model.specs.Answer.{refusal};
ghost use Rattle.strat_model.specs.Run.{Position, IsAfter, IsFault};
ghost use Rattle.strat_model.specs.Spelling.{tag_of};
ghost use Rattle.strat_model.specs.Step.{step};
ghost use Rattle.strat_model.specs.Table.{Table};
ghost use Rattle.strat_model.specs.declared.replies.Refusal.{Refusal};
ghost use Rattle.strat_model.specs.declared.replies.Refusal.TheVariants as why;
ghost use Rattle.strat_model.specs.declared.replies.Reply.TheVariants as reply;
ghost use Rattle.def_meaning.specs.StateTable.{request_for};
ghost use Rattle.def_publish.specs.Standing.{ShowsTable};
ghost use Rattle.def_follow.specs.Following.{Delivery, IsFollowing, IsBrokenOff, Receipt, Receives, cause_byte, fate_for, receipt_frame, Taken, Old, Gap, Malformed, Refused};
ghost use Rattle.def_follow.specs.Keeping.{IsOfLogAt, IsKeptOf};
ghost use Rattle.def_follow.specs.Log.{AreTakenFrom, IsLog, IsOfLog, IsTakenAt, table_after};
ghost use Rattle.def_follow.specs.Numbered.{Numbered, SpellsNumbered, IsInLog, change_frame};
ghost use Rattle.def_follow.specs.OnDisk.{EachOfLog, ShowsOfLog};

use def_crash::laws::Viewed;

/// Each change that a table accepts adds one to its changes.
pub fn a_log_counts_its_changes()
    ensures ok { (t : Table) (log : List Change) → AreTakenFrom t log
        → (table_after t log).changes ≡ t.changes + length log }
{}

/// A body reads as one number and one change at most. Nothing stands behind the change, and its key has a byte.
pub fn a_body_has_one_numbered_change()
    ensures one { (body : List ℕ) (n m : Numbered) → SpellsNumbered body n → SpellsNumbered body m
        → n ≡ m }
    ensures behind { (n : Numbered)
        → SpellsNumbered (0 ∷ 0 ∷ 0 ∷ 0 ∷ 3 ∷ 0 ∷ 0 ∷ 0 ∷ 0 ∷ 0 ∷ []) n → ⊥ }
    ensures empty { (n : Numbered)
        → SpellsNumbered (0 ∷ 0 ∷ 0 ∷ 0 ∷ 2 ∷ 0 ∷ 0 ∷ 0 ∷ 0 ∷ 0 ∷ []) n → ⊥ }
{}

/// How a body is answered, by what it is: no numbered change, an older one, one that comes too early, the next one. Each
/// of these answers may be given. A fault is met at the next change alone, and says so.
pub fn a_body_is_answered_by_its_number()
    ensures malformed { (mem : ℕ) (at : Position) (body : List ℕ)
        → ((n : Numbered) → SpellsNumbered body n → ⊥) → (r : Receipt) (after : Position)
        → Receives mem at body r after → (after ≡ at)
        × (r ≡ record { number = tag_of body; fate = Malformed; next = at.table.changes }) }
    ensures old { (mem : ℕ) (at after : Position) (body : List ℕ) (r : Receipt) (n : Numbered)
        → Receives mem at body r after → SpellsNumbered body n → n.number < at.table.changes
        → (after ≡ at)
        × (r ≡ record { number = n.number; fate = Old; next = at.table.changes }) }
    ensures gap { (mem : ℕ) (at after : Position) (body : List ℕ) (r : Receipt) (n : Numbered)
        → Receives mem at body r after → SpellsNumbered body n → at.table.changes < n.number
        → (after ≡ at)
        × (r ≡ record { number = n.number; fate = Gap; next = at.table.changes }) }
    ensures next { (mem : ℕ) (at after : Position) (body : List ℕ) (r : Receipt) (n : Numbered)
        → Receives mem at body r after → SpellsNumbered body n → n.number ≡ at.table.changes
        → (r.number ≡ n.number) × (r.next ≡ after.table.changes)
        × (((r.fate ≡ fate_for (step at.table (request_for n.change)).answer.reply)
        × IsAfter mem at (request_for n.change) after)
        ⊎ ((r.fate ≡ Refused why.NoMemory) × IsTakenAt at.table n.change
        × (mem ≤ at.fill) × (after ≡ at))) }
    ensures refused { (mem : ℕ) (at : Position) (body : List ℕ)
        → ((n : Numbered) → SpellsNumbered body n → ⊥) → Receives mem at body
        (record { number = tag_of body; fate = Malformed; next = at.table.changes }) at }
    ensures passed { (mem : ℕ) (at : Position) (body : List ℕ) (n : Numbered)
        → SpellsNumbered body n → (n.number < at.table.changes → Receives mem at body
        (record { number = n.number; fate = Old; next = at.table.changes }) at)
        × (at.table.changes < n.number → Receives mem at body
        (record { number = n.number; fate = Gap; next = at.table.changes }) at) }
    ensures given { (mem : ℕ) (at after : Position) (body : List ℕ) (n : Numbered)
        → SpellsNumbered body n → n.number ≡ at.table.changes
        → (IsAfter mem at (request_for n.change) after → Receives mem at body (record {
          number = n.number;
          fate = fate_for (step at.table (request_for n.change)).answer.reply;
          next = after.table.changes;
        }) after)
        × (IsTakenAt at.table n.change → mem ≤ at.fill → Receives mem at body
        (record { number = n.number; fate = Refused why.NoMemory; next = at.table.changes }) at) }
    ensures fault { (mem : ℕ) (at done : Position) (body : List ℕ) (r : Receipt)
        → IsBrokenOff mem at body r done → (n : Numbered) × SpellsNumbered body n
        × (n.number ≡ at.table.changes) × IsTakenAt at.table n.change
        × IsAfter mem at (request_for n.change) done × ((cause : Refusal)
        × IsFault (refusal cause)
        × (r ≡ record { number = n.number; fate = Refused cause; next = at.table.changes })) }
{}

/// A prefix that a follower has at the end of its run has each change that it took, at its number. What it refused, it
/// refused for want of memory.
pub fn what_was_taken_is_in_the_prefix()
    ensures taken { (changes_max versions_max : ℕ) (log : List Change) (after : Position)
        (x : Delivery) (n : Numbered) → IsKeptOf changes_max versions_max log after x
        → IsInLog log n → x.receipt.number ≡ n.number → x.receipt.fate ≡ Taken
        → slice_get (take after.table.changes log) n.number ≡ Some n.change }
    ensures refused { (changes_max versions_max : ℕ) (log : List Change) (after : Position)
        (x : Delivery) (cause : Refusal) → IsKeptOf changes_max versions_max log after x
        → x.receipt.fate ≡ Refused cause → cause ≡ why.NoMemory }
{}

/// A follower whose frames hold changes of one log, in any order, with gaps, repeats and frames that are no change, has the
/// table after a prefix of that log. It refuses a change for want of memory alone, unless a fault ends its run. The prefix holds each change that
/// it took. The table after a change that met a fault is of the log, too.
pub fn a_follower_has_a_prefix_of_its_log()
    ensures ok { (changes_max versions_max mem : ℕ) (log : List Change) (at after : Position)
        (xs : List Delivery) → IsLog changes_max versions_max log → IsFollowing mem at xs after
        → AllByRecursion (λ (x : Delivery). IsOfLogAt log x.body) xs
        → IsOfLog changes_max versions_max log at.table
        → IsOfLog changes_max versions_max log after.table
        × (at.table.changes ≤ after.table.changes)
        × AllByRecursion (IsKeptOf changes_max versions_max log after) xs }
    ensures err { (changes_max versions_max mem : ℕ) (log : List Change) (at done : Position)
        (body : List ℕ) (r : Receipt) → IsLog changes_max versions_max log
        → IsBrokenOff mem at body r done → IsOfLogAt log body
        → IsOfLog changes_max versions_max log at.table
        → IsOfLog changes_max versions_max log done.table }
{}

/// If a disk goes through tables of a log, each crash from the trail's start on leaves one of them, and which may differ
/// from crash to crash. At its end each leaves one of those behind the trail's last mark.
pub fn a_trail_of_a_log_leaves_its_prefixes<D: Viewed>()
    ensures ok { (changes_max versions_max : ℕ) (log : List Change) (d : D) (start : ℕ)
        (tables : List Table) (n : ℕ) → Trail ShowsTable (D.view d) start tables n
        → AllByRecursion (IsOfLog changes_max versions_max log) tables
        → (m : ℕ) (c : Image) → start ≤ m → m ≤ (D.view d).moment → (D.view d).images_at m c
        → ShowsOfLog changes_max versions_max log c }
    ensures end { (changes_max versions_max : ℕ) (log : List Change) (d : D) (start : ℕ)
        (tables : List Table) (n : ℕ) → Trail ShowsTable (D.view d) start tables n
        → AllByRecursion (IsOfLog changes_max versions_max log) tables
        → EachOfLog changes_max versions_max log (D.view d)
        × ((c : Image) → Images (D.view d) c → (i : ℕ) × (n ≤ i)
        × At tables i (λ (t : Table). ShowsTable c t × IsOfLog changes_max versions_max log t)) }
    ensures each { (changes_max versions_max : ℕ) (log : List Change) (d : D) (c : Image)
        → EachOfLog changes_max versions_max log (D.view d) → Images (D.view d) c
        → (t : Table) × ShowsTable c t × IsOfLog changes_max versions_max log t }
{}

/// The bytes of a leader's frames, of the first put of a store, of a later clone and of a drop, and of a follower's answers: the
/// put was taken; the same comes again; a later one comes too early; two bytes are no change; memory ran out. What becomes
/// of a change by the reply to it, and the byte that says why it was refused.
pub fn frames_and_receipts_are_spelled_so()
    ensures sent { change_frame (record { number = 0; change = change.Put 0 (97 ∷ []) (49 ∷ []) })
        ≡ 0 ∷ 0 ∷ 0 ∷ 14 ∷ 0 ∷ 0 ∷ 0 ∷ 0 ∷ 1 ∷ 0 ∷ 0 ∷ 0 ∷ 0 ∷ 1 ∷ 97 ∷ 0 ∷ 1 ∷ 49 ∷ [] }
    ensures ok { receipt_frame (record { number = 0; fate = Taken; next = 1 })
        ≡ 0 ∷ 0 ∷ 0 ∷ 10 ∷ 0 ∷ 0 ∷ 0 ∷ 0 ∷ 0 ∷ 0 ∷ 0 ∷ 0 ∷ 1 ∷ 0 ∷ [] }
    ensures same { receipt_frame (record { number = 0; fate = Old; next = 1 })
        ≡ 0 ∷ 0 ∷ 0 ∷ 10 ∷ 0 ∷ 0 ∷ 0 ∷ 0 ∷ 1 ∷ 0 ∷ 0 ∷ 0 ∷ 1 ∷ 0 ∷ [] }
    ensures none { receipt_frame (record { number = 2; fate = Gap; next = 1 })
        ≡ 0 ∷ 0 ∷ 0 ∷ 10 ∷ 0 ∷ 0 ∷ 0 ∷ 2 ∷ 2 ∷ 0 ∷ 0 ∷ 0 ∷ 1 ∷ 0 ∷ [] }
    ensures end { receipt_frame (record { number = 0; fate = Malformed; next = 1 })
        ≡ 0 ∷ 0 ∷ 0 ∷ 10 ∷ 0 ∷ 0 ∷ 0 ∷ 0 ∷ 3 ∷ 0 ∷ 0 ∷ 0 ∷ 1 ∷ 0 ∷ [] }
    ensures err { receipt_frame (record { number = 5; fate = Refused why.NoMemory; next = 5 })
        ≡ 0 ∷ 0 ∷ 0 ∷ 10 ∷ 0 ∷ 0 ∷ 0 ∷ 5 ∷ 4 ∷ 0 ∷ 0 ∷ 0 ∷ 5 ∷ 32 ∷ [] }
    ensures later { (change_frame (record { number = 258; change = change.Clone 1 })
        ≡ 0 ∷ 0 ∷ 0 ∷ 9 ∷ 0 ∷ 0 ∷ 1 ∷ 2 ∷ 3 ∷ 0 ∷ 0 ∷ 0 ∷ 1 ∷ [])
        × (change_frame (record { number = 3; change = change.DropVersion 1 })
        ≡ 0 ∷ 0 ∷ 0 ∷ 9 ∷ 0 ∷ 0 ∷ 0 ∷ 3 ∷ 4 ∷ 0 ∷ 0 ∷ 0 ∷ 1 ∷ []) }
    ensures fates { (fate_for reply.Done ≡ Taken) × (fate_for (reply.Made 1) ≡ Taken)
        × (fate_for (reply.Refused why.Frozen) ≡ Refused why.Frozen) }
    ensures causes { (tag_of (170 ∷ 187 ∷ []) ≡ 0) × (cause_byte Taken ≡ 0)
        × (cause_byte (Refused why.Frozen) ≡ 17) × (cause_byte (Refused why.Root) ≡ 27)
        × (cause_byte (Refused (why.Damaged 9)) ≡ 34) }
{}
