//! The changes of a workload, drawn one after the other, and their frames.

ghost use Rattle.std.specs.Prelude.{◌≡◌, ◌+◌, ◌≤◌, ◌<◌, ◌%◌, ℕ, true, length};
ghost use Rattle.strat_base.specs.Tree.{has_child};
ghost use Rattle.def_texts.specs.Workload.{next_draw, drawn, leaf_from, drawn_change};
ghost use Rattle.def_state.specs.State.{tree_after};
ghost use Rattle.strat_serve.specs.Generated.{picked_change, makes_version};

use arrayvec::ArrayVec;

/// Most versions of a workload.
pub(crate) const VERSIONS: usize = 128;

/// A change as it is drawn: the keys are those of these numbers, and a value is the change's number.
#[derive(Clone, Copy)]
pub(crate) enum Pick {
    /// A key gets a value at a version.
    Put { version: u32, key: u32 },
    /// A key is gone from a version.
    Delete { version: u32, key: u32 },
    /// A version gets a child.
    Clone { version: u32 },
}

/// The generator's state after one more draw.
fn next_draw(state: u64) -> u64
    ensures { result ≡ next_draw state }
{
    state
        .wrapping_mul(6_364_136_223_846_793_005)
        .wrapping_add(1_442_695_040_888_963_407)
}

/// Draws once: the upper 31 bits of the generator's next state.
fn draw(state: &mut u64) -> u32
    ensures ok { result ≡ drawn (next_draw state.old) }
    ensures state { state.new ≡ next_draw state.old }
{
    *state = next_draw(*state);
    (*state / (1 << 33)) as u32
}

/// Whether some version has this one as its parent.
fn has_child(parents: &[Option<u32>], v: u32) -> bool
    ensures { result ≡ has_child parents.now v }
{
    parents
        .iter()
        .any(|parent| parent.map_or(false, |p| p == v))
}

/// The first version from one on that has no child. It compares at most all parents with each version.
#[tactic(auto, using(crate::proofs::DrawingLemmas::leaf_next, crate::proofs::DrawingLemmas::leaf_here, crate::proofs::DrawingLemmas::leaf_last))]
fn leaf_from(parents: &[Option<u32>], v: u32) -> u32
    requires found { v < length parents.now }
    requires fits { length parents.now ≤ 128 }
    ensures { result ≡ leaf_from parents.now v }
{
    let last = parents.len() as u32 - 1;
    let mut leaf = v;
    while leaf < last && has_child(parents, leaf) {
        leaf += 1;
    }
    leaf
}

/// The change that three draws choose.
fn chosen(parents: &[Option<u32>], kind: u32, of: u32, key: u32) -> Pick
    requires len { 0 < length parents.now }
    requires fits { length parents.now ≤ 128 }
    ensures ok { (i : ℕ) → picked_change i result ≡ drawn_change parents.now i kind of key }
    ensures room { makes_version result ≡ true → length parents.now < 128 }
{
    let count = parents.len() as u32;
    if kind == 0 && count < VERSIONS as u32 {
        return Pick::Clone {
            version: of % count,
        };
    }
    if kind == 1 && count < VERSIONS as u32 {
        return Pick::Clone { version: count - 1 };
    }
    let version = leaf_from(parents, of % count);
    if 2 <= kind && kind <= 9 {
        return Pick::Delete { version, key };
    }
    Pick::Put { version, key }
}

/// Makes the version that a change asks for, if it asks for one.
fn make_version(parents: &mut ArrayVec<Option<u32>, VERSIONS>, pick: Pick)
    requires { makes_version pick ≡ true → length parents.old.items < 128 }
    ensures ok { (i : ℕ) → parents.new.items ≡ tree_after parents.old.items (picked_change i pick) }
    ensures len { length parents.old.items ≤ length parents.new.items }
{
    match pick {
        Pick::Clone { version } => parents.push(Some(version)),
        Pick::Put { version: _, key: _ } => {}
        Pick::Delete { version: _, key: _ } => {}
    }
}

/// Draws the next change, by three draws, and makes the version that it may ask for.
pub(crate) fn draw_change(state: &mut u64, parents: &mut ArrayVec<Option<u32>, VERSIONS>) -> Pick
    requires len { 0 < length parents.old.items }
    ensures ok { (i : ℕ) → picked_change i result ≡ drawn_change parents.old.items i
        (drawn (next_draw state.old) % 64) (drawn (next_draw (next_draw state.old)))
        (drawn (next_draw (next_draw (next_draw state.old))) % 1000) }
    ensures kept { (i : ℕ) → parents.new.items
        ≡ tree_after parents.old.items (picked_change i result) }
    ensures state { state.new ≡ next_draw (next_draw (next_draw state.old)) }
    ensures len { 0 < length parents.new.items }
{
    let kind = draw(state) % 64;
    let of = draw(state);
    let key = draw(state) % 1000;
    let pick = chosen(parents.as_slice(), kind, of, key);
    make_version(parents, pick);
    pick
}
