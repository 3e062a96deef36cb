//! The sources of a view at a version.

ghost use Rattle.std.specs.Option.{option_copied};
ghost use Rattle.std.specs.Prelude.{◌≡◌, ◌≤◌, ◌<◌, ◌+◌, length, take};
ghost use Rattle.def_crash.specs.Image.{Image};
ghost use Rattle.strat_cursor.specs.Picking.{array_picked, arrays_numbered, HaveNumbers, content_at, IsOfView, AreSourcesOf};
ghost use Rattle.strat_cursor.specs.Sources.{arrays_at, content_of};
ghost use Rattle.strat_cursor.specs.Views.{ViewStands};

use crate::sources::Source;
use crate::view::{Picked, View};
use strat_base::{ArrayDesc, Version};

/// How many sources a range may have: level 0, the sealed one, and an array of each level.
pub(crate) const SOURCES: usize = 24;

/// The array that is asked at a version in the level of a number, counted from 0, or of a cursor's arrays the one of
/// that number. O(log versions_max).
fn array_at<'a>(view: &View<'a>, v: Version, n: usize) -> Option<&'a ArrayDesc>
    requires kept { ViewStands view.now }
    requires fits { v < length view.now.tree.now.parents }
    requires room { n < 22 }
    ensures ok { option_copied result
        ≡ array_picked view.now.tree.now.parents view.now.levels v n }
    ensures kept { HaveNumbers view.now.levels }
{
    match &view.levels {
        Picked::Live(levels) => {
            // For the proof: there are 22 levels.
            let _level = levels.get(n + 1);
            levels.array_for(view.tree, n + 1, v)
        }
        Picked::Pinned(arrays) => arrays.as_slice().get(n),
    }
}

/// The source of a number. O(log versions_max).
fn source_at<'a>(view: &View<'a>, v: Version, i: usize) -> Source<'a>
    requires kept { ViewStands view.now }
    requires fits { v < length view.now.tree.now.parents }
    requires room { i < 24 }
    ensures ok { (f : Image) → content_of f view.now.pool.now result ≡ content_at f view.now v i }
    ensures kept { IsOfView view.now v result }
    ensures found { arrays_at result ≡ arrays_numbered view.now v i }
{
    if i == 0 {
        return Source::Zero(view.zero);
    }
    if i == 1 {
        return match view.sealed {
            Some(list) => Source::Zero(list),
            None => Source::None,
        };
    }
    match array_at(view, v, i - 2) {
        Some(desc) => Source::Array(desc),
        None => Source::None,
    }
}

/// The sources that a view has at a version: the first `count` of these places.
#[derive(Clone, Copy)]
pub(crate) struct Sources<'a> {
    pub(crate) places: [Source<'a>; SOURCES],
    pub(crate) count: usize,
}

/// The sources that a view has at a version. O(log versions_max) for each level.
pub(crate) fn pick<'a>(view: &View<'a>, v: Version) -> Sources<'a>
    requires kept { ViewStands view.now }
    requires fits { v < length view.now.tree.now.parents }
    ensures ok { AreSourcesOf view.now v (take result.count result.places) }
    ensures fits { (result.count ≤ 24) × (length result.places ≡ 24) }
{
    // For the proof: there are at most 22 levels or arrays.
    let _first = array_at(view, v, 0);
    let mut places = [Source::None; SOURCES];
    let mut count = 0;
    for i in 0..SOURCES {
        let source = source_at(view, v, i);
        if source.is_place() {
            places[count] = source;
            count += 1;
        }
    }
    Sources { places, count }
}
