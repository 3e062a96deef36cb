//! The filters of the arrays that a promotion makes.

use crate::made::make_bench;
use crate::ready::is_ready;
use crate::scene::{Scene, make_scene, put};
use crate::sliced::{WHOLE, begun, slice_all};
use std::alloc::Global;
use std::process::Abort;
use std::test::Fail;
use strat_base::Trouble;
use strat_level::Levels;
use strat_promote::promotion::Promotion;

/// Whether the filter of an array holds these keys, refuses another, and is given out once.
fn tells_keys(promotion: &mut Promotion, id: u64, keys: &[&[u8]], other: &[u8]) -> bool {
    let Ok(filter) = promotion.take_filter(id) else {
        return false;
    };
    keys.iter().all(|key| filter.may_hold(key))
        && !filter.may_hold(other)
        && promotion.take_filter(id).is_err()
}

/// Whether a promotion of three keys makes two arrays, numbered from 7 on, that each have a filter of their keys.
fn keeps_filters(alloc: Global, scene: &Scene) -> Result<bool, Trouble> {
    let mut bench = make_bench(alloc)?;
    let (space, disk) = (&mut bench.space, &mut bench.disk);
    let levels = Levels::new();
    let horizon = scene.tree.count();
    if !is_ready(scene, &levels, horizon) {
        return Err(Trouble::NoMemory);
    }
    let mut promotion = begun(alloc, scene, &levels, space, horizon, 8, 7)?;
    let _slices = slice_all(&mut promotion, scene, &levels, space, disk, WHOLE)?;
    let keys: [&[u8]; 3] = [b"a", b"b", b"c"];
    Ok(
        promotion.made().len() == 2
            && tells_keys(&mut promotion, 7, &keys, b"d")
            && tells_keys(&mut promotion, 8, &keys, b"d")
            && !tells_keys(&mut promotion, 9, &[], b"d"),
    )
}

#[test]
fn each_array_has_a_filter_of_its_keys(rt: HostRuntime) -> Result<(), Fail> {
    let (a, b) = (put(b"a", 0, b"1"), put(b"b", 0, b""));
    let (c, d, e) = (put(b"c", 1, b"3"), put(b"c", 2, b"4"), put(b"c", 3, b"5"));
    let scene = make_scene(rt.alloc(), &[0, 0, 0], &[a, b, c, d, e])?;
    assert!(rt; keeps_filters(rt.alloc(), &scene)?);
    Ok(())
}
