//! Room for what a range is read with.

ghost use Rattle.std.specs.Prelude.{◌≡◌, length, IfOk, is_some, unwrap_or};

use crate::picking::SOURCES;
use std::alloc::Global;
use std::marker::Model;
use strat_array::{Place, Scratch};
use strat_base::NoMemory;
use strat_base::limits::KEY_MAX;
use strat_merge::new_bracket;

/// Where a source of entries stands: at an item of level 0, or at an entry of the block that its scratch holds, if it
/// has one left.
#[derive(Drop)]
pub struct SourcePosition {
    pub(crate) scratch: Scratch,
    pub(crate) item: usize,
    pub(crate) place: Place,
    pub(crate) there: bool,
}

impl SourcePosition {
    /// A position with room for a block of 4,096 bytes, which is taken here. The only error is want of memory.
    fn new(alloc: Global) -> Result<SourcePosition, NoMemory> {
        Ok(SourcePosition {
            scratch: Scratch::new(alloc)?,
            item: 0,
            place: Place { block: 0, index: 0 },
            there: false,
        })
    }

    /// Stands at a place of an array, or at none.
    pub(crate) fn stand(&mut self, at: Option<Place>)
        ensures ok { self.new ≡ record {
          scratch = self.old.scratch;
          item = self.old.item;
          place = unwrap_or at self.old.place;
          there = is_some at;
        } }
    {
        match at {
            Some(place) => {
                self.place = place;
                self.there = true;
            }
            None => self.there = false,
        }
    }
}

/// Room for a scan, which takes no memory itself: for each place that a range may be read from a position, on which one
/// block is at hand, the nodes of a tournament, and the key that was handled last. 98,304 bytes for blocks, and
/// less than 4,096 for the rest.
#[derive(Drop)]
pub struct ScanBuffers {
    pub(crate) positions: Vec<SourcePosition>,
    pub(crate) winners: Vec<usize>,
    pub(crate) last: Vec<u8>,
}

impl Model for ScanBuffers {
    ghost use Rattle.std.specs.Prelude.{⊤, vec_capacity};
    ghost use Rattle.strat_cursor.specs.ScanRoom.{HasScanRoom};

    ghost Value = { ⊤ };

    ghost view = { λ d. tt };

    ghost invariant = { λ d. HasScanRoom d.positions.items d.winners.items (vec_capacity d.last) };
}

/// A position for each place that a range may be read from.
fn new_positions(alloc: Global) -> Result<Vec<SourcePosition>, NoMemory>
    ensures len { IfOk result (λ d. length d.items ≡ 24) }
{
    let mut positions = Vec::with_capacity(alloc, SOURCES)?;
    for _i in 0..SOURCES {
        positions.push_reserved(SourcePosition::new(alloc)?);
    }
    Ok(positions)
}

impl ScanBuffers {
    /// Room for a scan, which is taken here. The only error is want of memory.
    pub fn new(alloc: Global) -> Result<ScanBuffers, NoMemory> {
        Ok(ScanBuffers {
            positions: new_positions(alloc)?,
            winners: new_bracket(alloc, SOURCES)?,
            last: Vec::with_capacity(alloc, KEY_MAX)?,
        })
    }
}
