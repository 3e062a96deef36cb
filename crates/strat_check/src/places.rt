//! The first breach of each rule that is told of levels and their arrays.

ghost use Rattle.std.specs.Option.{option_or};
ghost use Rattle.std.specs.Prelude.{◌≡◌};
ghost use Rattle.strat_check.specs.Places.{breach_of, first_unless, place_of, NoArrayPlaces, NoPlaces, KeepsArray, JoinsArrays, KeepsLevel, first_place};

/// A breach: the letter of the rule, the level, and the array or 0 where it is no single one.
#[derive(Clone, Copy, Debug, PartialEq, Eq)]
pub struct Broken {
    pub rule: u8,
    pub level: u8,
    pub array: u64,
}

/// Which rules an array keeps, and how many leads it has.
#[derive(Clone, Copy)]
pub struct ArrayTold {
    pub agrees: bool,
    pub is_dense: bool,
    pub is_led: bool,
    pub is_drawn: bool,
    pub is_described: bool,
    pub leads: u64,
}

/// Which rules a level keeps, beside those of its arrays.
#[derive(Clone, Copy)]
pub struct LevelTold {
    pub is_tagged: bool,
    pub has_room: bool,
    pub is_old: bool,
    pub is_settled: bool,
}

/// The first breaches of the rules of arrays, each in a place of its own.
#[derive(Clone, Copy)]
pub struct ArrayPlaces {
    pub agreeing: Option<Broken>,
    pub dense: Option<Broken>,
    pub led: Option<Broken>,
    pub drawn: Option<Broken>,
    pub described: Option<Broken>,
}

/// The first breaches of the rules of levels and of their arrays, each in a place of its own. Two rules have none: that tags
/// are disjoint is so of every store that recovery finds, and that leads are single follows where arrays ascend.
#[derive(Clone, Copy)]
pub struct Places {
    pub tagged: Option<Broken>,
    pub arrays: ArrayPlaces,
    pub roomy: Option<Broken>,
    pub old: Option<Broken>,
    pub settled: Option<Broken>,
}

/// A place after a test: its breach where the test did not pass, unless there was an earlier one. O(1).
pub fn kept(place: Option<Broken>, passes: bool, broken: Broken) -> Option<Broken>
    ensures ok { place_of result ≡ option_or (place_of place)
        (first_unless passes (breach_of broken)) }
{
    match place {
        Some(earlier) => Some(earlier),
        None => { if passes { None } else { Some(broken) } }
    }
}

/// The first of two places that has a breach. O(1).
pub fn earlier(place: Option<Broken>, later: Option<Broken>) -> Option<Broken>
    ensures ok { place_of result ≡ option_or (place_of place) (place_of later) }
{
    match place {
        Some(broken) => Some(broken),
        None => later,
    }
}

impl ArrayPlaces {
    /// No breach yet. O(1).
    pub fn new() -> ArrayPlaces
        ensures ok { NoArrayPlaces result }
    {
        ArrayPlaces {
            agreeing: None,
            dense: None,
            led: None,
            drawn: None,
            described: None,
        }
    }

    /// The places after one more array. O(1).
    pub fn with(self, level: u8, array: u64, told: ArrayTold) -> ArrayPlaces
        ensures ok { KeepsArray self result level array told }
    {
        ArrayPlaces {
            agreeing: kept(self.agreeing, told.agrees, broken_by(b'c', level, array)),
            dense: kept(self.dense, told.is_dense, broken_by(b'd', level, array)),
            led: kept(self.led, told.is_led, broken_by(b'e', level, array)),
            drawn: kept(self.drawn, told.is_drawn, broken_by(b'f', level, array)),
            described: kept(
                self.described,
                told.is_described,
                broken_by(b'k', level, array),
            ),
        }
    }

    /// These places, and behind them those of a later level. O(1).
    pub fn and(self, later: ArrayPlaces) -> ArrayPlaces
        ensures ok { JoinsArrays self later result }
    {
        ArrayPlaces {
            agreeing: earlier(self.agreeing, later.agreeing),
            dense: earlier(self.dense, later.dense),
            led: earlier(self.led, later.led),
            drawn: earlier(self.drawn, later.drawn),
            described: earlier(self.described, later.described),
        }
    }
}

/// The breach of a rule by its letter.
fn broken_by(rule: u8, level: u8, array: u64) -> Broken
    ensures ok { result ≡ record { rule = rule; level = level; array = array } }
{
    Broken { rule, level, array }
}

impl Places {
    /// No breach yet.
    pub fn new() -> Places
        ensures ok { NoPlaces result }
    {
        Places {
            tagged: None,
            arrays: ArrayPlaces::new(),
            roomy: None,
            old: None,
            settled: None,
        }
    }

    /// The places after one more level, with those of its arrays. O(1).
    pub fn with(self, level: u8, told: LevelTold, arrays: ArrayPlaces) -> Places
        ensures ok { KeepsLevel self result level told arrays }
    {
        Places {
            tagged: kept(self.tagged, told.is_tagged, broken_by(b'b', level, 0)),
            arrays: self.arrays.and(arrays),
            roomy: kept(self.roomy, told.has_room, broken_by(b'h', level, 0)),
            old: kept(self.old, told.is_old, broken_by(b'i', level, 0)),
            settled: kept(self.settled, told.is_settled, broken_by(b'j', level, 0)),
        }
    }

    /// The breach of the first rule that has one, in the order in which rules are tried. O(1).
    pub fn first(self) -> Option<Broken>
        ensures ok { place_of result ≡ first_place self }
    {
        let behind = earlier(self.settled, self.arrays.described);
        let levels = earlier(self.roomy, earlier(self.old, behind));
        let source = earlier(self.arrays.led, earlier(self.arrays.drawn, levels));
        let shape = earlier(self.arrays.agreeing, earlier(self.arrays.dense, source));
        earlier(self.tagged, shape)
    }
}
