//! The sources of a query in a tournament: the one whose first key is least wins, and of equal keys the first source.

ghost use Rattle.std.specs.Prelude.{◌≡◌, ◌<◌, ◌*◌, length, option_map, IfSome, Some, IsTrue};
ghost use Rattle.strat_base.specs.EntryBytes.{fits_fields};
ghost use Rattle.strat_base.specs.EntryView.{entry_of};
ghost use Rattle.strat_merge.specs.Bracket.{is_ahead, IsBracket};
ghost use Rattle.strat_cursor.specs.Contenders.{head_in, keyed, AreAtHand};
ghost use Rattle.strat_cursor.specs.Queries.{pool_asked};

use crate::query::Query;
use crate::scan_buffers::SourcePosition;
use crate::sources::head;
use strat_base::{Entry, key_order};
use strat_merge::Contest;

/// The first entry that a source has left, if there is one. O(1), and nothing is read.
#[tactic(auto, using(crate::proofs::TournamentLemmas::get_here))]
pub(crate) fn head_in<'a>(
    query: &'a Query<'_>,
    positions: &'a [SourcePosition],
    i: usize,
) -> Option<Entry<'a>>
    requires kept { AreAtHand (pool_asked query.now) query.now.sources.now positions.now }
    requires fits { i < length query.now.sources.now }
    ensures ok { option_map entry_of result
        ≡ head_in (pool_asked query.now) query.now.sources.now positions.now i }
    ensures fits { IfSome result (λ e. IsTrue (fits_fields (entry_of e))) }
{
    let sources = query.sources;
    head(&sources[i], query.view.pool, &positions[i])
}

/// Whether an entry's key is below another's, or the same and the number of its source less.
#[tactic(auto, using(crate::proofs::TournamentLemmas::keyed_ahead))]
fn is_before(e: &Entry<'_>, a: usize, f: &Entry<'_>, b: usize) -> bool
    ensures ok { result ≡ is_ahead (Some (keyed (entry_of e.now))) a
        (Some (keyed (entry_of f.now))) b }
{
    key_order(e.key, f.key).then(a.cmp(&b)).is_lt()
}

/// Seats so many contenders in a tournament: no node but the leaves is played yet. O(contenders).
pub(crate) fn seat(winners: &mut [usize], contenders: usize)
    requires room { length winners.old ≡ 2 * contenders }
    ensures ok { IsBracket contenders winners.new }
{
    for k in 0..winners.len() {
        winners[k] = k.saturating_sub(contenders);
    }
}

/// The sources of a query as they contend: each by the first entry that it has left.
#[derive(Clone, Copy)]
pub struct Heads<'q, 'a, 'p> {
    pub(crate) query: &'q Query<'a>,
    pub(crate) positions: &'p [SourcePosition],
}

impl<'q, 'a, 'p> Contest for Heads<'q, 'a, 'p> {
    ghost use Rattle.strat_cursor.specs.Contenders.{AreAtHand};
    ghost use Rattle.strat_cursor.specs.Queries.{contenders_asked, pool_asked};

    ghost contenders = { λ h. contenders_asked h.query.now h.positions.now };

    ghost is_ready = { λ h. AreAtHand (pool_asked h.query.now) h.query.now.sources.now
        h.positions.now };

    #[tactic(auto, using(crate::proofs::TournamentLemmas::count_contenders))]
    fn count(&self) -> usize {
        self.query.sources.len()
    }

    #[tactic(auto, using(crate::proofs::TournamentLemmas::contender_at, crate::proofs::TournamentLemmas::count_contenders))]
    fn has_left(&self, contender: usize) -> bool {
        head_in(self.query, self.positions, contender).is_some()
    }

    #[tactic(auto, using(crate::proofs::TournamentLemmas::contender_at, crate::proofs::TournamentLemmas::count_contenders))]
    fn precedes(&self, a: usize, b: usize) -> bool {
        match (
            head_in(self.query, self.positions, a),
            head_in(self.query, self.positions, b),
        ) {
            (Some(e), Some(f)) => is_before(&e, a, &f, b),
            (Some(_), None) => true,
            (None, _) => false,
        }
    }
}
