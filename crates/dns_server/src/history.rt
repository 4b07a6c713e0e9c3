//! The one history of each cache over a run, by the law of what workers, table and watcher tell.
ghost use Rattle.std.specs.Prelude.{List};
ghost use Rattle.block_readings.specs.Readings.{BlockReading};
ghost use Rattle.chain_build.specs.History.{has_cache};
ghost use Rattle.one_history.specs.Join.{EndedBySeats, side_calls};
ghost use Rattle.one_history.specs.Logs.{Pin};
ghost use Rattle.one_history.specs.Runs.{OneHistory};
ghost use Rattle.reload_watch.specs.Histories.{IsLegalFor};

use crate::reading::Reading;
use one_history::{Rules, joined_by_seats};
use outside::Mark;

/// Which blocks have a cache, and what its shards may answer.
pub(crate) struct CacheRules {}

impl Rules for CacheRules {
    type Mark = Mark;

    type Reading = Reading;

    ghost use Rattle.std.specs.Prelude.{ℕ, zero};

    ghost cached = { has_cache };

    ghost legal = { IsLegalFor };

    // What is said of pools isn't asked here.
    ghost pools = { λ _. 0 };

    ghost pool_legal = { λ _ _ _. Unit {0} };
}

/// Where the seats of all chains that came home tell so, each cache has one history.
pub(crate) fn one_history()
    ensures { (generations : List (List BlockReading)) (passes : List (List (Pin Mark)))
        → EndedBySeats has_cache IsLegalFor generations passes
        → OneHistory has_cache IsLegalFor generations (side_calls passes) }
{
    joined_by_seats::<CacheRules>();
}
