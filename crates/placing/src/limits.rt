// The limits within which the parts look at a frame: beyond them each part does nothing; and the
// motors that the supply feeds. The limits of the documents themselves are station's constants.
ghost use Rattle.std.specs.Prelude.{◌≡◌};
ghost use Rattle.placing.specs.method.Limits.{sizes_in_limits, motors_in};

use station::limits::{LEAST_CELLS, MOST_BRIDGES, MOST_FRAME_JOBS, MOST_PRESETS, MOST_SLOTS};
use station::types::Head;

// How many numbers there are from 0 to the most bridges: for as many jobs there are capacities, and
// sums of the longest are kept.
pub(crate) const CAPACITY_COUNT: usize = MOST_BRIDGES + 1;

// How many presets or jobs are placed at a time, at the most: as many as a frame has jobs.
pub(crate) const MOST_PLACED: usize = MOST_FRAME_JOBS;

// How many motors the supply feeds in a slot: without a supply line one for each bridge.
pub(crate) fn motors(head: Head) -> usize
    ensures { result ≡ motors_in head }
{
    if head.supply == 0 {
        head.bridges
    } else {
        head.supply
    }
}

// Whether a frame of `slots` slots and `bridges` bridges with `n` presets, and a table of `cells`
// cells, are within the limits.
#[tactic(auto, unfolding(crate::specs::method::Limits::sizes_in_limits))]
pub(crate) fn in_limits(slots: usize, bridges: usize, n: usize, cells: usize) -> bool
    ensures { result ≡ sizes_in_limits slots bridges n cells }
{
    slots <= MOST_SLOTS && bridges <= MOST_BRIDGES && n <= MOST_PRESETS && LEAST_CELLS <= cells
}
