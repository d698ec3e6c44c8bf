// A station within all its limits.
ghost use Rattle.std.specs.Prelude.{◌≤◌, ◌≡◌, true};
ghost use Rattle.station.specs.Limits.{most_slots, most_bridges, most_presets};
ghost use Rattle.station.specs.Types.{valid_station};

use station::types::Station;

// A station that some text yields, as `valid_record` tests it. The other facts follow, and stand
// here for who needs no more.
#[derive(Clone, Copy, Debug, PartialEq, Eq, Hash)]
pub(crate) struct Lawful<'a> {
    pub station: &'a Station,
    pub ghost valid: { valid_station station.now ≡ true },
    pub ghost few_presets: { station.now.head.count ≤ most_presets },
    pub ghost few_slots: { station.now.head.slots ≤ most_slots },
    pub ghost few_bridges: { station.now.head.bridges ≤ most_bridges },
}
