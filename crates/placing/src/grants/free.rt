// A slot's free bridges as one bit each.
ghost use Rattle.std.specs.Prelude.{◌≡◌, not, ◌≤◌, ◌<◌};
ghost use Rattle.laws.specs.Sums.{bit};
ghost use Rattle.station.specs.Limits.{most_slots, most_bridges};
ghost use Rattle.station.specs.Head.{has_bit};
ghost use Rattle.placing.specs.method.Grants.{free_mask, free_masks};

use crate::lawful::Lawful;
use station::limits::MOST_SLOTS;

// The bridges that are not busy in slot `s`, from the busy slots of each bridge.
fn slot_free(lawful: &Lawful, s: usize) -> u8
    requires { s < most_slots }
    ensures { result ≡ free_mask lawful.now.station.now.head.busy lawful.now.station.now.head.bridges s }
{
    let head = &lawful.station.head;
    let mut mask = 0;
    for b in 0..head.bridges {
        if (head.busy[b] >> s) % 2 == 0 {
            mask += 1 << b;
        }
    }
    mask
}

// The bridges that a plan may use in each slot of the frame; 0 past the frame.
#[tactic(auto, using(crate::proofs::grants::Arrays::filled_none, crate::proofs::grants::Arrays::filled_more))]
pub(crate) fn plan_free(lawful: &Lawful) -> [u8; MOST_SLOTS]
    ensures { result ≡ free_masks lawful.now.station.now.head.slots lawful.now.station.now.head.bridges lawful.now.station.now.head.busy }
{
    let mut masks = [0; MOST_SLOTS];
    for s in 0..lawful.station.head.slots {
        masks[s] = slot_free(lawful, s);
    }
    masks
}
