// How large a picture is, and where its parts are, in pixels. Slots and bridges are counted from 0.
// A frame has at most 64 slots and 8 bridges; more are taken as so many, so that no sum here is too
// large.
ghost use Rattle.std.specs.Prelude.{◌+◌, ◌*◌, ◌≤◌, min, ◌≡◌};

use crate::lines::shown;

// How many slots are drawn.
pub fn drawn_slots(slots: usize) -> usize
    ensures { result ≡ min slots 64 }
{
    slots.min(64)
}

// How many bridges are drawn.
pub fn drawn_bridges(bridges: usize) -> usize
    ensures { result ≡ min bridges 8 }
{
    bridges.min(8)
}

// The left edge of a slot's cells; of the slot after the last one, the frame's right edge.
pub fn column(slot: usize) -> usize
    ensures { result ≡ 76 + 44 * min slot 64 }
{
    76 + 44 * slot.min(64)
}

// The right edge of the slot that is about to begin: what is right of it a call may use. Before the
// first slot it is the frame's left edge, after the last one its right edge.
pub fn clock_edge(clock: usize, slots: usize) -> usize
    ensures { result ≡ 76 + 44 * min (min clock slots) 64 }
{
    column(clock.min(slots))
}

// The upper edge of a bridge's cells; of the bridge after the last one, the frame's lower edge.
pub fn row(bridge: usize) -> usize
    ensures { result ≡ 70 + 32 * min bridge 8 }
{
    70 + 32 * bridge.min(8)
}

// The width of a picture: the frame has room with the word of a clock right of it, and so have the
// legend and a caption with the event.
pub fn width(slots: usize, event: &[u8]) -> usize
    ensures { 148 + 44 * min slots 64 ≤ result }
{
    let frame = column(slots) + 72;
    let caption = 200 + 8 * shown(event);
    frame.max(caption).max(380)
}

// The height of a picture of one frame.
pub fn height(bridges: usize) -> usize
    ensures { result ≡ 152 + 32 * min bridges 8 }
{
    82 + row(bridges)
}
