// The plan that document 01 asks for, by trying.
use crate::Refusal;
use crate::cells::Cells;
use crate::frames::Frame;
use crate::heads::{Head, Line};
use crate::placements::{Owner, Room};
use crate::tables::Table;

// A plan: its table, and what each line is granted of its optional slots.
#[derive(Clone, Copy, Debug, PartialEq, Eq, Hash)]
pub struct Plan {
    pub table: Table,
    pub grants: [u8; 3],
}

// A line with what it is granted in place of its optional slots.
fn granted(line: Line, grants: [u8; 3]) -> Line {
    let optional = grants.get(usize::from(line.name)).copied().unwrap_or(0);
    Line { optional, ..line }
}

// Whether the mandatory slots and these optional ones fit.
fn is_feasible(room: Room, head: &Head, grants: [u8; 3]) -> bool {
    room.fits(head.lines.map(|line| granted(line, grants).slots()))
}

// Whether none of three numbers is above another three's.
fn is_within(a: [u8; 3], b: [u8; 3]) -> bool {
    a.iter().zip(b).all(|(a, b)| *a <= b)
}

// Whether a valid plan has these grants.
fn is_possible(room: Room, head: &Head, grants: [u8; 3]) -> bool {
    is_within(grants, head.lines.map(|line| line.optional)) && is_feasible(room, head, grants)
}

// The grants with another one of a line.
fn with_grant(mut grants: [u8; 3], line: Line, n: u8) -> [u8; 3] {
    if let Some(grant) = grants.get_mut(usize::from(line.name)) {
        *grant = n;
    }
    grants
}

// Document 01, "Grants: in rank order": priority by priority, in each line by line, slot by slot up
// to o, one more wherever all still fits.
fn grants_of(room: Room, head: &Head) -> [u8; 3] {
    let mut grants = [0; 3];
    for line in head.by_rank() {
        for n in 1..=line.optional {
            let more = with_grant(grants, line, n);
            if is_feasible(room, head, more) {
                grants = more;
            }
        }
    }
    grants
}

// Where a plan may be placed: every cell that is not busy is free, since a plan is over the table
// with nothing placed.
fn room_of<'a>(sets: &'a [Cells], head: &Head) -> Room<'a> {
    Room {
        sets,
        free: Cells::ALL,
        supply: head.supply,
    }
}

// The optional cells of the first preset by rank, of the first two, and of all three.
fn sums(by_rank: [Line; 3], grants: [u8; 3]) -> [u8; 3] {
    let [one, more, most] = by_rank.map(|line| granted(line, grants).optional);
    let two = one.saturating_add(more);
    [one, two, two.saturating_add(most)]
}

impl Plan {
    // The plan of a head under an order of ties, if its mandatory slots fit.
    pub fn of(frame: &Frame, head: &Head, hold: bool) -> Result<Plan, Refusal> {
        let sets = frame.sets();
        let room = room_of(&sets, head);
        if !is_feasible(room, head, [0; 3]) {
            return Err(Refusal::MandatoryNotFeasible);
        }
        let grants = grants_of(room, head);
        let owners = head.lines.map(|line| Owner::Preset(granted(line, grants)));
        let table = room.place(Table::EMPTY, hold, owners);
        Ok(Plan { table, grants })
    }

    // For every k, no valid plan has more optional cells of the first k presets by rank: each list
    // of grants up to 3 is tried.
    pub fn is_best(&self, frame: &Frame, head: &Head) -> bool {
        let sets = frame.sets();
        let room = room_of(&sets, head);
        let by_rank = head.by_rank();
        let best = sums(by_rank, self.grants);
        (0..64).all(|code| {
            let grants = [code % 4, code / 4 % 4, code / 16];
            is_within(sums(by_rank, grants), best) || !is_possible(room, head, grants)
        })
    }
}
