// What document 01 asks of a call, by trying every set of optional cells.
use crate::Refusal;
use crate::calls::Call;
use crate::cells::Cells;
use crate::frames::Frame;
use crate::heads::Head;
use crate::placements::{Owner, Room};
use crate::tables::Table;
use std::cmp::Reverse;

// A call that is taken: the table after it, and the number of evicted cells.
#[derive(Clone, Copy, Debug, PartialEq, Eq, Hash)]
pub struct Taken {
    pub table: Table,
    pub evicted: usize,
}

// Document 01: "A number is used if a preset of the head or a call cell has it", and none may stand
// twice in a call.
fn is_used(head: &Head, table: &Table, call: &Call) -> bool {
    for (i, job) in call.jobs.iter().enumerate().take(call.count) {
        if head.has_name(job.name) || table.has_call(job.name) {
            return true;
        }
        if call.jobs[..i].iter().any(|other| other.name == job.name) {
            return true;
        }
    }
    false
}

// A call on a table: where it may be placed, the cells that it may evict, and the slots that its
// jobs need.
#[derive(Clone, Copy, Debug, PartialEq, Eq, Hash)]
struct Search<'a> {
    room: Room<'a>,
    evictable: Cells,
    needs: [u8; 3],
}

impl Search<'_> {
    // Document 02, 2026-05: "A call uses slots above the clock". It may evict their optional cells.
    fn new<'a>(sets: &'a [Cells], head: &Head, table: &Table, call: &Call) -> Search<'a> {
        let sets = sets.get(call.clock..).unwrap_or(&[]);
        let slots = sets.iter().fold(Cells::NONE, |all, slot| all | *slot);
        Search {
            room: Room {
                sets,
                free: table.empty(),
                supply: head.supply,
            },
            evictable: table.optional() & slots,
            needs: call.jobs.map(|job| job.slots),
        }
    }

    // The room where a set of cells is empty too.
    fn room_with(&self, set: Cells) -> Room {
        Room {
            free: self.room.free | set,
            ..self.room
        }
    }

    // Whether a valid placement of the call loses just a set of cells: these may be evicted, and
    // the jobs fit in them and the empty cells. Those of the set that no job gets are made empty,
    // which document 01 lets every valid placement do; under a supply it helps, since a lost cell
    // frees its motor for another cell of the slot.
    fn is_possible(&self, set: Cells) -> bool {
        set.is_within(self.evictable) && self.room_with(set).fits(self.needs)
    }

    // Document 01, "The lost cells": every set is tried, and of two sets the smaller costs less,
    // and of one size the one whose list in the eviction order comes first. That order is worst
    // rank first and for one preset the latest slot first.
    fn evicted_set(&self, head: &Head, table: &Table) -> Option<Cells> {
        let [best, next, worst] = head.by_rank().map(|line| table.optional_of(line.name));
        let cost = |set: &Cells| (
            set.size(),
            Reverse([worst & *set, next & *set, best & *set]),
        );
        (0..64)
            .map(Cells::numbered)
            .filter(|set| self.is_possible(*set))
            .min_by_key(cost)
    }

    // Whether every valid placement loses at least as many of the counted cells as a set of cells
    // has: each set is tried.
    fn is_fewest(&self, counted: Cells, lost: Cells) -> bool {
        let fewest = (lost & counted).size();
        (0..64).map(Cells::numbered).all(|set| (set & counted).size() >= fewest
            || !self.is_possible(set))
    }
}

impl Taken {
    // How a call ends under an order of ties on a table that is well-formed but perhaps for the
    // supply. Evicted cells that no job takes stay empty.
    pub fn of(
        frame: &Frame,
        head: &Head,
        hold: bool,
        table: &Table,
        call: &Call,
    ) -> Result<Taken, Refusal> {
        let sets = frame.sets();
        if !table.is_fed(&sets, head.supply) {
            return Err(Refusal::NotWellFormed);
        }
        if is_used(head, table, call) {
            return Err(Refusal::NumberUsed);
        }
        let search = Search::new(&sets, head, table, call);
        let evicted = search
            .evicted_set(head, table)
            .ok_or(Refusal::CallNotFeasible)?;
        let room = search.room_with(evicted);
        Ok(Taken {
            table: room.place(table.without(evicted), hold, call.jobs.map(Owner::Job)),
            evicted: evicted.size(),
        })
    }

    // For each priority p, no valid placement of a call loses fewer cells of presets with priority
    // p or better. Priorities here are 0 and 8.
    pub fn is_least(&self, frame: &Frame, head: &Head, table: &Table, call: &Call) -> bool {
        let sets = frame.sets();
        let search = Search::new(&sets, head, table, call);
        let lost = table.optional() - self.table.optional();
        [0, 8]
            .iter()
            .all(|p| search.is_fewest(table.optional_to(head, *p), lost))
    }
}
