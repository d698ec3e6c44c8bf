// What fits, and the placing rule.
use crate::calls::Job;
use crate::cells::Cells;
use crate::heads::Line;
use crate::tables::{Cell, Table};
use std::cmp::Reverse;

// Where up to three presets or jobs may be placed: the cells of each slot that are not busy, the
// cells that may be filled, the others being held by presets and calls, and the number of the
// supply line, if there is one.
#[derive(Clone, Copy, Debug, PartialEq, Eq, Hash)]
pub struct Room<'a> {
    pub sets: &'a [Cells],
    pub free: Cells,
    pub supply: Option<usize>,
}

// What each of the three gets of a slot: every choice, 1 for a cell.
const CHOICES: [[u8; 3]; 8] = [
    [1, 1, 1],
    [1, 1, 0],
    [1, 0, 1],
    [1, 0, 0],
    [0, 1, 1],
    [0, 1, 0],
    [0, 0, 1],
    [0, 0, 0],
];

// How many of the three get a cell.
fn taken([a, b, c]: [u8; 3]) -> usize {
    usize::from(a) + usize::from(b) + usize::from(c)
}

// What is left of the needs of the three, if each of them needs what it gets.
fn left_after([a, b, c]: [u8; 3], [x, y, z]: [u8; 3]) -> Option<[u8; 3]> {
    Some([a.checked_sub(x)?, b.checked_sub(y)?, c.checked_sub(z)?])
}

impl Room<'_> {
    // How many more cells of a slot may be filled. Document 02, 2026-03: a supply of k feeds k
    // motors in a slot, so that presets and calls hold no more cells of it: "the free number
    // becomes the smaller of the empty cells and k less the cells held by presets and calls".
    // (Where more are held, which is in no well-formed table, it is 0.) Without a supply line there
    // is no cap.
    fn free_number(self, slot: Cells) -> usize {
        let empty = (slot & self.free).size();
        let held = (slot - self.free).size();
        self.supply
            .map_or(empty, |k| empty.min(k.saturating_sub(held)))
    }

    // Document 01: "the meaning of fits is that a valid placement exists". Every one is tried, with
    // no formula: in each slot each of the three gets a free cell or none, and the slots past it
    // are tried with what is left.
    pub fn fits(self, needs: [u8; 3]) -> bool {
        if needs == [0; 3] {
            return true;
        }
        let [slot, sets @ ..] = self.sets else {
            return false;
        };
        let n = self.free_number(*slot);
        let later = Room { sets, ..self };
        for choice in CHOICES {
            if taken(choice) <= n
                && let Some(left) = left_after(needs, choice)
                && later.fits(left)
            {
                return true;
            }
        }
        false
    }

    // Document 01, "Placing, slot by slot from the first": the table with the three in free cells.
    // A slot of free number n serves those who have slots left to get where fewer than n come
    // before. `hold` changes who is served, not the bridges, which go in file or call order. The
    // supply changes how many are served: they take the first free cells of the slot.
    pub fn place(self, table: Table, hold: bool, owners: [Owner; 3]) -> Table {
        let mut after = table;
        let mut three = Waiting::all(owners);
        for slot in self.sets {
            let n = self.free_number(*slot);
            let turns = three.map(|one| one.turn());
            let mut free = *slot & self.free;
            for one in three.iter_mut() {
                let own = one.turn();
                let before = turns.iter().filter(|turn| **turn < own).count();
                let is_served = one.left > 0 && before < n;
                one.is_held = hold && is_served;
                if is_served {
                    after.put(free.take_first(), one.owner.cell(one.left));
                    one.left -= 1;
                }
            }
        }
        after
    }
}

// Who gets cells: a preset its mandatory slots and as many optional ones as its line has here, or a
// job of a call.
#[derive(Clone, Copy, Debug, PartialEq, Eq, Hash)]
pub enum Owner {
    Preset(Line),
    Job(Job),
}

impl Owner {
    // How many slots it gets.
    fn slots(&self) -> u8 {
        match self {
            Owner::Preset(line) => line.slots(),
            Owner::Job(job) => job.slots,
        }
    }

    // Its next cell, while it has `left` slots to get.
    fn cell(&self, left: u8) -> Cell {
        match self {
            Owner::Preset(line) => line.cell(left),
            Owner::Job(job) => Cell::Call(job.name),
        }
    }
}

// One of the three while they are placed: its place in file or call order, how many slots it has
// left to get, and whether it is held.
#[derive(Clone, Copy, Debug, PartialEq, Eq, Hash)]
struct Waiting {
    owner: Owner,
    place: u8,
    left: u8,
    is_held: bool,
}

impl Waiting {
    fn new(owner: Owner, place: u8) -> Waiting {
        Waiting {
            owner,
            place,
            left: owner.slots(),
            is_held: false,
        }
    }

    fn all([a, b, c]: [Owner; 3]) -> [Waiting; 3] {
        [Waiting::new(a, 0), Waiting::new(b, 1), Waiting::new(c, 2)]
    }

    // When a slot chooses it: the smallest first. Those with more left come before those with less,
    // and of these, by document 02, 2026-02, "those with a cell in the slot just before come first,
    // then file or call order". Under `(tie place)` none is held.
    fn turn(&self) -> (Reverse<u8>, Reverse<bool>, u8) {
        (Reverse(self.left), Reverse(self.is_held), self.place)
    }
}
