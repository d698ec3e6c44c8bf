// A second planner for small frames, written from documents 01 and 02: it uses nothing of the
// first, and tries every placement and every evicted set. Nothing is promised of it but that it is
// safe and ends; crates/trials compares the two.
#![tactic(auto)]

pub mod placements; // placements.rt: what fits, and the placing rule
pub mod planning; // planning.rt: the plan of a head
pub mod calling; // calling.rt: what a call evicts, and the table that it leaves
// Small frames to try: at most three bridges, six cells and three presets, with calls of at most
// three jobs. All comes from numbers, digit by digit.
pub mod cells; // cells.rt: sets of cells
pub mod frames; // frames.rt: frames with their busy cells
pub mod heads; // heads.rt: the presets of a head, and its supply
pub mod tables; // tables.rt: tables of a head, and whether they obey its supply
pub mod calls; // calls.rt: calls

use calling::Taken;
use calls::Call;
use frames::Frame;
use heads::Head;
use planning::Plan;
use tables::Table;

// What is asked of a planner: a plan, or a call on a table; by a head on a frame, under an order of
// ties, `(tie hold)` where `hold` is true, else `(tie place)`.
#[derive(Clone, Copy, Debug, PartialEq, Eq, Hash)]
pub struct Case {
    pub frame: Frame,
    pub head: Head,
    pub hold: bool,
    pub asked: Asked,
}

#[derive(Clone, Copy, Debug, PartialEq, Eq, Hash)]
pub enum Asked {
    Plan,
    Call(Table, Call),
}

// What a planner answers.
#[derive(Clone, Copy, Debug, PartialEq, Eq, Hash)]
pub enum Answer {
    Plan(Plan),
    Taken(Taken),
}

// The causes of refusal that can be right here: 4, 5, 7 and 11 of document 01.
#[derive(Clone, Copy, Debug, PartialEq, Eq, Hash)]
pub enum Refusal {
    NumberUsed,
    MandatoryNotFeasible,
    CallNotFeasible,
    NotWellFormed,
}

impl Case {
    // The plan of a head on a frame.
    pub fn of_plan(frame: Frame, head: Head, hold: bool) -> Case {
        Case {
            frame,
            head,
            hold,
            asked: Asked::Plan,
        }
    }

    // A call on a table, by the same head and order of ties.
    pub fn with_call(&self, table: Table, call: Call) -> Case {
        Case {
            asked: Asked::Call(table, call),
            ..*self
        }
    }

    // The answer to it.
    pub fn answer(&self) -> Result<Answer, Refusal> {
        let Case {
            frame,
            head,
            hold,
            asked,
        } = self;
        Ok(match asked {
            Asked::Plan => Answer::Plan(Plan::of(frame, head, *hold)?),
            Asked::Call(table, call) => Answer::Taken(Taken::of(frame, head, *hold, table, call)?),
        })
    }

    // Whether an answer's placement obeys the supply and no other valid one is better, as document
    // 01 says in "What demand 3 speaks of". An answer that refuses has none.
    pub fn is_optimal(&self, answer: &Result<Answer, Refusal>) -> bool {
        let Case { frame, head, .. } = self;
        let is_fed = |table: &Table| table.is_fed(&frame.sets(), head.supply);
        match (answer, &self.asked) {
            (Err(_), _) => true,
            (Ok(Answer::Plan(plan)), Asked::Plan) => is_fed(&plan.table)
                && plan.is_best(frame, head),
            (Ok(Answer::Taken(taken)), Asked::Call(table, call)) => {
                is_fed(&taken.table) && taken.is_least(frame, head, table, call)
            }
            _ => false,
        }
    }
}
