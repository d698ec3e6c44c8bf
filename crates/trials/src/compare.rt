// Both planners on one plan or call; what differs is written.
use crate::library::answers_so;
use crate::tally::{Tally, count};
use second_planner::{Answer, Case, Refusal};
use std::io;

// A call, or the plan, by both planners. Answers what the second one does. Where the library
// answers otherwise, or a valid placement is better, that is counted, and a line tells the case and
// the answer.
pub fn compare(
    rt: &impl Print,
    tally: &mut Tally,
    case: &Case,
) -> io::Result<Result<Answer, Refusal>> {
    let right = case.answer();
    if !answers_so(case, &right) || !case.is_optimal(&right) {
        count(&mut tally.differences, 1);
        println!(rt; "(differs {case:?} {right:?})")?;
    }
    Ok(right)
}
