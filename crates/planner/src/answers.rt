// Answers as numbers: 0 or the number of the refusal, and the count that goes with it.
ghost use Rattle.std.specs.Prelude.{◌≡◌};
ghost use Rattle.station.specs.Refusal.{number_of};
ghost use Rattle.station.specs.Types.{refusal_in};
ghost use Rattle.frame.specs.Types.{answer_in};
ghost use Rattle.station.specs.WriteHead as writing;
ghost use Rattle.planner.specs.Exports.{value, number_in, count_in, answer_returned, written_returned};

use frame::types::Answer;
use station::types::{Fault, Refusal};

// The paper's number of a cause.
pub(crate) fn refusal_number(cause: Refusal) -> u32
    ensures { result ≡ number_of (refusal_in cause) }
{
    u32::from(u8::from(cause))
}

// Writes the count of what is accepted, or the line of a refusal, and answers 0 or its number.
pub(crate) fn returned(answer: Result<usize, Fault>, count: &mut u64) -> u32
    ensures number { result ≡ number_in answer }
    ensures count { count.new ≡ count_in answer }
{
    match answer {
        Ok(n) => {
            *count = n as u64;
            0
        }
        Err(fault) => {
            *count = fault.line as u64;
            refusal_number(fault.cause)
        }
    }
}

// What an event that is carried out counts: the new clock, the new order of ties (1 for hold), or
// how many cells were evicted.
pub(crate) fn counted(answer: Result<Answer, Refusal>) -> Result<usize, Fault>
    ensures number { number_in result ≡ (answer_returned (answer_in answer)).number }
    ensures count { count_in result ≡ value (answer_returned (answer_in answer)) }
{
    match answer? {
        Answer::Now(t) => Ok(t),
        Answer::Tie(hold) => Ok(usize::from(hold)),
        Answer::Taken(n) => Ok(n),
    }
}

// What a listing or rows count: their bytes.
pub(crate) fn written(answer: Result<usize, Refusal>) -> Result<usize, Fault>
    ensures number { number_in result ≡ (written_returned (writing.answer_in answer)).number }
    ensures count { count_in result ≡ value (written_returned (writing.answer_in answer)) }
{
    Ok(answer?)
}
