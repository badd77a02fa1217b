// What the reader answers to a file, in the words of the expected answers.
ghost use Rattle.std.specs.Prelude.{◌≡◌, IfOk, string_bytes};
ghost use Rattle.rulefile.specs.File.{checked, counted};
ghost use Rattle.vectors.specs.Answers.{report_text, answer_text};

use codec::fault::Report;
use rulefile::check::check_rule;
use rulefile::fault::Refusal;
use rulefile::record::StateRecord;
use rules::Move;
use std::alloc::{AllocError, Global};

// A fault's number, place and layer.
pub(crate) fn fault_answer(heap: Global, report: Report) -> Result<String, AllocError>
    ensures { IfOk result (λ s. string_bytes s ≡ report_text report) }
{
    format!(in heap;
        "refused {} {} {}",
        report.number, report.place, report.layer
    )
}

// `ok STATES MOVES`, or `refused NUMBER PLACE LAYER`.
pub(crate) fn reader_answer(heap: Global, file: &[u8]) -> Result<String, AllocError>
    ensures { IfOk result (λ s. string_bytes s ≡ answer_text (counted (checked file.now 32 1024))) }
{
    let mut states = [StateRecord::default(); 32];
    let mut moves = [Move::default(); 1024];
    match check_rule(file, &mut states, &mut moves) {
        Ok(counts) => format!(in heap; "ok {} {}", counts.states, counts.moves),
        Err(Refusal::File(fault)) => fault_answer(heap, fault.report()),
        Err(refusal) => format!(in heap; "refused {}", refusal.number()),
    }
}
