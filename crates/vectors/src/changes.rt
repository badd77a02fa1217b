// What a change log is, in the words of the expected answers.
use crate::reader::fault_answer;
use sources::change::{ChangeLog, check_changes};
use sources::source::{LineSource, drain, first_event};
use std::alloc::Global;
use std::fmt;

// So many equal events in a row.
#[derive(Clone, Copy)]
struct Run {
    event: u8,
    times: u64,
}

// As in `5*3`.
impl fmt::Display for Run {
    fn fmt<W: fmt::Write>(&self, f: &mut fmt::Formatter<W>) -> fmt::Result {
        write!(f, "{}*{}", self.event, self.times)
    }
}

// Writes the longest runs of equal events of a source, and plays it to its end.
fn push_runs<S: LineSource>(text: &mut String, source: &mut S) -> fmt::Result {
    let mut last: Option<Run> = None;
    while let Ok(event) = first_event(&*source) {
        let _ = (*source).drop_first();
        match &mut last {
            Some(run) if run.event == event => run.times = run.times.saturating_add(1),
            _ => {
                if let Some(run) = last.replace(Run { event, times: 1 }) {
                    write!(text, " {run}")?;
                }
            }
        }
    }
    if let Some(run) = last {
        write!(text, " {run}")?;
    }
    Ok(())
}

// `ok TOTAL` and the runs.
fn good_answer(heap: Global, bytes: &[u8]) -> Result<String, fmt::Error> {
    let total = drain(&mut ChangeLog::over(bytes));
    let mut text = format!(in heap; "ok {total}")?;
    push_runs(&mut text, &mut ChangeLog::over(bytes))?;
    Ok(text)
}

// `ok TOTAL EVENT*TIMES ..`, or `refused NUMBER PLACE LAYER`.
pub(crate) fn change_answer(heap: Global, bytes: &[u8]) -> Result<String, fmt::Error> {
    match check_changes(bytes) {
        Ok(()) => good_answer(heap, bytes),
        Err(fault) => Ok(fault_answer(heap, fault.report())?),
    }
}
