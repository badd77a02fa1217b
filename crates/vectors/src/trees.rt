// What fitting leaves of a rule, in the words of the expected answers.
use fitting::fit::{NODES, fit};
use fitting::{Expected, Measure, Worst};
use itertools::Itertools;
use rulefile::check::check_rule;
use rulefile::draft::Draft;
use rulefile::draft::make::make_draft;
use rulefile::record::StateRecord;
use rules::{Move, Node};
use std::alloc::Global;

// Costs, tops and nodes of a draft that is fitted by a measure, with tabs between them and single spaces within.
fn fitted_answer<M: Measure>(heap: Global, measure: &M, draft: &Draft) -> Option<String> {
    let mut nodes = [Node::Leaf { set: 0 }; NODES];
    let fitted = fit(measure, draft, &mut nodes).ok()?;
    let trees = fitted.trees.get(..fitted.states)?;
    let costs = trees.iter().map(|tree| tree.cost).join(heap, " ").ok()?;
    let tops = trees.iter().map(|tree| tree.top).join(heap, " ").ok()?;
    let nodes = nodes.get(..fitted.behind)?.iter().join(heap, " ").ok()?;
    format!(in heap; "{costs}\t{tops}\t{nodes}").ok()
}

// `COSTS`, `TOPS` and `NODES` of a rule, by the measure of this name. A match: the name is a word of the file, and each measure is a type of its own.
pub(crate) fn tree_answer(heap: Global, file: &[u8], measure: &str) -> Option<String> {
    let mut states = [StateRecord::default(); 32];
    let mut moves = [Move::default(); 1024];
    let _ = check_rule(file, &mut states, &mut moves).ok()?;
    match measure {
        "expected" => fitted_answer(heap, &Expected, &make_draft(file, &states, &moves)),
        "worst" => fitted_answer(heap, &Worst, &make_draft(file, &states, &moves)),
        _ => None,
    }
}
