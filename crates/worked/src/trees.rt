// The worked rule, fitted: its trees and what they cost.
use crate::drafts::with_draft;
use crate::tests::RULE;
use fitting::fit::{FitRefusal, Fitting, fit};
use fitting::{Expected, Measure, Worst};
use rulefile::draft::make::make_draft;
use rulefile::record::StateRecord;
use rules::{Move, Node};
use std::test::Fail;

// Fits the worked rule.
fn fit_worked<M: Measure>(measure: &M, nodes: &mut [Node]) -> Result<Fitting, FitRefusal> {
    with_draft(&RULE, |draft| fit(measure, draft, nodes))
}

// A fork on a line, with the places of its two parts.
fn fork(line: u8, on: u16, off: u16) -> Node {
    Node::Fork { line, on, off }
}

// A leaf that gives a set.
fn leaf(set: u32) -> Node {
    Node::Leaf { set }
}

#[test]
fn expected_cost(rt: HostRuntime) -> Result<(), Fail> {
    let mut nodes = [leaf(0); 4064];
    let fitted = fit_worked(&Expected, &mut nodes)
        .ok()
        .ok_or("4,064 nodes are too few")?;
    assert_eq!(rt; fitted.trees[0].cost, 30_000_000_000_000);
    assert_eq!(rt; fitted.behind, 20);
    let first = [
        fork(1, 1, 8),
        fork(0, 2, 5),
        fork(2, 3, 4),
        leaf(10),
        leaf(2),
        fork(2, 6, 7),
        leaf(12),
        leaf(4),
        fork(2, 9, 10),
        leaf(10),
        leaf(2),
    ];
    assert!(rt; nodes.starts_with(&first));
    Ok(())
}

#[test]
fn worst_cost(rt: HostRuntime) -> Result<(), Fail> {
    let mut nodes = [leaf(0); 4064];
    let fitted = fit_worked(&Worst, &mut nodes)
        .ok()
        .ok_or("4,064 nodes are too few")?;
    assert_eq!(rt; fitted.trees[0].cost, 35);
    assert!(rt; matches!(nodes[0], Node::Fork { line: 0, .. }));
    Ok(())
}

// The lists are not written, so the draft has one state and no moves; too few nodes are refused for any draft.
#[test]
fn few_nodes(rt: HostRuntime) -> Result<(), Fail> {
    let states = [StateRecord::default(); 32];
    let moves = [Move::default(); 1024];
    let draft = make_draft(&RULE, &states, &moves);
    let mut nodes = [leaf(0); 4063];
    let refusal = fit(&Worst, &draft, &mut nodes)
        .err()
        .ok_or("4,063 nodes are enough")?;
    assert_eq!(rt; refusal.number(), 23);
    Ok(())
}
