//! Nodes, and where the nodes of their parts start.

ghost use Rattle.std.specs.Prelude.{◌≡◌, ◌-◌, ◌≤◌, ◌<◌, ℕ, length, drop, reverse, IfOk};
ghost use Rattle.qml_syntax.specs.Nodes.{below};
ghost use Rattle.qml_syntax.specs.Starts.{standing, start_at, AllWhole, Started};
ghost use Rattle.qml_syntax.specs.Taken.{past, left};

use crate::node::Node;
use crate::taking::{Edge, Taking, is_at_edge, taken_by};
use std::alloc::{AllocError, Global};

/// Nodes, children before their parents, and for the first of them where the nodes of their parts start.
#[derive(Debug, Drop)]
pub struct Spans {
    pub nodes: Vec<Node>,
    pub starts: Vec<usize>,
}

impl Spans {
    /// Where the last part before this place starts, or 0 where there is none.
    pub fn before(&self, end: usize) -> usize
        requires started { Started self.now.nodes.items self.now.starts.items }
        requires few { end ≤ length self.now.starts.items }
        ensures parts { standing (reverse self.now.nodes.items) result ≡
            below (standing (reverse self.now.nodes.items) end) }
        ensures back { result ≤ end - 1 }
    {
        if end == 0 { 0 } else { self.starts[end - 1] }
    }

    /// Where this many parts before this place start, or 0 where there are fewer.
    fn back(&self, count: usize, end: usize) -> usize
        requires started { Started self.now.nodes.items self.now.starts.items }
        requires few { end ≤ length self.now.starts.items }
        ensures parts { standing (reverse self.now.nodes.items) result ≡
            drop count (standing (reverse self.now.nodes.items) end) }
        ensures back { result ≤ end }
    {
        let mut start = end;
        for _ in 0..count {
            start = self.before(start);
        }
        start
    }

    /// Where the parts start from the first of many on, or 0 where there is no such part.
    fn back_to(&self, edge: Edge, end: usize) -> usize
        requires started { Started self.now.nodes.items self.now.starts.items }
        requires few { end ≤ length self.now.starts.items }
        ensures parts { standing (reverse self.now.nodes.items) result ≡
            past edge (standing (reverse self.now.nodes.items) end) }
        ensures back { result ≤ end }
    {
        let mut start = end;
        while start > 0 {
            let found = is_at_edge(edge, &self.nodes[start - 1]);
            start = self.before(start);
            if found {
                return start;
            }
        }
        start
    }

    /// Where the parts that a node takes start, before it.
    fn back_over(&self, taking: Taking, end: usize) -> usize
        requires started { Started self.now.nodes.items self.now.starts.items }
        requires few { end ≤ length self.now.starts.items }
        ensures parts { standing (reverse self.now.nodes.items) result ≡
            left taking (standing (reverse self.now.nodes.items) end) }
        ensures back { result ≤ end }
    {
        match taking {
            Taking::Count(count) => self.back(count, end),
            Taking::UpToMark => self.back_to(Edge::Mark, end),
            Taking::Steps => self.back_to(Edge::Operand, end),
            Taking::Chain => self.back_to(Edge::First, self.before(end)),
            Taking::Operands => self.before(self.back_to(Edge::First, self.before(end))),
            Taking::Path => self.back_to(Edge::Operand, self.before(end)),
            Taking::Members => self.back_to(Edge::Operand, self.back_to(Edge::Mark, end)),
            Taking::Target => self.before(self.back_to(Edge::Operand, end)),
            Taking::NamedRow => self.before(self.back_to(Edge::Mark, end)),
            Taking::Function => self.before(self.back_to(Edge::Mark, self.back(2, end))),
            Taking::RowBefore => self.back_to(Edge::Mark, self.before(end)),
        }
    }

    /// Where the next node's part starts.
    fn next_start(&self) -> usize
        requires started { Started self.now.nodes.items self.now.starts.items }
        requires more { length self.now.starts.items < length self.now.nodes.items }
        ensures { result ≡ start_at (reverse self.now.nodes.items) (length self.now.starts.items) }
    {
        let at = self.starts.len();
        self.back_over(taken_by(&self.nodes[at]), at)
    }

    /// All starts.
    pub fn of(alloc: Global, nodes: Vec<Node>) -> Result<Spans, AllocError>
        requires { AllWhole (reverse nodes.items) }
        ensures nodes { IfOk result (λ s. s.nodes ≡ nodes) }
        ensures started { IfOk result (λ s. Started s.nodes.items s.starts.items) }
        ensures all { IfOk result (λ s. length s.starts.items ≡ length s.nodes.items) }
    {
        let mut spans = Spans {
            starts: Vec::with_capacity(alloc, nodes.len())?,
            nodes,
        };
        while spans.starts.len() < spans.nodes.len() {
            let start = spans.next_start();
            spans.starts.push(start)?;
        }
        Ok(spans)
    }

    /// The nodes alone.
    pub fn into_nodes(self) -> Vec<Node>
        ensures { result ≡ self.nodes }
    {
        self.nodes
    }
}
