//! Traces: the links that a path leads over, each with the LSA that states it (RFC 2328, 16.1).
use crate::offer::LsaInstance;
use ospf_types::entry::Vertex;
use ospf_types::hop::Path;
use ospf_types::prefix::Prefix;

/// An end of a step of a trace.
#[derive(Clone, Copy, Debug, PartialEq, Eq)]
pub enum TraceNode {
    Vertex(Vertex),
    Network(Prefix),
}

/// A step of a trace: a link of an area's graph, a stub link, or the destination of a summary-LSA
/// or an AS-external-LSA.
#[derive(Clone, Copy, Debug, PartialEq, Eq)]
pub struct Step {
    /// The start of the step.
    pub from: TraceNode,
    /// The end of the step.
    pub to: TraceNode,
    /// The metric of the step. It is 0 out of a transit network.
    pub cost: u32,
    /// The instance of the LSA that states the step.
    pub source: LsaInstance,
}

/// A path of a route, step by step from the root.
#[derive(Debug)]
pub struct Trace {
    /// The path.
    pub path: Path,
    /// The steps, in order.
    pub steps: Vec<Step>,
}

// proof: a value is dropped by one call, not part by part at each exit of a function.
impl Drop for Trace {
    fn drop(self) {
        let Trace {
            path: _,
            steps: _steps,
        } = self;
    }
}
