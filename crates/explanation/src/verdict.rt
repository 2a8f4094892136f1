//! The verdicts on offers, each with the step of RFC 2328 that decides it (16.1 to 16.4, 16.8).

/// The verdict on an offer, with the step of RFC 2328 that decides it.
#[derive(Clone, Copy, Debug, PartialEq, Eq)]
pub enum Verdict {
    /// The paths of the offer are among those of the route.
    Taken,
    /// The LSA is at MaxAge: 16.1 (2b), 16.2 (1), 16.4 (1).
    MaxAge,
    /// The metric is LSInfinity: 16.2 (1), 16.4 (1).
    Infinity,
    /// The router itself is the Advertising Router: 16.2 (2), 16.4 (2).
    Own,
    /// Another network-LSA describes the transit network: 16.1 (2b).
    Another,
    /// No links that both ends list lead to the router or the transit network: 16.1 (2b).
    Unreached,
    /// No interface of the area that is up lies in this stub network of the root itself: 16.1.
    NoInterface,
    /// Another transit network of this prefix, at the same distance, has a greater Link State ID:
    /// 16.1 (4).
    LesserId,
    /// Another area offers the same cost, and has a greater Area ID: 16.8.
    LesserArea,
    /// The summary-LSAs of the area are not examined: 16.2.
    NotExamined,
    /// The network is the prefix of an active range: 16.2 (3).
    ActiveRange,
    /// The border router is not reached in the area: 16.2 (4).
    NoBorderRouter,
    /// There is an intra-area route: 16.2 (6).
    IntraArea,
    /// The AS boundary router is not reached: 16.4 (3).
    NoBoundaryRouter,
    /// No network with an intra-area or inter-area route contains the forwarding address: 16.4 (3).
    NoForward,
    /// There is an intra-area or inter-area route: 16.4 (6a).
    Internal,
    /// The metric is of type 2, and another offer has a type 1 metric: 16.4 (6b).
    Type2,
    /// Another offer has a lesser metric of type 2: 16.4 (6b).
    Metric2,
    /// Another offer leads over an intra-area path through another area than the backbone: 16.4
    /// (6c), 16.4.1.
    Class,
    /// Another offer costs less: 16.1, 16.2 (7), 16.4 (6d).
    Costlier,
}
