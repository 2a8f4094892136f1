//! The kinds of faults that a check of a body finds.

/// The kinds of faults found in a body.
#[derive(Clone, Copy)]
pub(crate) struct Findings {
    /// True if a byte that has to be zero is not.
    pub(crate) reserved: bool,
    /// True if a mask is not valid.
    pub(crate) mask: bool,
    /// True if the type of a link is not 1 to 4.
    pub(crate) link_type: bool,
    /// True if the body is cut off, lacks records or has bytes left over.
    pub(crate) shape: bool,
}

pub(crate) const NO_FINDING: Findings = Findings {
    reserved: false,
    mask: false,
    link_type: false,
    shape: false,
};

/// The fault of a body whose fixed part is cut off.
pub(crate) const CUT: Findings = Findings {
    reserved: false,
    mask: false,
    link_type: false,
    shape: true,
};
