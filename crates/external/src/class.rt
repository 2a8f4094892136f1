//! The types of AS external paths, and the classes of internal paths to AS boundary routers and
//! forwarding addresses (RFC 2328, 16.4 and 16.4.1).
ghost use Rattle.std.specs.Prelude.{◌≡◌};
ghost use Rattle.external.specs.Classes.{class_number, kind_number};

/// The type of an AS external path, from the most to the least preferred (RFC 2328, 16.4).
#[derive(Clone, Copy, Debug, PartialEq, Eq, PartialOrd, Ord)]
pub enum ExternalType {
    /// Type 1: its cost includes the internal path.
    Type1,
    /// Type 2: its metric counts before the internal path.
    Type2,
}

/// The class of an internal path, from the most to the least preferred (RFC 2328, 16.4.1).
#[derive(Clone, Copy, Debug, PartialEq, Eq, PartialOrd, Ord)]
pub enum PathClass {
    /// An intra-area path through another area than the backbone. With RFC1583Compatibility all
    /// paths are of this class.
    MostPreferred,
    /// An intra-area path through the backbone, or an inter-area path.
    Other,
}

impl ExternalType {
    /// Returns the number of the type: the lesser number is preferred.
    pub fn number(self) -> u8
        ensures { result ≡ kind_number self }
    {
        match self {
            ExternalType::Type1 => 1,
            ExternalType::Type2 => 2,
        }
    }
}

impl PathClass {
    /// Returns the number of the class: the lesser number is preferred.
    pub fn number(self) -> u8
        ensures { result ≡ class_number self }
    {
        match self {
            PathClass::MostPreferred => 0,
            PathClass::Other => 1,
        }
    }
}
