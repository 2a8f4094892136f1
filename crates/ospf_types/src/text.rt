//! The printed forms of prefixes, path types, next hops, paths and entries.
ghost use Rattle.std.specs.Prelude.{Some};
ghost use Rattle.ospf_types.specs.Text.{prefix_text, kind_text, hop_text, path_text, paths_text};
ghost use Rattle.ospf_types.specs.Text.{entry_text, area_text};

use crate::address::Address;
use crate::dotted::{MOST, write_dotted};
use crate::entry::{Entry, PathType, Paths};
use crate::hop::{NextHop, Path};
use crate::prefix::Prefix;
use itoa::write_digits;
use std::{fmt, str};

/// Prints the network number and the length, as in `192.0.2.0/24`.
impl fmt::Display for Prefix {
    ghost output = { λ p. Some (prefix_text p) };

    fn fmt<W: fmt::Write>(&self, f: &mut fmt::Formatter<W>) -> fmt::Result {
        // A slash and two digits follow the address.
        const END: usize = MOST + 3;
        let mut text = [0; END];
        let start = write_digits(u64::from(self.length()), &mut text, END);
        text[start - 1] = b'/';
        let start = write_dotted(self.address(), &mut text, start - 1);
        // SAFETY: Digits, dots and a slash are ASCII.
        f.pad(unsafe { str::from_utf8_unchecked(&text[start..]) })
    }
}

/// Prints `intra`, `inter`, `ext1` or `ext2`.
impl fmt::Display for PathType {
    ghost output = { λ kind. Some (kind_text kind) };

    fn fmt<W: fmt::Write>(&self, f: &mut fmt::Formatter<W>) -> fmt::Result {
        f.write_str(match self {
            PathType::Intra => "intra",
            PathType::Inter => "inter",
            PathType::External1 => "ext1",
            PathType::External2 => "ext2",
        })
    }
}

/// Prints the kind and the interface, as in `direct:1`. The address of a router follows them, as in
/// `router:1:192.0.2.2`.
impl fmt::Display for NextHop {
    ghost output = { λ hop. Some (hop_text hop) };

    fn fmt<W: fmt::Write>(&self, f: &mut fmt::Formatter<W>) -> fmt::Result {
        match *self {
            NextHop::Direct(id) => write!(f, "direct:{id}"),
            NextHop::Peer(id) => write!(f, "peer:{id}"),
            NextHop::Router(id, address) => write!(f, "router:{id}:{}", Address(address)),
        }
    }
}

/// Prints the next hop, and after an `@` the Router ID of the advertiser, if there is one.
impl fmt::Display for Path {
    ghost output = { λ path. Some (path_text path) };

    fn fmt<W: fmt::Write>(&self, f: &mut fmt::Formatter<W>) -> fmt::Result {
        let hop = self.hop;
        write!(f, "{hop}")?;
        if let Some(router) = self.advertiser {
            write!(f, "@{}", Address(router))?;
        }
        Ok(())
    }
}

/// Prints the paths, separated by commas.
impl fmt::Display for Paths {
    ghost output = { λ paths. Some (paths_text paths) };

    fn fmt<W: fmt::Write>(&self, f: &mut fmt::Formatter<W>) -> fmt::Result {
        if let [first, rest @ ..] = self.as_slice() {
            write!(f, "{first}")?;
            for path in rest {
                write!(f, ",{path}")?;
            }
        }
        Ok(())
    }
}

/// Prints path type, area, both costs and paths, separated by spaces, as in `inter 0.0.0.0 20 0
/// peer:1@10.0.0.2`.
///
/// The area of an external route is printed as a dash.
impl fmt::Display for Entry {
    ghost output = { λ entry. Some (entry_text entry) };

    fn fmt<W: fmt::Write>(&self, f: &mut fmt::Formatter<W>) -> fmt::Result {
        let (kind, area, cost, cost2, paths) = (
            self.kind,
            AreaField(self.area),
            self.cost,
            self.cost2,
            &self.paths,
        );
        write!(f, "{kind} {area} {cost} {cost2} {paths}")
    }
}

// The area of an entry, as it is printed.
#[derive(Clone, Copy)]
struct AreaField(Option<u32>);

impl fmt::Display for AreaField {
    ghost output = { λ area. Some (area_text area.0) };

    fn fmt<W: fmt::Write>(&self, f: &mut fmt::Formatter<W>) -> fmt::Result {
        match self.0 {
            Some(area) => Address(area).fmt(f),
            None => f.write_str("-"),
        }
    }
}
