//! The refusals of a database, with their numbers and names.
ghost use Rattle.std.specs.Prelude.{Some};
ghost use Rattle.lsdb.specs.Texts.{install_refusal_text, no_lsa_text, purge_refusal_text};

use std::fmt;
use thiserror::Error;

/// The reason why an LSA was not installed. The database is unchanged.
#[derive(Clone, Copy, Debug, PartialEq, Eq, Error)]
pub enum InstallRefusal {
    /// The database instance is newer (RFC 2328, 13.1).
    Older,
    /// The database instance is the same (RFC 2328, 13.1).
    Same,
    /// The LSA has a new key, and the database is at its limit.
    Full,
    /// Memory ran out.
    Memory,
}

/// The refusal as a number and a name, such as `22 Older`.
impl fmt::Display for InstallRefusal {
    ghost output = { λ refusal. Some (install_refusal_text refusal) };

    fn fmt<W: fmt::Write>(&self, f: &mut fmt::Formatter<W>) -> fmt::Result {
        f.write_str(match self {
            InstallRefusal::Older => "22 Older",
            InstallRefusal::Same => "23 Same",
            InstallRefusal::Full => "27 Full",
            InstallRefusal::Memory => "30 Memory",
        })
    }
}

/// The database has no LSA with this key. It is unchanged.
#[derive(Clone, Copy, Debug, PartialEq, Eq, Error)]
pub struct NoLsa;

/// The refusal as a number and a name: `24 NoLsa`.
impl fmt::Display for NoLsa {
    ghost output = { λ _. Some no_lsa_text };

    fn fmt<W: fmt::Write>(&self, f: &mut fmt::Formatter<W>) -> fmt::Result {
        f.write_str("24 NoLsa")
    }
}

/// The reason why an LSA was not purged. The database is unchanged.
#[derive(Clone, Copy, Debug, PartialEq, Eq, Error)]
pub enum PurgeRefusal {
    /// The database has no LSA with this key.
    NoLsa,
    /// The LSA is not at MaxAge (RFC 2328, 14).
    NotMaxAge,
}

/// The refusal as a number and a name, such as `26 NotMaxAge`.
impl fmt::Display for PurgeRefusal {
    ghost output = { λ refusal. Some (purge_refusal_text refusal) };

    fn fmt<W: fmt::Write>(&self, f: &mut fmt::Formatter<W>) -> fmt::Result {
        match self {
            PurgeRefusal::NoLsa => NoLsa.fmt(f),
            PurgeRefusal::NotMaxAge => f.write_str("26 NotMaxAge"),
        }
    }
}
