//! The rule of the published table: it is right for its history, and a thread that knows a name
//! knows the name of this engine.
use crate::published_table::{EngineName, PublishedTable, Update};
use atomic_table::{Join, Split};
use crossbeam_utils::rule::{Outcome, Protocol};
use left_right::reader::{Reader, Reading};
use left_right::writer::Writer;

/// The knowledge of a thread: the engine's name, once it has learned it.
pub type View = Option<EngineName>;

/// The protocol that the published table keeps.
pub struct Published;

impl Protocol<PublishedTable, View> for Published {
    ghost use Rattle.std.specs.Prelude.{None};
    ghost use Rattle.publication.specs.Published.{Holds};

    ghost holds = { Holds };

    ghost first = { None };
}

/// The step of a publication, and of a reader that enters.
pub struct PublishStep;

impl Outcome<PublishedTable, View> for PublishStep {
    ghost use Rattle.publication.specs.Published.{Saw};

    ghost then = { Saw };
}

/// A reader learns the name that the writer knows.
pub struct TellsName;

impl Split<View> for TellsName {
    ghost left = { λ v. v };

    ghost right = { λ v. v };
}

impl Join<View> for TellsName {
    ghost use Rattle.std.specs.Prelude.{None};

    ghost both = { λ v w. w };

    ghost spent = { None };
}

/// A reader of the published table.
pub type TableReader = Reader<PublishedTable, View, Published>;

/// The access of a reader that has entered the published table.
pub type TableReading = Reading<PublishedTable, View, Published>;

/// The writer of the published table.
pub type TableWriter = Writer<PublishedTable, Update, View, Published>;
