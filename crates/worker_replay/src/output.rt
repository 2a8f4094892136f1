//! The output of a run: the printed lines, and the state that is shown after them.
ghost use Rattle.std.specs.Prelude.{◌≡◌, ◌⊎◌, [], OnOk, IfErr, string_bytes};
ghost use Rattle.engine.specs.Cores.{state_of};
ghost use Rattle.engine.specs.Listings.{AreLsas};
ghost use Rattle.replay.specs.declared.buffer.PrintError.TheVariants as stop;
ghost use Rattle.output_lines.specs.declared.format.Show.TheVariants as show_value;
ghost use Rattle.recording.specs.declared.version.Version.{Version as VersionValue};
ghost use Rattle.replay.specs.Stops.{AreWholeLines};
ghost use Rattle.worker_replay.specs.Parts.{Writes, WritesPart};

use engine::Core;
use lsa_codec::Checked;
use ospf_types::key::Scope;
use ospf_types::memory::Memory;
use output_lines::Format;
use recording::Version;
use replay::{
    Journal, PrintError, PrintOptions, Show, flush_buffer, put_serial, show_items, show_lsas,
    show_summaries,
};
use std::io;

/// The core after a run, and the version in which its journal is written.
#[derive(Clone, Copy)]
pub(crate) struct RunEnd<'a> {
    pub(crate) version: Version,
    pub(crate) core: &'a Core,
}

impl RunEnd<'_> {
    /// Writes the printed lines, and then the state of the core that `printing.show` names. A
    /// journal is written without the lines.
    pub(crate) fn write<W: io::Write>(
        self,
        printed: String,
        out: &mut W,
        printing: PrintOptions,
    ) -> Result<(), PrintError>
        ensures ok { OnOk result (Writes self.entry.version printing.show printing.format (string_bytes printed)
            self.entry.core.now (W.contents out.old) (W.contents out.new)) }
        ensures write { AreWholeLines (string_bytes printed) → result ≡ Err stop.Write
            → WritesPart stop.Write self.entry.version printing.show printing.format (string_bytes printed)
            self.entry.core.now (W.contents out.old) (W.contents out.new) }
        ensures closed { AreWholeLines (string_bytes printed) → result ≡ Err stop.Closed
            → WritesPart stop.Closed self.entry.version printing.show printing.format (string_bytes printed)
            self.entry.core.now (W.contents out.old) (W.contents out.new) }
        ensures memory { AreWholeLines (string_bytes printed) → result ≡ Err stop.Memory
            → (out.new ≡ out.old) ⊎ WritesPart stop.Memory self.entry.version
            printing.show printing.format (string_bytes printed) self.entry.core.now (W.contents out.old) (W.contents out.new) }
    {
        let RunEnd { version, core } = self;
        let PrintOptions { show, format, .. } = printing;
        let mut buffer = printed;
        match show {
            Show::Routes => write_routes(format, core, &mut buffer, out),
            Show::Due => write_due(format, core, &mut buffer, out),
            Show::Lsdb => match core.lsas() {
                Ok(lsas) => write_lsdb(format, core, lsas, &mut buffer, out),
                Err(Memory) => Err(PrintError::Memory),
            },
            Show::Journal => {
                buffer.clear();
                write_journal(format, version, core, &mut buffer, out)
            }
        }
    }
}

fn write_routes<W: io::Write>(
    format: Format,
    core: &Core,
    buffer: &mut String,
    out: &mut W,
) -> Result<(), PrintError>
    ensures ok { OnOk result ((v : VersionValue)
        → Writes v show_value.Routes format (string_bytes buffer.old) core.now (W.contents out.old)
        (W.contents out.new)) }
    ensures err { AreWholeLines (string_bytes buffer.old)
        → IfErr result (λ why. (v : VersionValue)
        → WritesPart why v show_value.Routes format (string_bytes buffer.old) core.now (W.contents out.old)
        (W.contents out.new)) }
{
    put_serial(format, core, buffer)?;
    show_items(format, core.table(), out, buffer)?;
    flush_buffer(out, buffer)?;
    Ok(())
}

fn write_due<W: io::Write>(
    format: Format,
    core: &Core,
    buffer: &mut String,
    out: &mut W,
) -> Result<(), PrintError>
    ensures ok { OnOk result ((v : VersionValue)
        → Writes v show_value.Due format (string_bytes buffer.old) core.now (W.contents out.old)
        (W.contents out.new)) }
    ensures err { AreWholeLines (string_bytes buffer.old)
        → IfErr result (λ why. (v : VersionValue)
        → WritesPart why v show_value.Due format (string_bytes buffer.old) core.now (W.contents out.old)
        (W.contents out.new)) }
{
    put_serial(format, core, buffer)?;
    show_summaries(format, core.summaries(), out, buffer)?;
    flush_buffer(out, buffer)?;
    Ok(())
}

fn write_lsdb<W: io::Write>(
    format: Format,
    core: &Core,
    lsas: Vec<(Scope, Checked)>,
    buffer: &mut String,
    out: &mut W,
) -> Result<(), PrintError>
    requires { AreLsas (state_of core.now) lsas.items }
    ensures ok { OnOk result ((v : VersionValue) → Writes v show_value.Lsdb format (string_bytes buffer.old)
        core.now (W.contents out.old) (W.contents out.new)) }
    ensures err { AreWholeLines (string_bytes buffer.old)
        → IfErr result (λ why. (v : VersionValue)
        → WritesPart why v show_value.Lsdb format (string_bytes buffer.old) core.now (W.contents out.old)
        (W.contents out.new)) }
{
    put_serial(format, core, buffer)?;
    show_lsas(format, lsas, out, buffer)?;
    flush_buffer(out, buffer)?;
    Ok(())
}

// Writes the journal, from an empty buffer.
fn write_journal<W: io::Write>(
    format: Format,
    version: Version,
    core: &Core,
    buffer: &mut String,
    out: &mut W,
) -> Result<(), PrintError>
    requires { string_bytes buffer.old ≡ [] }
    ensures ok { OnOk result (Writes version show_value.Journal format [] core.now (W.contents out.old)
        (W.contents out.new)) }
    ensures err { IfErr result (λ why. WritesPart why version show_value.Journal format [] core.now
        (W.contents out.old) (W.contents out.new)) }
{
    Journal { version, core }.show(format, out, buffer)?;
    flush_buffer(out, buffer)?;
    Ok(())
}
