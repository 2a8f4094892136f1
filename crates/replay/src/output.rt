//! The output of a replay: the run, and the state that is shown after it.
ghost use Rattle.std.specs.Prelude.{◌≡◌, OnOk, IfErr};
ghost use Rattle.replay.specs.Advance.{ShowsProgress};
ghost use Rattle.replay.specs.Runs.{IsOpened};
ghost use Rattle.replay.specs.Outputs.{recording_of};
ghost use Rattle.replay.specs.Parts.{WritesOutput, WritesPart};
ghost use Rattle.output_lines.specs.declared.format.Show.TheVariants as show_value;

use crate::buffer::{PrintError, flush_buffer, new_buffer};
use crate::journal::Journal;
use crate::lines::put_serial;
use crate::opened::OpenedRecording;
use crate::printing::PrintOptions;
use crate::showing::{show_items, show_lsas, show_summaries};
use output_lines::Show;
use std::alloc::Global;
use std::io;

impl OpenedRecording {
    /// Runs the lines, and prints the run and the state that `printing` names. A journal is printed
    /// without the run.
    pub(crate) fn print<W: io::Write, F: io::Write>(
        self,
        alloc: Global,
        printing: PrintOptions,
        out: &mut W,
        faults: &mut F,
    ) -> Result<(), PrintError>
        requires { IsOpened self.core.base self.core }
        ensures ok { OnOk result (WritesOutput (recording_of self.version self.core.base
            self.lines.items) printing (W.contents out.old) (W.contents out.new)) }
        ensures err { IfErr result (λ why. WritesPart why (recording_of self.version
            self.core.base self.lines.items) printing (W.contents out.old) (W.contents out.new)) }
        ensures progress { ShowsProgress printing.progress (F.contents faults.old)
            (F.contents faults.new) }
    {
        match printing.show {
            Show::Routes => self.print_routes(alloc, printing, out, faults),
            Show::Due => self.print_due(alloc, printing, out, faults),
            Show::Lsdb => self.print_lsdb(alloc, printing, out, faults),
            Show::Journal => self.print_journal(alloc, printing, out, faults),
        }
    }

    // Prints the run and the routing table.
    fn print_routes<W: io::Write, F: io::Write>(
        self,
        alloc: Global,
        printing: PrintOptions,
        out: &mut W,
        faults: &mut F,
    ) -> Result<(), PrintError>
        requires opened { IsOpened self.core.base self.core }
        requires show { printing.show ≡ show_value.Routes }
        ensures ok { OnOk result (WritesOutput (recording_of self.version self.core.base
            self.lines.items) printing (W.contents out.old) (W.contents out.new)) }
        ensures err { IfErr result (λ why. WritesPart why (recording_of self.version
            self.core.base self.lines.items) printing (W.contents out.old)
            (W.contents out.new)) }
        ensures progress { ShowsProgress printing.progress (F.contents faults.old)
            (F.contents faults.new) }
    {
        let mut buffer = new_buffer(alloc)?;
        let core = self.run_lines(printing, out, &mut buffer, faults)?;
        put_serial(printing.format, &core, &mut buffer)?;
        show_items(printing.format, core.table(), out, &mut buffer)?;
        flush_buffer(out, &mut buffer)?;
        Ok(())
    }

    // Prints the run and the summary-LSAs that are due in each area.
    fn print_due<W: io::Write, F: io::Write>(
        self,
        alloc: Global,
        printing: PrintOptions,
        out: &mut W,
        faults: &mut F,
    ) -> Result<(), PrintError>
        requires opened { IsOpened self.core.base self.core }
        requires show { printing.show ≡ show_value.Due }
        ensures ok { OnOk result (WritesOutput (recording_of self.version self.core.base
            self.lines.items) printing (W.contents out.old) (W.contents out.new)) }
        ensures err { IfErr result (λ why. WritesPart why (recording_of self.version
            self.core.base self.lines.items) printing (W.contents out.old)
            (W.contents out.new)) }
        ensures progress { ShowsProgress printing.progress (F.contents faults.old)
            (F.contents faults.new) }
    {
        let mut buffer = new_buffer(alloc)?;
        let core = self.run_lines(printing, out, &mut buffer, faults)?;
        put_serial(printing.format, &core, &mut buffer)?;
        show_summaries(printing.format, core.summaries(), out, &mut buffer)?;
        flush_buffer(out, &mut buffer)?;
        Ok(())
    }

    // Prints the run and all LSAs.
    fn print_lsdb<W: io::Write, F: io::Write>(
        self,
        alloc: Global,
        printing: PrintOptions,
        out: &mut W,
        faults: &mut F,
    ) -> Result<(), PrintError>
        requires opened { IsOpened self.core.base self.core }
        requires show { printing.show ≡ show_value.Lsdb }
        ensures ok { OnOk result (WritesOutput (recording_of self.version self.core.base
            self.lines.items) printing (W.contents out.old) (W.contents out.new)) }
        ensures err { IfErr result (λ why. WritesPart why (recording_of self.version
            self.core.base self.lines.items) printing (W.contents out.old)
            (W.contents out.new)) }
        ensures progress { ShowsProgress printing.progress (F.contents faults.old)
            (F.contents faults.new) }
    {
        let mut buffer = new_buffer(alloc)?;
        let core = self.run_lines(printing, out, &mut buffer, faults)?;
        let lsas = core.lsas()?;
        put_serial(printing.format, &core, &mut buffer)?;
        show_lsas(printing.format, lsas, out, &mut buffer)?;
        flush_buffer(out, &mut buffer)?;
        Ok(())
    }

    // Prints only the base and the events taken after it, as a recording of the same version.
    fn print_journal<W: io::Write, F: io::Write>(
        self,
        alloc: Global,
        printing: PrintOptions,
        out: &mut W,
        faults: &mut F,
    ) -> Result<(), PrintError>
        requires opened { IsOpened self.core.base self.core }
        requires show { printing.show ≡ show_value.Journal }
        ensures ok { OnOk result (WritesOutput (recording_of self.version self.core.base
            self.lines.items) printing (W.contents out.old) (W.contents out.new)) }
        ensures err { IfErr result (λ why. WritesPart why (recording_of self.version
            self.core.base self.lines.items) printing (W.contents out.old)
            (W.contents out.new)) }
        ensures progress { ShowsProgress printing.progress (F.contents faults.old)
            (F.contents faults.new) }
    {
        let version = self.version;
        let mut buffer = new_buffer(alloc)?;
        let core = self.run_silently(alloc, printing.progress, faults)?;
        let journal = Journal {
            version,
            core: &core,
        };
        journal.show(printing.format, out, &mut buffer)?;
        flush_buffer(out, &mut buffer)?;
        Ok(())
    }
}
