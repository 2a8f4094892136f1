//! The commands of the program.
ghost use Rattle.std.specs.Prelude.{◌≡◌};

use output_lines::{Format, Show};
use std::alloc::AllocError;
use thiserror::Error;

/// The arguments of `abr one`, as they were given.
#[derive(Clone, Copy)]
pub struct OneWords<'a> {
    pub router: &'a str,
    pub area: &'a str,
    pub address: &'a str,
    /// The LSA in hexadecimal.
    pub lsa: &'a str,
    pub lookup: &'a str,
}

/// The arguments of `abr capture`, as they were given.
///
/// They may have neither a Router ID nor a beginning. The command reports that mistake, not the
/// reader of command lines.
#[derive(Clone, Copy)]
pub struct CaptureWords<'a> {
    /// The capture file (`-` is standard input).
    pub file: &'a str,
    /// The word for the Router ID of the router that the recording is for. A beginning has its own.
    pub router: Option<&'a str>,
    /// The file with the beginning of the recording.
    pub begin: Option<&'a str>,
    /// True if an LSA that was captured before is written again.
    pub keeps_all: bool,
    /// True if the recording has no seconds.
    pub without_seconds: bool,
}

/// A command and its arguments. The file `-` is standard input.
#[derive(Clone, Copy)]
pub enum Job<'a> {
    /// `abr one`: a lookup in the table of one router-LSA.
    One(OneWords<'a>),
    /// `abr decode`: the fields of an LSA. `long` is true if each field of the body gets its own
    /// line.
    Decode {
        word: &'a str,
        long: bool,
    },
    /// `abr replay`: a run of a recording by 1 to 16 workers, and `show` after it. `progress` is
    /// true if the number of lines done is shown.
    Replay {
        file: &'a str,
        workers: usize,
        show: Show,
        format: Format,
        progress: bool,
    },
    /// `abr changes`: the changes of each event of a recording. `only` is the word for the one
    /// network that is reported; without it, all networks are. `progress` is true if the number of
    /// lines done is shown.
    Changes {
        file: &'a str,
        only: Option<&'a str>,
        format: Format,
        progress: bool,
    },
    /// `abr follow`: the changes of each event as it is read from standard input. `only` is as for
    /// `abr changes`. `strict` is true if the first invalid line ends the command.
    Follow {
        only: Option<&'a str>,
        strict: bool,
        format: Format,
    },
    /// `abr explain`: the reasons for a result of a recording. `progress` is true if the number of
    /// lines done is shown.
    ///
    /// Without `due`, `address` is an address, and its item in the routing table is explained (RFC
    /// 2328, 11.1). With `due`, the word for an area, `address` is a network or the Router ID of an
    /// AS boundary router. The command then explains why its summary is due in that area, or is not
    /// (12.4.3).
    Explain {
        file: &'a str,
        address: &'a str,
        due: Option<&'a str>,
        format: Format,
        progress: bool,
    },
    /// `abr page`: a page about a recording. It is written to the file `output`, or to standard
    /// output if that is missing or `-`. `progress` is true if the number of lines done is shown.
    Page {
        file: &'a str,
        output: Option<&'a str>,
        progress: bool,
    },
    /// `abr capture`: a recording from a capture.
    Capture(CaptureWords<'a>),
    /// `abr fault`: the meaning of a number. The word is as given, and may not be a number.
    Fault(&'a str),
}

/// The reason why the words select no command.
#[derive(Debug, Drop, Error)]
pub enum Usage {
    /// The message of the command-line parser, its `Display`. `use_stderr` and `exit_code` say
    /// where it goes and the exit status: 2 for a mistake in the words, and 0 for help.
    #[error(transparent)]
    Told(clap::Error),
    /// Memory ran out.
    #[error("30 Memory")]
    Memory,
}

impl From<AllocError> for Usage {
    ghost use Rattle.cli_args.specs.declared.command.Usage.TheVariants.{Memory};

    ghost from_gives = { λ _ u. u ≡ Memory };

    fn from(_e: AllocError) -> Usage {
        Usage::Memory
    }
}
