//! The options of what a replay prints.

use output_lines::{Format, Show};

/// The options of what a replay prints.
#[derive(Clone, Copy, Debug, PartialEq, Eq)]
pub struct PrintOptions {
    /// The state that is shown after the run.
    pub show: Show,
    /// The form of all printed lines.
    pub format: Format,
    /// True if the number of lines done is shown on standard error.
    pub progress: bool,
}
