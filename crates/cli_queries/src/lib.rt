//! The answers of the commands `one`, `decode` and `fault`, and of words that name no command. Each
//! answer is a value, which `print_answer` writes: the status, and a text for standard output or
//! for standard error.
//!
//! Either the text is written whole, with the status of the answer, or the status is 1 and the text
//! was cut. So status 2 promises that the line of a word's fault was written. The line for a lack
//! of memory is static, and needs none.
//!
//! A closed pipe is not reported: `abr replay FILE | head -1` prints nothing on standard error, as
//! with other programs. The status is 1, since the output is not whole. Only the kind of the
//! writer's error, `BrokenPipe`, decides.
//!
//! - `one` reads all words before the LSA. The first word with a fault ends it with status 2.
//!   Faults of the LSA and refusals have status 1.
//! - `one` installs the LSA into the area that it names. So an AS-external-LSA is refused with 21
//!   Scope.
//! - An empty word is hexadecimal: `decode` reads it as an LSA of no bytes, which is 1 Length. On
//!   the command line either case of hexadecimal digits is taken.
//!
//! `advice` has the meaning of each number of a fault or a refusal, and what to do about it.
//! `number_of` and `network_of` read words of a command line.
#![tactic(auto)]

mod advising;
mod answer;
mod argument_values;
mod command_fault;
mod decode_lsa;
mod fault_number;
mod one_lookup;
mod printing;
mod reading;
mod usage;

pub use advising::advice;
pub use answer::{CommandAnswer, line_of};
pub use argument_values::{WordFault, read_address, read_network};
pub use command_fault::CommandFault;
pub use decode_lsa::{answer_decode, decode};
pub use fault_number::{answer_number, fault};
pub use one_lookup::{answer_one, one};
pub use printing::{NO_MEMORY, print_answer, print_fault, say_unwritten};
pub use reading::{network_of, number_of};
pub use usage::answer_usage;
