//! The tail of a line that is too long.
ghost use Rattle.std.specs.Prelude.{◌≡◌, ◌++◌, ℕ, List};
ghost use Rattle.std.specs.Option.{option_to_list};
ghost use Rattle.std.specs.List.{list_all};
ghost use Rattle.input_reading.specs.Shortened.{is_hexadecimal, is_odd_number, mark_of};

/// A summary of the bytes of a line after its first `LONGEST`.
#[derive(Clone, Copy)]
pub(crate) struct Tail {
    /// True if all of them are lower-case hexadecimal digits.
    are_digits: bool,
    /// True if their number is odd.
    is_odd: bool,
}

impl Tail {
    ghost use Rattle.input_reading.specs.Tails.{tail_of};
    ghost use Rattle.std.specs.Prelude.{[]};

    pub(crate) fn empty() -> Tail
        ensures { result ≡ tail_of [] }
    {
        Tail {
            are_digits: true,
            is_odd: false,
        }
    }

    /// Returns the tail with these bytes appended.
    pub(crate) fn with(self, bytes: &[u8]) -> Tail
        ensures { (before : List ℕ) → self ≡ tail_of before → result ≡ tail_of (before ++ bytes.now) }
    {
        Tail {
            are_digits: self.are_digits && are_digits(bytes),
            is_odd: self.is_odd != is_odd(bytes.len()),
        }
    }

    /// Returns the byte that replaces the tail at the end of the line, if there is one.
    pub(crate) fn mark(self) -> Option<u8>
        ensures { (bytes : List ℕ) → self ≡ tail_of bytes → option_to_list result ≡ mark_of bytes }
    {
        if !self.are_digits {
            Some(b'?')
        } else if self.is_odd {
            Some(b'0')
        } else {
            None
        }
    }
}

fn are_digits(bytes: &[u8]) -> bool
    ensures { result ≡ list_all is_hexadecimal bytes.now }
{
    bytes.iter().all(|byte| is_digit(*byte))
}

fn is_digit(byte: u8) -> bool
    ensures { result ≡ is_hexadecimal byte }
{
    matches!(byte, b'0'..=b'9' | b'a'..=b'f')
}

fn is_odd(number: usize) -> bool
    ensures { result ≡ is_odd_number number }
{
    number % 2 == 1
}
