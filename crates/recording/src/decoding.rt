//! Bytes written as hexadecimal digits.
ghost use Rattle.std.specs.Prelude.{◌≡◌, ◌*◌, ◌<◌, ℕ, length};
ghost use Rattle.hex.specs.Hex.{decode_of, pair_value, value_at};
ghost use Rattle.recording.specs.Reading.{bytes_of};

/// Writes the bytes that the digits spell.
pub(crate) fn decode(digits: &[u8], bytes: &mut [u8])
    requires digits { decode_of digits.now ≡ Ok (bytes_of digits.now) }
    requires room { length digits.now ≡ 2 * length bytes.old }
    ensures { bytes.new ≡ bytes_of digits.now }
{
    for place in 0..bytes.len() {
        bytes[place] = byte_of(digits[2 * place], digits[2 * place + 1]);
    }
}

// Returns the byte that two digits spell.
fn byte_of(high: u8, low: u8) -> u8
    ensures { (place byte : ℕ) → pair_value high low place ≡ Ok byte → result ≡ byte }
{
    digit_value(high) * 16 + digit_value(low)
}

// Returns the value of a digit. The value of a letter is its last four bits plus 9.
//
// For a byte that is not a digit only the bound holds. So there is no branch, and many digits are
// decoded at once.
fn digit_value(digit: u8) -> u8
    ensures value { (place value : ℕ) → value_at digit place ≡ Ok value → result ≡ value }
    ensures small { result < 16 }
{
    (digit % 16 + digit / 64 * 9) % 16
}
