//! Results that are written for C, if there are any.
ghost use Rattle.std.specs.Prelude.{◌≡◌};
ghost use Rattle.abr_c.specs.Given.{IsOutputGiven, written};

/// Writes the value to `out`, if there is one. Returns true if there is.
pub(crate) fn give<T: Copy + Drop>(out: &mut T, found: Option<T>) -> bool
    ensures { IsOutputGiven found result out.old out.new }
{
    match found {
        Some(value) => {
            *out = value;
            true
        }
        None => false,
    }
}

/// Writes the bytes to the start of `out`, if there is room for all of them.
pub(crate) fn write_bytes(out: &mut [u8], bytes: &[u8])
    ensures { out.new ≡ written bytes.now out.old }
{
    let count = bytes.len();
    if count <= out.len() {
        out[..count].copy_from_slice(bytes);
    }
}
