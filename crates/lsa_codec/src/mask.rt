//! The check of a mask.
ghost use Rattle.std.specs.Prelude.{◌≡◌};
ghost use Rattle.lsa_codec.specs.Faults.{is_mask as is_mask_test};

/// Returns true if the number is ones and then zeros.
pub(crate) fn is_mask(mask: u32) -> bool
    ensures { result ≡ is_mask_test mask }
{
    let ones = mask.count_ones();
    mask == if ones == 0 {
        0
    } else {
        u32::MAX << (32 - ones)
    }
}
