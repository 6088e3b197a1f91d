//! Numbers that stand in the order of bytes, to sort texts by.
ghost use Rattle.std.specs.Prelude.{◌≡◌, ◌<◌, drop, length};
ghost use Rattle.std.specs.Int.{from_be_bytes, w128};
ghost use Rattle.bag_text.specs.SortKey as spec;

/// What both begin with: the longest front that they have in common.
pub fn common_front<'a>(first: &'a [u8], second: &[u8]) -> &'a [u8]
    ensures { result.now ≡ spec.common_front first.now second.now }
{
    let most = first.len().min(second.len());
    for place in 0..most {
        if first[place] != second[place] {
            return &first[..place];
        }
    }
    &first[..most]
}

/// The sixteen bytes after the first `skipped`, as a number that stands in the order of the bytes;
/// after the last stand zeros.
pub(crate) fn key_after(bytes: &[u8], skipped: usize) -> u128
    ensures { result ≡ spec.key_after bytes.now skipped }
{
    let rest = bytes_after(bytes, skipped);
    match rest.first_chunk::<16>() {
        Some(front) => u128::from_be_bytes(*front),
        None => padded_key(rest),
    }
}

/// The bytes after the first `skipped`, if any.
fn bytes_after(bytes: &[u8], skipped: usize) -> &[u8]
    ensures { result.now ≡ drop skipped bytes.now }
{
    match bytes.split_at_checked(skipped) {
        Some((_, rest)) => rest,
        None => &[],
    }
}

/// The number of fewer bytes than sixteen, with zeros after them.
fn padded_key(bytes: &[u8]) -> u128
    requires { length bytes.now < 16 }
    ensures { result ≡ from_be_bytes w128 (spec.front_of_sixteen bytes.now) }
{
    let mut front = [0u8; 16];
    front[..bytes.len()].copy_from_slice(bytes);
    u128::from_be_bytes(front)
}
