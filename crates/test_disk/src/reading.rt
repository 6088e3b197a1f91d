//! Reads of bytes in memory.
ghost use Rattle.std.specs.Prelude.{◌<◌, ◌≤◌, ◌+◌, ◌-◌, Some, drop, length};
ghost use Rattle.bag_tree.specs.FileReads.{ReadsNext};

/// Copies into a buffer what follows a place, as much as there is room for.
pub(crate) fn read_at(bytes: &[u8], at: usize, buffer: &mut [u8]) -> usize
    requires { 0 < length buffer.old }
    ensures read { ReadsNext (Some (drop at bytes.now)) (Some (drop (at + result) bytes.now)) result
        buffer.new }
    ensures within { result ≤ length buffer.old }
    ensures left { result ≤ length bytes.now - at }
{
    let rest = bytes.get(at..).unwrap_or(&[]);
    let count = rest.len().min(buffer.len());
    buffer[..count].copy_from_slice(&rest[..count]);
    count
}
