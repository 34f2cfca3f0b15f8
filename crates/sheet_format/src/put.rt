// Bytes, put into a slice.
ghost use Rattle.std.specs.Prelude.{◌≡◌, ◌+◌, ◌≤◌, length};
ghost use Rattle.digits.specs.Digits.{put_at};

// Writes these bytes, the first at `at`.
pub(crate) fn put(room: &mut [u8], at: usize, bytes: &[u8])
    requires { at + length bytes.now ≤ length room.old }
    ensures { room.new ≡ put_at bytes.now at room.old }
{
    room[at..at + bytes.len()].copy_from_slice(bytes);
}
