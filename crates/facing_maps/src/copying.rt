//! Bytes that are copied into the room that a caller has.
ghost use Rattle.std.specs.Prelude.{◌≡◌, ◌≤◌, ◌++◌, length, take, drop};
ghost use Rattle.facing_maps.specs.Rooms.{copied};

/// Copies so many bytes to the front of the room.
fn copy_front(bytes: &[u8], n: usize, room: &mut [u8])
    requires bytes { n ≤ length bytes.now }
    requires room { n ≤ length room.old }
    ensures { room.new ≡ take n bytes.now ++ drop n room.old }
{
    room[..n].copy_from_slice(&bytes[..n]);
}

/// Copies the first bytes, as many as there is room for.
pub fn copy_into(bytes: &[u8], room: &mut [u8])
    ensures { room.new ≡ copied bytes.now room.old }
{
    let n = room.len().min(bytes.len());
    copy_front(bytes, n, room);
}
