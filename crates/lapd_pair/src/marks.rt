ghost use Rattle.std.specs.Prelude.{◌≡◌, map};
ghost use Rattle.lapd_frame.specs.Reading.{frame_at};
ghost use Rattle.lapd_pair.specs.Marks.{is_read_marked, place_of_marked};

use arrayvec::ArrayVec;
use lapd_frame::{MOST_OCTETS, Role, Side, read};

/// Whether octets that `from` sent form a frame of this role with its P or F bit set (Q.921 3.5.1).
pub fn is_marked(octets: &[u8], from: Side, role: Role) -> bool
    ensures { result ≡ is_read_marked role (frame_at from octets.now) }
{
    let Ok(frame) = read(octets, from) else {
        return false;
    };
    match (role, frame.address().role) {
        (Role::Command, Role::Command) | (Role::Answer, Role::Answer) => {
            frame.control().poll_final()
        }
        _ => false,
    }
}

/// The index of the first of these frames that has this role and its P or F bit set, from 0, or the
/// number of frames if none has. `from` sent them.
pub fn marked_place(frames: &[ArrayVec<u8, MOST_OCTETS>], from: Side, role: Role) -> usize
    ensures { result ≡ place_of_marked role from (map (λ frame. frame.items) frames.now) }
{
    frames
        .iter()
        .position(|frame| is_marked(frame.as_slice(), from, role))
        .unwrap_or(frames.len())
}
