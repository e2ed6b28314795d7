//! The line that a run wrote, in the caller's buffer.

ghost use Rattle.std.specs.Prelude.{◌≡◌, ◌≤◌, length, take, drop};
ghost use Rattle.door_frame.specs.Handing.{handed_line};
ghost use Rattle.program_frame.specs.Statuses as statuses;

use program_frame::{OUT_OF_MEMORY, SINK_FAILED};

/// A status, and how many octets at the start of a buffer are the line.
#[derive(Clone, Copy, Debug, PartialEq, Eq)]
pub struct HandedOut {
    pub status: u8,
    pub written: usize,
}

impl HandedOut {
    /// No line, since memory ran out.
    pub fn out_of_memory() -> Self
        ensures status { result.status ≡ statuses.out_of_memory }
        ensures none { result.written ≡ 0 }
    {
        HandedOut {
            status: OUT_OF_MEMORY,
            written: 0,
        }
    }
}

/// Copies the contents of a sink to the start of a buffer that has room for them. Of a line that the
/// sink didn't accept whole it copies nothing.
pub fn hand_out(status: u8, held: &[u8], buffer: &mut [u8]) -> HandedOut
    requires { length held.now ≤ length buffer.old }
    ensures status { result.status ≡ status }
    ensures fits { result.written ≤ length buffer.new }
    ensures line { take result.written buffer.new ≡ handed_line status held.now }
    ensures behind { drop result.written buffer.new ≡ drop result.written buffer.old }
{
    if status == SINK_FAILED {
        return HandedOut { status, written: 0 };
    }
    let written = held.len();
    buffer[..written].copy_from_slice(held);
    HandedOut { status, written }
}
