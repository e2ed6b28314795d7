//! Outputs for a report.

ghost use Rattle.std.specs.Prelude.{◌≡◌, ◌<◌, ◌≤◌, length, take, IfOk, OnErr, IsErr};
ghost use Rattle.der_core.specs.Counts.{GoesOn, HasRisen, FailsOnce};
ghost use Rattle.program_frame.specs.Sink.{SinkState, Appends, Keeps, Lowers, IsFull};

use crate::Failed;

/// An output that accepts octets piece by piece. A failed call counts one fault, and no other call
/// counts any.
pub trait Sink {
    /// Its observable state.
    ghost state: { Self → SinkState };

    /// Accepts octets from the start of the piece, and returns their number: 0 only for an empty
    /// piece.
    fn write(&mut self, piece: &[u8]) -> Result<usize, Failed>
        ensures bound { IfOk result (λ n. n ≤ length piece.now) }
        ensures some { IfOk result (λ n. 0 < length piece.now → 0 < n) }
        ensures appended { IfOk result (λ n.
            Appends (state self.old).held (take n piece.now) (state self.new).held) }
        ensures lowered { IfOk result (λ n. Lowers (state self.old).room n (state self.new).room) }
        ensures kept { OnErr result (Keeps (state self.old).held (state self.new).held) }
        ensures kept_room { OnErr result (Keeps (state self.old).room (state self.new).room) }
        ensures full { OnErr result (IsFull (state self.old).room piece.now) }
        ensures counted { GoesOn (state self.old).faults (state self.new).faults }
        ensures cause { OnErr result (HasRisen (state self.old).faults (state self.new).faults) }
        ensures once { FailsOnce (IsErr result) (state self.old).faults (state self.new).faults };
}
