//! Sources of files.

ghost use Rattle.std.specs.Prelude.{◌≡◌, ◌≤◌, ℕ, List, Some, length, IfOk, OnOk, OnErr, IsOk, IsErr, IsSome};
ghost use Rattle.der_core.specs.Counts.{GoesOn, HasRisen, FailsOnce, RisesBy};
ghost use Rattle.program_frame.specs.ErrorText.{failed_text};
ghost use Rattle.program_frame.specs.Shelf.{ShelfState, file_of, IsPicked, Moves};

use std::fmt;
use thiserror::Error;

/// The device failed.
#[derive(Clone, Copy, Debug, PartialEq, Eq, Error)]
pub struct Failed;

impl fmt::Display for Failed {
    ghost output = { λ failed. Some failed_text };

    fn fmt<W: fmt::Write>(&self, f: &mut fmt::Formatter<W>) -> fmt::Result {
        write!(f, "the outside failed")
    }
}

/// Files that are picked by name and read piece by piece. A failed call counts one fault, and no
/// other call counts any.
pub trait Shelf {
    /// Its observable state.
    ghost state: { Self → ShelfState };

    /// Starts reading the file with this name. A missing name is a fault.
    fn pick(&mut self, name: &str) -> Result<(), Failed>
        ensures picked { OnOk result (IsSome (state self.old).files
            → IsPicked (state self.old).files name.now (state self.new).rest) }
        ensures same { (state self.new).files ≡ (state self.old).files }
        ensures exposed { IsSome (state self.old).rest → IsSome (state self.new).rest }
        ensures none_given { (state self.new).given ≡ (state self.old).given }
        ensures kept { GoesOn (state self.old).given (state self.new).given }
        ensures counted { GoesOn (state self.old).faults (state self.new).faults }
        ensures cause { OnErr result (HasRisen (state self.old).faults (state self.new).faults) }
        ensures once { FailsOnce (IsErr result) (state self.old).faults (state self.new).faults }
        ensures quiet { (state self.old).is_quiet → IsSome (file_of (state self.old).files name.now)
            → IsOk result × (state self.new).is_quiet };

    /// Moves octets of the picked file to the start of the piece, and returns their number. It is 0
    /// only at the end of the file, or for an empty piece.
    fn read(&mut self, into: &mut [u8]) -> Result<usize, Failed>
        ensures bound { IfOk result (λ n. n ≤ length into.old) }
        ensures moved { IfOk result (λ n. (before : List ℕ) → (state self.old).rest ≡ Some before
            → Moves n before into.new (state self.new).rest) }
        ensures same { (state self.new).files ≡ (state self.old).files }
        ensures exposed { IsSome (state self.old).rest → IsSome (state self.new).rest }
        ensures given { IfOk result (λ n. RisesBy n (state self.old).given (state self.new).given) }
        ensures none_given { OnErr result ((state self.new).given ≡ (state self.old).given) }
        ensures kept { GoesOn (state self.old).given (state self.new).given }
        ensures counted { GoesOn (state self.old).faults (state self.new).faults }
        ensures cause { OnErr result (HasRisen (state self.old).faults (state self.new).faults) }
        ensures once { FailsOnce (IsErr result) (state self.old).faults (state self.new).faults }
        ensures quiet { (state self.old).is_quiet → IsOk result × (state self.new).is_quiet };
}
