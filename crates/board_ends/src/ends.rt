//! What a board reads from and writes to.

ghost use Rattle.std.specs.Prelude.{◌≡◌, ◌<◌, ◌≤◌, length, take, IfOk, OnOk, OnErr};
ghost use Rattle.board_ends.specs.Counts.{Rose};
ghost use Rattle.board_ends.specs.Ends.{SourceEnd, SinkEnd, Gave, Took, KeepsSafe, IsSafeHeld, IsSynced, IsAtEnd};

/// A source or a sink failed; its count of faults tells so.
#[derive(Clone, Copy, Debug, PartialEq, Eq)]
pub struct Failed;

/// A source of bytes.
pub trait Source {
    // The bytes still to come, where told, and how many reads failed, a count that never falls.
    ghost seen: { Self → SourceEnd };

    /// Puts the next bytes at the start of the buffer, and says how many. For a buffer that
    /// isn't empty, 0 is the end.
    /// `Failed` comes only where the count of faults rose, and nothing was given then.
    fn read(&mut self, buf: &mut [u8]) -> Result<usize, Failed>
        ensures bound { IfOk result (λ n. n ≤ length buf.new) }
        ensures given { IfOk result (λ n. Gave (seen self.old) (seen self.new) (take n buf.new)) }
        ensures end { IfOk result (λ n. n ≡ 0 → 0 < length buf.old → IsAtEnd (seen self.new)) }
        ensures failed { OnErr result (Rose (seen self.old).faults (seen self.new).faults) }
        ensures unmoved { OnErr result ((seen self.new).left ≡ (seen self.old).left) }
        ensures counted { (seen self.old).faults ≤ (seen self.new).faults };
}

/// A sink of bytes.
pub trait Sink {
    // The bytes that it took, where told, how many of them no stop takes away, where told, and
    // how many calls failed. Neither number ever falls.
    ghost seen: { Self → SinkEnd };

    /// Takes a first part of the piece, and says how many bytes it has: at least one where the
    /// piece has one. `Failed` comes only where the count of faults rose, and nothing was taken
    /// then. What was safe stays safe in any case.
    fn write(&mut self, piece: &[u8]) -> Result<usize, Failed>
        ensures bound { IfOk result (λ n. n ≤ length piece.now) }
        ensures some { IfOk result (λ n. 0 < length piece.now → 0 < n) }
        ensures taken { IfOk result (λ n. Took (seen self.old) (seen self.new)
            (take n piece.now)) }
        ensures failed { OnErr result (Rose (seen self.old).faults (seen self.new).faults) }
        ensures unmoved { OnErr result ((seen self.new).held ≡ (seen self.old).held) }
        ensures safe { KeepsSafe (seen self.old) (seen self.new) }
        ensures safe_held { IsSafeHeld (seen self.new) }
        ensures counted { (seen self.old).faults ≤ (seen self.new).faults };
}

/// A sink whose bytes can be made safe: a stop takes none of them away.
pub trait Journal: Sink {
    /// Makes all bytes safe that were taken. `Failed` comes only where the count of faults rose;
    /// what was safe stays safe then, and what is held is as before in any case.
    fn sync(&mut self) -> Result<(), Failed>
        ensures ok { OnOk result (IsSynced (Self.seen self.new)) }
        ensures failed { OnErr result
            (Rose (Self.seen self.old).faults (Self.seen self.new).faults) }
        ensures held { (Self.seen self.new).held ≡ (Self.seen self.old).held }
        ensures safe { KeepsSafe (Self.seen self.old) (Self.seen self.new) }
        ensures safe_held { IsSafeHeld (Self.seen self.new) }
        ensures counted { (Self.seen self.old).faults ≤ (Self.seen self.new).faults };
}
