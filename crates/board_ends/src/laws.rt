//! Laws on the ends that never fail. They do nothing when they run.

ghost use Rattle.std.specs.Prelude.{ℕ};
ghost use Rattle.board_ends.specs.Counts.{Rose};
ghost use Rattle.board_ends.specs.Sure.{SureSourceState, sure_source_end, sure_sink_end};

/// From whatever state to whatever state, the count of faults of a source or a sink that never
/// fails hasn't risen.
pub fn sure_ends_count_no_fault()
    ensures source { (before after : SureSourceState)
        → ¬ Rose (sure_source_end before).faults (sure_source_end after).faults }
    ensures sink { (before after : ℕ)
        → ¬ Rose (sure_sink_end before).faults (sure_sink_end after).faults }
{}
