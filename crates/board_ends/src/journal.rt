//! A journal over memory, with faults at chosen calls.

ghost use Rattle.std.specs.Prelude.{◌≡◌, ◌<◌, ◌≤◌, ◌++◌, ◌||◌, length, take, Some, IfOk, OnOk, OnErr, is_err};
ghost use Rattle.board_ends.specs.Counts.{one_more, Rose};
ghost use Rattle.board_ends.specs.CallNumbers.{from_first, is_listed, after_call};
ghost use Rattle.board_ends.specs.Ends.{Took, KeepsSafe, IsSafeHeld, IsSynced};
ghost use Rattle.board_ends.specs.Journals.{journal_end};
ghost use Rattle.board_ends.specs.Memory.{taken_count, is_full};

use crate::calls::Calls;
use crate::ends::{Failed, Journal, Sink};
use crate::memory::MemSink;
use board_base::List;
use std::marker::Model;

/// A journal that keeps what it takes, and fails at chosen syncs and where its sink fails.
#[derive(Drop)]
pub struct MemJournal {
    sink: MemSink,
    safe: usize,
    syncs: Calls,
}

impl Model for MemJournal {
    ghost use Rattle.std.specs.Prelude.{◌≤◌, length};
    ghost use Rattle.board_ends.specs.Journals.{MemJournalState};

    ghost Value = { MemJournalState };

    ghost view = { λ j. record { sink = j.sink; safe = j.safe; syncs = j.syncs } };

    ghost invariant = { λ j. j.safe ≤ length j.sink.held };
}

impl MemJournal {
    /// A journal over this sink, of whose bytes none is safe yet. The syncs with these numbers,
    /// from 0, fail. It takes no memory.
    pub fn new(sink: MemSink, fails: List<u64>) -> MemJournal
        ensures { result ≡ record { sink = sink; safe = 0; syncs = from_first fails } }
    {
        MemJournal {
            sink,
            safe: 0,
            syncs: Calls::new(fails),
        }
    }

    /// The bytes that it holds. It takes no memory.
    pub fn held(&self) -> &[u8]
        ensures { result.now ≡ self.now.sink.held }
    {
        self.sink.held()
    }

    /// How many of the first bytes are safe. It takes no memory.
    pub fn safe(&self) -> usize
        ensures safe { result ≡ self.now.safe }
        ensures within { result ≤ length self.now.sink.held }
    {
        self.safe
    }
}

impl Sink for MemJournal {
    ghost seen = { journal_end };

    fn write(&mut self, piece: &[u8]) -> Result<usize, Failed>
        ensures fails { is_err result
            ≡ (is_listed self.old.sink.writes || is_full self.old.sink piece.now) }
        ensures count { IfOk result (λ n. n ≡ taken_count self.old.sink piece.now) }
        ensures ok { IfOk result (λ n. self.new ≡ record self.old {
          sink = record self.old.sink {
            held = self.old.sink.held ++ take n piece.now;
            writes = after_call self.old.sink.writes;
          };
        }) }
        ensures err { OnErr result (self.new ≡ record self.old {
          sink = record self.old.sink {
            writes = after_call self.old.sink.writes;
            faults = one_more self.old.sink.faults;
          };
        }) }

        ensures bound { IfOk result (λ n. n ≤ length piece.now) }
        ensures some { IfOk result (λ n. 0 < length piece.now → 0 < n) }
        ensures taken { IfOk result (λ n. Took (journal_end self.old) (journal_end self.new)
            (take n piece.now)) }
        ensures failed { OnErr result (Rose self.old.sink.faults self.new.sink.faults) }
        ensures unmoved { OnErr result (Some self.new.sink.held ≡ Some self.old.sink.held) }
        ensures safe { KeepsSafe (journal_end self.old) (journal_end self.new) }
        ensures safe_held { IsSafeHeld (journal_end self.new) }
        ensures counted { self.old.sink.faults ≤ self.new.sink.faults }
    {
        self.sink.write(piece)
    }
}

impl Journal for MemJournal {
    fn sync(&mut self) -> Result<(), Failed>
        ensures fails { is_err result ≡ is_listed self.old.syncs }
        ensures after_ok { OnOk result (self.new ≡ record self.old {
          safe = length self.old.sink.held;
          syncs = after_call self.old.syncs;
        }) }
        ensures after_err { OnErr result (self.new ≡ record self.old {
          sink = record self.old.sink { faults = one_more self.old.sink.faults };
          syncs = after_call self.old.syncs;
        }) }

        ensures ok { OnOk result (IsSynced (journal_end self.new)) }
        ensures failed { OnErr result (Rose self.old.sink.faults self.new.sink.faults) }
        ensures held { Some self.new.sink.held ≡ Some self.old.sink.held }
        ensures safe { KeepsSafe (journal_end self.old) (journal_end self.new) }
        ensures safe_held { IsSafeHeld (journal_end self.new) }
        ensures counted { self.old.sink.faults ≤ self.new.sink.faults }
    {
        let is_listed = self.syncs.is_listed();
        self.syncs.advance();
        if is_listed {
            self.sink.count_fault();
            return Err(Failed);
        }
        self.safe = self.sink.held().len();
        Ok(())
    }
}
