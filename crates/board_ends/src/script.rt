//! Links whose events are written down beforehand, with faults at chosen calls.

ghost use Rattle.std.specs.Prelude.{◌≡◌, ◌≤◌, [], ◌∷◌, ◌++◌, drop, None, Some, IsSome, IfSome, IfOk, OnOk, IfErr, OnErr, is_err, IsTrue, ◌↔◌, true, false, length};
ghost use Rattle.board_ends.specs.Counts.{one_more, Rose};
ghost use Rattle.board_ends.specs.CallNumbers.{from_first, is_listed, after_call};
ghost use Rattle.board_ends.specs.Events.{OpensAt, OpensFrom, opened_count, with_last, with_lost};
ghost use Rattle.board_ends.specs.Script.{next_event};

use crate::calls::Calls;
use crate::links::{LinkError, LinkEvent, Links, SendError};
use board_base::{Bytes, List};
use std::alloc::{AllocError, Global};
use std::marker::Model;

/// Events in their order, of which the first ones were given, and how many times nothing happened
/// after the last.
#[derive(Drop)]
struct Script {
    events: List<LinkEvent>,
    given: usize,
    idles: u64,
}

impl Model for Script {
    ghost use Rattle.std.specs.Prelude.{◌≡◌, ◌<◌, ◌≤◌, ◌++◌, length, take, drop, replicate};
    ghost use Rattle.board_ends.specs.Events.{OpensFrom};
    ghost use Rattle.board_ends.specs.Script.{ScriptState};
    ghost use Rattle.board_ends.specs.declared.links.LinkEvent.TheVariants.{Idle};

    ghost Value = { ScriptState };

    ghost view = { λ s. record {
      coming = drop s.given s.events;
      given = take s.given s.events
          ++ replicate s.idles Idle;
    } };

    ghost invariant = { λ s. (s.given ≤ length s.events) × (s.given < length s.events → s.idles ≡ 0)
        × OpensFrom 0 s.events };
}

impl Script {
    /// Before the first event.
    fn new(events: List<LinkEvent>) -> Script
        requires { OpensFrom 0 events }
        ensures { result ≡ record { coming = events; given = [] } }
    {
        Script {
            events,
            given: 0,
            idles: 0,
        }
    }

    /// A copy of the next event, and `Idle` after the last.
    fn next(&mut self) -> Result<LinkEvent, AllocError>
        ensures event { IfOk result (λ event. event ≡ next_event self.old.coming) }
        ensures numbered { IfOk result (λ event. OpensAt (opened_count self.old.given) event) }
        ensures ok { IfOk result (λ event. self.new ≡ record {
          coming = drop 1 self.old.coming;
          given = self.old.given ++ event ∷ [];
        }) }
        ensures err { OnErr result (self.new ≡ self.old) }
    {
        match self.events.as_slice().get(self.given) {
            Some(event) => {
                let copy = event.try_clone()?;
                self.given += 1;
                Ok(copy)
            }
            None => {
                self.idles = self.idles.checked_add(1).ok_or(AllocError)?;
                Ok(LinkEvent::Idle)
            }
        }
    }
}

/// Links that give these events, and fail at chosen calls.
#[derive(Drop)]
pub struct ScriptLinks {
    port: Option<u16>,
    listens: u64,
    script: Script,
    sent: Vec<(u64, Bytes)>,
    lost: Vec<(usize, u64)>,
    calls: Calls,
    sends: Calls,
    faults: u64,
    gone: u64,
}

impl Model for ScriptLinks {
    ghost use Rattle.board_ends.specs.Script.{ScriptLinksState};

    ghost Value = { ScriptLinksState };

    ghost view = { λ l. record {
      port = l.port;
      listens = l.listens;
      script = l.script;
      sent = l.sent.items;
      lost = l.lost.items;
      calls = l.calls;
      sends = l.sends;
      faults = l.faults;
      gone = l.gone;
    } };
}

impl ScriptLinks {
    /// Links that give these events in their order, and `Idle` after the last. Of the calls of
    /// `listen` and `next`, numbered together from 0, those in `fails` fail; of the calls of
    /// `send`, numbered from 0, those in `gone` find their link gone. A call that ends for want of
    /// memory has no number. It takes no memory.
    pub fn new(
        alloc: Global,
        events: List<LinkEvent>,
        fails: List<u64>,
        gone: List<u64>,
    ) -> ScriptLinks
        requires { OpensFrom 0 events }
        ensures { result ≡ record {
          port = None;
          listens = 0;
          script = record { coming = events; given = [] };
          sent = [];
          lost = [];
          calls = from_first fails;
          sends = from_first gone;
          faults = 0;
          gone = 0;
        } }
    {
        ScriptLinks {
            port: None,
            listens: 0,
            script: Script::new(events),
            sent: Vec::new(alloc),
            lost: Vec::new(alloc),
            calls: Calls::new(fails),
            sends: Calls::new(gone),
            faults: 0,
            gone: 0,
        }
    }

    /// The port of the last `listen` that answered `Ok`.
    pub fn port(&self) -> Option<u16>
        ensures { result ≡ self.now.port }
    {
        self.port
    }

    /// The pairs of link and text that were sent, in their order.
    pub fn sent(&self) -> &[(u64, Bytes)]
        ensures { result.now ≡ self.now.sent }
    {
        self.sent.as_slice()
    }
}

impl Links for ScriptLinks {
    ghost use Rattle.board_ends.specs.Script.{script_end};

    ghost seen = { script_end };

    fn listen(&mut self, number: u16) -> Result<(), LinkError>
        ensures fails { is_err result ≡ is_listed self.old.calls }
        ensures no_memory { IfErr result (λ error. error ≡ LinkError.Failed) }
        ensures after_ok { OnOk result (self.new ≡ record self.old {
          port = Some number;
          listens = one_more self.old.listens;
          calls = after_call self.old.calls;
        }) }
        ensures after_failed { OnErr result (self.new ≡ record self.old {
          listens = one_more self.old.listens;
          calls = after_call self.old.calls;
          faults = one_more self.old.faults;
        }) }

        ensures ok { OnOk result (self.new.port ≡ Some number) }
        ensures err { OnErr result (self.new.port ≡ self.old.port) }
        ensures failed { result ≡ Err LinkError.Failed → Rose self.old.faults self.new.faults }
        ensures listens { self.new.listens ≡ one_more self.old.listens }
        ensures given { Some self.new.script.given ≡ Some self.old.script.given }
        ensures sent { Some self.new.sent ≡ Some self.old.sent }
        ensures lost { Some self.new.lost ≡ Some self.old.lost }
        ensures counted { self.old.faults ≤ self.new.faults }
        ensures gone_counted { self.old.gone ≤ self.new.gone }
    {
        self.listens = self.listens.saturating_add(1);
        let is_listed = self.calls.is_listed();
        self.calls.advance();
        if is_listed {
            self.faults = self.faults.saturating_add(1);
            return Err(LinkError::Failed);
        }
        self.port = Some(number);
        Ok(())
    }

    fn next(&mut self) -> Result<LinkEvent, LinkError>
        requires { IsSome self.old.port }
        ensures fails { (result ≡ Err LinkError.Failed) ↔ IsTrue (is_listed self.old.calls) }
        ensures event { IfOk result (λ event. event ≡ next_event self.old.script.coming) }
        ensures after_ok { IfOk result (λ event. self.new ≡ record self.old {
          script = record {
            coming = drop 1 self.old.script.coming;
            given = self.old.script.given ++ event ∷ [];
          };
          calls = after_call self.old.calls;
        }) }
        ensures after_failed { result ≡ Err LinkError.Failed → self.new ≡ record self.old {
          calls = after_call self.old.calls;
          faults = one_more self.old.faults;
        } }
        ensures after_memory { result ≡ Err LinkError.Memory → self.new ≡ self.old }

        ensures ok { IfOk result (λ event. Some self.new.script.given
            ≡ with_last (Some self.old.script.given) event) }
        ensures numbered { IfOk result (λ event. IfSome (Some self.old.script.given)
            (λ events. OpensAt (opened_count events) event)) }
        ensures err { OnErr result (Some self.new.script.given ≡ Some self.old.script.given) }
        ensures failed { result ≡ Err LinkError.Failed → Rose self.old.faults self.new.faults }
        ensures port { self.new.port ≡ self.old.port }
        ensures listens { self.new.listens ≡ self.old.listens }
        ensures sent { Some self.new.sent ≡ Some self.old.sent }
        ensures lost { Some self.new.lost ≡ Some self.old.lost }
        ensures counted { self.old.faults ≤ self.new.faults }
        ensures gone_counted { self.old.gone ≤ self.new.gone }
    {
        if self.calls.is_listed() {
            self.calls.advance();
            self.faults = self.faults.saturating_add(1);
            return Err(LinkError::Failed);
        }
        match self.script.next() {
            Ok(event) => {
                self.calls.advance();
                Ok(event)
            }
            Err(AllocError) => Err(LinkError::Memory),
        }
    }

    fn send(&mut self, link: u64, text: &Bytes) -> Result<(), SendError>
        ensures gone_if_listed { result ≡ Err SendError.Gone → is_listed self.old.sends ≡ true }
        ensures sent_if_not { OnOk result (is_listed self.old.sends ≡ false) }
        ensures after_ok { OnOk result (self.new ≡ record self.old {
          sent = self.old.sent ++ (link, text.now) ∷ [];
          sends = after_call self.old.sends;
        }) }
        ensures after_gone { result ≡ Err SendError.Gone → self.new ≡ record self.old {
          lost = self.old.lost ++ (length self.old.sent, link) ∷ [];
          sends = after_call self.old.sends;
          gone = one_more self.old.gone;
        } }
        ensures after_memory { result ≡ Err SendError.Memory → self.new ≡ self.old }

        ensures ok { OnOk result (Some self.new.sent
            ≡ with_last (Some self.old.sent) (link, text.now)) }
        ensures err { OnErr result (Some self.new.sent ≡ Some self.old.sent) }
        ensures gone { result ≡ Err SendError.Gone → Rose self.old.gone self.new.gone }
        ensures lost { result ≡ Err SendError.Gone → Some self.new.lost
            ≡ with_lost (Some self.old.sent) (Some self.old.lost) link }
        ensures kept { OnOk result (Some self.new.lost ≡ Some self.old.lost) }
        ensures memory { result ≡ Err SendError.Memory → Some self.new.lost ≡ Some self.old.lost }
        ensures port { self.new.port ≡ self.old.port }
        ensures listens { self.new.listens ≡ self.old.listens }
        ensures given { Some self.new.script.given ≡ Some self.old.script.given }
        ensures counted { self.old.faults ≤ self.new.faults }
        ensures gone_counted { self.old.gone ≤ self.new.gone }
    {
        if self.sends.is_listed() {
            if self.lost.push((self.sent.len(), link)).is_err() {
                return Err(SendError::Memory);
            }
            self.sends.advance();
            self.gone = self.gone.saturating_add(1);
            return Err(SendError::Gone);
        }
        let Ok(copy) = text.try_clone() else {
            return Err(SendError::Memory);
        };
        if self.sent.push((link, copy)).is_err() {
            return Err(SendError::Memory);
        }
        self.sends.advance();
        Ok(())
    }
}
