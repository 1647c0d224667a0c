//! Laws on sessions and on lines, for all of them. They do nothing when they run.

ghost use Rattle.std.specs.Prelude.{◌≡◌, ◌⊎◌, ℕ, List, Result};
ghost use Rattle.json_text.specs.Value.{IsCompact};
ghost use Rattle.session_text.specs.Facts.{IsSession};
ghost use Rattle.session_text.specs.Lines.{OpeningText, LineText};
ghost use Rattle.session_text.specs.Sessions.{IsSessionOf, IsSessionFault};
ghost use Rattle.session_text.specs.declared.fault.SessionFault.{SessionFault};
ghost use Rattle.session_text.specs.declared.fault.TextFault.{TextFault};
ghost use Rattle.session_text.specs.declared.lines.Line.{Line};
ghost use Rattle.session_text.specs.declared.lines.Opening.{Opening};
ghost use Rattle.session_text.specs.declared.session.Session.{Session};

/// Bytes are one session at most, or have one first fault at most, and not both.
pub fn reading_is_unique()
    ensures session { (bytes : List ℕ) (session other : Session)
        → IsSessionOf bytes session → IsSessionOf bytes other → session ≡ other }
    ensures fault { (bytes : List ℕ) (fault other : SessionFault)
        → IsSessionFault bytes fault → IsSessionFault bytes other → fault ≡ other }
    ensures faultless { (bytes : List ℕ) (session : Session) (fault : SessionFault)
        → IsSessionOf bytes session → IsSessionFault bytes fault → ⊥ }
{}

/// Each list of bytes is a session, or has a first fault.
pub fn reading_exists()
    ensures { (bytes : List ℕ)
        → ((session : Session) × IsSessionOf bytes session)
        ⊎ ((fault : SessionFault) × IsSessionFault bytes fault) }
{}

/// What is read keeps to the limits, and is of elements.
pub fn sessions_keep_limits()
    ensures { (bytes : List ℕ) (session : Session) → IsSessionOf bytes session → IsSession session }
{}

/// A compact text is one opening and one line at most, and as each it has one first fault at most,
/// and not both.
pub fn line_reading_is_unique()
    ensures opening { (text : List ℕ) (answer other : Result Opening TextFault)
        → IsCompact 128 text → OpeningText text answer → OpeningText text other → answer ≡ other }
    ensures line { (text : List ℕ) (answer other : Result Line TextFault)
        → IsCompact 128 text → LineText text answer → LineText text other → answer ≡ other }
{}

/// Each compact text is an opening, or has a first fault as one, and so as a line.
pub fn line_reading_exists()
    ensures opening { (text : List ℕ)
        → IsCompact 128 text → (answer : Result Opening TextFault) × OpeningText text answer }
    ensures line { (text : List ℕ)
        → IsCompact 128 text → (answer : Result Line TextFault) × LineText text answer }
{}
