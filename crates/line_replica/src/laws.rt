//! Laws on living replicas, for all of them. They do nothing when they run.

ghost use Rattle.std.specs.Prelude.{◌≡◌, ◌≢◌, ◌≤◌, ◌+◌, ◌++◌, ℕ, List, Option, None, Some, length};
ghost use Rattle.std.specs.List.{AllByRecursion};
ghost use Rattle.elem.specs.Said.{AreElements};
ghost use Rattle.elem_store.specs.Updates.{AreStored, HaveSameUpdates};
ghost use Rattle.scene_file.specs.Heads.{Heading};
ghost use Rattle.scene_file.specs.Scenes.{scene_text};
ghost use Rattle.replica.specs.Back.{HasNothingPending, IsAs};
ghost use Rattle.replica.specs.Sound.{IsSoundState};
ghost use Rattle.session.specs.Reports.{shown_at};
ghost use Rattle.line_replica.specs.Asking.{AreThoseAnswered, AreTold, memory_text};
ghost use Rattle.line_replica.specs.Living.{Living};
ghost use Rattle.line_replica.specs.Sessions.{IsInSession, most_lines};
ghost use Rattle.line_replica.specs.Talks.{Answers, AnswersAll};
ghost use Rattle.line_replica.specs.Turning.{AreLinesOf, IsChangeLine, IsRedoLine, IsUndoLine};

/// A line has one answer at most, and leads to one replica; and so have lines one after the other.
pub fn answers_are_unique()
    ensures one { (old : Option Living) (line text other : List ℕ) (new next : Option Living)
        → Answers old line text new → Answers old line other next → (text ≡ other) × (new ≡ next) }
    ensures all { (old : Option Living) (lines texts others : List (List ℕ))
        (new next : Option Living)
        → AnswersAll old lines texts new → AnswersAll old lines others next → (texts ≡ others)
        × (new ≡ next) }
{}

/// Each line has an answer.
pub fn answers_exist()
    ensures { (old : Option Living) (line : List ℕ)
        → (text : List ℕ) × (new : Option Living) × Answers old line text new }
{
    room_msg::laws::reading_exists();
}

/// Lines of a whole talk are answered as the definition says, if no answer tells that allocation
/// failed. If some do, all other lines are answered so, as if these had not been asked.
pub fn told_lines_are_answered()
    ensures all { (lines texts : List (List ℕ)) → AreTold lines texts
        → AllByRecursion (λ text. text ≢ memory_text) texts
        → (after : Option Living) × AnswersAll None lines texts after }
    ensures others { (lines texts : List (List ℕ)) → AreTold lines texts
        → (left answers : List (List ℕ)) × (after : Option Living)
        × AreThoseAnswered lines texts left answers × AnswersAll None left answers after }
{}

/// Whatever lines there were, a replica stores the best of the updates that it took, for each id,
/// and nothing else.
pub fn replicas_store_what_they_took()
    ensures { (lines texts : List (List ℕ)) (l : Living) → AnswersAll None lines texts (Some l)
        → AreStored l.seat.taken l.seat.state.stored }
{}

/// What a replica holds is sound, and all updates that it took are elements, as long as there are
/// not too many lines.
pub fn states_are_sound()
    ensures sound { (lines texts : List (List ℕ)) (l : Living)
        → AnswersAll None lines texts (Some l)
        → length lines ≤ most_lines → IsSoundState l.seat.state }
    ensures taken { (lines texts : List (List ℕ)) (l : Living)
        → AnswersAll None lines texts (Some l)
        → length lines ≤ most_lines → AreElements l.seat.taken }
{
    room_msg::laws::read_messages_are_whole();
    session_laws::laws::states_are_sound();
}

/// Replicas that took the same updates, in whatever order, grouping and repetition, store and show
/// the same.
pub fn replicas_converge()
    ensures stored { (lines texts others answers : List (List ℕ)) (l other : Living)
        → AnswersAll None lines texts (Some l) → AnswersAll None others answers (Some other)
        → AreElements l.seat.taken → HaveSameUpdates l.seat.taken other.seat.taken
        → l.seat.state.stored ≡ other.seat.state.stored }
    ensures shown { (lines texts others answers : List (List ℕ)) (l other : Living) (head : Heading)
        → AnswersAll None lines texts (Some l) → AnswersAll None others answers (Some other)
        → AreElements l.seat.taken → HaveSameUpdates l.seat.taken other.seat.taken
        → scene_text head (shown_at l.seat) ≡ scene_text head (shown_at other.seat) }
{}

/// A replica on which nothing is pending makes changes, and then as many undos are done: it is as
/// it was before the changes, whatever is asked meanwhile, as long as there are not too many lines.
pub fn undo_brings_back()
    ensures { (before texts changes undos : List (List ℕ)) (l m k : Living) (n : ℕ)
        → AnswersAll None before texts (Some l) → HasNothingPending l.seat.state
        → AreLinesOf IsChangeLine l changes n m → AreLinesOf IsUndoLine m undos n k
        → length (before ++ (changes ++ undos)) ≤ most_lines → IsAs l.seat.state k.seat.state }
{
    room_msg::laws::read_messages_are_whole();
    session_laws::laws::undo_brings_back();
}

/// A replica on which nothing is pending makes changes, and then further ones; once all are undone,
/// and as many redos are done as there were of the first, it is as it was after these, whatever is
/// asked meanwhile, if there are not too many lines.
pub fn redo_repeats()
    ensures { (before texts again others undos redos : List (List ℕ)) (l m o u k : Living) (r n : ℕ)
        → AnswersAll None before texts (Some l) → HasNothingPending l.seat.state
        → AreLinesOf IsChangeLine l again r m → AreLinesOf IsChangeLine m others n o
        → AreLinesOf IsUndoLine o undos (r + n) u → AreLinesOf IsRedoLine u redos r k
        → length (before ++ (again ++ others ++ undos ++ redos)) ≤ most_lines
        → IsAs m.seat.state k.seat.state }
{
    room_msg::laws::read_messages_are_whole();
    session_laws::laws::redo_repeats();
}

/// Lines are events of a session, whose replica with that number comes to where they lead.
pub fn lines_are_of_a_session()
    ensures { (lines texts : List (List ℕ)) (l : Living) → AnswersAll None lines texts (Some l)
        → IsInSession lines l }
{
    room_msg::laws::read_messages_are_whole();
}
