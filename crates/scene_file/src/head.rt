//! What a scene has beside its elements.

ghost use Rattle.std.specs.Prelude.{◌≡◌, List as Items, ◌++◌, ◌∷◌, [], IfOk, OnOk, OnErr, codes, if◌then◌else◌};
ghost use Rattle.json_text.specs.Compact.{Member as Pair};
ghost use Rattle.json_text.specs.Members.{pairs};
ghost use Rattle.json_text.specs.Parts.{AreMembers};
ghost use Rattle.scene_json.specs.Named.{AreSameMembers, HaveRisingNames};
ghost use Rattle.file_table.specs.Table.{AreLeastEntries, EntriesNest};
ghost use Rattle.scene_file.specs.Heads.{Heading, IsJoinedHead, lesser_source};
ghost use Rattle.scene_file.specs.Reading.{value_unless_null, HasMembers, IsHeadOf};

use board_base::List;
use file_table::Files;
use json_text::{Member, Text};
use scene_json::{raw_text, text_named};
use std::alloc::{AllocError, Global};
use std::marker::Model;

/// What a scene has beside its elements: its source, its settings and its files.
pub struct Head {
    pub source: Option<Text>,
    pub app_state: List<Member>,
    pub files: Files,
}

// By hand, so that whoever drops a head sees one call and not what it holds.
impl Drop for Head {
    fn drop(self) {
        let Head {
            source: _source,
            app_state: _app_state,
            files: _files,
        } = self;
    }
}

impl Model for Head {
    ghost use Rattle.scene_file.specs.Heads.{Heading, IsHeading};

    ghost Value = { Heading };

    ghost view = { λ h. record { source = h.source; app_state = h.app_state; files = h.files } };

    ghost invariant = { λ h. IsHeading (record {
      source = h.source;
      app_state = h.app_state;
      files =
          h.files;
    }) };
}

impl Head {
    ghost use Rattle.std.specs.Prelude.{◌≡◌, [], None};

    /// The head without anything, which no heads are joined to.
    pub fn new(alloc: Global) -> Head
        ensures { result ≡ record { source = None; app_state = []; files = [] } }
    {
        Head {
            source: None,
            app_state: List::new(alloc),
            files: Files::new(alloc),
        }
    }
}

/// Joins a further head to the head that others are joined to. For want of memory it is unchanged.
pub fn join(alloc: Global, head: &mut Head, other: &Head) -> Result<(), AllocError>
    ensures joined { OnOk result ((heads : Items Heading) → IsJoinedHead heads head.old
        → IsJoinedHead (heads ++ other.now ∷ []) head.new) }
    ensures kept { OnErr result (head.new ≡ head.old) }
{
    let source = lesser_source(alloc, &head.source, &other.source)?;
    let settings = table_of(alloc, &head.app_state, &other.app_state)?;
    let app_state = settings.by_id()?;
    let files = table_of(alloc, &head.files.by_id()?, &other.files.by_id()?)?;
    *head = Head {
        source,
        app_state,
        files,
    };
    Ok(())
}

/// Of two sources the one whose string is less by its bytes.
fn lesser_source(
    alloc: Global,
    source: &Option<Text>,
    other: &Option<Text>,
) -> Result<Option<Text>, AllocError>
    ensures { IfOk result (λ lesser. lesser ≡ lesser_source source.now other.now) }
{
    let lesser = if is_lesser(alloc, other, source)? {
        other
    } else {
        source
    };
    lesser.as_ref().map(Text::try_clone).transpose()
}

/// Whether the first of two sources is there, and its string is less by its bytes than that of the
/// second, if that is.
fn is_lesser(alloc: Global, source: &Option<Text>, other: &Option<Text>) -> Result<bool, AllocError>
    ensures { IfOk result (λ lesser. lesser_source other.now source.now
        ≡ (if lesser then source.now else other.now)) }
{
    match (source, other) {
        (None, _) => Ok(false),
        (Some(_), None) => Ok(true),
        (Some(text), Some(other)) => {
            let string = raw_text(alloc, text)?;
            let other_string = raw_text(alloc, other)?;
            Ok(string.as_bytes() < other_string.as_bytes())
        }
    }
}

/// For each name of both lists its least value.
fn table_of(
    alloc: Global,
    members: &List<Member>,
    others: &List<Member>,
) -> Result<Files, AllocError>
    requires nest { EntriesNest 126 (pairs members.now) }
    requires others_nest { EntriesNest 126 (pairs others.now) }
    ensures { IfOk result (AreLeastEntries (pairs members.now ++ pairs others.now)) }
{
    let mut table = Files::new(alloc);
    take_all(&mut table, members)?;
    take_all(&mut table, others)?;
    Ok(table)
}

/// Takes all these members into the table. After want of memory it may have some of them.
fn take_all(table: &mut Files, members: &List<Member>) -> Result<(), AllocError>
    requires { EntriesNest 126 (pairs members.now) }
    ensures { OnOk result ((given : Items Pair) → AreLeastEntries given table.old
        → AreLeastEntries (given ++ pairs members.now) table.new) }
{
    for member in members.as_slice() {
        let copy = member.try_clone()?;
        table.take(copy.name, copy.value)?;
    }
    Ok(())
}

/// The head that a scene's members say, whose settings and files these are.
pub(crate) fn head_of(
    alloc: Global,
    members: &List<Member>,
    settings: List<Member>,
    entries: List<Member>,
) -> Result<Head, AllocError>
    requires are_members { AreMembers 127 (pairs members.now) }
    requires settings { HasMembers (value_unless_null (codes "appState") (pairs members.now))
        (pairs settings) }
    requires entries { HasMembers (value_unless_null (codes "files") (pairs members.now))
        (pairs entries) }
    ensures { IfOk result (IsHeadOf (pairs members.now)) }
{
    let source = text_named(alloc, members, "source")?;
    let app_state = in_order(settings)?;
    let files = table_of(alloc, &entries, &List::new(alloc))?;
    Ok(Head {
        source,
        app_state,
        files,
    })
}

/// The members in the order of the bytes of their names.
fn in_order(members: List<Member>) -> Result<List<Member>, AllocError>
    requires { AreMembers 126 (pairs members) }
    ensures ordered { IfOk result (λ ordered. HaveRisingNames (pairs ordered)) }
    ensures same { IfOk result (λ ordered. AreSameMembers (pairs ordered) (pairs members)) }
    ensures nest { IfOk result (λ ordered. EntriesNest 126 (pairs ordered)) }
{
    let mut members = members.into_vec();
    members.sort_by(|a, b| a.name.cmp(&b.name))?;
    Ok(List::from_vec(members))
}
