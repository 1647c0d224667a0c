//! The names of members.

/// A member that a text of a session, or a line of a living replica, may lack.
#[derive(Clone, Copy, Debug, PartialEq, Eq)]
pub enum MemberName {
    Session,
    Replicas,
    Seed,
    Do,
    At,
    Time,
    Capture,
    Command,
    Elements,
    To,
    Picks,
    Id,
    Name,
    Element,
    Spot,
    Member,
    Value,
    Ids,
    Arrow,
    End,
    Target,
    Binding,
    Container,
    Text,
    Frame,
    Group,
    Prefix,
    Clip,
    Replica,
    Number,
    Message,
}

impl MemberName {
    ghost use Rattle.std.specs.Prelude.{◌≡◌};
    ghost use Rattle.session_text.specs.Names.{word_of};

    /// The member's name in a text.
    pub fn word(self) -> &'static str
        ensures { result.now ≡ word_of self }
    {
        match self {
            MemberName::Session => "session",
            MemberName::Replicas => "replicas",
            MemberName::Seed => "seed",
            MemberName::Do => "do",
            MemberName::At => "at",
            MemberName::Time => "time",
            MemberName::Capture => "capture",
            MemberName::Command => "command",
            MemberName::Elements => "elements",
            MemberName::To => "to",
            MemberName::Picks => "picks",
            MemberName::Id => "id",
            MemberName::Name => "name",
            MemberName::Element => "element",
            MemberName::Spot => "spot",
            MemberName::Member => "member",
            MemberName::Value => "value",
            MemberName::Ids => "ids",
            MemberName::Arrow => "arrow",
            MemberName::End => "end",
            MemberName::Target => "target",
            MemberName::Binding => "binding",
            MemberName::Container => "container",
            MemberName::Text => "text",
            MemberName::Frame => "frame",
            MemberName::Group => "group",
            MemberName::Prefix => "prefix",
            MemberName::Clip => "clip",
            MemberName::Replica => "replica",
            MemberName::Number => "number",
            MemberName::Message => "message",
        }
    }
}
