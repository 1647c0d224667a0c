//! The text of a report.

ghost use Rattle.std.specs.Prelude.{◌≡◌, ◌∷◌, ◌++◌, decimal, map, IfOk, OnOk};
ghost use Rattle.std.specs.List.{join_with_byte};
ghost use Rattle.json_text.specs.Compact.{member_text, object_text};
ghost use Rattle.session.specs.Texts as texts;

use crate::report::{RefusedEvent, ReplicaReport, Report};
use board_base::Bytes;
use effects::Refusal;
use json_text::{push_quote, push_quoted};
use scene_json::{push_comma, push_whole};
use std::alloc::{AllocError, Global};

/// The compact text of a report; no line feed ends it. Fails only for want of memory.
pub fn report_text(alloc: Global, report: &Report) -> Result<Bytes, AllocError>
    ensures { IfOk result (λ text. text ≡ texts.report_text report.now) }
{
    let mut out = Vec::new(alloc);
    out.extend_from_slice(b"{\"replicas\":[")?;
    push_replicas(&mut out, report.replicas.as_slice())?;
    out.extend_from_slice(b"],\"messages\":")?;
    push_whole(&mut out, report.messages)?;
    out.extend_from_slice(b",\"refused\":[")?;
    push_refused(&mut out, report.refused.as_slice())?;
    out.extend_from_slice(b"],\"clashes\":")?;
    push_whole(&mut out, report.clashes)?;
    out.push(b'}')?;
    Ok(Bytes::from_vec(out))
}

/// Appends the texts of the reports on replicas, with commas between them.
fn push_replicas(out: &mut Vec<u8>, reports: &[ReplicaReport]) -> Result<(), AllocError>
    ensures { OnOk result
        (out.new.items ≡ out.old.items ++ join_with_byte 44 (map texts.replica_text reports.now)) }
{
    for (i, report) in reports.iter().enumerate() {
        push_comma(out, i)?;
        push_replica(out, report)?;
    }
    Ok(())
}

/// Appends the text of the report on a replica.
fn push_replica(out: &mut Vec<u8>, report: &ReplicaReport) -> Result<(), AllocError>
    ensures { OnOk result (out.new.items ≡ out.old.items ++ texts.replica_text report.now) }
{
    out.extend_from_slice(b"{\"scene\":")?;
    out.extend_from_slice(report.scene.as_slice())?;
    push_number(out, "taken", report.taken)?;
    push_number(out, "stored", report.stored)?;
    push_number(out, "live", report.live)?;
    push_number(out, "undo", report.undo)?;
    push_number(out, "redo", report.redo)?;
    out.push(b'}')?;
    Ok(())
}

/// Appends a comma and a member whose value is a number.
fn push_number(out: &mut Vec<u8>, name: &str, number: u64) -> Result<(), AllocError>
    ensures { OnOk result
        (out.new.items ≡ out.old.items ++ 44 ∷ member_text (name.now, decimal number)) }
{
    out.push(b',')?;
    push_quoted(out, name)?;
    out.push(b':')?;
    push_whole(out, number)
}

/// Appends the texts of the reports on refused events, with commas between them.
fn push_refused(out: &mut Vec<u8>, events: &[RefusedEvent]) -> Result<(), AllocError>
    ensures { OnOk result
        (out.new.items ≡ out.old.items ++ join_with_byte 44 (map texts.refused_text events.now)) }
{
    for (i, event) in events.iter().enumerate() {
        push_comma(out, i)?;
        push_event(out, event)?;
    }
    Ok(())
}

/// Appends the text of the report on a refused event.
fn push_event(out: &mut Vec<u8>, event: &RefusedEvent) -> Result<(), AllocError>
    ensures { OnOk result (out.new.items ≡ out.old.items ++ texts.refused_text event.now) }
{
    out.extend_from_slice(b"{\"event\":")?;
    push_whole(out, event.event)?;
    out.push(b',')?;
    push_why(out, &event.why)?;
    out.push(b'}')?;
    Ok(())
}

/// The text of a refusal: what it is called, and the name that it holds, or null; where nothing is
/// given, that there was nothing to undo or to redo. Fails only for want of memory.
pub fn refusal_text(alloc: Global, why: Option<Refusal>) -> Result<Bytes, AllocError>
    ensures { IfOk result (λ text. text ≡ object_text (texts.refusal_members why)) }
{
    let mut out = Vec::new(alloc);
    out.push(b'{')?;
    push_why(&mut out, &why)?;
    out.push(b'}')?;
    Ok(Bytes::from_vec(out))
}

/// Appends the members that tell a refusal.
fn push_why(out: &mut Vec<u8>, why: &Option<Refusal>) -> Result<(), AllocError>
    ensures { OnOk result (out.new.items ≡ out.old.items ++
        join_with_byte 44 (map member_text (texts.refusal_members why.now))) }
{
    out.extend_from_slice(b"\"refusal\":")?;
    push_quoted(out, words_of(why))?;
    out.extend_from_slice(b",\"name\":")?;
    push_name(out, why)?;
    Ok(())
}

/// What a refusal is called.
fn words_of(why: &Option<Refusal>) -> &'static str
    ensures { result.now ≡ texts.refusal_words why.now }
{
    match why {
        None => "nothing",
        Some(Refusal::Exists(_)) => "exists",
        Some(Refusal::NoElement(_)) => "no element",
        Some(Refusal::WrongKind(_)) => "wrong kind",
        Some(Refusal::Protected(_)) => "protected",
        Some(Refusal::VersionFull(_)) => "version full",
    }
}

/// Appends the quote of the name that a refusal holds, or null.
fn push_name(out: &mut Vec<u8>, why: &Option<Refusal>) -> Result<(), AllocError>
    ensures { OnOk result (out.new.items ≡ out.old.items ++ texts.refusal_name why.now) }
{
    match why {
        None => out.extend_from_slice(b"null"),
        Some(
            Refusal::Exists(name)
            | Refusal::NoElement(name)
            | Refusal::WrongKind(name)
            | Refusal::Protected(name)
            | Refusal::VersionFull(name),
        ) => push_quote(out, name),
    }
}
