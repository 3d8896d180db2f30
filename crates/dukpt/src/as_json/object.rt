//! An answer as an object of JSON.

ghost use Rattle.std.specs.Prelude.{◌≡◌, ◌++◌, ◌∷◌, [], OnOk, flat_map, map, string_bytes};
ghost use Rattle.json.specs.Token.{begin_array, end_array, string};
ghost use Rattle.dukpt.specs.inner.Answer.{object_of, tokens_of_member};
ghost use Rattle.dukpt.specs.inner.Members.{member_of};
ghost use Rattle.dukpt.specs.inner.Objects.{object_line};

use crate::as_json::answer::{Answer, Member};
use crate::as_json::names::may_come_again;
use json::Writer;
use std::alloc::{AllocError, Global};
use std::mem;

/// Appends the object of an answer, and LF. Where memory is refused, the object may stand there in
/// part.
pub(crate) fn push_object(
    alloc: Global,
    lines: &mut Vec<u8>,
    answer: &Answer,
) -> Result<(), AllocError>
    ensures { OnOk result (lines.new.items
        ≡ lines.old.items ++ object_line (map member_of answer.now.members.items)) }
{
    let mut writer = Writer::new(mem::replace(lines, Vec::new(alloc)));
    let written = write_object(&mut writer, answer);
    *lines = writer.into_inner();
    written?;
    lines.push(b'\n')?;
    Ok(())
}

/// Writes the object of an answer.
fn write_object(writer: &mut Writer, answer: &Answer) -> Result<(), AllocError>
    ensures before { writer.new.before ≡ writer.old.before }
    ensures tokens { OnOk result (writer.new.tokens
        ≡ writer.old.tokens ++ object_of (map member_of answer.now.members.items)) }
{
    writer.begin_object()?;
    for member in &answer.members {
        write_member(writer, member)?;
    }
    writer.end_object()
}

/// Writes a member: its name and its text, or the array of its texts.
fn write_member(writer: &mut Writer, member: &Member) -> Result<(), AllocError>
    ensures before { writer.new.before ≡ writer.old.before }
    ensures tokens { OnOk result (writer.new.tokens
        ≡ writer.old.tokens ++ tokens_of_member (member_of member.now)) }
{
    let name = member.name.as_str();
    writer.key(name)?;
    match member.texts.as_slice() {
        [text] if !may_come_again(name) => writer.string(text.as_str()),
        texts => write_array(writer, texts),
    }
}

/// Writes the array of texts.
fn write_array(writer: &mut Writer, texts: &[String]) -> Result<(), AllocError>
    ensures before { writer.new.before ≡ writer.old.before }
    ensures tokens { OnOk result (writer.new.tokens ≡ writer.old.tokens
        ++ begin_array ∷ (map string (map string_bytes texts.now) ++ end_array ∷ [])) }
{
    writer.begin_array()?;
    for text in texts {
        writer.string(text.as_str())?;
    }
    writer.end_array()
}
