//! The report of a preview.
ghost use Rattle.std.specs.Prelude.{◌≡◌, ◌≢◌, ◌++◌, IfErr, IfOk, OnOk};
ghost use Rattle.std.specs.Io.KnownBytes.{Appends};
ghost use Rattle.saga_core.specs.Written.{WroteFront};
ghost use Rattle.previews.specs.Layouts.{why_ending, why_head, why_in, why_row};

use crate::lines::{brief_lines, next_line, night_line, step_line};
use crate::nights::FreeNight;
use crate::objects::{next_object, night_object, step_object};
use crate::records::{why_heading, why_record};
use crate::steps::Preview;
use reports::{ReportFault, journey_object};
use saga_core::{Format, send_all};
use std::alloc::{AllocError, Global};
use std::io::Write;

/// Writes the report of a preview, with what is free of each night of its next want.
///
/// The lines of a text are `journey` with the number and the agent, `state` with the position and phase, `next` with the
/// item and the want of the next step, `night` with each night and its free places, or that it is unallotted, and `step`
/// with the item that a step makes now. A finished journey has no next step and no night, and its step is `none`. JSON has
/// an object for each of these lines but `state`, which stands in the first; CSV a heading, and a record for each night, or
/// one record if there is none.
pub fn why_text<W: Write>(
    alloc: Global,
    format: Format,
    preview: &Preview,
    nights: &[FreeNight],
    out: &mut W,
) -> Result<(), ReportFault>
    ensures written { OnOk result (Appends (W.contents out.old) (W.contents out.new)
        (why_in format preview.now nights.now)) }

    ensures front { WroteFront (W.contents out.old) (W.contents out.new)
        (why_in format preview.now nights.now) }
    ensures no_store { IfErr result (λ fault. fault ≢ ReportFault.Store) }
{
    let bytes = why_bytes(alloc, format, preview, nights)?;
    send_all(out, bytes.as_slice())?;
    Ok(())
}

/// The report in memory: a want has few nights.
fn why_bytes(
    alloc: Global,
    format: Format,
    preview: &Preview,
    nights: &[FreeNight],
) -> Result<Vec<u8>, AllocError>
    ensures bytes { IfOk result (λ bytes. bytes.items ≡ why_in format preview.now nights.now) }
{
    let mut text = why_head(alloc, format, preview)?;
    for night in nights {
        push_row(alloc, format, preview, night, &mut text)?;
    }
    let ending = why_ending(alloc, format, preview)?;
    text.extend_from_slice(ending.as_slice())?;
    Ok(text)
}

/// Adds the line of a night.
fn push_row(
    alloc: Global,
    format: Format,
    preview: &Preview,
    night: &FreeNight,
    text: &mut Vec<u8>,
) -> Result<(), AllocError>
    ensures row { OnOk result (text.new.items
        ≡ text.old.items ++ why_row format preview.now night.now) }
{
    let row = why_row(alloc, format, preview, night)?;
    text.extend_from_slice(row.as_slice())?;
    Ok(())
}

/// What comes before the nights.
fn why_head(alloc: Global, format: Format, preview: &Preview) -> Result<Vec<u8>, AllocError>
    ensures head { IfOk result (λ bytes. bytes.items ≡ why_head format preview.now) }
{
    match format {
        Format::Text => {
            let mut text = brief_lines(alloc, &preview.brief)?;
            let next = next_line(alloc, &preview.next)?;
            text.push_str(next.as_str())?;
            Ok(text.into_bytes())
        }
        Format::Json => {
            let mut text = journey_object(alloc, &preview.brief)?;
            let next = next_object(alloc, preview.brief.id, &preview.next)?;
            text.push_str(next.as_str())?;
            Ok(text.into_bytes())
        }
        Format::Csv => Ok(String::from_str(alloc, why_heading())?.into_bytes()),
    }
}

/// The line of a night.
fn why_row(
    alloc: Global,
    format: Format,
    preview: &Preview,
    night: &FreeNight,
) -> Result<Vec<u8>, AllocError>
    ensures row { IfOk result (λ bytes. bytes.items ≡ why_row format preview.now night.now) }
{
    match format {
        Format::Text => Ok(night_line(alloc, night)?.into_bytes()),
        Format::Json => Ok(night_object(alloc, preview.brief.id, night)?.into_bytes()),
        Format::Csv => why_record(alloc, preview, &Some(*night)),
    }
}

/// What comes after the nights.
fn why_ending(alloc: Global, format: Format, preview: &Preview) -> Result<Vec<u8>, AllocError>
    ensures ending { IfOk result (λ bytes. bytes.items ≡ why_ending format preview.now) }
{
    match format {
        Format::Text => Ok(step_line(alloc, &preview.step)?.into_bytes()),
        Format::Json => Ok(step_object(alloc, preview.brief.id, &preview.step)?.into_bytes()),
        Format::Csv if preview.next.is_none() => why_record(alloc, preview, &None),
        Format::Csv => Ok(Vec::new(alloc)),
    }
}
