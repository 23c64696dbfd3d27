//! The report that the target of a request asks for, and the target that asks for the report of words.
ghost use Rattle.std.specs.Prelude.{◌≡◌, ◌∷◌, ◌++◌, codes, map, option_map, IfOk, IfSome, OnOk};
ghost use Rattle.std.specs.List.{list_all};
ghost use Rattle.std.specs.String.{string_bytes};
ghost use Rattle.allotment.specs.Texts.{parts};
ghost use Rattle.commands.specs.Readings.{texts_of};
ghost use Rattle.report_words.specs.Targets.{ampersand, asks_for_report, fits_target, marked, question, report_asked, report_by, report_named, target_of};

use crate::jobs::report_of;
use command_line::{JobFault, report_job};
use saga_core::Report;
use std::alloc::{AllocError, Global};
use std::str;

/// What a target begins with that asks for a report.
const FRONT: &[u8] = b"/reports/";

/// Whether a target asks for a report, whichever it is.
pub fn asks_for_report(target: &[u8]) -> bool
    ensures asks { result ≡ asks_for_report target.now }
{
    target.strip_prefix(FRONT).is_some()
}

/// The report that a target asks for. Returns `None` if it asks for none, or by words that are refused. The only fault is out of
/// memory.
pub fn report_asked(alloc: Global, target: &[u8]) -> Result<Option<Report>, AllocError>
    ensures report { IfOk result (λ report. report ≡ report_asked target.now) }
{
    let Some(rest) = target.strip_prefix(FRONT) else {
        return Ok(None);
    };
    match str::from_utf8(rest) {
        Ok(text) => report_named(alloc, text),
        Err(_) => Ok(None),
    }
}

/// The report that the text of a target asks for, after what it begins with.
fn report_named(alloc: Global, text: &str) -> Result<Option<Report>, AllocError>
    ensures report { IfOk result (λ report. report ≡ report_named text.now) }
{
    let pieces = pieces_of(alloc, text)?;
    match pieces.as_slice() {
        [] => Ok(None),
        [name] => report_by(alloc, name, &[]),
        [name, query] => {
            let others = words_of(alloc, query)?;
            report_by(alloc, name, &others)
        }
        _ => Ok(None),
    }
}

/// The pieces of a text between question marks.
fn pieces_of(alloc: Global, text: &str) -> Result<Vec<&str>, AllocError>
    ensures pieces { IfOk result (λ pieces. texts_of pieces.items ≡ parts question text.now) }
{
    text.split('?').collect(alloc)
}

/// The words of a text between ampersands.
fn words_of(alloc: Global, text: &str) -> Result<Vec<&str>, AllocError>
    ensures words { IfOk result (λ words. texts_of words.items ≡ parts ampersand text.now) }
{
    text.split('&').collect(alloc)
}

/// The report of a name and the words that follow it.
fn report_by(alloc: Global, name: &str, others: &[&str]) -> Result<Option<Report>, AllocError>
    ensures report { IfOk result (λ report.
        report ≡ report_by (name.now ∷ texts_of others.now)) }
{
    let words = called(alloc, name, others)?;
    match report_job(alloc, words.as_slice()) {
        Ok(job) => Ok(report_of(&job)),
        Err(JobFault::Usage(_)) => Ok(None),
        Err(JobFault::Memory) => Err(AllocError),
    }
}

/// The words of a report: its name, and those that follow it.
fn called(alloc: Global, name: &str, others: &[&str]) -> Result<Vec<String>, AllocError>
    ensures words { IfOk result (λ words.
        map string_bytes words.items ≡ name.now ∷ texts_of others.now) }
{
    let mut words = Vec::with_capacity(alloc, others.len())?;
    words.push(String::from_str(alloc, name)?)?;
    for other in others {
        words.push(String::from_str(alloc, other)?)?;
    }
    Ok(words)
}

/// The target that asks for the report of these words, which have no file. Returns `None` for no words, and where one of them
/// has a `?` or `&`. The only fault is out of memory.
pub fn target_of(alloc: Global, words: &[String]) -> Result<Option<String>, AllocError>
    ensures target { IfOk result (λ target.
        option_map string_bytes target ≡ target_of (map string_bytes words.now)) }
    ensures answered { IfOk result (λ found. IfSome found (λ target.
        report_asked (string_bytes target) ≡ report_by (map string_bytes words.now))) }
{
    let Some((name, others)) = words.split_first() else {
        return Ok(None);
    };
    if !fit_target(words) {
        return Ok(None);
    }
    let mut text = name.clone()?;
    push_query(&mut text, others)?;
    Ok(Some(format!(in alloc; "/reports/{text}")?))
}

/// Whether each of the words may stand in a target.
fn fit_target(words: &[String]) -> bool
    ensures fit { result ≡ list_all (λ word. fits_target (string_bytes word)) words.now }
{
    words.iter().all(|word| fits_target(word.as_str()))
}

/// Whether a word may stand in a target: it has none of its marks.
fn fits_target(word: &str) -> bool
    ensures fits { result ≡ fits_target word.now }
{
    word.as_bytes()
        .iter()
        .all(|byte| *byte != b'?' && *byte != b'&')
}

/// Adds words to a target: `?` before the first, and `&` before each of the others.
fn push_query(target: &mut String, words: &[String]) -> Result<(), AllocError>
    ensures added { OnOk result (string_bytes target.new
        ≡ string_bytes target.old ++ marked (codes "?") (map string_bytes words.now)) }
{
    let Some((first, later)) = words.split_first() else {
        return Ok(());
    };
    target.push_str("?")?;
    target.push_str(first.as_str())?;
    push_marked(target, later)
}

/// Adds words to a target, with `&` before each.
fn push_marked(target: &mut String, words: &[String]) -> Result<(), AllocError>
    ensures added { OnOk result (string_bytes target.new
        ≡ string_bytes target.old ++ marked (codes "&") (map string_bytes words.now)) }
{
    for word in words {
        target.push_str("&")?;
        target.push_str(word.as_str())?;
    }
    Ok(())
}
