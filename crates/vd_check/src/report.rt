//! The lines of a report.

ghost use Rattle.std.specs.Prelude.{◌≡◌, ◌++◌, ◌∷◌, [], flat_map, codes, decimal, string_bytes, IfOk, OnOk};
ghost use Rattle.vd_check.specs.Report.{kind_text, spaced, function_text, work_text, verdict_text, finding_text, are_accepted, failure_text, link_text, report_lines};

use std::alloc::{AllocError, Global};
use vd_base::{List, Name, Text};
use vd_store::{Report, Verdict, WorkKind, WorkName};

/// A work, and what is found of it.
pub struct Finding {
    pub work: WorkName,
    pub verdict: Verdict,
}

impl Drop for Finding {
    fn drop(self) {
        let Finding {
            work: _,
            verdict: _,
        } = self;
    }
}

/// A link condition that fails: its number, and the words that stand behind it in the report.
#[derive(Drop)]
pub struct Failure {
    pub condition: u8,
    pub words: List<Text>,
}

fn put_word(line: &mut Text, word: &[u8]) -> Result<(), AllocError>
    ensures { OnOk result (line.new ≡ line.old ++ spaced word.now) }
{
    line.append(b" ")?;
    line.append(word)
}

fn put_number(alloc: Global, line: &mut Text, number: u32) -> Result<(), AllocError>
    ensures { OnOk result (line.new ≡ line.old ++ spaced (decimal number)) }
{
    let digits = format!(in alloc; "{number}")?;
    put_word(line, digits.as_bytes())
}

// ---- works

fn kind_text(kind: WorkKind) -> &'static str
    ensures { result.now ≡ kind_text kind }
{
    match kind {
        WorkKind::Header => "header",
        WorkKind::Body => "body",
        WorkKind::Sub => "sub",
        WorkKind::Init => "init",
    }
}

fn work_text(alloc: Global, work: &WorkName) -> Result<Text, AllocError>
    ensures { IfOk result (λ line. line ≡ work_text work.now) }
{
    let mut line = Text::new(alloc, kind_text(work.kind).as_bytes())?;
    put_word(&mut line, work.owner.as_bytes())?;
    if let Some(function) = &work.function {
        put_word(&mut line, function.as_bytes())?;
    }
    Ok(line)
}

fn put_verdict(alloc: Global, line: &mut Text, verdict: Verdict) -> Result<(), AllocError>
    ensures { OnOk result (line.new ≡ line.old ++ verdict_text verdict) }
{
    match verdict {
        Verdict::Accepted => line.append(b" ok"),
        Verdict::Refused(at, rule, condition) => {
            line.append(b" refused")?;
            put_number(alloc, line, at)?;
            put_number(alloc, line, u32::from(rule))?;
            put_number(alloc, line, u32::from(condition))
        }
    }
}

fn finding_text(alloc: Global, finding: &Finding) -> Result<Text, AllocError>
    ensures { IfOk result (λ line. line ≡ finding_text finding.now) }
{
    let mut line = work_text(alloc, &finding.work)?;
    put_verdict(alloc, &mut line, finding.verdict)?;
    Ok(line)
}

/// Whether no work is refused.
pub fn are_accepted(findings: &[Finding]) -> bool
    ensures { result ≡ are_accepted findings.now }
{
    findings.iter().all(|finding| finding.verdict.is_accepted())
}

// ---- the link

fn put_words(line: &mut Text, words: &[Text]) -> Result<(), AllocError>
    ensures { OnOk result (line.new ≡ line.old ++ flat_map spaced words.now) }
{
    for word in words {
        put_word(line, word.as_bytes())?;
    }
    Ok(())
}

fn put_failure(alloc: Global, line: &mut Text, failure: &Option<Failure>) -> Result<(), AllocError>
    ensures { OnOk result (line.new ≡ line.old ++ failure_text failure.now) }
{
    match failure {
        None => line.append(b" ok"),
        Some(failure) => {
            line.append(b" refused")?;
            put_number(alloc, line, u32::from(failure.condition))?;
            put_words(line, failure.words.as_slice())
        }
    }
}

fn link_text(alloc: Global, link: &Name, failure: &Option<Failure>) -> Result<Text, AllocError>
    ensures { IfOk result (λ line. line ≡ link_text link.now failure.now) }
{
    let mut line = Text::new(alloc, b"link")?;
    put_word(&mut line, link.as_bytes())?;
    put_failure(alloc, &mut line, failure)?;
    Ok(line)
}

/// A line for each work, and the line of the link.
pub fn report_of(
    alloc: Global,
    findings: &[Finding],
    link: &Name,
    failure: &Option<Failure>,
) -> Result<Report, AllocError>
    ensures { IfOk result (λ report. report.lines ≡ report_lines findings.now link.now failure.now) }
{
    let mut lines = List::new(alloc);
    for finding in findings {
        lines.push(finding_text(alloc, finding)?)?;
    }
    lines.push(link_text(alloc, link, failure)?)?;
    Ok(Report { lines })
}
