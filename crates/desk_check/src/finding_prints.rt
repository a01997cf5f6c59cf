//! How findings are printed, in the form that editors and CI take:
//! `exports:12:6: fault 5 UnknownOption: "-maprot" is not an option of exports(5)`.

ghost use Rattle.std.specs.Prelude.{◌≡◌, ◌++◌, ◌≤◌, [], IfOk, OnOk, Some, if◌then◌else◌, length};
ghost use Rattle.std.specs.List.{flat_map};
ghost use Rattle.std.specs.Option.{option_copied, option_map};
ghost use Rattle.std.specs.Str.{IsCharBoundary, chars};
ghost use Rattle.std.specs.String.{string_bytes};
ghost use Rattle.desk_text.specs.Address.{addr_text, number_of};
ghost use Rattle.desk_text.specs.Place.{LiesWithin};
ghost use Rattle.desk_findings.specs.Finding.{HasSlice, HaveSlices};
ghost use Rattle.desk_check.specs.FindingPrints.{IsAround};
ghost use Rattle.desk_check.specs.FindingPrints as spec;

use crate::hints::hint;
use desk_findings::{Finding, Matter};
use desk_origins::{LineName, Origin, own_place};
use desk_remarks::{Example, OtherLine, Remark};
use desk_shown::{push_blanks, push_carets, push_shown, push_shown_line};
use desk_text::{Addr, Path, Place};
use std::alloc::{AllocError, Global};

/// How many bytes a line may have that is shown whole, and how many characters a word.
const WHOLE_LENGTH: usize = 200;

/// How many bytes of a longer line are shown before the beginning of a slice, and from it on.
const REACH: usize = 100;

/// What stands for a part of a line that is cut off.
const DOTS: &str = "...";

/// The part of a line that is shown: where it begins and ends, in bytes.
#[derive(Clone, Copy)]
struct Excerpt {
    start: usize,
    end: usize,
}

/// Prints findings in their order, and at last a line with how many faults and warnings they are: `2 faults, 1 warning`.
/// Below each finding stand the line of the file and a line of carets under the slice, unless it is to be brief.
pub fn findings_text(alloc: Global, findings: &[Finding], brief: bool) -> Result<String, AllocError>
    requires { HaveSlices findings.now }
    ensures { IfOk result (λ text. string_bytes text ≡ spec.findings_text brief findings.now) }
{
    let mut text = String::new(alloc);
    push_findings(findings, brief, &mut text)?;
    push_count_line(findings, &mut text)?;
    Ok(text)
}

/// Prints the findings that are left in their order, and how many faults and warnings they are and how many warnings are ignored.
pub fn heard_text(
    alloc: Global,
    findings: &[Finding],
    ignored: usize,
    brief: bool,
) -> Result<String, AllocError>
    requires { HaveSlices findings.now }
    ensures { IfOk result (λ text. string_bytes text ≡ spec.heard_text brief ignored findings.now) }
{
    let mut text = String::new(alloc);
    push_findings(findings, brief, &mut text)?;
    push_heard_line(findings, ignored, &mut text)?;
    Ok(text)
}

/// Adds findings in their order.
fn push_findings(findings: &[Finding], brief: bool, text: &mut String) -> Result<(), AllocError>
    requires { HaveSlices findings.now }
    ensures { OnOk result (string_bytes text.new ≡ string_bytes text.old ++ flat_map (spec.finding_text brief) findings.now) }
{
    for finding in findings {
        push_finding(finding, brief, text)?;
    }
    Ok(())
}

/// Prints one finding, in whole lines.
pub fn finding_text(alloc: Global, finding: &Finding, brief: bool) -> Result<String, AllocError>
    requires { HasSlice finding.now }
    ensures { IfOk result (λ text. string_bytes text ≡ spec.finding_text brief finding.now) }
{
    let mut text = String::new(alloc);
    push_finding(finding, brief, &mut text)?;
    Ok(text)
}

/// Adds a finding.
fn push_finding(finding: &Finding, brief: bool, text: &mut String) -> Result<(), AllocError>
    requires { HasSlice finding.now }
    ensures { OnOk result (string_bytes text.new ≡ string_bytes text.old ++ spec.finding_text brief finding.now) }
{
    push_headline(finding, text)?;
    if brief {
        return Ok(());
    }
    push_lines(finding, text)
}

/// Adds the lines of a finding: the one of its slice, if it has one, and the other one, if it is shown.
fn push_lines(finding: &Finding, text: &mut String) -> Result<(), AllocError>
    requires { HasSlice finding.now }
    ensures { OnOk result (string_bytes text.new ≡ string_bytes text.old ++ spec.lines_text finding.now) }
{
    if let Some(place) = finding.place {
        push_marked_line(finding.source, place, text)?;
    }
    push_beside(finding, text)
}

/// Adds the other line, if it is shown.
fn push_beside(finding: &Finding, text: &mut String) -> Result<(), AllocError>
    ensures { OnOk result (string_bytes text.new ≡ string_bytes text.old ++ spec.beside_text finding.now) }
{
    match (other_of(finding.matter), finding.beside) {
        (Some(number), Some(line)) => {
            push_other_line(finding.origins, finding.path, number, line, text)
        }
        _ => Ok(()),
    }
}

/// Adds a line that is shown below the marked one: its place, and the line.
fn push_other_line(
    origins: &[Origin],
    path: &str,
    number: u32,
    line: &str,
    text: &mut String,
) -> Result<(), AllocError>
    ensures { OnOk result (string_bytes text.new ≡ string_bytes text.old ++ spec.other_line_text origins.now path.now number line.now) }
{
    let place = own_place(origins, path, number);
    let number = place.line;
    push_shown(place.path, text)?;
    write!(text, ":{number}:1: the other line\n")?;
    push_beginning(line, text)
}

/// Adds what is shown of a line from its beginning on.
fn push_beginning(line: &str, text: &mut String) -> Result<(), AllocError>
    ensures { OnOk result (string_bytes text.new ≡ string_bytes text.old ++ spec.excerpt_text line.now (spec.excerpt line.now 0)) }
{
    let part = excerpt_of(line, 0);
    push_excerpt(line, part, text)
}

/// Gives the other line: the earlier one of a contradiction or of a netgroup that is defined twice, or that of a remark's example.
pub fn other_of(matter: Matter) -> Option<u32>
    ensures { result ≡ spec.other_of matter }
{
    match matter {
        Matter::Contradiction(other, _) => Some(other),
        Matter::Fault(_, other) => other,
        Matter::Remark(_, example) => example.map(|shown| shown.line),
        Matter::Warning(_) => None,
    }
}

/// Adds the first line of a finding.
fn push_headline(finding: &Finding, text: &mut String) -> Result<(), AllocError>
    requires { HasSlice finding.now }
    ensures { OnOk result (string_bytes text.new ≡ string_bytes text.old ++ spec.headline finding.now) }
{
    push_position(finding, text)?;
    push_matter(finding.matter, text)?;
    push_message(finding, text)?;
    text.push('\n')
}

/// Adds where a finding is: its path, line and column.
fn push_position(finding: &Finding, text: &mut String) -> Result<(), AllocError>
    ensures { OnOk result (string_bytes text.new ≡ string_bytes text.old ++ spec.position_text finding.now) }
{
    let place = own_place(finding.origins, finding.path, finding.line());
    let line = place.line;
    let column = finding.column;
    push_shown(place.path, text)?;
    write!(text, ":{line}:{column}: ")
}

/// Adds what a finding is: `fault` or `warning`, a number and a name.
fn push_matter(matter: Matter, text: &mut String) -> Result<(), AllocError>
    ensures { OnOk result (string_bytes text.new ≡ string_bytes text.old ++ spec.matter_text matter) }
{
    let kind = matter.kind();
    let number = matter.number();
    let name = matter.name();
    write!(text, "{kind} {number} {name}: ")
}

/// Adds what a finding says: its sentence, and a hint if there is one.
pub fn push_message(finding: &Finding, text: &mut String) -> Result<(), AllocError>
    requires { HasSlice finding.now }
    ensures { OnOk result (string_bytes text.new
        ≡ string_bytes text.old ++ spec.message_of finding.now) }
{
    push_sentence(finding, text)?;
    push_hint(hint(finding.matter, finding.slice()), text)
}

/// Adds the sentence of a finding.
fn push_sentence(finding: &Finding, text: &mut String) -> Result<(), AllocError>
    requires { HasSlice finding.now }
    ensures { OnOk result (string_bytes text.new
        ≡ string_bytes text.old ++ spec.sentence finding.now.origins.now finding.now.source.now finding.now.place finding.now.matter finding.now.directory) }
{
    match finding.matter {
        Matter::Fault(rule, other) => {
            push_subject(finding, text)?;
            let sentence = rule.sentence();
            write!(text, " {sentence}")?;
            push_other(finding.origins, other, text)
        }
        Matter::Contradiction(other, address) => {
            let name = LineName {
                origins: finding.origins,
                line: other,
            };
            write!(text, "line {name} has other terms for {address}")
        }
        Matter::Warning(kind) => {
            push_subject(finding, text)?;
            let sentence = kind.sentence();
            write!(text, " {sentence}")
        }
        Matter::Remark(remark, None) => text.push_str(remark.sentence()),
        Matter::Remark(remark, Some(shown)) => {
            let directory = finding.directory.as_ref();
            push_remark(finding.origins, remark, shown, directory, text)
        }
    }
}

/// Adds what is said of a line, with the line, the address and the directory that show it.
fn push_remark(
    origins: &[Origin],
    remark: Remark,
    shown: Example,
    directory: Option<&Path>,
    text: &mut String,
) -> Result<(), AllocError>
    ensures { OnOk result (string_bytes text.new
        ≡ string_bytes text.old ++ spec.remark_with origins.now remark shown.line shown.address (option_copied directory.entry)) }
{
    let Example { line, address } = shown;
    let line = LineName { origins, line };
    match remark.other() {
        OtherLine::Grants => push_wider(line, address, directory, text),
        OtherLine::Taken => push_repeated(line, address, text),
        OtherLine::First => {
            text.push_str(remark.sentence())?;
            push_example(line, address, text)
        }
    }
}

/// Adds what shows a remark: a line, and an address.
fn push_example(line: LineName<'_>, address: Addr, text: &mut String) -> Result<(), AllocError>
    ensures { OnOk result (string_bytes text.new ≡ string_bytes text.old ++ spec.shown_by line.entry.origins.now line.entry.line address) }
{
    write!(text, ", beginning with line {line} for {address}")
}

/// Adds that an earlier line has a client.
fn push_repeated(line: LineName<'_>, address: Addr, text: &mut String) -> Result<(), AllocError>
    ensures { OnOk result (string_bytes text.new ≡ string_bytes text.old ++ spec.repeated_text line.entry.origins.now line.entry.line address) }
{
    push_taken(line, text)?;
    push_address(address, text)?;
    text.push_str(": write the directories on one line")
}

/// Adds that mountd(8) may leave the line out because of an earlier one.
fn push_taken(line: LineName<'_>, text: &mut String) -> Result<(), AllocError>
    ensures { OnOk result (string_bytes text.new ≡ string_bytes text.old ++ spec.taken_text line.entry.origins.now line.entry.line) }
{
    write!(
        text,
        "mountd(8) takes one line for a client and a file system, and may leave this one out, since line {line} has "
    )
}

/// Adds an address.
fn push_address(address: Addr, text: &mut String) -> Result<(), AllocError>
    ensures { OnOk result (string_bytes text.new ≡ string_bytes text.old ++ addr_text (number_of address)) }
{
    write!(text, "{address}")
}

/// Adds what the server lets a client mount by another line, and what to do about it.
fn push_wider(
    line: LineName<'_>,
    address: Addr,
    directory: Option<&Path>,
    text: &mut String,
) -> Result<(), AllocError>
    ensures { OnOk result (string_bytes text.new ≡ string_bytes text.old ++ spec.wider_text line.entry.origins.now line.entry.line address (option_copied directory.entry)) }
{
    text.push_str("mountd(8) also lets ")?;
    push_address(address, text)?;
    text.push_str(" mount ")?;
    push_granted(directory, text)?;
    push_remedy(line, remedy_of(directory), text)
}

/// Adds what the server lets a client mount.
fn push_granted(directory: Option<&Path>, text: &mut String) -> Result<(), AllocError>
    ensures { OnOk result (string_bytes text.new ≡ string_bytes text.old ++ spec.granted_text (option_copied directory.entry)) }
{
    match directory {
        Some(directory) => push_shown(directory.text(), text),
        None => text.push_str("each directory of the file system"),
    }
}

/// Gives what to write if that is meant.
fn remedy_of(directory: Option<&Path>) -> &'static str
    ensures { result.now ≡ spec.remedy_of (option_copied directory.entry) }
{
    match directory {
        Some(_) => "list the directory",
        None => "write -alldirs",
    }
}

/// Adds by which line that is, and what to do about it.
fn push_remedy(line: LineName<'_>, remedy: &str, text: &mut String) -> Result<(), AllocError>
    ensures { OnOk result (string_bytes text.new ≡ string_bytes text.old ++ spec.remedy_text line.entry.origins.now line.entry.line remedy.now) }
{
    write!(
        text,
        " by line {line}: {remedy} here as well if that is meant, else keep the client out of the network of line {line}, or give it a file system of its own"
    )
}

/// Adds what the sentence is about: the slice in quotes, as a word, of which an empty one reads `"" is not a name`, or the file
/// as a whole, as in `the file needs a line among the custodians`.
fn push_subject(finding: &Finding, text: &mut String) -> Result<(), AllocError>
    requires { HasSlice finding.now }
    ensures { OnOk result (string_bytes text.new
        ≡ string_bytes text.old ++ spec.subject finding.now.source.now finding.now.place) }
{
    if finding.place.is_none() {
        return text.push_str("the file");
    }
    text.push('"')?;
    push_word(finding.slice(), text)?;
    text.push('"')
}

/// Adds a word, or of one of more than 200 characters its beginning and how many characters are cut off.
pub fn push_word(word: &str, text: &mut String) -> Result<(), AllocError>
    ensures { OnOk result (string_bytes text.new ≡ string_bytes text.old ++ spec.shown_word word.now) }
{
    if count_characters(word) > WHOLE_LENGTH {
        push_cut(word, text)
    } else {
        push_shown(word, text)
    }
}

/// Adds the beginning of a word, as an excerpt of a line has it, and how many characters are cut off.
fn push_cut(word: &str, text: &mut String) -> Result<(), AllocError>
    ensures { OnOk result (string_bytes text.new ≡ string_bytes text.old ++ spec.cut_text word.now (spec.excerpt word.now 0)) }
{
    let part = excerpt_of(word, 0);
    push_shown(&word[part.start..part.end], text)?;
    push_more(count_characters(&word[part.end..word.len()]), text)
}

/// Adds how many characters are cut off.
fn push_more(count: usize, text: &mut String) -> Result<(), AllocError>
    ensures { OnOk result (string_bytes text.new ≡ string_bytes text.old ++ spec.more_text count) }
{
    write!(text, ".. (and {count} more characters)")
}

/// Counts the characters of a text.
fn count_characters(text: &str) -> usize
    ensures { result ≡ length (chars text.now) }
{
    text.chars().count()
}

/// Adds the earlier line of a netgroup, if there is one.
fn push_other(origins: &[Origin], other: Option<u32>, text: &mut String) -> Result<(), AllocError>
    ensures { OnOk result (string_bytes text.new ≡ string_bytes text.old ++ spec.other_text origins.now other) }
{
    match other {
        Some(line) => {
            let name = LineName { origins, line };
            write!(text, ": line {name}")
        }
        None => Ok(()),
    }
}

/// Adds a hint, if there is one.
fn push_hint(hint: Option<&str>, text: &mut String) -> Result<(), AllocError>
    ensures { OnOk result (string_bytes text.new ≡ string_bytes text.old ++ spec.hint_text (option_map (λ hint. hint.now) hint.entry)) }
{
    match hint {
        Some(hint) => write!(text, "; {hint}"),
        None => Ok(()),
    }
}

/// Adds a line of a file, or what is shown of a long one, and a line of carets under this slice of it.
pub fn push_marked_line(source: &str, place: Place, text: &mut String) -> Result<(), AllocError>
    requires { LiesWithin source.now place }
    ensures { OnOk result (string_bytes text.new ≡ string_bytes text.old ++ spec.marked_line source.now (Some place)) }
{
    let part = excerpt_of(source, place.start);
    push_excerpt(source, part, text)?;
    push_marks(source, place, part, text)
}

/// Finds what is shown of a line with a slice that begins at this byte.
fn excerpt_of(line: &str, start: usize) -> Excerpt
    requires { IsCharBoundary line.now start }
    ensures exact { result ≡ spec.excerpt line.now start }
    ensures around { IsAround line.now start result }
{
    let reach = if line.len() > WHOLE_LENGTH {
        REACH
    } else {
        WHOLE_LENGTH
    };
    Excerpt {
        start: line.floor_char_boundary(start.saturating_sub(reach)),
        end: line.floor_char_boundary(start + reach),
    }
}

/// Adds this part of a line, with dots for what is cut off.
fn push_excerpt(line: &str, part: Excerpt, text: &mut String) -> Result<(), AllocError>
    requires begins { IsCharBoundary line.now part.start }
    requires ends { IsCharBoundary line.now part.end }
    requires ordered { part.start ≤ part.end }
    ensures { OnOk result (string_bytes text.new ≡ string_bytes text.old ++ spec.excerpt_text line.now part) }
{
    push_if(part.start > 0, DOTS, text)?;
    push_shown_line(&line[part.start..part.end], text)?;
    push_if(part.end < line.len(), DOTS, text)?;
    text.push('\n')
}

/// Adds the line of carets under what this part of a line has of a slice.
fn push_marks(line: &str, place: Place, part: Excerpt, text: &mut String) -> Result<(), AllocError>
    requires slice { LiesWithin line.now place }
    requires around { IsAround line.now place.start part }
    ensures { OnOk result (string_bytes text.new ≡ string_bytes text.old ++ spec.marks line.now place part) }
{
    push_if(part.start > 0, "   ", text)?;
    push_blanks(&line[part.start..place.start], text)?;
    let end = if place.end < part.end {
        place.end
    } else {
        part.end
    };
    push_carets(&line[place.start..end], text)?;
    text.push('\n')
}

/// Adds a text if it is wanted.
fn push_if(wanted: bool, more: &str, text: &mut String) -> Result<(), AllocError>
    ensures { OnOk result (string_bytes text.new ≡ string_bytes text.old ++ (if wanted then more.now else [])) }
{
    if wanted { text.push_str(more) } else { Ok(()) }
}

/// Adds the line with how many faults and warnings there are.
fn push_count_line(findings: &[Finding], text: &mut String) -> Result<(), AllocError>
    ensures { OnOk result (string_bytes text.new ≡ string_bytes text.old ++ spec.count_line findings.now) }
{
    push_counts(findings, text)?;
    text.push('\n')
}

/// Adds the line with how many faults and warnings there are, and how many warnings are ignored.
fn push_heard_line(
    findings: &[Finding],
    ignored: usize,
    text: &mut String,
) -> Result<(), AllocError>
    ensures { OnOk result (string_bytes text.new ≡ string_bytes text.old ++ spec.heard_line ignored findings.now) }
{
    push_counts(findings, text)?;
    write!(text, ", {ignored} ignored\n")
}

/// Adds how many faults and warnings there are.
fn push_counts(findings: &[Finding], text: &mut String) -> Result<(), AllocError>
    ensures { OnOk result (string_bytes text.new ≡ string_bytes text.old ++ spec.counts findings.now) }
{
    push_counted(count_faults(findings), "fault", text)?;
    text.push_str(", ")?;
    push_counted(count_warnings(findings), "warning", text)
}

fn count_faults(findings: &[Finding]) -> usize
    ensures { result ≡ spec.fault_count findings.now }
{
    findings
        .iter()
        .filter(|finding| finding.matter.is_fault())
        .count()
}

fn count_warnings(findings: &[Finding]) -> usize
    ensures { result ≡ spec.warning_count findings.now }
{
    findings
        .iter()
        .filter(|finding| !finding.matter.is_fault())
        .count()
}

/// Adds a count of what this word says.
fn push_counted(count: usize, word: &str, text: &mut String) -> Result<(), AllocError>
    ensures { OnOk result (string_bytes text.new ≡ string_bytes text.old ++ spec.counted count word.now) }
{
    if count == 1 {
        write!(text, "{count} {word}")
    } else {
        write!(text, "{count} {word}s")
    }
}
