//! The verdict on one mount over an exports text, and why.

ghost use Rattle.std.specs.Prelude.{◌≡◌, ◌++◌, ◌∷◌, [], IfOk, None, Ok, Some, is_ok};
ghost use Rattle.std.specs.Option.{option_map};
ghost use Rattle.std.specs.String.{string_bytes};
ghost use Rattle.desk_text.specs.Lines.{IsReadable};
ghost use Rattle.desk_exports.specs.declared.profile.Profile.TheVariants.{Two};
ghost use Rattle.desk_policy.specs.Parsing.{read_of, read_whole_with};
ghost use Rattle.desk_policy.specs.Prints.{acting_text, verdict_line};
ghost use Rattle.desk_policy.specs.Verdict.{verdict_result};
ghost use Rattle.desk_why.specs.WhyPrints.{why_text};
ghost use Rattle.serde_json.specs.Written.{compact_text};
ghost use Rattle.cli_verdict.specs.TryText.{Answers, AnswersHere, AnswersThere, PrintsTried, TellsVerdict, Tries, TriesHere, TriesThere, answer_of, answer_on, answer_text, lines_text, mount_question_of, object_of};

use crate::asking::Asking;
use crate::object_lines::object_line;
use cli_output::printed::Printed;
use cli_output::shown_lines::shown_lines;
use desk_exports::Profile;
use desk_index::Index;
use desk_json::{verdict_object, why_object};
use desk_origins::Origin;
use desk_policy::{
    Plain, Policy, PolicyView, SiteFault, SiteTables, Verdict, parse_whole_without_warnings,
    verdict_text, warnings_change_no_answer,
};
use desk_server::server_decide;
use desk_server_prints::{left_out_note, wider_note};
use desk_tables::{Cred, FileSystems};
use desk_text::{Addr, Path, ReadError};
use desk_why::{Asked, why_text};
use std::alloc::{AllocError, Global};

/// A question of a client: whether it may mount a directory.
#[derive(Clone, Copy)]
pub struct MountQuestion<'a> {
    /// The client.
    pub address: Addr,
    /// The directory.
    pub path: &'a Path,
    /// The client's credential, if it is given: a granted line says as whom it acts.
    pub own: &'a Option<Cred>,
    /// By which rule it is asked, and whether with reasons.
    pub asking: Asking,
    /// Whether the answer is printed as one compact JSON object.
    pub json: bool,
}

/// The answer to a client's question by a policy that is consistent.
#[derive(Drop)]
pub struct Tried {
    /// Whether the mount is granted.
    pub granted: bool,
    /// What is printed, in whole lines: the verdict, and below it why, if that is asked; or both as one object.
    pub text: String,
    /// What standard error says of mountd(8) beside it, in whole lines, or nothing.
    pub note: String,
}

/// Decides whether a client may mount a directory, by a whole exports text, read by profile 2 with these tables and these file
/// systems; or returns the text's fault: its first faulty line, or else its least contradiction. If several texts were read as one, lines
/// are named by them.
pub fn try_text(
    alloc: Global,
    text: &str,
    origins: &[Origin],
    site_tables: &SiteTables,
    filesystems: FileSystems,
    question: MountQuestion<'_>,
) -> Result<Tried, ReadError<SiteFault>>
    requires { IsReadable text.now }
    ensures { Tries site_tables.now (read_of origins.now (read_whole_with Two site_tables.now filesystems text.now)) (mount_question_of question.entry) result }
{
    let policy = parse_whole_without_warnings(
        alloc,
        Profile::Two,
        text,
        origins,
        filesystems,
        site_tables,
    )?;
    // No answer rests on the warnings, which are left out.
    warnings_change_no_answer();
    answer_by(alloc, policy, site_tables, question)
}

/// Decides by a policy, or returns its least contradiction.
fn answer_by(
    alloc: Global,
    policy: Policy,
    site_tables: &SiteTables,
    question: MountQuestion<'_>,
) -> Result<Tried, ReadError<SiteFault>>
    ensures { Tries site_tables.now (Ok policy) (mount_question_of question.entry) result }
{
    match question.asking {
        Asking::Verdict | Asking::Reasons => answer_here(alloc, policy, site_tables, question),
        Asking::Server => answer_there(alloc, policy, question),
    }
}

/// Decides by the rule of this desk, or returns the policy's least contradiction. One question takes no index.
fn answer_here(
    alloc: Global,
    policy: Policy,
    site_tables: &SiteTables,
    question: MountQuestion<'_>,
) -> Result<Tried, ReadError<SiteFault>>
    ensures { TriesHere site_tables.now policy (mount_question_of question.entry) result }
{
    let view = Plain::build(alloc, policy)?;
    let tried = tried_here(alloc, &view, site_tables, question)?;
    Ok(tried)
}

/// Decides by the rule of mountd(8), or returns the policy's least contradiction.
fn answer_there(
    alloc: Global,
    policy: Policy,
    question: MountQuestion<'_>,
) -> Result<Tried, ReadError<SiteFault>>
    ensures { TriesThere policy (mount_question_of question.entry) result }
{
    let index = Index::build(alloc, policy)?;
    let tried = tried_there(alloc, &index, question)?;
    Ok(tried)
}

/// Decides by the policy in force whether a client may mount a directory. The tables are those that the policy was read with.
pub fn tried_by(
    alloc: Global,
    index: &Index,
    site_tables: &SiteTables,
    question: MountQuestion<'_>,
) -> Result<Tried, AllocError>
    ensures { IfOk result (Answers site_tables.now index.now (mount_question_of question.entry)) }
{
    match question.asking {
        Asking::Verdict | Asking::Reasons => tried_here(alloc, index, site_tables, question),
        Asking::Server => tried_there(alloc, index, question),
    }
}

/// Decides by the rule of this desk, and tells why, if that is asked.
fn tried_here<V: PolicyView>(
    alloc: Global,
    view: &V,
    site_tables: &SiteTables,
    question: MountQuestion<'_>,
) -> Result<Tried, AllocError>
    ensures { IfOk result (AnswersHere site_tables.now (V.in_force view.now) (mount_question_of question.entry)) }
{
    match question.asking {
        Asking::Reasons => tried_why(alloc, view, site_tables, question),
        Asking::Verdict | Asking::Server => tried_above(alloc, view, question, None),
    }
}

/// Decides by the rule of this desk, and tells why.
fn tried_why<V: PolicyView>(
    alloc: Global,
    view: &V,
    site_tables: &SiteTables,
    question: MountQuestion<'_>,
) -> Result<Tried, AllocError>
    ensures { let asked = mount_question_of question.entry in let content = V.in_force view.now in
        IfOk result (TellsVerdict (Some (why_text site_tables.now.netgroups site_tables.now.hosts content asked.address asked.path)) content asked) }
{
    let asked = Asked {
        netgroups: &site_tables.netgroups,
        hosts: &site_tables.hosts,
        address: question.address,
        path: question.path,
    };
    let reasons = why_text(alloc, view, asked)?;
    tried_with(alloc, view, question, reasons.as_str())
}

/// Decides by the rule of this desk, and tells these reasons below the verdict, as they are shown, or as a member of its object.
pub fn tried_with<V: PolicyView>(
    alloc: Global,
    view: &V,
    question: MountQuestion<'_>,
    reasons: &str,
) -> Result<Tried, AllocError>
    ensures { IfOk result (TellsVerdict (Some reasons.now) (V.in_force view.now) (mount_question_of question.entry)) }
{
    tried_above(alloc, view, question, Some(reasons))
}

/// Decides by the rule of this desk, above these reasons. Standard error says by which line mountd(8) grants what is denied.
fn tried_above<V: PolicyView>(
    alloc: Global,
    view: &V,
    question: MountQuestion<'_>,
    reasons: Option<&str>,
) -> Result<Tried, AllocError>
    ensures { IfOk result (TellsVerdict (option_map (λ lines. lines.now) reasons.entry) (V.in_force view.now) (mount_question_of question.entry)) }
{
    let verdict = view.decide(question.address, question.path);
    let note = wider_note(
        alloc,
        view.policy(),
        question.address,
        question.path,
        &verdict,
    )?;
    let text = answer_text(alloc, view.policy(), &verdict, question, reasons)?;
    Ok(Tried {
        granted: is_granted(&verdict),
        text,
        note,
    })
}

/// Decides by the rule of mountd(8). Standard error names the lines that mountd(8) may leave out.
fn tried_there(
    alloc: Global,
    index: &Index,
    question: MountQuestion<'_>,
) -> Result<Tried, AllocError>
    ensures { IfOk result (AnswersThere index.now (mount_question_of question.entry)) }
{
    let note = left_out_note(alloc, index)?;
    let verdict = server_decide(index, question.address, question.path);
    let text = answer_text(alloc, index.policy(), &verdict, question, None)?;
    Ok(Tried {
        granted: is_granted(&verdict),
        text,
        note,
    })
}

/// Writes a verdict on a question, with these reasons, if there are any: in lines, or as one object.
fn answer_text(
    alloc: Global,
    policy: &Policy,
    verdict: &Verdict<'_>,
    question: MountQuestion<'_>,
    reasons: Option<&str>,
) -> Result<String, AllocError>
    ensures { IfOk result (λ text. string_bytes text
        ≡ answer_text question.entry.json (option_map (λ lines. lines.now) reasons.entry) policy.now question.entry.own.now (verdict_result verdict.now)) }
{
    if question.json {
        let object = object_text(alloc, policy, verdict, question.own, reasons)?;
        object_line(alloc, object.as_str())
    } else {
        lines_text(alloc, policy, verdict, question.own, reasons)
    }
}

/// Writes a verdict as an object, with these reasons as a member of it, if there are any.
fn object_text(
    alloc: Global,
    policy: &Policy,
    verdict: &Verdict<'_>,
    own: &Option<Cred>,
    reasons: Option<&str>,
) -> Result<String, AllocError>
    ensures { IfOk result (λ text. string_bytes text
        ≡ compact_text (object_of (option_map (λ lines. lines.now) reasons.entry) policy.now own.now (verdict_result verdict.now))) }
{
    match reasons {
        Some(reasons) => why_object(alloc, policy, verdict, own, reasons),
        None => verdict_object(alloc, policy, verdict, own),
    }
}

/// Writes a verdict in a line, and below it these reasons, if there are any, as they are shown.
fn lines_text(
    alloc: Global,
    policy: &Policy,
    verdict: &Verdict<'_>,
    own: &Option<Cred>,
    reasons: Option<&str>,
) -> Result<String, AllocError>
    ensures { IfOk result (λ text. string_bytes text
        ≡ lines_text (option_map (λ lines. lines.now) reasons.entry) policy.now own.now (verdict_result verdict.now)) }
{
    let mut text = verdict_lines(alloc, policy, verdict, own)?;
    if let Some(reasons) = reasons {
        let shown = shown_lines(alloc, reasons)?;
        text.push_str(shown.as_str())?;
    }
    Ok(text)
}

/// Prints a verdict by a policy in a line, and says whether it grants the mount. If the client's credential is given, a granted line
/// says as whom it acts.
pub fn printed_verdict(
    alloc: Global,
    policy: &Policy,
    verdict: &Verdict<'_>,
    own: &Option<Cred>,
) -> Result<Tried, AllocError>
    ensures { IfOk result (λ tried. answer_of tried ≡ answer_on policy.now own.now (verdict_result verdict.now)) }
{
    let text = verdict_lines(alloc, policy, verdict, own)?;
    Ok(Tried {
        granted: is_granted(verdict),
        text,
        note: String::new(alloc),
    })
}

/// Writes a verdict in a line.
fn verdict_lines(
    alloc: Global,
    policy: &Policy,
    verdict: &Verdict<'_>,
    own: &Option<Cred>,
) -> Result<String, AllocError>
    ensures { IfOk result (λ text. string_bytes text
        ≡ verdict_line policy.now (verdict_result verdict.now) ++ acting_text (verdict_result verdict.now) own.now ++ 10 ∷ []) }
{
    let mut text = verdict_text(alloc, policy, verdict, own)?;
    text.push('\n')?;
    Ok(text)
}

/// Tests whether a verdict grants the mount.
fn is_granted(verdict: &Verdict<'_>) -> bool
    ensures { result ≡ is_ok (verdict_result verdict.now) }
{
    matches!(verdict, Verdict::Granted { .. })
}

/// Prints the answer to a client's question: the status is 0 if it grants the mount, else 1.
pub fn print_tried(tried: Tried) -> Printed
    ensures { PrintsTried tried result }
{
    Printed {
        status: if tried.granted { 0 } else { 1 },
        text: tried.text,
        note: tried.note,
    }
}
