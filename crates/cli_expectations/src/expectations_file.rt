//! A text of expectations, as a command is given it.

ghost use Rattle.desk_text.specs.Lines.{IsReadable};
ghost use Rattle.cli_expectations.specs.ReportForm.{GivesForm};

use cli_output::failure::Failure;

/// The form in which it is printed what is broken.
#[derive(Clone, Copy)]
pub enum ReportForm {
    Text,
    /// One JSON list, for programs.
    Json,
    /// A log of SARIF, for code hosts.
    Sarif,
}

/// Returns the form that is asked for. A list and a log cannot both be.
pub fn form_by(json: bool, sarif: bool) -> Result<ReportForm, Failure>
    ensures { GivesForm json sarif result }
{
    match (json, sarif) {
        (false, false) => Ok(ReportForm::Text),
        (true, false) => Ok(ReportForm::Json),
        (false, true) => Ok(ReportForm::Sarif),
        (true, true) => Err(Failure::BesideSarif("--json")),
    }
}

/// A text of expectations, which has at most 4,294,967,294 bytes, with the path of its file, as it was given, and the form in which it is
/// printed what is broken.
#[derive(Clone, Copy)]
pub struct ExpectationsFile<'a> {
    pub path: &'a str,
    pub text: &'a str,
    pub form: ReportForm,
    /// The path of the exports text, as it was given; `None` in a database, which has one for each file system.
    pub exports: Option<&'a str>,
    ghost readable: { IsReadable text.now },
}
