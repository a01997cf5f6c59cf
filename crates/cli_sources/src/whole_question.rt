//! What is asked of an exports text with its tables: the file systems are read first, and then the files.

ghost use Rattle.std.specs.Prelude.{List, Result};
ghost use Rattle.desk_text.specs.Lines.{IsReadable};
ghost use Rattle.desk_tables.specs.declared.filesystems.Mount.{Mount};
ghost use Rattle.desk_findings.specs.CheckFaults.{AreReadable};
ghost use Rattle.desk_findings.specs.declared.check_text.WholeSources.{WholeSources};
ghost use Rattle.cli_output.specs.declared.failure.Failure.{Failure};
ghost use Rattle.cli_output.specs.declared.printed.Printed.{Printed};
ghost use Rattle.cli_words.specs.Words.{rows_in};
ghost use Rattle.cli_sources.specs.WholeFiles.{files_of};
ghost use Rattle.cli_sources.specs.WholeQuestion.{AnswersFiles, AnswersWhole};

use crate::subject::Subject;
use crate::systems::read_systems;
use crate::whole_files::{WholeFiles, read_whole_texts, whole_files, whole_inputs, whole_sources};
use clap::ArgMatches;
use cli_output::failure::Failure;
use cli_output::printed::Printed;
use desk_findings::WholeSources;
use desk_tables::FileSystems;
use std::alloc::Global;
use std::io::BufRead;

/// What is asked of an exports text with its tables.
pub trait WholeQuestion {
    // The answer by these file systems and texts.
    ghost Answers: { Self → List Mount → WholeSources → Result Printed Failure → Type 0 };

    /// Answers by the texts of the files.
    fn answer(
        &self,
        alloc: Global,
        filesystems: &FileSystems,
        sources: WholeSources<'_>,
    ) -> Result<Printed, Failure>
        requires tables { AreReadable sources.tables }
        requires exports { IsReadable sources.exports.text.now }
        ensures { Answers self.now filesystems.now sources.entry result };
}

/// Answers what is asked of a file, or of a folder. A fault of its file systems is printed as JSON, if that is asked.
pub fn answer_whole<'w, Q: WholeQuestion, I: BufRead>(
    rt: &HostRuntime,
    json: bool,
    words: &ArgMatches<'w>,
    subject: &Subject<'w>,
    question: &Q,
    input: &mut I,
) -> Result<Printed, Failure>
    ensures { AnswersWhole (Q.Answers question.now) json (rows_in words.now) (I.remaining input.old) subject.now result }
{
    let files = whole_files(words, subject, "FILE");
    let others = whole_inputs(files);
    let systems = read_systems(rt, json, words, subject, others, input)?;
    match systems {
        Ok(filesystems) => answer_files(rt, question, &filesystems, files, input),
        Err(printed) => Ok(printed),
    }
}

/// Answers by these file systems and files.
fn answer_files<Q: WholeQuestion, I: BufRead>(
    rt: &HostRuntime,
    question: &Q,
    filesystems: &FileSystems,
    files: WholeFiles<'_>,
    input: &mut I,
) -> Result<Printed, Failure>
    ensures { AnswersFiles (Q.Answers question.now) (files_of files.entry) (I.remaining input.old) filesystems.now result }
{
    let texts = read_whole_texts(rt, files, input)?;
    let sources = whole_sources(files, &texts);
    question.answer(rt.alloc(), filesystems, sources)
}
