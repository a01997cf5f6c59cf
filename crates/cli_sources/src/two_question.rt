//! What is asked of an exports text with its tables and of a second text: the file systems are read first, and then the files.

ghost use Rattle.std.specs.Prelude.{List, Result};
ghost use Rattle.desk_text.specs.Lines.{IsReadable};
ghost use Rattle.desk_tables.specs.declared.filesystems.Mount.{Mount};
ghost use Rattle.desk_findings.specs.CheckFaults.{AreReadable};
ghost use Rattle.cli_output.specs.declared.failure.Failure.{Failure};
ghost use Rattle.cli_output.specs.declared.printed.Printed.{Printed};
ghost use Rattle.cli_words.specs.Words.{rows_in};
ghost use Rattle.cli_sources.specs.TwoFiles.{files_of_two};
ghost use Rattle.cli_sources.specs.TwoQuestion.{AnswersFiles, AnswersTwo};
ghost use Rattle.cli_sources.specs.declared.two_files.TwoSources.{TwoSources};

use crate::subject::{Subject, word_of};
use crate::systems::read_systems;
use crate::table_files::TextFile;
use crate::two_files::{TwoFiles, TwoSources, read_two_texts, two_inputs, two_sources};
use crate::whole_files::whole_files;
use clap::ArgMatches;
use cli_output::failure::Failure;
use cli_output::printed::Printed;
use desk_tables::FileSystems;
use std::alloc::Global;
use std::io::BufRead;

/// The arguments that name the two texts, as the usage names them.
#[derive(Clone, Copy)]
pub struct TwoNames {
    pub first: &'static str,
    pub second: &'static str,
}

/// What is asked of an exports text with its tables and of a second text.
pub trait TwoQuestion {
    // The answer by these file systems and texts.
    ghost Answers: { Self → List Mount → TwoSources → Result Printed Failure → Type 0 };

    /// Answers by the texts of the files.
    fn answer(
        &self,
        alloc: Global,
        filesystems: &FileSystems,
        sources: TwoSources<'_>,
    ) -> Result<Printed, Failure>
        requires tables { AreReadable sources.tables }
        requires first { IsReadable sources.first.text.now }
        requires second { IsReadable sources.second.text.now }
        ensures { Answers self.now filesystems.now sources.entry result };
}

/// Answers what is asked of a file, or of a folder, and of a second file. A fault of its file systems is printed as JSON, if that is
/// asked.
pub fn answer_two<'w, Q: TwoQuestion, I: BufRead>(
    rt: &HostRuntime,
    json: bool,
    words: &ArgMatches<'w>,
    subject: &Subject<'w>,
    names: TwoNames,
    question: &Q,
    input: &mut I,
) -> Result<Printed, Failure>
    ensures { AnswersTwo (Q.Answers question.now) json names.first.now names.second.now (rows_in words.now) (I.remaining input.old) subject.now result }
{
    let word = word_of(words, subject, names.first, names.second)?;
    let files = TwoFiles {
        whole: whole_files(words, subject, names.first),
        second: TextFile {
            argument: names.second,
            path: Some(word),
            optional: false,
        },
    };
    let others = two_inputs(files);
    let systems = read_systems(rt, json, words, subject, others, input)?;
    match systems {
        Ok(filesystems) => answer_files(rt, question, &filesystems, files, input),
        Err(printed) => Ok(printed),
    }
}

/// Answers by these file systems and files.
fn answer_files<Q: TwoQuestion, I: BufRead>(
    rt: &HostRuntime,
    question: &Q,
    filesystems: &FileSystems,
    files: TwoFiles<'_>,
    input: &mut I,
) -> Result<Printed, Failure>
    ensures { AnswersFiles (Q.Answers question.now) (files_of_two files.entry) (I.remaining input.old) filesystems.now result }
{
    let texts = read_two_texts(rt, files, input)?;
    let sources = two_sources(files, &texts);
    question.answer(rt.alloc(), filesystems, sources)
}
