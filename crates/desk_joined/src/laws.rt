//! What the joined text says.

ghost use Rattle.desk_joined.specs.Laws.{JoinedLinesAreReadAsAlone, JoinedLinesAreThoseOfAll, JoinedLinesHaveTheWordsOfAll, JoinedTextHasTheLinesOfAll};

use desk_split::laws::join_keeps_words;

/// The lines of the joined text have the words of the lines of the texts, each read by itself, in order, and there are no others.
pub fn joined_lines_have_the_words_of_all()
    ensures { JoinedLinesHaveTheWordsOfAll }
{
    join_keeps_words();
}

/// Each line of the joined text has the path of its text, its number there and its words.
pub fn joined_lines_are_those_of_all()
    ensures { JoinedLinesAreThoseOfAll }
{}

/// Each physical line of the joined text has the path of its text and its number there.
pub fn joined_text_has_the_lines_of_all()
    ensures { JoinedTextHasTheLinesOfAll }
{}

/// Each line of the joined text is read as in its text alone: the same words or the same open quote, and each of its physical lines at its own
/// number.
pub fn joined_lines_are_read_as_alone()
    ensures { JoinedLinesAreReadAsAlone }
{}
