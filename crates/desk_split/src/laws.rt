//! What holds of a text that is split, and of files that are joined.

ghost use Rattle.desk_split.specs.Laws.{EachTextComesBack, JoinKeepsWords, JoinedTextsCanBeSplit};
ghost use Rattle.desk_split.specs.Splitting.{SplitKeepsWords, SplitSendsEachLineOnce};

/// Each text that a whole text is split into has the words of the lines that go to its file system.
pub fn split_keeps_words()
    ensures { SplitKeepsWords }
{}

/// Each line of a whole text that is split is in the text of one file system, that of its first directory; together these
/// texts have its lines, in order.
pub fn split_sends_each_line_once()
    ensures { SplitSendsEachLineOnce }
{}

/// The lines of the joined text have the words of the lines of the texts, in order, and there are no others.
pub fn join_keeps_words()
    ensures { JoinKeepsWords }
{}

/// If each text can be split, the joined text can be, and each line goes where it goes from its own text.
pub fn joined_texts_can_be_split()
    ensures { JoinedTextsCanBeSplit }
{
    split_keeps_words();
}

/// Texts of which each line goes to their own file system come back when the joined text is split.
pub fn each_text_comes_back()
    ensures { EachTextComesBack }
{
    split_keeps_words();
}
