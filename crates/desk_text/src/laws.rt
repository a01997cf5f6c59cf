//! Laws of addresses, networks, paths, logical lines and words. Each is proved as the contract of a function that does
//! nothing: the definitions walk over a text, and these say what they come to.

ghost use Rattle.desk_text.specs.Laws.{AddrsReadBack, AtomsAreUnique, CoversBetweenFirstAndLast, GroupsAreUnique, LinesAreNumbered, LinesAscend, MasksReadBack, PartsAreSlices, PathsReadBack, PhysicalLinesAreLines, PrintedPathsDiffer, SortedSetsAreUnique, WordsAreMaximalRuns, WordsAreSlices, WrittenPathsReadBack};

/// The physical lines of a text fall into groups in one way.
pub fn groups_are_unique()
    ensures { GroupsAreUnique }
{}

/// The physical lines are the lines of the text as std has them.
pub fn physical_lines_are_lines()
    ensures { PhysicalLinesAreLines }
{}

/// The logical lines ascend by their numbers.
pub fn lines_ascend()
    ensures { LinesAscend }
{}

/// The physical lines of a logical line are those of the text from its number on.
pub fn lines_are_numbered()
    ensures { LinesAreNumbered }
{}

/// The physical lines of the logical lines are slices of the text, in ascending order.
pub fn parts_are_slices()
    ensures { PartsAreSlices }
{}

/// The raw words are slices of the text, in ascending order.
pub fn words_are_slices()
    ensures { WordsAreSlices }
{}

/// A text is written by one list of atoms.
pub fn atoms_are_unique()
    ensures { AtomsAreUnique }
{}

/// The words of a text are its maximal runs of atoms without a blank, and the atoms of a word are those of its run.
pub fn words_are_maximal_runs()
    ensures { WordsAreMaximalRuns }
{}

/// Paths that are printed alike have the same components.
pub fn printed_paths_differ()
    ensures { PrintedPathsDiffer }
{}

/// A printed path reads as that path.
pub fn paths_read_back()
    ensures { PathsReadBack }
{}

/// The path that a text writes reads back from its printed form.
pub fn written_paths_read_back()
    ensures { WrittenPathsReadBack }
{}

/// A printed address reads as that address.
pub fn addrs_read_back()
    ensures { AddrsReadBack }
{}

/// Numbers have one list that ascends, each once, and has just them: their sorted set.
pub fn sorted_sets_are_unique()
    ensures { SortedSetsAreUnique }
{}

/// The mask of a prefix reads as that prefix.
pub fn masks_read_back()
    ensures { MasksReadBack }
{}

/// A network covers the addresses from its first to its last one, and no other.
pub fn covers_between_first_and_last()
    ensures { CoversBetweenFirstAndLast }
{}
