//! What several exports files change.

ghost use Rattle.cli_sources.specs.Laws.{NamesAloneChange};

/// Of which of several texts each line is, changes no verdict and no listing.
pub fn names_alone_change()
    ensures { NamesAloneChange }
{}
