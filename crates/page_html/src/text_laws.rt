//! What a page makes of the texts of files, each law as a function that does nothing.

ghost use Rattle.page_html.specs.TextLaws.{NoTextIsMarkup, TextsAreToldApart};

/// No character of a text is markup.
pub fn no_text_is_markup()
    ensures { NoTextIsMarkup }
{}

/// Two texts that differ are shown differently.
pub fn texts_are_told_apart()
    ensures { TextsAreToldApart }
{}
