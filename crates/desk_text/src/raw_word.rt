//! A word of a line as it is written, with its quotes and escapes.

ghost use Rattle.std.specs.Prelude.{◌≡◌, IfNone, IfSome, true};
ghost use Rattle.desk_text.specs.Word.{has_marks, word_value};

/// A word as it is written: its raw text with quotes and escapes, its place in the text in bytes,
/// and whether its first raw character is `-`.
#[derive(Clone, Copy)]
pub struct Word<'a> {
    pub raw: &'a str,
    pub start: usize,
    pub dashed: bool,
    /// Whether a quote or a backslash stands in it, which is seen where it is cut.
    pub(crate) marked: bool,
    ghost marks: { has_marks raw.now ≡ marked },
}

impl<'a> Word<'a> {
    /// Lends the text of a word that is written without quotes and escapes: it stands for just that.
    pub fn plain(&self) -> Option<&'a str>
        ensures value { IfSome result (λ text. text.now ≡ word_value self.now.raw.now) }
        ensures marked { IfNone result (has_marks self.now.raw.now ≡ true) }
    {
        if self.marked {
            return None;
        }
        Some(self.raw)
    }
}
