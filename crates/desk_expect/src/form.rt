//! The words of a line by what they are.

ghost use Rattle.std.specs.Prelude.{◌≡◌, ◌≤◌, MatchOption, false, length, position};
ghost use Rattle.std.specs.Str.{bytes_eq};
ghost use Rattle.desk_expect.specs.Form as spec;

use desk_text::Text;

/// The words of a line: WHOM [but NAME..] may [not] ACTION DIR..
#[derive(Clone, Copy)]
pub struct Form<'a> {
    pub whom: &'a [Text],
    pub but: &'a [Text],
    pub forbids: bool,
    pub action: &'a str,
    pub dirs: &'a [Text],
}

/// Tells the words of a line apart, if they have the form of one.
pub fn form_of<'a>(words: &'a [Text]) -> Option<Form<'a>>
    ensures { MatchOption result (spec.has_form words.now ≡ false) (spec.IsFormOf words.now) }
{
    let may = index_of(words, "may");
    if may == words.len() {
        return None;
    }
    let subject = &words[..may];
    if !has_subject(subject) {
        return None;
    }
    let but = index_of(subject, "but");
    let promised = &words[may + 1..];
    let forbids = begins_with_not(promised);
    let acted = without_not(promised);
    if acted.len() < 2 {
        return None;
    }
    Some(Form {
        whom: &subject[..but],
        but: after(subject, but),
        forbids,
        action: acted[0].as_str(),
        dirs: &acted[1..],
    })
}

/// Tests whether a line is about everybody: the word stands by itself.
pub(crate) fn is_everybody(whom: &[Text]) -> bool
    ensures { result ≡ spec.is_everybody whom.now }
{
    match whom {
        [word] => word.as_str() == "everybody",
        _ => false,
    }
}

/// Returns the names of those whom a line is about: none if it is about everybody.
pub(crate) fn named(whom: &[Text]) -> &[Text]
    ensures { result.now ≡ spec.named whom.now }
{
    if is_everybody(whom) { &[] } else { whom }
}

/// Tests whether something stands before `but`, and something after it, if it stands among the words before `may`.
pub(crate) fn has_subject(subject: &[Text]) -> bool
    ensures { result ≡ spec.has_subject subject.now }
{
    let but = index_of(subject, "but");
    but != 0 && but + 1 != subject.len()
}

/// Returns the words after a place, which may be the end.
fn after(words: &[Text], at: usize) -> &[Text]
    ensures { result.now ≡ spec.after words.now at }
{
    if at < words.len() {
        &words[at + 1..]
    } else {
        &[]
    }
}

/// Finds the place of the first word that is this one, or how many words there are.
pub(crate) fn index_of(words: &[Text], word: &str) -> usize
    ensures value { result ≡ spec.index_of words.now word.now }
    ensures within { result ≤ length words.now }
{
    match place_of(words, word) {
        Some(at) => at,
        None => words.len(),
    }
}

fn place_of(words: &[Text], word: &str) -> Option<usize>
    ensures { result ≡ position (λ other. bytes_eq other word.now) words.now }
{
    words.iter().position(|other| other.as_str() == word)
}

fn begins_with_not(words: &[Text]) -> bool
    ensures { result ≡ spec.begins_with_not words.now }
{
    match words.first() {
        Some(word) => word.as_str() == "not",
        None => false,
    }
}

/// Returns the words without `not` at their beginning.
fn without_not(words: &[Text]) -> &[Text]
    ensures { result.now ≡ spec.without_not words.now }
{
    if !words.is_empty() && begins_with_not(words) {
        &words[1..]
    } else {
        words
    }
}
