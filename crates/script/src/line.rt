//! The lines of a text.
ghost use Rattle.std.specs.Prelude.{◌≡◌, ◌≢◌, ◌∷◌, ◌++◌, ◌≤◌, All, MatchOption, length, take, true};
ghost use Rattle.std.specs.Prelude.{false};
ghost use Rattle.hashkeys.specs.Text.{is_key};
ghost use Rattle.script.specs.Lines.{BeginsWith, line_feed, space};

use crate::bytes::place_before;
use hashkeys::Key;
use std::marker::Model;

/// A line of a text, without its line feed, or a word of one. What follows it in the text is kept
/// beside it, so that its last bytes can be looked at together with others. Contracts see the
/// line's bytes.
#[derive(Drop)]
pub(crate) struct TextLine<'a> {
    text: &'a [u8],
    len: usize,
}

impl<'a> Model for TextLine<'a> {
    ghost use Rattle.std.specs.Prelude.{◌≤◌, ℕ, List, length, take};

    ghost Value = { List ℕ };

    ghost view = { λ l. take l.len l.text.now };

    ghost invariant = { λ l. l.len ≤ length l.text.now };
}

/// The first line of a text, and what follows its line feed, if there is one.
#[inline(always)]
pub(crate) fn first_line(text: &[u8]) -> Option<(TextLine<'_>, &[u8])>
    ensures { MatchOption result (All (λ b. b ≢ line_feed) text.now)
        (λ r. BeginsWith text.now r.0 r.1.now) }
{
    let len = place_before(text, text.len(), b'\n');
    if len >= text.len() {
        return None;
    }
    Some((TextLine { text, len }, &text[len + 1..]))
}

impl<'a> TextLine<'a> {
    /// The bytes.
    #[inline(always)]
    pub(crate) fn bytes(&self) -> &'a [u8]
        ensures { result.now ≡ self.now }
    {
        &self.text[..self.len]
    }

    /// The key that these bytes are, or none.
    #[inline(always)]
    pub(crate) fn key(&self) -> Option<Key>
        ensures { MatchOption result (is_key self.now ≡ false)
            (λ key. (key ≡ self.now) × (is_key self.now ≡ true)) }
    {
        Key::read_front(self.text, self.len)
    }

    /// What stands before the first space, and what follows it, if there is one.
    #[inline(always)]
    pub(crate) fn split(&self) -> (TextLine<'a>, Option<TextLine<'a>>)
        ensures before { All (λ b. b ≢ space) result.0 }
        ensures parts { MatchOption result.1 (result.0 ≡ self.now)
            (λ more. self.now ≡ result.0 ++ space ∷ more) }
    {
        let text = self.text;
        let end = place_before(text, self.len, b' ');
        let word = TextLine { text, len: end };
        if end >= self.len {
            return (word, None);
        }
        let rest = TextLine {
            text: &text[end + 1..],
            len: self.len - end - 1,
        };
        (word, Some(rest))
    }
}
