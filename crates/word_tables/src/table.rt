//! A table of words.
ghost use Rattle.std.specs.Prelude.{◌≡◌, ◌≢◌, ℕ, ◌≤◌, ◌<◌, ◌↔◌, Some, length, map, slice_get, IsNone, IfSome, IsTrue, Contains};
ghost use Rattle.std.specs.List.{list_all, enumerate_from};
ghost use Rattle.word_tables.specs.Tables.{AreDistinct, place_of};
ghost use Rattle.word_tables.specs.TableInside.{place_inside, is_first_place};

use std::marker::Model;

/// A few words, each at a place from 0 on.
#[derive(Drop)]
pub struct WordTable<const N: usize> {
    words: &'static [&'static str],
}

impl<const N: usize> Model for WordTable<N> {
    ghost use Rattle.std.specs.Prelude.{◌≡◌, ◌≤◌, List, ℕ, length};
    ghost use Rattle.word_tables.specs.TableInside.{words_of};

    ghost Value = { List (List ℕ) };

    ghost view = { λ t. words_of t.words.now };

    ghost invariant = { λ t. (length t.words.now ≡ N) × (N ≤ 64) };
}

// The first place whose word has these bytes.
fn first_place(words: &[&str], text: &[u8]) -> Option<usize>
    ensures { result ≡ place_inside words.now text.now }
{
    words.iter().position(|word| text == word.as_bytes())
}

// Whether each word stands at its first place.
fn are_first_places(words: &[&str]) -> bool
    ensures { result ≡ list_all (is_first_place words.now) (enumerate_from 0 words.now) }
{
    words
        .iter()
        .enumerate()
        .all(|(i, word)| first_place(words, word.as_bytes()) == Some(i))
}

impl<const N: usize> WordTable<N> {
    /// The table of these words, in their order.
    pub fn new(words: &'static [&'static str]) -> WordTable<N>
        requires number { length words.now ≡ N }
        requires few { N ≤ 64 }
        ensures { result ≡ map (λ w. w.now) words.now }
    {
        WordTable { words }
    }

    /// The first place whose word has these bytes; none exactly where no word has them.
    pub fn find(&self, text: &[u8]) -> Option<usize>
        ensures number { length self.now ≡ N }
        ensures place { result ≡ place_of self.now text.now }
        ensures within { IfSome result (λ i. i < N) }
        ensures found { IfSome result (λ i. slice_get self.now i ≡ Some text.now) }
        ensures first { IfSome result (λ i. (k : ℕ) → k < i → slice_get self.now k ≢ Some text.now) }
        ensures none { IsNone result ↔ (Contains self.now text.now → ⊥) }
    {
        first_place(self.words, text)
    }

    /// The word at a place.
    pub fn word(&self, i: usize) -> &'static str
        requires { i < N }
        ensures { slice_get self.now i ≡ Some result.now }
    {
        let words = self.words;
        words[i]
    }

    /// Whether no two words are equal.
    pub fn distinct(&self) -> bool
        ensures { IsTrue result ↔ AreDistinct self.now }
    {
        are_first_places(self.words)
    }
}
