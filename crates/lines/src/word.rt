// The words of a line.
ghost use Rattle.std.specs.Prelude.{◌≡◌, ℕ, ◌≤◌, List, length, not, position};
ghost use Rattle.std.specs.List.{prefix_len};
ghost use Rattle.std.specs.Iterator.{YieldsFirstRef, item_count};
ghost use Rattle.lines.specs.Words.{blank, words};

use std::marker::Model;

fn is_blank(byte: u8) -> bool
    ensures { result ≡ blank byte }
{
    matches!(byte, b' ' | b'\t' | b'\n' | b'\r')
}

/// Where the first word begins.
fn word_start(text: &[u8]) -> Option<usize>
    ensures { result ≡ position (λ byte. not (blank byte)) text.now }
{
    text.iter().position(|&byte| !is_blank(byte))
}

/// Where the word that the text begins with ends.
fn word_end(text: &[u8]) -> usize
    ensures value { result ≡ prefix_len (λ byte. not (blank byte)) text.now }
    ensures in_range { result ≤ length text.now }
{
    text.iter().take_while(|&&byte| !is_blank(byte)).count()
}

/// The words of a line that are left, one after the other.
#[derive(Drop)]
pub(crate) struct Words<'a> {
    text: &'a [u8],
}

impl<'a> Model for Words<'a> {
    ghost Value = { List (List ℕ) };

    ghost view = { λ left. words left.text.now };
}

impl<'a> Words<'a> {
    pub(crate) fn new(text: &'a [u8]) -> Words<'a>
        ensures { result ≡ words text.now }
    {
        Words { text }
    }
}

impl<'a> Iterator for Words<'a> {
    type Item = &'a [u8];

    ghost next_gives = { YieldsFirstRef (λ left. left) };

    ghost remaining = { item_count (λ left. left) };

    #[tactic(auto, using(crate::proofs::Splits::no_words, crate::proofs::Splits::first_word))]
    fn next(&mut self) -> Option<&'a [u8]> {
        let (_, text) = self.text.split_at(word_start(self.text)?);
        let (word, rest) = text.split_at(word_end(text));
        self.text = rest;
        Some(word)
    }
}
