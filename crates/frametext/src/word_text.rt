// Words as text: `0x` and eight hexadecimal digits, as `0x8000001F`.
ghost use Rattle.std.specs.Prelude.{◌≡◌, ◌<◌, true, [], ◌∷◌, ◌++◌, IfOk, string_bytes, codes};
ghost use Rattle.std.specs.Fmt.{digit_glyph};
ghost use Rattle.frametext.specs.Scan.{stripped};
ghost use Rattle.frametext.specs.Words.{unlabelled, word_in, word_text, with_word, words_text};

use crate::scan::strip;
use std::alloc::{AllocError, Global};

// The text behind `0x`, or all of it where it has no `0x` in front.
fn unmarked(text: &str) -> &str
    ensures { result.now ≡ unlabelled (stripped (codes "0x") text.now) text.now }
{
    strip(text, "0x").unwrap_or(text)
}

// The word that a text shows, with or without `0x` in front.
#[tactic(auto, using(crate::specs::Digits::number_read))]
pub fn parse_word(text: &str) -> Option<u32>
    ensures { result ≡ word_in text.now }
{
    u32::from_str_radix(unmarked(text), 16).ok()
}

// Adds the text of a word.
fn push_hex(text: &mut String, w: u32) -> Result<(), AllocError>
    ensures { IfOk result (λ _. string_bytes text.new ≡ string_bytes text.old ++ word_text w) }
{
    write!(text, "0x{w:08X}")
}

// Adds one more word, a space before it unless it is the first.
fn push_word(text: &mut String, w: u32) -> Result<(), AllocError>
    ensures { IfOk result (λ _. string_bytes text.new ≡ with_word (string_bytes text.old) (word_text w)) }
{
    if !text.is_empty() {
        text.push_str(" ")?;
    }
    push_hex(text, w)
}

// The text of words, one space apart: public, and in memory. Words are a slice, which is no type of this crate and cannot print itself.
pub fn show_words(words: &[u32], heap: Global) -> Result<String, AllocError>
    ensures { IfOk result (λ s. string_bytes s ≡ words_text words.now) }
{
    let mut text = String::new(heap);
    for w in words {
        push_word(&mut text, *w)?;
    }
    Ok(text)
}
