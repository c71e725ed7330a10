// A text taken apart, piece by piece.
ghost use Rattle.std.specs.Prelude.{◌≡◌, ◌<◌, ℕ, List, Option, Result};
ghost use Rattle.std.specs.Option.{option_map};
ghost use Rattle.std.specs.Result.{result_ok};
ghost use Rattle.frametext.specs.Told.{told, and_tell, or_unread, end_in};
ghost use Rattle.frametext.specs.Labels.{label_text};
ghost use Rattle.frametext.specs.Scan.{Cut, first_word, other_words, stripped};
ghost use Rattle.frametext.specs.Numbers.{number_in, signed_in};
ghost use Rattle.frametext.specs.Digits.{number_read, signed_read};

use crate::fault::{Expected, Fault, Label};
use std::str::FromStr;

// A type of number that texts hold.
pub trait Numeral: FromStr {
    // the number that a text is
    ghost numeral: { List ℕ → Option Self };

    // what `parse` gives is that number
    ghost parsed: { (bs : List ℕ) (r : Result Self Self.Err) → Self.from_str_gives bs r → result_ok r ≡ numeral bs };
}

impl Numeral for u32 {
    ghost numeral = { number_in 10 32 };

    ghost parsed = { λ bs r h. number_read 10 32 bs r h.0 };
}

impl Numeral for u64 {
    ghost numeral = { number_in 10 64 };

    ghost parsed = { λ bs r h. number_read 10 64 bs r h.0 };
}

impl Numeral for i32 {
    ghost numeral = { signed_in };

    ghost parsed = { λ bs r h. signed_read bs r h.0 };
}

// The texts before and behind the first `at`, an ASCII character, if it comes.
#[tactic(auto, using(crate::specs::Cuts::cut_read))]
pub(crate) fn cut<'a>(text: &'a str, at: char) -> Option<(&'a str, &'a str)>
    requires { at < 128 }
    ensures { Cut at text.now result }
{
    text.split_once(at)
}

// The text up to the first space, and the text behind that space.
pub fn next_word(text: &str) -> (&str, &str)
    ensures word { result.0.now ≡ first_word text.now }
    ensures rest { result.1.now ≡ other_words text.now }
{
    cut(text, ' ').unwrap_or((text, ""))
}

// The text behind a label that it begins with.
#[tactic(auto, using(crate::specs::Cuts::strip_read))]
pub(crate) fn strip<'a>(word: &'a str, label: &str) -> Option<&'a str>
    ensures { option_map (λ x. x.now) result ≡ stripped label.now word.now }
{
    word.strip_prefix(label)
}

// The number that a text is.
pub(crate) fn number<N: Numeral>(text: &str, expected: Expected) -> Result<N, Fault>
where
    N::Err: Drop,
    ensures { told result ≡ or_unread (N.numeral text.now) }
{
    text.parse::<N>().map_err(|_| Fault::NotThere(expected))
}

// The number behind a label, as 5 in `s=5` and -2 in `step=-2`.
pub(crate) fn field<N: Numeral>(word: &str, label: Label) -> Result<N, Fault>
where
    N::Err: Drop,
    ensures { told result ≡ and_tell (or_unread (stripped (label_text label) word.now)) (λ ds. or_unread (N.numeral ds)) }
{
    let expected = Expected::Number(label);
    let digits = strip(word, label.text()).ok_or(Fault::NotThere(expected))?;
    number(digits, expected)
}

// Nothing more may follow.
pub fn ends(rest: &str) -> Result<(), Fault>
    ensures { told result ≡ end_in rest.now }
{
    if rest.is_empty() {
        Ok(())
    } else {
        Err(Fault::NotThere(Expected::End))
    }
}
