// What a message carries.
ghost use Rattle.std.specs.Prelude.{◌≡◌, ℕ, ◌^◌, ◌<◌, ◌≤◌, List, length, Some, Option, slice_index};
ghost use Rattle.std.specs.List.{AllByRecursion};
ghost use Rattle.frames.specs.Answers.{answer, or_refuse};

use crate::refusal::Refusal;

// A kind of payload: how its values become words of 28 bits, and such words its values.
pub trait Payload: Copy {
    // How many words each value takes, 1 to 4.
    const SIZE: usize;

    ghost SIZE: { ℕ };

    // the words of a value
    ghost words: { Self → List ℕ };

    // the value with these words, if there is one
    ghost reads: { List ℕ → Option Self };

    // How many words each value takes, as a call.
    fn count() -> usize
        ensures { result ≡ SIZE }
    {
        Self::SIZE
    }

    // The word at place `i`, and 0 past the last. One at a time, since an array cannot be as long as a constant of the type.
    fn word(self, i: usize) -> u32
        ensures { result ≡ slice_index (words self) i };

    // The value with these words; refused where no value writes them.
    fn read(ws: &[u32]) -> Result<Self, Refusal>
        ensures { answer result ≡ or_refuse (reads ws.now) 17 };

    ghost some: { 1 ≤ SIZE };

    ghost few: { SIZE ≤ 4 };

    ghost counted: { (x : Self) → length (words x) ≡ SIZE };

    ghost narrow: { (x : Self) → AllByRecursion (λ w. w < 2 ^ 28) (words x) };

    // each value reads back from its words
    ghost back: { (x : Self) → reads (words x) ≡ Some x };

    // words that read are those that their value writes
    ghost only: { (ws : List ℕ) (x : Self) → reads ws ≡ Some x → ws ≡ words x };
}
