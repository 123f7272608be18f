//! The words of the command line.
ghost use Rattle.std.specs.Prelude.{◌≡◌};
ghost use Rattle.delta_run.specs.Words.{words_of, words_text};

use row_base::Text;

/// What the program is asked to do.
#[derive(Clone, Copy, Debug, Drop, PartialEq, Eq)]
pub enum Words {
    /// To run the script's schedule over a store in memory.
    Step,
}

/// What the words ask for, or nothing where they aren't accepted. It takes no memory.
pub fn read_words(words: &[Text]) -> Option<Words>
    ensures { result ≡ words_of words.now }
{
    match words {
        [word] => {
            if word.as_str() == "step" {
                Some(Words::Step)
            } else {
                None
            }
        }
        _ => None,
    }
}

/// What is said of words that aren't accepted.
pub fn words_text() -> &'static [u8]
    ensures { result.now ≡ words_text }
{
    b"words: step, threads, dir --path P, gen --size N\n"
}
