//! The words of the command line.
ghost use Rattle.std.specs.Prelude.{◌≡◌, ◌≢◌, None, IfOk, OnErr};
ghost use Rattle.inspection.specs.Words.{words_of, words_text, folder_text};

use row_base::{NoMemory, Text};

/// What the program is asked to do.
#[derive(Drop)]
pub enum Words {
    /// To print the journal of a run.
    Journal,
    /// To write the objects that a run leaves into a new folder.
    Objects(Text),
}

/// What the words ask for, or nothing where they aren't accepted. The error is want of memory for the folder's name.
pub fn read_words(words: &[Text]) -> Result<Option<Words>, NoMemory>
    ensures ok { IfOk result (λ asked. asked ≡ words_of words.now) }
    ensures err { OnErr result (words_of words.now ≢ None) }
{
    match words {
        [word] => {
            if word.as_str() == "journal" {
                Ok(Some(Words::Journal))
            } else {
                Ok(None)
            }
        }
        [word, flag, folder] => {
            if word.as_str() == "objects" && flag.as_str() == "--to" {
                Ok(Some(Words::Objects(folder.copy()?)))
            } else {
                Ok(None)
            }
        }
        _ => Ok(None),
    }
}

/// What is said of words that aren't accepted.
pub fn words_text() -> &'static [u8]
    ensures { result.now ≡ words_text }
{
    b"words: journal, objects --to FOLDER\n"
}

/// What is said of a folder that is there already.
pub fn folder_text() -> &'static [u8]
    ensures { result.now ≡ folder_text }
{
    b"folder is there\n"
}
