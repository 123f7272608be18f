//! A text that grows at its end.
ghost use Rattle.std.specs.Prelude.{◌≡◌, ◌++◌, [], OnOk};
ghost use Rattle.std.specs.Fmt.{signed_decimal};
ghost use Rattle.reply_texts.specs.Literals.{day_text};
ghost use Rattle.reply_texts.specs.Replies.{counted};

use itoa::Buffer;
use row_base::{NoMemory, write_date};
use std::alloc::Global;
use std::marker::Model;

/// The days of 0001-01-01 and 9999-12-31, counted from 1970-01-01.
const FIRST_DAY: i32 = -719_162;

const LAST_DAY: i32 = 2_932_896;

/// A text that is printed, piece by piece. Contracts see it as its bytes so far. After an error a piece may be there in
/// part.
#[derive(Drop)]
pub struct Printer {
    alloc: Global,
    out: Vec<u8>,
}

impl Model for Printer {
    ghost use Rattle.std.specs.Prelude.{List, ℕ};

    ghost Value = { List ℕ };

    ghost view = { λ p. p.out.items };
}

impl Printer {
    /// No text yet.
    pub fn new(alloc: Global) -> Printer
        ensures { result ≡ [] }
    {
        Printer {
            alloc,
            out: Vec::new(alloc),
        }
    }

    /// The bytes of the text, handed over.
    pub fn into_bytes(self) -> Vec<u8>
        ensures { result.items ≡ self }
    {
        self.out
    }

    /// A text.
    pub fn push(&mut self, text: &[u8]) -> Result<(), NoMemory>
        ensures { OnOk result (self.new ≡ self.old ++ text.now) }
    {
        self.out.extend_from_slice(text)?;
        Ok(())
    }

    /// A word and a number.
    pub fn push_counted(&mut self, word: &[u8], number: u64) -> Result<(), NoMemory>
        ensures { OnOk result (self.new ≡ self.old ++ counted word.now number) }
    {
        let mut buffer = Buffer::new();
        self.out.extend_from_slice(word)?;
        self.out
            .extend_from_slice(buffer.format(number).as_bytes())?;
        Ok(())
    }

    /// A number with its sign.
    pub fn push_signed(&mut self, number: i64) -> Result<(), NoMemory>
        ensures { OnOk result (self.new ≡ self.old ++ signed_decimal number) }
    {
        let mut buffer = Buffer::new();
        self.out
            .extend_from_slice(buffer.format(number).as_bytes())?;
        Ok(())
    }

    /// A day as `yyyy-MM-dd`, or by its number where it lies outside of the years 1 to 9999.
    pub fn push_day(&mut self, day: i32) -> Result<(), NoMemory>
        ensures { OnOk result (self.new ≡ self.old ++ day_text day) }
    {
        if FIRST_DAY <= day && day <= LAST_DAY {
            let text = write_date(self.alloc, day)?;
            self.push(text.as_bytes())
        } else {
            self.push_signed(day as i64)
        }
    }
}
