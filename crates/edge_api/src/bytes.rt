//! Names and bodies of objects. Copies share the bytes.
ghost use Rattle.std.specs.Prelude.{◌≡◌, IfOk, IsUtf8, string_bytes};

use row_base::{NoMemory, Text};
use std::alloc::Global;
use std::cmp::Ordering;
use std::hash::{Hash, Hasher};
use std::marker::Model;
use std::sync::Arc;

/// The name of an object, a text seen as its UTF-8 bytes. Names are ordered by these bytes.
///
/// It is no path of a Delta log: a log writes a file's path with escapes (`%20`), and the name has them undone.
/// So a path is a `Text`, and the two types keep one from being taken for the other.
#[derive(Debug, Drop)]
pub struct Name {
    text: Text,
}

impl Model for Name {
    ghost use Rattle.std.specs.Prelude.{List, ℕ};

    ghost Value = { List ℕ };

    ghost view = { λ a. a.text };
}

impl Name {
    /// The name that this text is. It takes no memory.
    pub fn new(text: Text) -> Name
        ensures { result ≡ text }
    {
        Name { text }
    }

    /// A name of its own, with a copy of the text. The error is want of memory.
    pub fn make(alloc: Global, text: &str) -> Result<Name, NoMemory>
        ensures { IfOk result (λ n. n ≡ text.now) }
    {
        Ok(Name::new(Text::make(alloc, text)?))
    }

    /// The text as a name, whose bytes it takes over. The error is want of memory.
    pub fn from_string(text: String) -> Result<Name, NoMemory>
        ensures { IfOk result (λ n. n ≡ string_bytes text) }
    {
        Ok(Name::new(Text::from_string(text)?))
    }

    /// Another owner of the same text. The error is want of memory.
    pub fn copy(&self) -> Result<Name, NoMemory>
        ensures { IfOk result (λ n. n ≡ self.now) }
    {
        Ok(Name::new(self.text.copy()?))
    }

    /// The text of the name. It takes no memory.
    pub fn into_text(self) -> Text
        ensures { result ≡ self }
    {
        self.text
    }

    /// The text of the name.
    pub fn as_text(&self) -> &Text
        ensures { result.now ≡ self.now }
    {
        &self.text
    }

    /// The text of the name as a slice.
    pub fn as_str(&self) -> &str
        ensures text { result.now ≡ self.now }
        ensures utf8 { IsUtf8 self.now }
    {
        self.text.as_str()
    }

    /// The name's UTF-8 bytes.
    pub fn as_bytes(&self) -> &[u8]
        ensures { result.now ≡ self.now }
    {
        self.as_str().as_bytes()
    }
}

impl PartialEq for Name {
    ghost use Rattle.std.specs.Prelude.{◌==◌};
    ghost use Rattle.std.specs.Cmp.Lexicographic.{pointwise};
    ghost use Rattle.std.proofs.Common.{rules};
    ghost use Rattle.std.specs.Cmp.Rules.{comparing};

    ghost eq = { pointwise ◌==◌ };

    ghost laws = { Prim.search (comparing, rules) };

    fn eq(&self, other: &Name) -> bool {
        self.text == other.text
    }
}

impl Eq for Name {
    ghost use Rattle.std.proofs.Common.{rules};
    ghost use Rattle.std.specs.Cmp.Rules.{comparing};

    ghost laws = { Prim.search (comparing, rules) };
}

impl Ord for Name {
    ghost use Rattle.std.specs.Ordering.{nat_cmp};
    ghost use Rattle.std.specs.Cmp.Lexicographic.{slice_cmp};
    ghost use Rattle.std.proofs.Common.{rules};
    ghost use Rattle.std.specs.Cmp.Rules.{comparing};

    ghost cmp = { slice_cmp nat_cmp };

    ghost total = { Prim.search (comparing, rules) };

    ghost matches_partial_cmp = { Prim.search (comparing, rules) };

    ghost matches_eq = { Prim.search (comparing, rules) };

    fn cmp(&self, other: &Name) -> Ordering {
        self.text.cmp(&other.text)
    }
}

impl PartialOrd for Name {
    ghost use Rattle.std.specs.Ordering.{nat_cmp, as_partial_cmp};
    ghost use Rattle.std.specs.Cmp.{partial_order_from_own_ties};
    ghost use Rattle.std.specs.Cmp.Lexicographic.{slice_cmp};
    ghost use Rattle.std.proofs.Common.{rules};
    ghost use Rattle.std.specs.Cmp.Rules.{comparing};

    ghost partial_cmp = { as_partial_cmp (slice_cmp nat_cmp) };

    ghost laws = { partial_order_from_own_ties (Prim.search (comparing, rules)) (Prim.search (comparing, rules)) };

    fn partial_cmp(&self, other: &Name) -> Option<Ordering> {
        Some(self.cmp(other))
    }
}

impl Hash for Name {
    ghost use Rattle.std.specs.Hash as fed;
    ghost use Rattle.std.proofs.Common.{rules};
    ghost use Rattle.std.specs.Cmp.Rules.{hashing};

    ghost hash_input = { λ n. fed.str n };

    ghost respects_eq = { Prim.search (hashing, rules) };

    fn hash<H: Hasher>(&self, state: &mut H) {
        self.text.hash(state);
    }
}

/// The bytes of an object.
#[derive(Drop)]
pub struct Body {
    bytes: Arc<Vec<u8>>,
}

impl Model for Body {
    ghost use Rattle.std.specs.Prelude.{List, ℕ};
    ghost use Rattle.std.specs.Arc.{arc_value};

    ghost Value = { List ℕ };

    ghost view = { λ a. (arc_value a.bytes).items };
}

impl Body {
    /// The bytes as a body. The error is want of memory.
    pub fn make(alloc: Global, bytes: Vec<u8>) -> Result<Body, NoMemory>
        ensures { IfOk result (λ b. b ≡ bytes.items) }
    {
        match Arc::new(alloc, bytes) {
            Ok(bytes) => Ok(Body { bytes }),
            Err(_) => Err(NoMemory),
        }
    }

    /// Another owner of the same bytes. The error is want of memory.
    pub fn copy(&self) -> Result<Body, NoMemory>
        ensures { IfOk result (λ b. b ≡ self.now) }
    {
        Ok(Body {
            bytes: Arc::try_clone(&self.bytes)?,
        })
    }

    /// The bytes.
    pub fn as_bytes(&self) -> &[u8]
        ensures { result.now ≡ self.now }
    {
        let bytes: &Vec<u8> = &self.bytes;
        bytes.as_slice()
    }
}
