ghost use Rattle.std.specs.Prelude.{◌≡◌};
ghost use Rattle.std.proofs.Common.{ap, rules};
ghost use Rattle.std.specs.Cmp.Lexicographic.{bytes_decides};
ghost use Rattle.std.specs.Cmp.Rules.{comparing};
ghost use Rattle.std.specs.Str.{bytes_eq};
ghost use Rattle.name_set.specs.HashedWords.{hashed_words};

use std::hash::{Hash, Hasher};

/// A name as a set has it: a slice of the text or of the circuit, which is hashed by words.
#[derive(Clone, Copy)]
pub(crate) struct NameBytes<'a> {
    pub(crate) bytes: &'a [u8],
}

impl<'a> PartialEq for NameBytes<'a> {
    ghost eq = { λ name other. bytes_eq name.bytes.now other.bytes.now };

    ghost laws = { Prim.search (comparing, rules) };

    fn eq(&self, other: &NameBytes<'a>) -> bool {
        self.bytes == other.bytes
    }
}

impl<'a> Eq for NameBytes<'a> {
    ghost laws = { Prim.search (comparing, rules) };
}

impl<'a> Hash for NameBytes<'a> {
    ghost hash_input = { λ name. hashed_words name.bytes.now };

    ghost respects_eq = { λ name other same.
        ap hashed_words ((bytes_decides name.bytes.now other.bytes.now).0 same) };

    fn hash<H: Hasher>(&self, state: &mut H) {
        let mut rest = self.bytes;
        while rest.len() > 8 {
            let (word, more) = rest.split_at(8);
            state.write(word);
            rest = more;
        }
        state.write(rest);
        state.write(&[]);
    }
}
