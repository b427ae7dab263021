ghost use Rattle.std.specs.Prelude.{◌≡◌};
ghost use Rattle.cts_model.specs.Vocabulary.{kind_of, is_valid};

use cts_model::Kind;

// The most inputs that one gate may have.
const MAX_INPUTS: usize = 1024;

// The words of the kinds.
const WORDS: [(&str, Kind); 10] = [
    ("AND", Kind::And),
    ("NAND", Kind::Nand),
    ("OR", Kind::Or),
    ("NOR", Kind::Nor),
    ("NOT", Kind::Not),
    ("XOR", Kind::Xor),
    ("XNOR", Kind::Xnor),
    ("BUFF", Kind::Buff),
    ("BUF", Kind::Buff),
    ("DFF", Kind::Dff),
];

/// The kind that a word after `=` names, in any ASCII case.
pub(crate) fn kind_of(word: &[u8]) -> Option<Kind>
    ensures { result ≡ kind_of word.now }
{
    WORDS
        .iter()
        .find(|(name, _)| word.eq_ignore_ascii_case(name.as_bytes()))
        .map(|(_, kind)| *kind)
}

/// Whether a kind may have so many inputs.
pub(crate) fn may_have(kind: Kind, inputs: usize) -> bool
    ensures { result ≡ is_valid kind inputs }
{
    match kind {
        Kind::Host => true,
        Kind::Input => inputs == 0,
        Kind::Dff | Kind::Not | Kind::Buff => inputs == 1,
        _ => (1..=MAX_INPUTS).contains(&inputs),
    }
}
