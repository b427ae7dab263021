ghost use Rattle.std.specs.Prelude.{◌≡◌, ◌<◌, ◌+◌, ◌^◌, [], ◌∷◌};
ghost use Rattle.bench_reader.specs.Vocabulary.{is_short, tally_of, with_names};

// The longest that a name may be.
const MAX_NAME_BYTES: usize = 255;

/// How many names there are, and whether none is too long.
#[derive(Clone, Copy)]
pub(crate) struct Tally {
    pub(crate) count: usize,
    pub(crate) are_short: bool,
}

impl Tally {
    /// The tally of no names.
    pub(crate) fn new() -> Tally
        ensures { result ≡ tally_of [] }
    {
        Tally {
            count: 0,
            are_short: true,
        }
    }

    /// Takes in one name more.
    pub(crate) fn add(&mut self, name: &[u8])
        requires { self.old.count + 1 < 2 ^ 64 }
        ensures { self.new ≡ with_names self.old (name.now ∷ []) }
    {
        self.count += 1;
        self.are_short = self.are_short && is_short(name);
    }
}

/// Whether a name isn't too long.
pub(crate) fn is_short(name: &[u8]) -> bool
    ensures { result ≡ is_short name.now }
{
    name.len() <= MAX_NAME_BYTES
}
