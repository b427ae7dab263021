ghost use Rattle.std.specs.Prelude.{◌≡◌};
ghost use Rattle.cts_model.specs.table.TableKeys.{word_of};

use cts_model::Kind;

/// What stands at a key.
#[derive(Clone, Copy)]
pub(crate) enum Form {
    /// A text `a/b`, or `a` for `a/1`, in digits: whole numbers of 1 to 1,000,000.
    Fraction,
    /// A text of 1 to 255 bytes.
    Node,
    /// A whole number, from 0.
    UpTo(u32),
}

/// Where a key has to be given.
#[derive(Clone, Copy)]
pub(crate) enum Need {
    Always,
    /// Where its table is there.
    InTable,
    /// Nowhere: 0 stands for it.
    Optional,
}

#[derive(Clone, Copy)]
pub(crate) struct Key {
    pub(crate) name: &'static str,
    pub(crate) form: Form,
    pub(crate) need: Need,
}

// A row of the table of keys.
macro_rules! key {
    ($name:literal, $form:expr, $need:expr) => {
        Key {
            name: $name,
            form: $form,
            need: $need,
        }
    };
}

/// A table at the top of the document, and its keys.
#[derive(Clone, Copy)]
pub(crate) struct Section {
    pub(crate) name: &'static str,
    pub(crate) keys: &'static [Key],
}

// The tables at the top of a delay table other than `gate`, in the order in which they are judged.
pub(crate) const SECTIONS: [Section; 5] = [
    Section {
        name: "wire",
        keys: &[key!("delay", Form::Fraction, Need::Always)],
    },
    Section {
        name: "source",
        keys: &[key!("place", Form::Node, Need::Always)],
    },
    Section {
        name: "register",
        keys: &[
            key!("setup", Form::UpTo(1_000_000), Need::Always),
            key!("hold", Form::UpTo(1_000_000), Need::Always),
            key!("least", Form::UpTo(1_000_000), Need::Always),
            key!("greatest", Form::UpTo(1_000_000), Need::Always),
        ],
    },
    Section {
        name: "host",
        keys: &[key!("place", Form::Node, Need::InTable)],
    },
    Section {
        name: "period",
        keys: &[key!("floor", Form::UpTo(1_000_000_000), Need::Optional)],
    },
];

// The keys of the table of a gate kind.
pub(crate) const GATE_KEYS: [Key; 4] = [
    key!("least", Form::UpTo(1_000_000), Need::InTable),
    key!("greatest", Form::UpTo(1_000_000), Need::InTable),
    key!("least_per_input", Form::UpTo(1_000), Need::Optional),
    key!("greatest_per_input", Form::UpTo(1_000), Need::Optional),
];

// The gate kinds, in the order in which they are judged.
pub(crate) const GATES: [Kind; 8] = [
    Kind::And,
    Kind::Nand,
    Kind::Or,
    Kind::Nor,
    Kind::Not,
    Kind::Xor,
    Kind::Xnor,
    Kind::Buff,
];

/// The name of a gate kind's table in the table `gate`.
pub(crate) fn gate_name(kind: Kind) -> &'static str
    ensures { result.now ≡ word_of kind }
{
    match kind {
        Kind::And => "AND",
        Kind::Nand => "NAND",
        Kind::Or => "OR",
        Kind::Nor => "NOR",
        Kind::Not => "NOT",
        Kind::Xor => "XOR",
        Kind::Xnor => "XNOR",
        Kind::Buff => "BUFF",
        Kind::Input | Kind::Dff | Kind::Host => "",
    }
}

// The names that may stand at the top of the document.
pub(crate) const TOP_NAMES: [&str; 6] = ["wire", "source", "register", "host", "period", "gate"];
