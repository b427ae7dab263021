use cts_base::Listed;

/// The three texts that a clock tree is made from.
#[derive(Debug, Drop)]
pub struct Demo {
    /// The netlist, in the ISCAS'89 format.
    pub bench: Listed<u8>,
    /// The delay table, in TOML.
    pub tech: Listed<u8>,
    /// The placement, in the Bookshelf format.
    pub pl: Listed<u8>,
}
