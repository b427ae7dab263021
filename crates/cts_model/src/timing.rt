/// The delays from one register to another, in ticks.
#[derive(Clone, Copy, Debug, PartialEq, Eq)]
pub struct PairDelay {
    /// The number of the register that launches.
    pub from: u32,
    /// The number of the register that captures.
    pub to: u32,
    /// The least delay over all paths from the one to the other.
    pub least: i128,
    /// The greatest delay over all of them.
    pub greatest: i128,
}

/// The least clock period where the clock reaches all registers at once, in ticks.
#[derive(Clone, Copy, Debug, PartialEq, Eq)]
pub enum ZeroSkew {
    /// No period will do: this is the first pair whose least delay is below the hold time.
    Fails { pair: PairDelay },
    /// No pair needs more than the floor of the table.
    Floor { value: i128 },
    /// The greatest delay plus the setup time, and the first pair that needs so much.
    Setup { value: i128, pair: PairDelay },
}
