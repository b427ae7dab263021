//! The synthesizer and the checker for callers in C: `include/cts.h` says what a caller owes.
#![tactic(auto)]

ghost use Rattle.std.specs.Prelude.{◌≡◌};

mod answer;
mod checking;
mod failure;
mod finding;
mod judged;
mod scheduling;
mod synthesis;
mod texts;

/// The number of this set of calls: it rises where one of them changes.
#[unsafe(no_mangle)]
pub extern "C" fn cts_version() -> u32
    ensures { result ≡ 1 }
{
    1
}
