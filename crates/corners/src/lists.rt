ghost use Rattle.std.specs.Prelude.{◌≡◌, ◌<◌, ◌↔◌, ℕ, ℤ, All, IfOk, length};
ghost use Rattle.corners.specs.Vocabulary.{Satisfies, AreSmallConstraints, AreCorners, IsCombinedAt};

use crate::Combined;
use cts_base::{Listed, NoMemory};
use cts_model::Constraint;
use std::alloc::Global;

/// One list of constraints that arrivals satisfy exactly where they satisfy each of several: at
/// each place the one with the greatest weight. It goes once over each list, and takes memory for
/// one list of constraints and one of numbers.
///
/// # Errors
///
/// There is no memory for the list.
pub fn combine(alloc: Global, lists: &Listed<Listed<Constraint>>) -> Result<Combined, NoMemory>
    requires { AreCorners lists.now }
    ensures lengths { IfOk result (λ combined.
        All (λ list. length list ≡ length combined.constraints) lists.now) }
    ensures corners { IfOk result (λ combined.
        length combined.corner ≡ length combined.constraints) }
    ensures greatest { IfOk result (λ combined. (place : ℕ) → place < length combined.constraints
        → IsCombinedAt lists.now combined.constraints combined.corner place) }
    ensures satisfies { IfOk result (λ combined. (scale : ℕ) (period : ℤ) (arrival : ℕ → ℤ)
        → Satisfies combined.constraints scale period arrival
        ↔ All (λ list. Satisfies list scale period arrival) lists.now) }
    ensures small { IfOk result (λ combined. (registers : ℕ)
        → All (AreSmallConstraints registers) lists.now
        → AreSmallConstraints registers combined.constraints) }
{
    let lists = lists.as_slice();
    let first = lists[0].as_slice().to_vec(alloc)?;
    let mut combined = Combined::first(alloc, Listed::from_vec(first))?;
    for corner in 1..lists.len() {
        combined.include(corner as u32, lists[corner].as_slice());
    }
    Ok(combined)
}
