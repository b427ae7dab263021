use crate::circuits::{circuit_of, wide};
use crate::same::{expect_same, made};
use cts_engine::{SynthFault, period_of, zero_of};
use cts_model::Tech;
use gate_order::levels;

#[test]
fn refuses_more_than_1048576_pairs(rt: HostRuntime) {
    let alloc = rt.alloc();
    let tech = Tech::plain(alloc);
    let circuit = circuit_of(&rt, alloc, wide(&rt, alloc, 1025).as_str(), false);
    let _acyclic = made(&rt, levels(alloc, &circuit));
    let refused = zero_of(alloc, &circuit, &tech);
    expect_same(
        &rt,
        refused.err(),
        Some(SynthFault::TooManyPairs),
        &"refused",
    );
    let refused = period_of(alloc, &circuit, &tech);
    expect_same(
        &rt,
        refused.err(),
        Some(SynthFault::TooManyPairs),
        &"refused",
    );
}
