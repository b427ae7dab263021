use crate::same::expect_same;
use cts_base::{NumberFault, Quotient, read_fraction, read_quotient, read_whole};
use std::process::Abort;

// What a number of 10^37 or more in size is given as.
const BOUND: i128 = 10_000_000_000_000_000_000_000_000_000_000_000_000;

fn spells(rt: &impl Abort, text: &str, parts: Result<(i128, i128), NumberFault>) {
    let read = read_fraction(text.as_bytes());
    expect_same(
        rt,
        read.map(|fraction| (fraction.num(), fraction.den())),
        parts,
        &text,
    );
}

#[test]
fn fractions_have_one_spelling(rt: HostRuntime) {
    let rows = [
        ("0", Ok((0, 1))),
        ("13", Ok((13, 1))),
        ("-3/2", Ok((-3, 2))),
        ("8193/4096", Ok((8193, 4096))),
        ("9999999999999999999999999999999999999", Ok((BOUND - 1, 1))),
        ("26/2", Err(NumberFault::NotNumber)),
        ("0/2", Err(NumberFault::NotNumber)),
        ("3/1", Err(NumberFault::NotNumber)),
        ("3/-2", Err(NumberFault::NotNumber)),
        ("-0", Err(NumberFault::NotNumber)),
        ("007", Err(NumberFault::NotNumber)),
        ("3/02", Err(NumberFault::NotNumber)),
        ("+1", Err(NumberFault::NotNumber)),
        ("1/2/3", Err(NumberFault::NotNumber)),
        ("", Err(NumberFault::NotNumber)),
        // The size is judged before the lowest terms.
        (
            "10000000000000000000000000000000000000/2",
            Err(NumberFault::TooLarge),
        ),
        (
            "-10000000000000000000000000000000000000",
            Err(NumberFault::TooLarge),
        ),
        (
            "2/10000000000000000000000000000000000000",
            Err(NumberFault::TooLarge),
        ),
        (
            "10000000000000000000000000000000000000/1",
            Err(NumberFault::NotNumber),
        ),
    ];
    for (text, parts) in rows.as_slice() {
        spells(&rt, text, *parts);
    }
}

#[test]
fn large_numbers_are_kept_at_a_bound(rt: HostRuntime) {
    let large = "123456789012345678901234567890123456789012345678";
    expect_same(
        &rt,
        read_whole(large.as_bytes()),
        Some(BOUND),
        &"read_whole",
    );
    expect_same(
        &rt,
        read_whole(b"-10000000000000000000000000000000000001"),
        Some(-BOUND),
        &"read_whole",
    );
    expect_same(&rt, read_whole(b"-12"), Some(-12), &"read_whole");
    expect_same(&rt, read_whole(b"3/2"), None, &"read_whole");
    expect_same(
        &rt,
        read_quotient(b"6/4"),
        Some(Quotient { num: 6, den: 4 }),
        &"read_quotient",
    );
    expect_same(&rt, read_quotient(b"6/1"), None, &"read_quotient");
}
