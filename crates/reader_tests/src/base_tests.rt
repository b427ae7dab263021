use crate::same::expect_same;
use cts_base::{Listed, before_comment, lines, words};
use std::process::Abort;

fn expect_lines(rt: &impl Abort, text: &str, wanted: &[(u32, &str)]) {
    assert!(rt; text.len() <= 16_777_216);
    let mut walk = lines(text.as_bytes());
    for (number, line) in wanted {
        let Some(found) = walk.next() else {
            panic!(rt; "no line {number} in {text:?}");
        };
        expect_same(rt, found.number, *number, &text);
        expect_same(rt, found.text, line.as_bytes(), &text);
    }
    assert!(rt; walk.next().is_none(), "after {text:?}");
}

// A text, and its lines with their numbers.
const LINES: [(&str, &[(u32, &str)]); 10] = [
    ("", &[]),
    ("a\n", &[(1, "a")]),
    ("a\r\n", &[(1, "a")]),
    ("a\nb", &[(1, "a"), (2, "b")]),
    ("a\nb\r", &[(1, "a"), (2, "b")]),
    ("\r", &[(1, "")]),
    ("\n\r", &[(1, ""), (2, "")]),
    ("\n\n\r\nd\n", &[(1, ""), (2, ""), (3, ""), (4, "d")]),
    ("a\r\r\n", &[(1, "a\r")]),
    ("a\rb\n\rc", &[(1, "a\rb"), (2, "\rc")]),
];

#[test]
fn walks_the_lines_of_a_text(rt: HostRuntime) {
    for (text, wanted) in &LINES {
        expect_lines(&rt, text, wanted);
    }
}

// In place of a word that the line doesn't have stands an empty one.
fn expect_words(rt: &impl Abort, line: &str, wanted: [&str; 3]) {
    let mut walk = words(line.as_bytes());
    for word in &wanted {
        expect_same(rt, walk.next().unwrap_or(b""), word.as_bytes(), &line);
    }
    assert!(rt; walk.next().is_none(), "behind {line:?}");
}

#[test]
fn walks_the_words_of_a_line(rt: HostRuntime) {
    for (line, wanted) in [
        ("", ["", "", ""]),
        (" \t ", ["", "", ""]),
        ("one", ["one", "", ""]),
        ("  one", ["one", "", ""]),
        ("one \t", ["one", "", ""]),
        ("one two   three", ["one", "two", "three"]),
        ("\tone\ttwo \t three", ["one", "two", "three"]),
        ("a\r b#c", ["a\r", "b#c", ""]),
    ]
    .as_slice()
    {
        expect_words(&rt, line, *wanted);
    }
}

fn expect_before_comment(rt: &impl Abort, line: &str, wanted: &str) {
    expect_same(
        rt,
        before_comment(line.as_bytes()),
        wanted.as_bytes(),
        &line,
    );
}

#[test]
fn leaves_out_comments(rt: HostRuntime) {
    for (line, wanted) in [
        ("", ""),
        ("a = b", "a = b"),
        ("# all", ""),
        ("a = b # c", "a = b "),
        ("a#b#c", "a"),
    ]
    .as_slice()
    {
        expect_before_comment(&rt, line, wanted);
    }
}

fn expect_content(rt: &impl Abort, text: &str, wanted: &str, word: &str) {
    assert!(rt; text.len() <= 16_777_216);
    let Some(line) = lines(text.as_bytes()).next() else {
        panic!(rt; "no line in {text:?}");
    };
    expect_same(rt, line.content, wanted.as_bytes(), &text);
    expect_same(
        rt,
        line.words().next().unwrap_or(b""),
        word.as_bytes(),
        &text,
    );
}

// A text, what of its first line is before a comment, and the first word there.
const CONTENTS: [(&str, &str, &str); 8] = [
    ("a = b\nc # d\n", "a = b", "a"),
    (" a = b # c\r\nd\n", " a = b ", "a"),
    ("a\r\n#b\n", "a", "a"),
    ("a\r#\n", "a\r", "a\r"),
    ("a#b#c", "a", "a"),
    ("#a\nb\n", "", ""),
    ("\r\n#", "", ""),
    ("a", "a", "a"),
];

#[test]
fn cuts_the_comment_of_a_line(rt: HostRuntime) {
    for (text, wanted, word) in &CONTENTS {
        expect_content(&rt, text, wanted, word);
    }
}

fn expect_items(rt: &impl Abort, list: &Listed<u32>, wanted: &[u32]) {
    expect_same(rt, list.as_slice(), wanted, &"list");
}

fn expect_item(rt: &impl Abort, list: &Listed<u32>, at: usize, wanted: Option<u32>) {
    expect_same(rt, list.get(at).copied(), wanted, &at);
}

#[test]
fn keeps_a_list(rt: HostRuntime) {
    let mut list = Listed::new(rt.alloc());
    assert!(rt; list.is_empty());
    expect_item(&rt, &list, 0, None);
    expect_same(&rt, list.push(5), Ok(()), &"list.push");
    expect_same(&rt, list.push(6), Ok(()), &"list.push");
    expect_same(&rt, list.push(7), Ok(()), &"list.push");
    assert_eq!(rt; list.len(), 3);
    assert!(rt; !list.is_empty());
    list.set(1, 9);
    expect_items(&rt, &list, &[5, 9, 7]);
    expect_item(&rt, &list, 0, Some(5));
    expect_item(&rt, &list, 2, Some(7));
    expect_item(&rt, &list, 3, None);
    let items = list.into_vec();
    expect_same(&rt, items.as_slice(), [5, 9, 7].as_slice(), &"items");
    expect_items(&rt, &Listed::from_vec(items), &[5, 9, 7]);
}
