ghost use Rattle.std.specs.Prelude.{◌≤◌};

use crate::held_files::held_files;
use crate::same::{expect_same, made};
use cts_io::{
    Failed, HostInputs, HostSink, Inputs, MemoryInputs, MemorySink, ReadWhole, StartFault,
    read_whole, write_whole,
};
use std::alloc::Global;
use std::fs;
use std::process::Abort;

// Two files of one name, one of no bytes, and one of a single line.
const FILES: [(&str, &str); 4] = [
    ("a", "hello\nworld"),
    ("a", "last"),
    ("none", ""),
    ("b", "hello world"),
];

fn held_inputs(rt: &impl Abort, alloc: Global, fails: &[u64], piece: usize) -> MemoryInputs
    requires { 1 ≤ piece }
{
    let files = held_files(rt, alloc, &FILES);
    let fails = Vec::from_slice(alloc, fails).expect(rt, "memory");
    MemoryInputs::new(files, fails, piece)
}

fn expect_whole_files(rt: &impl Abort, alloc: Global, piece: usize) {
    assert!(rt; 1 <= piece);
    let mut inputs = held_inputs(rt, alloc, &[], piece);
    let bytes = read_whole(alloc, &mut inputs, "a", 11).expect(rt, "a file");
    expect_same(rt, bytes.as_slice(), b"hello\nworld".as_slice(), &piece);
    let none = read_whole(alloc, &mut inputs, "none", 0).expect(rt, "no bytes");
    assert!(rt; none.is_empty());
    let longer = read_whole(alloc, &mut inputs, "a", 10);
    expect_same(rt, longer.err(), Some(ReadWhole::TooLong), &piece);
    let unlisted = read_whole(alloc, &mut inputs, "c", 11);
    expect_same(rt, unlisted.err(), Some(ReadWhole::Failed), &"unlisted");
}

#[test]
fn reads_whole_files_in_pieces(rt: HostRuntime) {
    for piece in [1, 4, 11, 8192].as_slice() {
        expect_whole_files(&rt, rt.alloc(), *piece);
    }
}

// The file "a" is read, where this call on it fails.
fn expect_read(rt: &impl Abort, alloc: Global, limit: usize, call: u64, want: Option<ReadWhole>) {
    assert!(rt; limit <= 100);
    let mut inputs = held_inputs(rt, alloc, &[call], 4);
    let read = read_whole(alloc, &mut inputs, "a", limit);
    expect_same(rt, read.err(), want, &(call, limit));
}

// In pieces of 4 the file is started by call 1, calls 2 to 4 take its bytes, and call 5 finds its
// end. Where 10 bytes are the limit, call 4 takes the byte after them. No call comes after these.
#[test]
fn reports_each_read_that_fails(rt: HostRuntime) {
    for (limit, call, want) in [
        (100, 1, Some(ReadWhole::Failed)),
        (100, 2, Some(ReadWhole::Failed)),
        (100, 4, Some(ReadWhole::Failed)),
        (100, 5, Some(ReadWhole::Failed)),
        (100, 6, None),
        (11, 6, None),
        (10, 4, Some(ReadWhole::Failed)),
        (10, 5, Some(ReadWhole::TooLong)),
        (7, 3, Some(ReadWhole::Failed)),
        (7, 4, Some(ReadWhole::TooLong)),
    ]
    .as_slice()
    {
        expect_read(&rt, rt.alloc(), *limit, *call, *want);
    }
}

// What the file "b" still gives, a byte at a time.
fn expect_left(rt: &impl Abort, alloc: Global, inputs: &mut MemoryInputs, left: &str) {
    let mut rest = Vec::new(alloc);
    let mut buffer = [0u8; 1];
    for _byte in 0..left.len() {
        expect_same(rt, inputs.take("b", &mut buffer), Ok(1), &"inputs.take");
        rest.extend_from_slice(&buffer).expect(rt, "memory");
    }
    expect_same(rt, inputs.take("b", &mut buffer), Ok(0), &"inputs.take");
    expect_same(rt, rest.as_slice(), left.as_bytes(), &"rest");
}

fn expect_too_long(rt: &impl Abort, alloc: Global, limit: usize, piece: usize, left: &str) {
    assert!(rt; limit <= 100);
    assert!(rt; 1 <= piece);
    let mut inputs = held_inputs(rt, alloc, &[], piece);
    let read = read_whole(alloc, &mut inputs, "b", limit);
    expect_same(rt, read.err(), Some(ReadWhole::TooLong), &limit);
    expect_left(rt, alloc, &mut inputs, left);
}

// What is left after a file that is too long, whatever the pieces are.
#[test]
fn reads_one_byte_more_than_the_limit(rt: HostRuntime) {
    for (limit, piece, left) in [
        (4, 1, " world"),
        (4, 3, " world"),
        (4, 8192, " world"),
        (0, 8192, "ello world"),
        (9, 8192, "d"),
        (10, 8192, ""),
    ]
    .as_slice()
    {
        expect_too_long(&rt, rt.alloc(), *limit, *piece, left);
    }
}

// A sink with so much room, of which this call fails.
fn expect_written(
    rt: &impl Abort,
    alloc: Global,
    room: usize,
    call: u64,
    denoted: Result<(), Failed>,
    written: &str,
) {
    let fails = Vec::from_slice(alloc, &[call]).expect(rt, "memory");
    let mut sink = MemorySink::new(alloc, room, fails, 4).expect(rt, "memory");
    expect_same(rt, write_whole(&mut sink, b"abcdefghijkl"), denoted, &call);
    expect_same(rt, sink.bytes(), written.as_bytes(), &call);
}

#[test]
fn writes_until_a_write_fails(rt: HostRuntime) {
    for (room, call, denoted, written) in [
        (12, 1, Err(Failed), ""),
        (12, 2, Err(Failed), "abcd"),
        (12, 3, Err(Failed), "abcdefgh"),
        (12, 4, Ok(()), "abcdefghijkl"),
        (6, 9, Err(Failed), "abcdef"),
    ]
    .as_slice()
    {
        expect_written(&rt, rt.alloc(), *room, *call, *denoted, written);
    }
}

#[test]
fn reads_files_of_the_host(rt: HostRuntime) {
    let alloc = rt.alloc();
    let name = "cts_io_test.txt";
    made(&rt, fs::write(&rt, name, "one\ntwo\n"));
    let mut inputs = HostInputs::new(&rt);
    let bytes = made(&rt, read_whole(alloc, &mut inputs, name, 8));
    expect_same(&rt, bytes.as_slice(), b"one\ntwo\n".as_slice(), &"bytes");
    made(&rt, fs::remove_file(&rt, name));
    let gone = read_whole(alloc, &mut inputs, name, 8);
    expect_same(&rt, gone.err(), Some(ReadWhole::Failed), &"gone");
    let folder = read_whole(alloc, &mut inputs, ".", 8);
    expect_same(&rt, folder.err(), Some(ReadWhole::Failed), &"folder");
}

fn expect_file(rt: &impl Abort, alloc: Global, inputs: &mut impl Inputs, name: &str, text: &str) {
    let bytes = read_whole(alloc, inputs, name, 20).expect(rt, "a file");
    expect_same(rt, bytes.as_slice(), text.as_bytes(), &name);
}

// After a start that was given, a name that is missing gives nothing.
fn expect_missing(rt: &impl Abort, inputs: &mut impl Inputs, name: &str) {
    expect_same(rt, inputs.start("cts_io_names/a"), Ok(()), &"inputs.start");
    expect_same(rt, inputs.start(name), Err(StartFault::Failed), &name);
    let mut buffer = [0u8; 8];
    expect_same(rt, inputs.take(name, &mut buffer), Ok(0), &name);
}

// Each name is a file of its own: no blank, no `./` and no folder is taken from it.
#[test]
fn opens_exactly_the_named_file(rt: HostRuntime) {
    let files: [(&str, &str); 4] = [
        ("cts_io_names/a", "plain"),
        ("cts_io_names/a ", "blank behind"),
        ("cts_io_names/ a", "blank in front"),
        ("cts_io_names/in/a", "inner"),
    ];
    made(&rt, fs::create_dir(&rt, "cts_io_names"));
    made(&rt, fs::create_dir(&rt, "cts_io_names/in"));
    for (name, text) in files.as_slice() {
        made(&rt, fs::write(&rt, *name, *text));
    }
    let mut inputs = HostInputs::new(&rt);
    for (name, text) in files.as_slice() {
        expect_file(&rt, rt.alloc(), &mut inputs, name, text);
    }
    let same = "./cts_io_names/../cts_io_names/a";
    expect_file(&rt, rt.alloc(), &mut inputs, same, "plain");
    // A name that is missing is given twice, so nothing was made of it.
    for name in [
        "a",
        "cts_io_names/b",
        "cts_io_names/b",
        " cts_io_names/a",
        "cts_io_names/a  ",
    ]
    .as_slice()
    {
        expect_missing(&rt, &mut inputs, name);
    }
    made(&rt, fs::remove_dir_all(&rt, "cts_io_names"));
}

#[test]
fn reports_that_the_host_writes_no_more(rt: HostRuntime) {
    let alloc = rt.alloc();
    let name = "cts_io_test_written.txt";
    let mut sink = HostSink::new(made(&rt, fs::create(&rt, name)));
    expect_same(
        &rt,
        write_whole(&mut sink, b"one\ntwo\n"),
        Ok(()),
        &"write_whole",
    );
    let bytes = made(&rt, read_whole(alloc, &mut HostInputs::new(&rt), name, 8));
    expect_same(&rt, bytes.as_slice(), b"one\ntwo\n".as_slice(), &"bytes");
    made(&rt, fs::remove_file(&rt, name));
    let mut full = HostSink::new(made(&rt, fs::create(&rt, "/dev/full")));
    expect_same(
        &rt,
        write_whole(&mut full, b"one"),
        Err(Failed),
        &"write_whole",
    );
}
