use cts_base::{Listed, Name};
use cts_io::HeldFile;
use std::alloc::Global;
use std::process::Abort;

fn bytes_of(rt: &impl Abort, alloc: Global, text: &str) -> Name {
    Listed::from_vec(Vec::from_slice(alloc, text.as_bytes()).expect(rt, "memory"))
}

fn held_file(rt: &impl Abort, alloc: Global, name: &str, text: &str) -> HeldFile {
    HeldFile {
        name: bytes_of(rt, alloc, name),
        bytes: bytes_of(rt, alloc, text),
    }
}

/// Files with these names and texts.
pub(crate) fn held_files(
    rt: &impl Abort,
    alloc: Global,
    files: &[(&str, &str)],
) -> Listed<HeldFile> {
    let mut held = Listed::new(alloc);
    for (name, text) in files {
        held.push(held_file(rt, alloc, name, text))
            .expect(rt, "memory");
    }
    held
}
