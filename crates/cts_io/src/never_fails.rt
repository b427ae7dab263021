// Files in memory, and a sink, that never fail.
ghost use Rattle.std.specs.Prelude.{◌≡◌, ◌≤◌, ◌<◌, ◌+◌, ℕ, List, [], ◌++◌, length, take, drop, Some, Ok, IsOk, OnOk, OnErr, IfOk, IsErrOf};
ghost use Rattle.cts_io.specs.Vocabulary.{Rose, Takes, absent, bytes_at, FilesState, bytes_named, fitting, none};

use crate::device::{Failed, Inputs, Sink, StartFault};
use crate::memory_inputs::{HeldFile, left_of, place_of};
use cts_base::Listed;
use std::marker::Model;

/// Files in memory that are always read, and a sink that always writes: the count of faults is 0.
/// A name that isn't listed holds no bytes, and of two files with one name the first is meant. As
/// a sink it takes each piece whole and drops it. It takes no memory.
#[derive(Debug, Drop)]
pub struct NeverFails {
    files: Listed<HeldFile>,
    // The place of the started file; past the last file where none is started or none has the name.
    place: usize,
    // How many bytes of it are taken.
    taken: usize,
}

impl Model for NeverFails {
    ghost use Rattle.std.specs.Prelude.{◌≤◌, length, drop};
    ghost use Rattle.cts_io.specs.MemoryInputs.{bytes_at};
    ghost use Rattle.cts_io.specs.NeverFails.{FilesState};

    ghost Value = { FilesState };

    ghost view = { λ inputs. record {
      files = inputs.files;
      left = drop inputs.taken (bytes_at inputs.files inputs.place);
    } };

    ghost invariant = { λ inputs. inputs.taken ≤ length (bytes_at inputs.files inputs.place) };
}

impl NeverFails {
    /// Files none of which is started.
    pub fn new(files: Listed<HeldFile>) -> NeverFails
        ensures { result ≡ record { files = files; left = [] } }
    {
        let place = files.len();
        NeverFails {
            files,
            place,
            taken: 0,
        }
    }
}

impl Inputs for NeverFails {
    ghost holds = { λ inputs name. Some (bytes_named inputs.files name) };

    ghost left = { λ inputs. Some inputs.left };

    ghost faults = { λ _ _. none };

    fn start(&mut self, name: &str) -> Result<(), StartFault>
        ensures never { IsOk result }
        ensures after { self.new ≡ record self.old {
          left = bytes_named self.old.files name.now;
        } }

        // The trait's clauses.
        ensures ok { OnOk result (Some self.new.left
            ≡ Some (bytes_named self.old.files name.now)) }
        ensures failed { IsErrOf result StartFault.Failed → Rose none none }
        ensures files { (file : List ℕ) → Some (bytes_named self.new.files file)
            ≡ Some (bytes_named self.old.files file) }
        ensures counts { (file : List ℕ) → none ≤ none }
        ensures stays { ¬ IsErrOf result StartFault.Failed → (file : List ℕ) → none ≡ none }
    {
        self.place = place_of(self.files.as_slice(), name).unwrap_or(self.files.len());
        self.taken = 0;
        Ok(())
    }

    fn take(&mut self, _name: &str, into: &mut [u8]) -> Result<usize, Failed>
        requires { 0 < length into.old }
        ensures answer { result ≡ Ok (fitting self.old (length into.old)) }
        ensures bytes { IfOk result (λ n. into.new ≡ take n self.old.left ++ drop n into.old) }
        ensures after { self.new ≡ record self.old {
          left = drop (fitting self.old (length into.old)) self.old.left;
        } }

        // The trait's clauses.
        ensures within { IfOk result (λ n. n ≤ length into.new) }
        ensures ok { IfOk result (λ n. (rest : List ℕ) → Some self.old.left ≡ Some rest
            → Takes rest n into.new (Some self.new.left)) }
        ensures failed { OnErr result (Rose none none) }
        ensures files { (file : List ℕ) → Some (bytes_named self.new.files file)
            ≡ Some (bytes_named self.old.files file) }
        ensures counts { (file : List ℕ) → none ≤ none }
        ensures stays { OnOk result ((file : List ℕ) → none ≡ none) }
    {
        let left = left_of(self.files.as_slice(), self.place, self.taken);
        let count = into.len().min(left.len());
        into[..count].copy_from_slice(&left[..count]);
        self.taken += count;
        Ok(count)
    }
}

impl Sink for NeverFails {
    ghost written = { λ _. absent };

    ghost faults = { λ _. none };

    fn write(&mut self, piece: &[u8]) -> Result<usize, Failed>
        ensures answer { result ≡ Ok (length piece.now) }
        ensures after { self.new ≡ self.old }

        // The trait's clauses.
        ensures within { IfOk result (λ n. n ≤ length piece.now) }
        ensures some { 0 < length piece.now → IfOk result (λ n. 0 < n) }
        ensures none { length piece.now ≡ 0 → IsOk result }
        ensures failed { OnErr result (Rose none none) }
        ensures count { none ≤ none }
        ensures stays { OnOk result (none ≡ none) }
    {
        Ok(piece.len())
    }
}
