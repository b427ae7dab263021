// Files in memory.
ghost use Rattle.std.specs.Prelude.{◌≡◌, ◌≤◌, ◌<◌, ◌+◌, ◌^◌, ℕ, List, [], ◌++◌, length, take, drop, Option, Some, is_ok, is_err, OnOk, OnErr, IfOk, IfErr, IsErrOf, IfSome, IfNone, None, position};
ghost use Rattle.cts_io.specs.Vocabulary.{bytes_eq, Rose, Takes, fresh_plan, fails_next, InputsState, held_in, bytes_at, starts, after_start, given, after_take};

use crate::device::{Failed, Inputs, StartFault};
use crate::plan::Plan;
use cts_base::{Listed, Name};
use std::marker::Model;

/// A file that memory holds.
#[derive(Debug, Drop)]
pub struct HeldFile {
    pub name: Name,
    pub bytes: Listed<u8>,
}

/// Files in memory, with the calls that fail. Of two files with one name the first is meant. It
/// takes no memory, so it never answers that memory was refused.
#[derive(Debug, Drop)]
pub struct MemoryInputs {
    files: Listed<HeldFile>,
    plan: Plan,
    piece: usize,
    // The place of the started file; past the last file before any start.
    place: usize,
    // How many bytes of it are taken.
    taken: usize,
}

impl Model for MemoryInputs {
    ghost Value = { InputsState };

    ghost view = { λ inputs. record {
      files = inputs.files;
      plan = inputs.plan;
      piece = inputs.piece;
      left = drop inputs.taken (bytes_at inputs.files inputs.place);
    } };

    ghost invariant = { λ inputs. (1 ≤ inputs.piece)
        × (inputs.taken ≤ length (bytes_at inputs.files inputs.place)) };
}

impl MemoryInputs {
    /// Files none of which is started. `fails` has the numbers of the calls that fail: starts and
    /// takes are counted from 1, and each call after number 2^64 - 1 has that number too. A take
    /// gives at most `piece` bytes.
    pub fn new(files: Listed<HeldFile>, fails: Vec<u64>, piece: usize) -> MemoryInputs
        requires { 1 ≤ piece }
        ensures { result ≡ record {
          files = files;
          plan = fresh_plan fails.items;
          piece = piece;
          left = [];
        } }
    {
        let place = files.len();
        MemoryInputs {
            files,
            plan: Plan::new(fails),
            piece,
            place,
            taken: 0,
        }
    }
}

impl Inputs for MemoryInputs {
    ghost holds = { λ inputs name. held_in inputs.files name };

    ghost left = { λ inputs. Some inputs.left };

    ghost faults = { λ inputs _. inputs.plan.faults };

    fn start(&mut self, name: &str) -> Result<(), StartFault>
        ensures answer { is_ok result ≡ starts self.old name.now }
        ensures no_other { IfErr result (λ fault. fault ≡ StartFault.Failed) }
        ensures after { self.new ≡ after_start self.old name.now }

        // The trait's clauses.
        ensures ok { OnOk result (Some self.new.left ≡ held_in self.old.files name.now) }
        ensures failed { IsErrOf result StartFault.Failed
            → Rose self.old.plan.faults self.new.plan.faults }
        ensures files { (file : List ℕ)
            → held_in self.new.files file ≡ held_in self.old.files file }
        ensures counts { (file : List ℕ) → self.old.plan.faults ≤ self.new.plan.faults }
        ensures stays { ¬ IsErrOf result StartFault.Failed
            → (file : List ℕ) → self.new.plan.faults ≡ self.old.plan.faults }
    {
        let fails = self.plan.call_fails();
        match place_of(self.files.as_slice(), name) {
            Some(place) if !fails => {
                self.place = place;
                self.taken = 0;
                Ok(())
            }
            _ => {
                self.plan.count_fault();
                Err(StartFault::Failed)
            }
        }
    }

    fn take(&mut self, name: &str, into: &mut [u8]) -> Result<usize, Failed>
        requires { 0 < length into.old }
        ensures answer { is_err result ≡ fails_next self.old.plan }
        ensures count { IfOk result (λ n. n ≡ given self.old (length into.old)) }
        ensures bytes { IfOk result (λ n. into.new ≡ take n self.old.left ++ drop n into.old) }
        ensures none { OnErr result (into.new ≡ into.old) }
        ensures after { self.new ≡ after_take self.old (length into.old) }

        // The trait's clauses.
        ensures within { IfOk result (λ n. n ≤ length into.new) }
        ensures ok { IfOk result (λ n. (rest : List ℕ) → Some self.old.left ≡ Some rest
            → Takes rest n into.new (Some self.new.left)) }
        ensures failed { OnErr result (Rose self.old.plan.faults self.new.plan.faults) }
        ensures files { (file : List ℕ)
            → held_in self.new.files file ≡ held_in self.old.files file }
        ensures counts { (file : List ℕ) → self.old.plan.faults ≤ self.new.plan.faults }
        ensures stays { OnOk result ((file : List ℕ)
            → self.new.plan.faults ≡ self.old.plan.faults) }
    {
        if self.plan.call_fails() {
            self.plan.count_fault();
            return Err(Failed);
        }
        let left = left_of(self.files.as_slice(), self.place, self.taken);
        let count = self.piece.min(into.len()).min(left.len());
        into[..count].copy_from_slice(&left[..count]);
        self.taken += count;
        Ok(count)
    }
}

// The place of the first file of a name.
pub(crate) fn place_of(files: &[HeldFile], name: &str) -> Option<usize>
    ensures found { IfSome result
        (λ place. held_in files.now name.now ≡ Some (bytes_at files.now place)) }
    ensures none { IfNone result (held_in files.now name.now ≡ None) }
{
    first_named(files, name.as_bytes())
}

// The same, by the bytes of the name.
fn first_named(files: &[HeldFile], name: &[u8]) -> Option<usize>
    ensures { result ≡ position (λ file. bytes_eq file.name name.now) files.now }
{
    files.iter().position(|file| file.name.as_slice() == name)
}

// What is left of the file at a place, after the bytes that are taken.
pub(crate) fn left_of(files: &[HeldFile], place: usize, taken: usize) -> &[u8]
    requires { taken ≤ length (bytes_at files.now place) }
    ensures rest { result.now ≡ drop taken (bytes_at files.now place) }
    ensures small { taken + length result.now < 2 ^ 64 }
{
    match files.get(place) {
        Some(file) => file.bytes.as_slice().split_at(taken).1,
        None => &[],
    }
}
