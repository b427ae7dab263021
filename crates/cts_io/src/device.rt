//! What a program reads from and writes to, as contracts see it.

ghost use Rattle.std.specs.Prelude.{◌≡◌, ◌≤◌, ◌<◌, ℕ, List, length, take, Option, Some, IsOk, OnOk, OnErr, IfOk, IsErrOf};
ghost use Rattle.cts_io.specs.Device.{Rose, appended, Takes};

/// The answer of a device that failed.
#[derive(Clone, Copy, Debug, PartialEq, Eq)]
pub struct Failed;

/// Why a file wasn't started.
#[derive(Clone, Copy, Debug, PartialEq, Eq)]
pub enum StartFault {
    /// The device failed, or has no file of that name.
    Failed,
    /// Memory was refused.
    NoMemory,
}

/// Named files that are read one after the other.
pub trait Inputs {
    /// The bytes of each named file, where they are given.
    ghost holds: { Self → List ℕ → Option (List ℕ) };

    /// What is left of the started file, where it is given.
    ghost left: { Self → Option (List ℕ) };

    /// How often each name has failed.
    ghost faults: { Self → List ℕ → ℕ };

    /// Begins with the first byte of a file. After a refusal, nothing is promised of what is left
    /// until a start is `Ok`.
    ///
    /// # Errors
    ///
    /// The device failed or has no file of that name, or there is no memory for the start.
    fn start(&mut self, name: &str) -> Result<(), StartFault>
        ensures ok { OnOk result (left self.new ≡ holds self.old name.now) }
        ensures failed { IsErrOf result StartFault.Failed
            → Rose (faults self.old name.now) (faults self.new name.now) }
        // No call changes what a file holds, and no count falls.
        ensures files { (file : List ℕ) → holds self.new file ≡ holds self.old file }
        ensures counts { (file : List ℕ) → faults self.old file ≤ faults self.new file }
        // A call that doesn't answer `Failed` leaves every count as it was.
        ensures stays { ¬ IsErrOf result StartFault.Failed
            → (file : List ℕ) → faults self.new file ≡ faults self.old file };

    /// Takes the next bytes of the started file into the start of a buffer, and gives how many:
    /// 0 exactly where nothing is left. The name says whose count a fault raises.
    ///
    /// # Errors
    ///
    /// The device failed.
    fn take(&mut self, name: &str, into: &mut [u8]) -> Result<usize, Failed>
        requires { 0 < length into.old }
        ensures within { IfOk result (λ n. n ≤ length into.new) }
        ensures ok { IfOk result (λ n. (rest : List ℕ) → left self.old ≡ Some rest
            → Takes rest n into.new (left self.new)) }
        ensures failed { OnErr result (Rose (faults self.old name.now) (faults self.new name.now)) }
        ensures files { (file : List ℕ) → holds self.new file ≡ holds self.old file }
        ensures counts { (file : List ℕ) → faults self.old file ≤ faults self.new file }
        ensures stays { OnOk result ((file : List ℕ)
            → faults self.new file ≡ faults self.old file) };
}

/// A place where bytes are written in pieces.
pub trait Sink {
    /// What is written, where it is given.
    ghost written: { Self → Option (List ℕ) };

    /// How often the sink has failed.
    ghost faults: { Self → ℕ };

    /// Writes a prefix of the piece, and gives how many bytes: at least one, where there is one.
    ///
    /// # Errors
    ///
    /// The device failed, and takes nothing of the piece.
    fn write(&mut self, piece: &[u8]) -> Result<usize, Failed>
        ensures within { IfOk result (λ n. n ≤ length piece.now) }
        ensures some { 0 < length piece.now → IfOk result (λ n. 0 < n) }
        ensures none { length piece.now ≡ 0 → IsOk result }
        ensures ok { IfOk result (λ n. written self.new ≡ appended (written self.old)
            (take n piece.now)) }
        // After a fault nothing more is written.
        ensures err { OnErr result (written self.new ≡ written self.old) }
        ensures failed { OnErr result (Rose (faults self.old) (faults self.new)) }
        ensures count { faults self.old ≤ faults self.new }
        ensures stays { OnOk result (faults self.new ≡ faults self.old) };
}
