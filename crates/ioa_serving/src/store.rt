//! Files as contracts speak of them, whatever system keeps them.

ghost use Rattle.std.specs.Prelude.{◌≡◌, ℕ, List, Option, IfOk, IfErr, IsErrOf, OnOk, OnSome};
ghost use Rattle.std.specs.Option.{option_map};
ghost use Rattle.ioa_value.specs.Actions.{Name};
ghost use Rattle.ioa_serving.specs.declared.store.StoreErr.{StoreErr};

use std::alloc::{AllocError, AllocFailed, Global};
use thiserror::Error;

/// Why a file was not read or written.
#[derive(Clone, Copy, Debug, PartialEq, Eq, Error)]
pub enum StoreErr {
    /// The file is not there, or cannot be read; or it cannot be written.
    #[error("io")]
    Io,
    /// A growth of memory was refused.
    #[error("memory")]
    OutOfMemory,
}

impl From<AllocError> for StoreErr {
    ghost use Rattle.std.specs.Prelude.{◌≡◌};
    ghost use Rattle.ioa_serving.specs.declared.store.StoreErr.TheVariants as errors;

    ghost from_gives = { λ _ e. e ≡ errors.OutOfMemory };

    fn from(_error: AllocError) -> StoreErr {
        StoreErr::OutOfMemory
    }
}

impl<T: Drop> From<AllocFailed<T>> for StoreErr {
    ghost use Rattle.std.specs.Prelude.{◌≡◌};
    ghost use Rattle.ioa_serving.specs.declared.store.StoreErr.TheVariants as errors;

    ghost from_gives = { λ _ e. e ≡ errors.OutOfMemory };

    fn from(_error: AllocFailed<T>) -> StoreErr {
        StoreErr::OutOfMemory
    }
}

/// The files that the program reads and writes.
pub trait Store {
    /// A load of the file of this name may give these bytes.
    ghost holds: { Self → Name → List ℕ → Type 0 };

    /// A load of the file of this name may fail.
    ghost lacks: { Self → Name → Type 0 };

    /// Under this name may stand a file that can be read and begins so: its first four bytes at least, or all where it has fewer. None: there may
    /// be no such file.
    ghost begins: { Self → Name → Option (List ℕ) → Type 0 };

    /// A save to the file of this name may fail.
    ghost bars: { Self → Name → Type 0 };

    /// Between these two these bytes were put in the file of this name, and no other file was changed.
    ghost saves: { Self → Self → Name → List ℕ → Type 0 };

    /// The bytes of a source or an object. Of a source that is longer than one may be so many are enough that this can be told.
    fn load(&self, alloc: Global, name: &str) -> Result<Vec<u8>, StoreErr>
        ensures ok { IfOk result (λ bytes. holds self.now name.now bytes.items) }
        ensures io { IsErrOf result StoreErr.Io → lacks self.now name.now };

    /// All bytes of a file, however many they are.
    fn load_whole(&self, alloc: Global, name: &str) -> Result<Vec<u8>, StoreErr>
        ensures ok { IfOk result (λ bytes. holds self.now name.now bytes.items) }
        ensures io { IsErrOf result StoreErr.Io → lacks self.now name.now };

    /// The first four bytes of a file at least, or all where it has fewer. None where no file of this name is there that can be read. Only want of
    /// memory is an error.
    fn beginning(&self, alloc: Global, name: &str) -> Result<Option<Vec<u8>>, AllocError>
        ensures ok { IfOk result (λ found. begins self.now name.now (option_map (λ bytes. bytes.items) found)) };

    /// Puts bytes in a file, whether it was there or not: all of them, or no file is changed.
    fn save(&mut self, alloc: Global, name: &str, bytes: &[u8]) -> Result<(), StoreErr>
        ensures ok { OnOk result (saves self.old self.new name.now bytes.now) }
        ensures io { IsErrOf result StoreErr.Io → bars self.old name.now }
        ensures kept { IfErr result (λ _. self.new ≡ self.old) };

    /// What is wrong with a file that cannot be read, in words for people. None where nothing is.
    fn complaint(&self, alloc: Global, name: &str) -> Result<Option<String>, StoreErr>
        ensures complains { IfOk result (λ complaint. OnSome complaint (lacks self.now name.now)) };
}
