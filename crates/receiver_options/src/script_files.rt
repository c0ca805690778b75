//! Script files, read whole.

ghost use Rattle.std.specs.Prelude.{◌≡◌, ◌≤◌, ◌⊎◌, ℕ, List, Option, None, length, map, IfOk, IfErr};
ghost use Rattle.receiver_options.specs.declared.script_files.TheConstants.{MOST_SCRIPT_BYTES};
ghost use Rattle.receiver_options.specs.ScriptTexts.{IsTextOf, AreTextsOf};
ghost use Rattle.receiver_options.specs.ScriptTexts.{MayBeRefused, SomeMayBeRefused};

use crate::fault::OptionFault;
use std::alloc::Global;
use std::fs::{File, Files};
use std::io::{ErrorKind, Read};

/// The most bytes of a script file: 16 MiB.
pub const MOST_SCRIPT_BYTES: usize = 16 << 20;

/// What keeps script files.
pub trait ScriptFiles {
    /// The bytes of the file with a name, where they are known.
    ghost bytes_of: { Self → List ℕ → Option (List ℕ) };

    /// Reads a file whole, of 16 MiB at most.
    fn read(&self, alloc: Global, path: &str) -> Result<Vec<u8>, OptionFault>
        ensures whole { IfOk result (λ bytes. IsTextOf (bytes_of self.now path.now) bytes.items) }
        ensures fault { IfErr result (λ fault. (fault ≡ OptionFault.NoMemory)
            ⊎ ((fault ≡ OptionFault.Script) × MayBeRefused (bytes_of self.now path.now))) };
}

/// The files of a file system. No contract knows their bytes.
#[derive(Clone, Copy)]
pub struct Stored<'a, F> {
    files: &'a F,
}

impl<'a, F> Stored<'a, F> {
    /// The script files in some files of a system.
    pub fn new(files: &'a F) -> Self
        ensures { result.files.now ≡ files.now }
    {
        Stored { files }
    }
}

impl<F: Files> ScriptFiles for Stored<'_, F> {
    ghost bytes_of = { λ _ _. None };

    fn read(&self, alloc: Global, path: &str) -> Result<Vec<u8>, OptionFault> {
        match File::open(self.files, path) {
            Ok(file) => script_from(alloc, file),
            Err(_) => Err(OptionFault::Script),
        }
    }
}

/// The bytes of a script that a reader gives: all of them, or `Script` where it fails or gives more
/// than 16 MiB.
pub fn script_from<R: Read + Drop>(alloc: Global, reader: R) -> Result<Vec<u8>, OptionFault>
    ensures whole { IfOk result (λ bytes. IsTextOf (R.remaining reader) bytes.items) }
    ensures short { IfOk result (λ bytes. length bytes.items ≤ MOST_SCRIPT_BYTES) }
    ensures fault { IfErr result (λ fault.
        (fault ≡ OptionFault.NoMemory) ⊎ (fault ≡ OptionFault.Script)) }
{
    let mut bytes = Vec::new(alloc);
    // One byte more than the most shows that there are too many.
    match reader
        .take(MOST_SCRIPT_BYTES as u64 + 1)
        .read_to_end(&mut bytes)
    {
        Ok(_) if bytes.len() <= MOST_SCRIPT_BYTES => Ok(bytes),
        Err(error) if error.kind() == ErrorKind::OutOfMemory => Err(OptionFault::NoMemory),
        _ => Err(OptionFault::Script),
    }
}

/// The texts of script files, in their order.
pub fn read_scripts<S: ScriptFiles>(
    alloc: Global,
    files: &S,
    paths: &[&str],
) -> Result<Vec<Vec<u8>>, OptionFault>
    ensures each { IfOk result (λ texts. AreTextsOf
        (map (λ path. S.bytes_of files.now path.now) paths.now)
        (map (λ text. text.items) texts.items)) }
    ensures fault { IfErr result (λ fault. (fault ≡ OptionFault.NoMemory)
        ⊎ ((fault ≡ OptionFault.Script)
        × SomeMayBeRefused (map (λ path. S.bytes_of files.now path.now) paths.now))) }
{
    let mut texts = Vec::new(alloc);
    for path in paths {
        texts.push(files.read(alloc, path)?)?;
    }
    Ok(texts)
}
