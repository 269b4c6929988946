// The shelf of the system: the files of the folder in which the program runs.
ghost use Rattle.std.specs.Prelude.{◌≡◌, ◌+◌, ◌≤◌, [], IfOk, IsErrOf, length};
ghost use Rattle.std.specs.Io.KnownBytes.{Consumes};
ghost use Rattle.fg_io.specs.FolderState.{files_hidden};
ghost use Rattle.fg_io.specs.Outside.{hidden, MayBe, Fetches, FetchCause, next_count};

use crate::{Failed, FetchFault, Shelf};
use std::alloc::{AllocError, Global};
use std::fs;
use std::io::Read;
use std::marker::Model;
use std::rt::Files;

/// The files of the folder that the program runs in. It tells nothing of what they hold.
/// A name is handed to the system as a path, as it stands.
#[derive(Drop)]
pub struct FolderShelf<R: Files + Drop> {
    files: R,
    alloc: Global,
    faults: u64,
    failed_name: String,
}

impl<R: Files + Drop> Model for FolderShelf<R> {
    ghost use Rattle.std.specs.Prelude.{string_bytes};
    ghost use Rattle.fg_io.specs.FolderState.{FolderState};

    ghost Value = { FolderState };

    ghost view = { λ s. record { faults = s.faults; failed_name = string_bytes s.failed_name } };
}

impl<R: Files + Drop> FolderShelf<R> {
    pub fn new(files: R, alloc: Global) -> Self
        ensures { result ≡ record { faults = 0; failed_name = [] } }
    {
        FolderShelf {
            files,
            alloc,
            faults: 0,
            failed_name: String::new(alloc),
        }
    }
}

// Reads to the end, or until one byte more than `at_most` has come.
fn read_up_to<F: Read>(
    alloc: Global,
    file: &mut F,
    at_most: u64,
) -> Result<Result<Vec<u8>, Failed>, AllocError>
    ensures short { IfOk result (λ read. IfOk read (λ bytes. length bytes.items ≤ at_most + 1)) }
    ensures read { IfOk result (λ read. IfOk read (λ bytes. Consumes (F.remaining file.old) (F.remaining file.new)
        bytes.items)) }
    ensures whole { IfOk result (λ read. IfOk read (λ bytes. length bytes.items ≤ at_most → MayBe (F.remaining file.old)
        bytes.items)) }
{
    let mut bytes = Vec::new(alloc);
    let mut buf = [0u8; 4096];
    while bytes.len() as u64 <= at_most {
        let room = (at_most - bytes.len() as u64).min(4095) as usize + 1;
        match file.read(&mut buf[..room]) {
            Ok(0) => return Ok(Ok(bytes)),
            Ok(count) => bytes.extend_from_slice(&buf[..count])?,
            Err(_) => return Ok(Err(Failed)),
        }
    }
    Ok(Ok(bytes))
}

// The bytes of a file, as far as one more than `at_most`.
fn read_file<R: Files>(
    files: &R,
    alloc: Global,
    name: &str,
    at_most: u64,
) -> Result<Result<Vec<u8>, Failed>, AllocError>
    ensures { IfOk result (λ read. IfOk read (λ bytes. length bytes.items ≤ at_most + 1)) }
{
    match fs::open(files, name) {
        Ok(mut file) => read_up_to(alloc, &mut file, at_most),
        Err(_) => Ok(Err(Failed)),
    }
}

impl<R: Files + Drop, S, K> Shelf<S, K> for FolderShelf<R> {
    ghost use Rattle.fg_io.specs.FolderState.{files_hidden, folder_fetched};

    ghost files = { files_hidden };

    ghost fetched = { folder_fetched };

    fn fetch(
        &mut self,
        _script: &S,
        _out: &K,
        name: &str,
        at_most: u64,
    ) -> Result<Vec<u8>, FetchFault>
        ensures content { Fetches hidden at_most result }
        ensures cause { FetchCause name.now (files_hidden self.old) (files_hidden self.new) result }
        ensures failed { IsErrOf result FetchFault.Failed → self.new ≡ record {
          faults = next_count self.old.faults;
          failed_name = name.now;
        } }
    {
        let asked = String::from_str(self.alloc, name)?;
        match read_file(&self.files, self.alloc, name, at_most)? {
            Ok(bytes) => {
                if bytes.len() as u64 > at_most {
                    return Err(FetchFault::TooLong);
                }
                Ok(bytes)
            }
            Err(Failed) => {
                self.faults = self.faults.saturating_add(1);
                self.failed_name = asked;
                Err(FetchFault::Failed)
            }
        }
    }
}
