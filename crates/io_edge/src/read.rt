//! Reading a whole file from a shelf.

ghost use Rattle.std.specs.Prelude.{◌≡◌, ◌≤◌, Some, length, IsTrue, IsSome, IfSome, IfOk, IsErrOf};
ghost use Rattle.io_edge.specs.Faults.{Rose};
ghost use Rattle.io_edge.specs.Files.{file_at};
ghost use Rattle.io_edge.specs.Source.{IsAnswerFor};

use crate::shelf::{Got, Picked, Shelf};
use std::alloc::Global;
use thiserror::Error;

/// Why a file was not read.
#[derive(Clone, Copy, Debug, PartialEq, Eq, Error)]
pub enum ReadStop {
    #[error("there is no such file")]
    Absent,
    #[error("the file could not be read")]
    ReadFault,
    #[error("the file is too large")]
    TooLarge,
    #[error("out of memory")]
    Memory,
}

/// How many bytes are asked for in one read.
const BLOCK: usize = 4096;

/// The bytes of the file of this name, if they are no more than `most`.
pub fn read_source<F: Shelf>(
    alloc: Global,
    shelf: &mut F,
    name: &str,
    most: usize,
) -> Result<Vec<u8>, ReadStop>
    // Where the shelf tells its files, the answer fits what it tells of the file of this name.
    ensures answer { IfSome (file_at (F.files shelf.old) name.now) (λ file. IsAnswerFor file most result) }
    ensures within { IfOk result (λ bytes. length bytes.items ≤ most) }
    ensures absent { IsErrOf result ReadStop.Absent → IsSome (F.files shelf.old) }
    ensures no_fault { IsErrOf result ReadStop.Absent → F.faults shelf.new ≡ F.faults shelf.old }
    ensures read_fault { IsErrOf result ReadStop.ReadFault → Rose (F.faults shelf.old) (F.faults shelf.new) }

    ensures files { F.files shelf.new ≡ F.files shelf.old }
    ensures faults { F.faults shelf.old ≤ F.faults shelf.new }
{
    match shelf.pick(name) {
        Picked::Ready => read_left(alloc, shelf, most),
        Picked::Absent => Err(ReadStop::Absent),
        Picked::Failed => Err(ReadStop::ReadFault),
    }
}

/// The bytes left of the picked file, if they are no more than `most`.
fn read_left<F: Shelf>(alloc: Global, shelf: &mut F, most: usize) -> Result<Vec<u8>, ReadStop>
    requires { IsTrue (F.picked shelf.old) }
    ensures answer { IfSome (F.left shelf.old) (λ bytes. IsAnswerFor (Some bytes) most result) }
    ensures within { IfOk result (λ bytes. length bytes.items ≤ most) }
    ensures not_absent { IsErrOf result ReadStop.Absent → ⊥ }
    ensures read_fault { IsErrOf result ReadStop.ReadFault → Rose (F.faults shelf.old) (F.faults shelf.new) }
    ensures files { F.files shelf.new ≡ F.files shelf.old }
    ensures faults { F.faults shelf.old ≤ F.faults shelf.new }
{
    let mut bytes = Vec::new(alloc);
    let mut block = [0u8; BLOCK];
    while bytes.len() <= most {
        match shelf.read(&mut block) {
            Got::Bytes(count) => {
                if bytes.extend_from_slice(&block[..count]).is_err() {
                    return Err(ReadStop::Memory);
                }
            }
            Got::End => return Ok(bytes),
            Got::Failed => return Err(ReadStop::ReadFault),
        }
    }
    Err(ReadStop::TooLarge)
}
