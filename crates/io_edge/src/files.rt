//! Files in memory, each under its name.

ghost use Rattle.std.specs.Prelude.{◌≡◌, ◌<◌, OnOk, OnErr, ◌++◌, IfSome, IfNone, Some, None, length, take, drop, min};
ghost use Rattle.io_edge.specs.MemoryShelf.{file_named, bytes_at, IsFirstNamed, Puts};

use c_tokens::{Bytes, Memory};
use std::alloc::Global;

/// A file in memory.
#[derive(Debug, Drop)]
pub(crate) struct File {
    pub(crate) name: Bytes,
    pub(crate) bytes: Bytes,
}

/// How far a file was read: its place among the files, and where the next byte stands.
#[derive(Clone, Copy, Debug)]
pub(crate) struct Reading {
    pub(crate) place: usize,
    pub(crate) start: usize,
}

/// The place of the first file of this name.
pub(crate) fn find_file(files: &[File], name: &str) -> Option<usize>
    ensures found { IfSome result (IsFirstNamed files.now name.now) }
    ensures bytes { IfSome result (λ place. file_named files.now name.now ≡ Some (bytes_at files.now place)) }
    ensures absent { IfNone result (file_named files.now name.now ≡ None) }
{
    for (place, file) in files.iter().enumerate() {
        if file.name.items() == name.as_bytes() {
            return Some(place);
        }
    }
    None
}

/// Puts the bytes under the name, in place of an earlier file of that name.
pub(crate) fn put_file(
    alloc: Global,
    files: &mut Vec<File>,
    name: &str,
    bytes: &[u8],
) -> Result<(), Memory>
    ensures ok { OnOk result (Puts files.old.items name.now bytes.now files.new.items) }
    ensures err { OnErr result (files.new.items ≡ files.old.items) }
{
    let bytes = Bytes::from_vec(Vec::from_slice(alloc, bytes)?);
    match find_file(files, name) {
        Some(place) => files[place].bytes = bytes,
        None => {
            let name = Bytes::from_vec(Vec::from_slice(alloc, name.as_bytes())?);
            files.push(File { name, bytes })?;
        }
    }
    Ok(())
}

/// Copies as many bytes to the front of the buffer as it takes, `most` at most, and says how many.
pub(crate) fn copy_front(buf: &mut [u8], bytes: &[u8], most: usize) -> usize
    ensures count { result ≡ min (min (length bytes.now) (length buf.old)) most }
    ensures copied { buf.new ≡ take result bytes.now ++ drop result buf.old }
{
    let count = bytes.len().min(buf.len()).min(most);
    buf[..count].copy_from_slice(&bytes[..count]);
    count
}
