//! The call that the program makes.

ghost use Rattle.std.specs.Prelude.{◌≡◌, ◌≢◌, ◌≤◌, ◌⊎◌, ◌↔◌, ℕ, List, length, None, Some, IfSome, map, string_bytes};
ghost use Rattle.io_edge.specs.Faults.{Rose};
ghost use Rattle.io_edge.specs.Files.{file_at};
ghost use Rattle.ms2_top.specs.Command.{file_of};
ghost use Rattle.ms2_top.specs.Endings.{status_of, IfRefused, IsLimited, IsRefusal, IsRefusedAt, IsStopEnding};
ghost use Rattle.ms2_top.specs.Messages.{Says};
ghost use Rattle.ms2_top.specs.Outcomes.{IsStopOf};
ghost use Rattle.ms2_top.specs.Runs.{AreBytes, IsRun, IsAnswer, IsSettled, told, KeepsUnless};

use crate::command::file_of as named_file;
use crate::ending::{Ending, Reason, Refusal};
use crate::messages::{send_message, send_usage};
use crate::source::{Outcome, outcome_of};
use crate::status::Status;
use c_tokens::{Memory, Span, place_at};
use expander::Stop;
use io_edge::{ReadStop, Shelf, Sink, WriteFault, put_all, read_source};
use std::alloc::Global;

/// The most bytes that a file may have.
pub const MAX_FILE_BYTES: usize = 4_194_304;

/// Reads the file that the words name, and writes to `out` what it stands for. A line that says why this was not done
/// goes to `err`; a fault of `err` changes no status.
pub fn run<F: Shelf, O: Sink, E: Sink>(
    alloc: Global,
    words: &[String],
    shelf: &mut F,
    out: &mut O,
    err: &mut E,
) -> Status
    // What each status says of the words, the devices and the file.
    ensures usage { (result ≡ Status.Usage) ↔ (file_of (map string_bytes words.now) ≡ None) }
    ensures read { result ≡ Status.Read → Rose (F.faults shelf.old) (F.faults shelf.new) ⊎ (told (F.files shelf.old) (file_of (map string_bytes words.now)) ≡ Some None) }
    ensures answer { IsRun (told (F.files shelf.old) (file_of (map string_bytes words.now))) (O.held out.old) (O.held out.new) result }
    ensures write { result ≡ Status.Write → Rose (O.faults out.old) (O.faults out.new) }

    // Where the file is told and within the limit, and no count rose, the status is the one that the file has, or Memory.
    ensures complete { (bytes : List ℕ) → told (F.files shelf.old) (file_of (map string_bytes words.now)) ≡ Some (Some bytes) → length bytes ≤ MAX_FILE_BYTES
        → ¬ (Rose (F.faults shelf.old) (F.faults shelf.new)) → ¬ (Rose (O.faults out.old) (O.faults out.new)) → IsSettled bytes result }

    ensures kept { KeepsUnless result out.old out.new }

    // What `err` gains is the line of the status.
    ensures message { Says (file_of (map string_bytes words.now)) (told (F.files shelf.old) (file_of (map string_bytes words.now))) result
        (Rose (E.faults err.old) (E.faults err.new)) (E.held err.old) (E.held err.new) }
    ensures silent { result ≡ Status.Done → err.new ≡ err.old }
{
    match named_file(words) {
        Some(name) => run_over(alloc, name, shelf, out, err),
        None => {
            let _ = send_usage(err);
            Status::Usage
        }
    }
}

/// Reads the file of this name and writes what it stands for, or a line to `err`.
fn run_over<F: Shelf, O: Sink, E: Sink>(
    alloc: Global,
    name: &str,
    shelf: &mut F,
    out: &mut O,
    err: &mut E,
) -> Status
    ensures command { result ≢ Status.Usage }
    ensures read { result ≡ Status.Read → Rose (F.faults shelf.old) (F.faults shelf.new) ⊎ (file_at (F.files shelf.old) name.now ≡ Some None) }
    ensures answer { IsRun (file_at (F.files shelf.old) name.now) (O.held out.old) (O.held out.new) result }
    ensures write { result ≡ Status.Write → Rose (O.faults out.old) (O.faults out.new) }
    ensures kept { KeepsUnless result out.old out.new }
    ensures message { Says (Some name.now) (file_at (F.files shelf.old) name.now) result
        (Rose (E.faults err.old) (E.faults err.new)) (E.held err.old) (E.held err.new) }
    ensures silent { result ≡ Status.Done → err.new ≡ err.old }
{
    let ending = respond(alloc, name, shelf, out);
    let _ = send_message(err, name, &ending);
    ending.status()
}

/// Reads the file of this name, and writes what it stands for.
fn respond<F: Shelf, O: Sink>(alloc: Global, name: &str, shelf: &mut F, out: &mut O) -> Ending
    ensures read { result ≡ Ending.Read → Rose (F.faults shelf.old) (F.faults shelf.new) ⊎ (file_at (F.files shelf.old) name.now ≡ Some None) }
    ensures answer { IsRun (file_at (F.files shelf.old) name.now) (O.held out.old) (O.held out.new) (status_of result) }
    ensures write { result ≡ Ending.Write → Rose (O.faults out.old) (O.faults out.new) }
    ensures kept { KeepsUnless (status_of result) out.old out.new }
    ensures refused { IfRefused result (λ refusal. (bytes : List ℕ) × (AreBytes (file_at (F.files shelf.old) name.now) bytes × IsRefusal bytes refusal)) }
    ensures limited { IsLimited (file_at (F.files shelf.old) name.now) result }
{
    let bytes = match read_source(alloc, shelf, name, MAX_FILE_BYTES) {
        Ok(bytes) => bytes,
        Err(ReadStop::Absent | ReadStop::ReadFault) => return Ending::Read,
        Err(ReadStop::TooLarge) => return Ending::FileTooLarge,
        Err(ReadStop::Memory) => return Ending::Memory,
    };
    write_text(alloc, &bytes, out)
}

/// Writes the text of the bytes of a file.
fn write_text<O: Sink>(alloc: Global, bytes: &[u8], out: &mut O) -> Ending
    requires { length bytes.now ≤ MAX_FILE_BYTES }
    ensures answer { IsAnswer bytes.now (O.held out.old) (O.held out.new) (status_of result) }
    ensures write { result ≡ Ending.Write → Rose (O.faults out.old) (O.faults out.new) }
    ensures kept { KeepsUnless (status_of result) out.old out.new }
    ensures refused { IfRefused result (IsRefusal bytes.now) }
    ensures limited { result ≢ Ending.FileTooLarge }
{
    match outcome_of(alloc, bytes) {
        Ok(Outcome::Text(text)) => match put_all(out, text.items()) {
            Ok(()) => Ending::Done,
            Err(WriteFault) => Ending::Write,
        },
        Ok(Outcome::Lex { at, cause }) => {
            Ending::Refused(refusal_at(bytes, at, Reason::Lex(cause)))
        }
        Ok(Outcome::Stopped(stop)) => stopped(bytes, stop),
        Ok(Outcome::TextTooLarge) => Ending::TextTooLarge,
        Err(Memory) => Ending::Memory,
    }
}

/// The ending of a source that was not read to its end.
fn stopped(bytes: &[u8], stop: Stop) -> Ending
    requires size { length bytes.now ≤ MAX_FILE_BYTES }
    requires stopped { IsStopOf bytes.now stop }
    ensures { IsStopEnding bytes.now result }
{
    match stop {
        Stop::Syntax(Span { start, .. }) => {
            Ending::Refused(refusal_at(bytes, start as usize, Reason::Syntax))
        }
        Stop::TooDeep(Span { start, .. }) => {
            Ending::Refused(refusal_at(bytes, start as usize, Reason::TooDeep))
        }
        Stop::NotBuilt(Span { start, .. }) => {
            Ending::Refused(refusal_at(bytes, start as usize, Reason::NotBuilt))
        }
        Stop::Memory => Ending::Memory,
    }
}

/// The refusal of a source at a byte.
fn refusal_at(bytes: &[u8], at: usize, reason: Reason) -> Refusal
    requires size { length bytes.now ≤ MAX_FILE_BYTES }
    requires refused { IsRefusedAt bytes.now at reason }
    ensures { IsRefusal bytes.now result }
{
    // Past the end stands what stands at the end.
    let place = place_at(bytes, at.min(bytes.len()));
    Refusal { place, reason }
}
