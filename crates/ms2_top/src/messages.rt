//! The lines on standard error.

ghost use Rattle.std.specs.Prelude.{◌≡◌, OnOk, OnErr};
ghost use Rattle.std.specs.List.{flat_map};
ghost use Rattle.io_edge.specs.Faults.{Rose};
ghost use Rattle.io_edge.specs.Put.{Appends};
ghost use Rattle.ms2_top.specs.Messages.{HasFront, cause_text, message, reason_text, refusal_line, refusal_text, usage_line};

use crate::ending::{Ending, Reason, Refusal};
use c_tokens::LexCause;
use io_edge::{Sink, WriteFault, put_all};
use itoa::Buffer;

/// Sends the line of words that are no command.
pub fn send_usage<E: Sink>(err: &mut E) -> Result<(), WriteFault>
    ensures all { OnOk result (Appends (E.held err.old) usage_line (E.held err.new)) }
    ensures part { OnErr result (HasFront (E.held err.old) usage_line (E.held err.new)) }
    ensures fault { OnErr result (Rose (E.faults err.old) (E.faults err.new)) }
{
    put_all(err, b"usage: ms2 FILE\n")
}

/// Sends the line of an ending, or nothing where the run is done.
pub fn send_message<E: Sink>(err: &mut E, name: &str, ending: &Ending) -> Result<(), WriteFault>
    ensures all { OnOk result (Appends (E.held err.old) (message name.now ending.now) (E.held err.new)) }
    ensures part { OnErr result (HasFront (E.held err.old) (message name.now ending.now) (E.held err.new)) }
    ensures fault { OnErr result (Rose (E.faults err.old) (E.faults err.new)) }
    ensures silent { ending.now ≡ Ending.Done → err.new ≡ err.old }
{
    match ending {
        Ending::Done => Ok(()),
        Ending::Refused(refusal) => send_refusal(err, name, refusal),
        Ending::Read => put_pieces(err, &["ms2: cannot read ", name, "\n"]),
        Ending::Write => put_all(err, b"ms2: cannot write\n"),
        Ending::Memory => put_all(err, b"ms2: no memory\n"),
        Ending::FileTooLarge => put_pieces(err, &[name, ": too large\n"]),
        Ending::TextTooLarge => put_all(err, b"ms2: text too large\n"),
    }
}

/// Sends the line of a refusal.
fn send_refusal<E: Sink>(err: &mut E, name: &str, refusal: &Refusal) -> Result<(), WriteFault>
    ensures all { OnOk result (Appends (E.held err.old) (refusal_line name.now refusal.now.place refusal.now.reason) (E.held err.new)) }
    ensures part { OnErr result (HasFront (E.held err.old) (refusal_line name.now refusal.now.place refusal.now.reason) (E.held err.new)) }
    ensures fault { OnErr result (Rose (E.faults err.old) (E.faults err.new)) }
{
    let mut line = Buffer::new();
    let mut column = Buffer::new();
    put_refusal(
        err,
        name,
        line.format(refusal.place.line),
        column.format(refusal.place.column),
        reason_text(refusal.reason),
    )
}

/// Sends the line of a refusal, whose line and column are these texts.
fn put_refusal<'a, E: Sink>(
    err: &mut E,
    name: &'a str,
    line: &'a str,
    column: &'a str,
    reason: &'a str,
) -> Result<(), WriteFault>
    ensures all { OnOk result (Appends (E.held err.old) (refusal_text name.now line.now column.now reason.now) (E.held err.new)) }
    ensures part { OnErr result (HasFront (E.held err.old) (refusal_text name.now line.now column.now reason.now) (E.held err.new)) }
    ensures fault { OnErr result (Rose (E.faults err.old) (E.faults err.new)) }
{
    put_pieces(err, &[name, ":", line, ":", column, ": ", reason, "\n"])
}

/// What a line says of a reason.
fn reason_text(reason: Reason) -> &'static str
    ensures { result.now ≡ reason_text reason }
{
    match reason {
        Reason::Lex(cause) => cause_text(cause),
        Reason::Syntax => "syntax",
        Reason::TooDeep => "too deep",
        Reason::NotBuilt => "not built",
    }
}

/// What a line says of a cause.
fn cause_text(cause: LexCause) -> &'static str
    ensures { result.now ≡ cause_text cause }
{
    match cause {
        LexCause::StrayByte => "lex StrayByte",
        LexCause::OpenComment => "lex OpenComment",
        LexCause::OpenLiteral => "lex OpenLiteral",
        LexCause::BadEscape => "lex BadEscape",
        LexCause::EmptyChar => "lex EmptyChar",
        LexCause::BadNumber => "lex BadNumber",
        LexCause::LongWord => "lex LongWord",
        LexCause::LongLiteral => "lex LongLiteral",
        LexCause::Directive => "lex Directive",
        LexCause::BadMark => "lex BadMark",
    }
}

/// Sends the pieces one after the other.
fn put_pieces<E: Sink>(sink: &mut E, pieces: &[&str]) -> Result<(), WriteFault>
    ensures all { OnOk result (Appends (E.held sink.old) (flat_map (λ piece. piece.now) pieces.now) (E.held sink.new)) }
    ensures part { OnErr result (HasFront (E.held sink.old) (flat_map (λ piece. piece.now) pieces.now) (E.held sink.new)) }
    ensures fault { OnErr result (Rose (E.faults sink.old) (E.faults sink.new)) }
{
    for piece in pieces {
        put_all(sink, piece.as_bytes())?;
    }
    Ok(())
}
