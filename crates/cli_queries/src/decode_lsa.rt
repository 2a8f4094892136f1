//! The command `decode`.
ghost use Rattle.std.specs.Prelude.{◌≡◌, IfOk, IfErr, string_bytes};
ghost use Rattle.cli_queries.specs.Answers.{PrintsAnswer, value_of};
ghost use Rattle.output_lines.specs.Words.{words_of as lsa_in_words};
ghost use Rattle.cli_queries.specs.Decode.{Decodes, IsDecodeFault, IsDecodeAnswer};
ghost use Rattle.cli_queries.specs.Decode.{decoded_text, front_text as front, ids_text as ids};
ghost use Rattle.cli_queries.specs.Decode.{instance_text as instance};

use crate::answer::{CommandAnswer, answer_fault};
use crate::argument_values;
use crate::command_fault::CommandFault;
use crate::printing::print_answer;
use lsa_codec::{Checked, Header};
use ospf_types::address::Address;
use ospf_types::memory::Memory;
use output_lines::put_lsa_text;
use std::alloc::{AllocError, Global};
use std::io;

/// Returns the answer of `decode`: the lines of an LSA, or the fault of the word or of its LSA.
///
/// The short form has the lines `age A options OO kind K id ADDR router ADDR seq SSSSSSSS sum CCCC
/// length L` and `body HEX`. The age is in seconds; Options, sequence number, checksum and body are
/// in hexadecimal. In the long form each field of header and body has its name (RFC 2328, A.4).
pub fn answer_decode(alloc: Global, word: &str, long: bool) -> CommandAnswer
    ensures { IsDecodeAnswer long word.now (value_of result) }
{
    match decoded(alloc, word, long) {
        Ok(lines) => CommandAnswer::Printed(lines),
        Err(fault) => answer_fault(alloc, fault),
    }
}

/// Decodes an LSA, and writes the answer to `out`, or its fault to `faults`.
///
/// Returns the status: 0 with the lines, 2 for a word that is not hexadecimal, and else 1, also if
/// a writer fails.
pub fn decode<W: io::Write, F: io::Write>(
    alloc: Global,
    word: &str,
    long: bool,
    out: &mut W,
    faults: &mut F,
) -> u8
    ensures { PrintsAnswer (IsDecodeAnswer long word.now) result (W.contents out.old) (W.contents out.new)
        (F.contents faults.old) (F.contents faults.new) }
{
    print_answer(&answer_decode(alloc, word, long), out, faults)
}

// Returns the lines of the LSA that the word spells.
fn decoded(alloc: Global, word: &str, long: bool) -> Result<String, CommandFault<'static>>
    ensures lines { IfOk result (λ lines. Decodes long word.now (string_bytes lines)) }
    ensures fault { IfErr result (IsDecodeFault word.now) }
{
    let bytes = argument_values::bytes(alloc, word)?;
    let lsa = lsa_codec::read(alloc, bytes.as_slice())?;
    if long {
        return Ok(in_words(alloc, &lsa)?);
    }
    Ok(lines_of(alloc, &lsa)?)
}

// Returns the long form.
fn in_words(alloc: Global, lsa: &Checked) -> Result<String, Memory>
    ensures { IfOk result (λ lines. string_bytes lines ≡ lsa_in_words lsa.now) }
{
    let mut lines = String::new(alloc);
    put_lsa_text(lsa, &mut lines)?;
    Ok(lines)
}

// Returns the short form.
fn lines_of(alloc: Global, lsa: &Checked) -> Result<String, AllocError>
    ensures { IfOk result (λ lines. string_bytes lines ≡ decoded_text lsa.now) }
{
    let header = lsa.header();
    let front = front_text(alloc, &header)?;
    let ids = ids_text(alloc, &header)?;
    let instance = instance_text(alloc, &header)?;
    let body = hex::encode(alloc, lsa.body())?;
    Ok(format!(in alloc; "{front} {ids} {instance}\nbody {body}\n")?)
}

fn front_text(alloc: Global, header: &Header) -> Result<String, AllocError>
    ensures { IfOk result (λ text. string_bytes text ≡ front header.now) }
{
    let (age, kind) = (header.age, header.kind);
    let options = hex::encode(alloc, [header.options])?;
    Ok(format!(in alloc; "age {age} options {options} kind {kind}")?)
}

fn ids_text(alloc: Global, header: &Header) -> Result<String, AllocError>
    ensures { IfOk result (λ text. string_bytes text ≡ ids header.now) }
{
    let (id, router) = (Address(header.id), Address(header.router));
    Ok(format!(in alloc; "id {id} router {router}")?)
}

// Returns the sequence number, the checksum and the length.
fn instance_text(alloc: Global, header: &Header) -> Result<String, AllocError>
    ensures { IfOk result (λ text. string_bytes text ≡ instance header.now) }
{
    let seq = hex::encode(alloc, header.seq.to_be_bytes())?;
    let sum = hex::encode(alloc, header.sum.to_be_bytes())?;
    let length = header.length;
    Ok(format!(in alloc; "seq {seq} sum {sum} length {length}")?)
}
