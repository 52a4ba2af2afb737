//! Lexes the bytes of its input and prints how many tokens they have; with the word `parse` it parses the tokens as a
//! body, with `document` as a document, and prints how many nodes the tree has. Where they are refused it prints where and
//! why reading stopped. With the word `speed` behind it does so twenty times over and prints how many bytes it lexes, or of
//! how many it parses the tokens, in a second of the processor's time; with `time` it does so once and prints the
//! milliseconds of both. It is no part of the product.
#![tactic(auto)]

ghost use Rattle.std.specs.Prelude.{◌≤◌, length};

use js_machine::ParseFault;
use js_parser::parse_body;
use qml_lexer::{LexFault, lex};
use qml_parser::parse_document;
use qml_syntax::Token;
use std::alloc::Global;
use std::env;
use std::io::{self, Read};
use std::time::CpuClock;

/// How many times the bytes are lexed for a speed.
const ROUNDS: u64 = 20;

/// The most bytes that are lexed.
const MOST: usize = 4_194_304;

/// What the tokens are parsed as.
#[derive(Clone, Copy, Debug, PartialEq, Eq)]
enum Reading {
    Body,
    Document,
}

/// What is measured beside the counts.
#[derive(Clone, Copy, Debug, PartialEq, Eq)]
enum Measure {
    Nothing,
    Speed,
    Time,
}

/// What a word asks to measure.
fn measure_of(word: Option<&str>) -> Measure {
    match word {
        Some("speed") => Measure::Speed,
        Some("time") => Measure::Time,
        _ => Measure::Nothing,
    }
}

/// How many nodes the tree of these tokens has.
fn nodes(alloc: Global, reading: Reading, tokens: &[Token]) -> Result<usize, ParseFault> {
    match reading {
        Reading::Body => match parse_body(alloc, tokens, 0) {
            Ok((tree, _)) => Ok(tree.len()),
            Err(fault) => Err(fault),
        },
        Reading::Document => match parse_document(alloc, tokens) {
            Ok(tree) => Ok(tree.len()),
            Err(fault) => Err(fault),
        },
    }
}

/// The processor's microseconds so far.
fn clock(rt: &HostRuntime) -> io::Result<u128> {
    Ok(rt.thread_cpu_time()?.as_micros())
}

/// What many bytes were gone over in these microseconds, as bytes a second.
fn per_second(bytes: usize, micros: u128) -> u64 {
    let micros = u64::try_from(micros).unwrap_or(u64::MAX);
    let gone = (bytes as u64).saturating_mul(ROUNDS);
    gone.saturating_mul(1_000_000) / micros.max(1)
}

/// Prints how many bytes a second are lexed.
fn lexing(rt: &HostRuntime, bytes: &[u8]) -> io::Result<()>
    requires { length bytes.now ≤ MOST }
{
    let before = clock(rt)?;
    for _ in 0..ROUNDS {
        let _ = lex(rt.alloc(), bytes);
    }
    let rate = per_second(bytes.len(), clock(rt)?.saturating_sub(before));
    println!(rt; "{rate} bytes a second")
}

/// Prints of how many bytes the tokens are parsed in a second.
fn parsing(rt: &HostRuntime, reading: Reading, bytes: usize, tokens: &[Token]) -> io::Result<()> {
    let before = clock(rt)?;
    for _ in 0..ROUNDS {
        let _ = nodes(rt.alloc(), reading, tokens);
    }
    let rate = per_second(bytes, clock(rt)?.saturating_sub(before));
    println!(rt; "{rate} bytes a second")
}

/// Prints why there are no tokens.
fn tell_lexer_fault(rt: &HostRuntime, fault: LexFault) -> io::Result<()> {
    println!(rt; "no tokens: {fault}")
}

/// Prints why there is no tree, and of how many tokens there is none.
fn tell_parser_fault(rt: &HostRuntime, tokens: usize, fault: ParseFault) -> io::Result<()> {
    match fault {
        ParseFault::Syntax { place } => {
            println!(rt;
                "{tokens} tokens, Syntax at {}:{}",
                place.line, place.column
            )
        }
        ParseFault::TooDeep { place } => {
            println!(rt;
                "{tokens} tokens, TooDeep at {}:{}",
                place.line, place.column
            )
        }
        ParseFault::NoMemory => println!(rt; "{tokens} tokens, no memory"),
    }
}

/// Parses the bytes.
fn parse(rt: &HostRuntime, reading: Reading, bytes: &[u8], measure: Measure) -> io::Result<()>
    requires { length bytes.now ≤ MOST }
{
    let first = clock(rt)?;
    let tokens = match lex(rt.alloc(), bytes) {
        Ok(tokens) => tokens,
        Err(fault) => return tell_lexer_fault(rt, fault),
    };
    let second = clock(rt)?;
    let found = nodes(rt.alloc(), reading, &tokens);
    let third = clock(rt)?;
    let read = tokens.len();
    match found {
        Ok(count) => println!(rt; "{read} tokens, {count} nodes")?,
        Err(fault) => tell_parser_fault(rt, read, fault)?,
    }
    match measure {
        Measure::Nothing => Ok(()),
        Measure::Speed => parsing(rt, reading, bytes.len(), &tokens),
        Measure::Time => {
            let lexed = second.saturating_sub(first) / 1000;
            let parsed = third.saturating_sub(second) / 1000;
            println!(rt; "{lexed} ms lexed, {parsed} ms parsed")
        }
    }
}

/// Lexes the bytes.
fn count(rt: &HostRuntime, bytes: &[u8], speed: bool) -> io::Result<()>
    requires { length bytes.now ≤ MOST }
{
    match lex(rt.alloc(), bytes) {
        Ok(tokens) => println!(rt; "{} tokens", tokens.len())?,
        Err(fault) => return tell_lexer_fault(rt, fault),
    }
    if speed { lexing(rt, bytes) } else { Ok(()) }
}

fn main(rt: HostRuntime) -> io::Result<()> {
    let mut bytes = Vec::new(rt.alloc());
    rt.reader().read_to_end(&mut bytes)?;
    if bytes.len() > MOST {
        return println!(rt; "too large");
    }
    let mut words = env::args(&rt)?.skip(1);
    let first = words.next();
    let second = words.next();
    let measure = measure_of(second.as_deref());
    match first.as_deref() {
        Some("parse") => parse(&rt, Reading::Body, &bytes, measure),
        Some("document") => parse(&rt, Reading::Document, &bytes, measure),
        other => count(&rt, &bytes, other.is_some()),
    }
}
