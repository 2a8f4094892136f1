//! Prints an LSA of each kind as text, and the number of lines of the longest router-LSA.
mod samples;

use anyhow::Result;
use lsa_codec::read;
use output_lines::put_lsa_text;
use samples::{BOUNDARY, EXTERNAL, LINKS, LONGEST, NETWORK, ROUTER, STUB_LINK, SUMMARY};
use std::alloc::Global;

pub fn run(rt: &HostRuntime) -> Result<()> {
    let alloc = rt.alloc();
    println!(rt; "{}", in_words(alloc, &ROUTER)?)?;
    println!(rt; "{}", in_words(alloc, &NETWORK)?)?;
    println!(rt; "{}", in_words(alloc, &SUMMARY)?)?;
    println!(rt; "{}", in_words(alloc, &BOUNDARY)?)?;
    println!(rt; "{}", in_words(alloc, &EXTERNAL)?)?;
    let longest = longest(alloc)?;
    let lines = count_lines(&in_words(alloc, &longest)?);
    println!(rt; "{} bytes, {lines} lines", longest.len())?;
    Ok(())
}

fn in_words(alloc: Global, bytes: &[u8]) -> Result<String> {
    let mut text = String::new(alloc);
    put_lsa_text(&read(alloc, bytes)?, &mut text)?;
    Ok(text)
}

// Returns the longest router-LSA, with all its stub links.
fn longest(alloc: Global) -> Result<Vec<u8>> {
    let mut bytes = Vec::from_slice(alloc, &LONGEST)?;
    for _ in 0..LINKS {
        bytes.extend_from_slice(&STUB_LINK)?;
    }
    Ok(bytes)
}

fn count_lines(text: &str) -> usize {
    text.as_bytes()
        .iter()
        .filter(|byte| **byte == b'\n')
        .count()
}
