//! Tests `prefix_index` against a plain list of networks, and with networks whose hashes collide.
//!
//! It prints how many results were compared and how many differ. With the name of a set of networks
//! it measures lookups and updates of the index and of an ordered map.
#![tactic(auto)]

mod ordered;
mod publishing;
mod random;
mod sets;
mod speed;
mod table;
mod trial;

use anyhow::Result;
use ospf_types::WordHash;
use prefix_index::PrefixIndex;
use publishing::measure_beside_writer;
use sets::Set;
use speed::measure;
use std::hash::RandomState;
use std::io::Print;
use std::random::RandomSource;
use std::{env, io};
use trial::{Trial, find_all};

// Networks whose hashes collide if the hash has no keys. A hash map of 20,000 entries has 4,096
// groups.
const COLLIDING: [(&str, Set); 2] = [
    ("one place", Set::OnePlace(20_000, 4_096)),
    ("equal low bits", Set::EqualBits(20_000)),
];

fn main(rt: HostRuntime) -> Result<()> {
    let words: Vec<String> = env::args(&rt)?.collect(rt.alloc())?;
    let asked = asked_by(words.as_slice());
    drop(words);
    match asked {
        Action::Answers => try_index(&rt),
        Action::Times(set, threads) if threads > 0 => measure(&rt, set, threads),
        Action::TimesBesideWriter(set, threads) if threads > 0 => {
            measure_beside_writer(&rt, set, threads)
        }
        _ => Ok(println!(rt; "usage: lookup_speed [SET [THREADS [writer]]]")?),
    }
}

// The action that the arguments ask for.
#[derive(Drop)]
enum Action {
    Answers,
    // The times of the set, by this number of threads.
    Times(Set, u32),
    TimesBesideWriter(Set, u32),
    Usage,
}

fn asked_by(words: &[String]) -> Action {
    match words {
        [] | [_] => Action::Answers,
        [_, name] => times(name.as_str(), "1", false),
        [_, name, threads] => times(name.as_str(), threads.as_str(), false),
        [_, name, threads, word] if word.as_str() == "writer" => {
            times(name.as_str(), threads.as_str(), true)
        }
        _ => Action::Usage,
    }
}

fn times(name: &str, threads: &str, has_writer: bool) -> Action {
    match (Set::named(name), threads.parse()) {
        (Some(set), Ok(threads)) if has_writer => Action::TimesBesideWriter(set, threads),
        (Some(set), Ok(threads)) => Action::Times(set, threads),
        _ => Action::Usage,
    }
}

// Compares results, and prints their number.
fn try_index<R: AllocGlobal + RandomSource + Print>(rt: &R) -> Result<()> {
    Trial::run(new_index(rt)?, rt.alloc())?.print(rt)?;
    for (name, set) in COLLIDING {
        find_set(rt, name, set)?;
    }
    Ok(())
}

fn find_set<R: AllocGlobal + RandomSource + Print>(rt: &R, name: &str, set: Set) -> Result<()> {
    let networks = set.networks(rt.alloc())?;
    let mut index = new_index(rt)?;
    find_all(rt, &mut index, name, networks.as_slice())
}

// Creates an empty index.
fn new_index<R: AllocGlobal + RandomSource, V: Drop>(rt: &R) -> io::Result<PrefixIndex<V>> {
    let hashing = WordHash::new(RandomState::new(rt)?);
    Ok(PrefixIndex::new(rt.alloc(), hashing))
}
