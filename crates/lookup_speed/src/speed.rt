//! Measures the index and the ordered map. Each time is the least time of several passes.

use crate::new_index;
use crate::ordered::OrderedMap;
use crate::sets::{Set, addresses, repeated};
use crate::table::{LookupTable, Value};
use anyhow::Result;
use ospf_types::memory::Memory;
use ospf_types::prefix::Prefix;
use std::alloc::{AllocError, Global};
use std::fmt::Display;
use std::io::Print;
use std::random::RandomSource;
use std::rt::Files;
use std::thread::{Threads, map_indices};
use std::time::{Clock, Instant};
use std::{fmt, fs, io};

/// The number of addresses that are looked up in a pass.
pub const LOOKUPS: usize = 262_144;
// The number of different addresses among the hot ones, at most.
const HOT: usize = 1_000;
// The number of networks that are updated in a pass, if there are twice as many networks.
const UPDATES: usize = 2_000;

const PASSES: u32 = 20;
// The number of seconds after which no further pass begins.
const ENOUGH: u64 = 10;

/// Measures lookups by `threads` threads at a time, and updates. Prints a line for each of the two
/// tables.
///
/// # Errors
///
/// Returns an error if memory runs out, or if a file, the clock or standard output fails.
pub fn measure<R: Files + AllocGlobal + RandomSource + Clock + Print + Threads + Sync>(
    rt: &R,
    set: Set,
    threads: u32,
) -> Result<()> {
    let asked = LookupSet::of(rt.alloc(), set)?;
    let load = Load {
        networks: asked.networks.as_slice(),
        random: asked.random.as_slice(),
        hot: asked.hot.as_slice(),
        threads: threads as usize,
    };
    let mut ordered = Measured::build(rt, OrderedMap::new(rt.alloc()), load.networks)?;
    measure_index(rt, &mut ordered, &load)
}

fn measure_index<R: Files + AllocGlobal + RandomSource + Clock + Print + Threads + Sync>(
    rt: &R,
    ordered: &mut Measured<OrderedMap>,
    load: &Load<'_>,
) -> Result<()> {
    let mut index = Measured::build(rt, new_index(rt)?, load.networks)?;
    measure_both(rt, ordered, &mut index, load)
}

fn measure_both<
    R: AllocGlobal + Clock + Print + Threads + Sync,
    A: LookupTable + Drop + Sync,
    B: LookupTable + Drop + Sync,
>(rt: &R, ordered: &mut Measured<A>, index: &mut Measured<B>, load: &Load<'_>) -> Result<()> {
    run_passes(rt, ordered, index, load)?;
    print_both(rt, ordered, index, load)?;
    Ok(())
}

// The passes of the two tables alternate, so that other load on the machine slows both.
fn run_passes<
    R: AllocGlobal + Clock + Threads + Sync,
    A: LookupTable + Drop + Sync,
    B: LookupTable + Drop + Sync,
>(rt: &R, one: &mut Measured<A>, other: &mut Measured<B>, load: &Load<'_>) -> Result<()> {
    let start = Instant::now(rt)?;
    for _ in 0..PASSES {
        one.pass(rt, load)?;
        other.pass(rt, load)?;
        if start.elapsed(rt)?.as_secs() >= ENOUGH {
            break;
        }
    }
    Ok(())
}

fn print_both<A: LookupTable, B: LookupTable>(
    rt: &impl Print,
    ordered: &Measured<A>,
    index: &Measured<B>,
    load: &Load<'_>,
) -> io::Result<()> {
    ordered.print(rt, "ordered", load)?;
    index.print(rt, "index", load)?;
    let differ = differing(&ordered.table, &index.table, load.random);
    let is_same = ordered.sum == index.sum;
    println!(rt; "{differ} answers differ, the sums agree: {is_same}")
}

/// The networks of a set, and the addresses that are looked up.
#[derive(Drop)]
struct LookupSet {
    networks: Vec<Prefix>,
    random: Vec<u32>,
    hot: Vec<u32>,
}

impl LookupSet {
    fn of(alloc: Global, set: Set) -> Result<LookupSet, AllocError> {
        let networks = set.networks(alloc)?;
        let random = addresses(alloc, networks.as_slice(), LOOKUPS)?;
        let few = addresses(alloc, networks.as_slice(), HOT)?;
        let hot = repeated(alloc, few.as_slice(), LOOKUPS)?;
        Ok(LookupSet {
            networks,
            random,
            hot,
        })
    }
}

/// The networks and addresses of a pass, and the number of threads.
#[derive(Clone, Copy)]
struct Load<'a> {
    networks: &'a [Prefix],
    random: &'a [u32],
    hot: &'a [u32],
    threads: usize,
}

/// A table and its measurements.
#[derive(Drop)]
struct Measured<T> {
    table: T,
    // The memory of the table, in kilobytes.
    memory: u64,
    // The times of a pass, in nanoseconds.
    build: u64,
    random: u64,
    hot: u64,
    replace: u64,
    remove: u64,
    insert: u64,
    // The sum of all numbers that were found.
    sum: u64,
}

impl<T: LookupTable + Drop + Sync> Measured<T> {
    // Builds the table by giving each network a value.
    fn build<R: Files + AllocGlobal + Clock>(
        rt: &R,
        table: T,
        networks: &[Prefix],
    ) -> Result<Measured<T>> {
        let mut table = table;
        let before = resident(rt)?;
        let start = Instant::now(rt)?;
        insert_all(&mut table, networks)?;
        let build = nanoseconds_since(rt, start)?;
        let memory = resident(rt)?.saturating_sub(before);
        Ok(Measured {
            table,
            memory,
            build,
            random: u64::MAX,
            hot: u64::MAX,
            replace: u64::MAX,
            remove: u64::MAX,
            insert: u64::MAX,
            sum: 0,
        })
    }

    fn pass<R: AllocGlobal + Clock + Threads + Sync>(
        &mut self,
        rt: &R,
        load: &Load<'_>,
    ) -> Result<()> {
        self.look_up(rt, load)?;
        self.update(rt, some_of(load.networks))
    }

    fn look_up<R: AllocGlobal + Clock + Threads + Sync>(
        &mut self,
        rt: &R,
        load: &Load<'_>,
    ) -> Result<()> {
        let start = Instant::now(rt)?;
        self.sum = found_by_threads(rt, &self.table, load.random, load.threads, self.sum)?;
        let middle = Instant::now(rt)?;
        self.sum = found_by_threads(rt, &self.table, load.hot, load.threads, self.sum)?;
        let end = Instant::now(rt)?;
        self.random = self.random.min(nanoseconds(start, middle));
        self.hot = self.hot.min(nanoseconds(middle, end));
        Ok(())
    }

    // Replaces the values of the networks, removes the networks, and inserts them again.
    fn update(&mut self, rt: &impl Clock, networks: &[Prefix]) -> Result<()> {
        let start = Instant::now(rt)?;
        insert_all(&mut self.table, networks)?;
        let replaced = Instant::now(rt)?;
        remove_all(&mut self.table, networks);
        let removed = Instant::now(rt)?;
        insert_all(&mut self.table, networks)?;
        let end = Instant::now(rt)?;
        self.replace = self.replace.min(nanoseconds(start, replaced));
        self.remove = self.remove.min(nanoseconds(replaced, removed));
        self.insert = self.insert.min(nanoseconds(removed, end));
        Ok(())
    }
}

impl<T> Measured<T> {
    // Prints nanoseconds, but the build in milliseconds and the memory in megabytes.
    fn print(&self, rt: &impl Print, name: &str, load: &Load<'_>) -> io::Result<()> {
        let networks = load.networks.len();
        let (random, hot) = (Each(self.random, LOOKUPS), Each(self.hot, LOOKUPS));
        print!(rt; "{name} networks={networks} random={random} hot={hot}")?;
        let some = some_of(load.networks).len();
        let (replace, remove) = (Each(self.replace, some), Each(self.remove, some));
        print!(rt; " replace={replace} remove={remove}")?;
        let (insert, build) = (Each(self.insert, some), Each(self.build, 1_000_000));
        let memory = Each(self.memory, 1_024);
        println!(rt; " insert={insert} build={build} memory={memory}")
    }
}

/// A total and a count, printed as their quotient with one decimal.
#[derive(Clone, Copy)]
pub struct Each(pub u64, pub usize);

impl Display for Each {
    fn fmt<W: fmt::Write>(&self, f: &mut fmt::Formatter<W>) -> fmt::Result {
        let tenths = self
            .0
            .saturating_mul(10)
            .checked_div(self.1 as u64)
            .unwrap_or(0);
        write!(f, "{}.{}", tenths / 10, tenths % 10)
    }
}

// Returns the networks that are updated.
fn some_of(networks: &[Prefix]) -> &[Prefix] {
    networks
        .get(..UPDATES.min(networks.len() / 2))
        .unwrap_or(networks)
}

pub fn insert_all<T: LookupTable>(table: &mut T, networks: &[Prefix]) -> Result<(), Memory> {
    for network in networks {
        table.insert(*network, Value::of(*network))?;
    }
    Ok(())
}

fn remove_all<T: LookupTable>(table: &mut T, networks: &[Prefix]) {
    for network in networks {
        table.remove(*network);
    }
}

// Looks up all addresses in each thread, and returns the sum of the numbers found.
fn found_by_threads<R: AllocGlobal + Threads + Sync, T: LookupTable + Sync>(
    rt: &R,
    table: &T,
    addresses: &[u32],
    threads: usize,
    sum: u64,
) -> Result<u64, AllocError> {
    let sums = map_indices(
        rt,
        rt.alloc(),
        threads,
        &|thread| { found_from(table, addresses, thread, sum) },
    )?;
    Ok(
        sums.iter()
            .fold(sum, |all: u64, one| all.wrapping_add(*one)),
    )
}

// Looks up all addresses. Each thread begins at another address.
fn found_from<T: LookupTable>(table: &T, addresses: &[u32], thread: usize, sum: u64) -> u64 {
    let begin = (addresses.len() / 8)
        .saturating_mul(thread)
        .min(addresses.len());
    let (last, first) = addresses.split_at(begin);
    found(table, last, found(table, first, sum))
}

// Looks up the addresses, and mixes the numbers found into the sum.
//
// No other function calls `LookupTable::longest`, so the compiler inlines the lookup into the
// loop, as in a forwarder.
pub fn found<T: LookupTable>(table: &T, addresses: &[u32], sum: u64) -> u64 {
    let mut sum = sum;
    for address in addresses {
        let number = match table.longest(*address) {
            Some((_, value)) => value.number,
            None => u64::MAX,
        };
        sum = sum.rotate_left(1).wrapping_add(number);
    }
    sum
}

// Returns the number of addresses for which the tables find different numbers. Each network's value
// has its own number.
fn differing<A: LookupTable, B: LookupTable>(one: &A, other: &B, addresses: &[u32]) -> u64 {
    let mut differ: u64 = 0;
    for address in addresses.chunks(1) {
        let is_same = found(one, address, 0) == found(other, address, 0);
        differ = differ.saturating_add(u64::from(!is_same));
    }
    differ
}

fn nanoseconds(start: Instant, end: Instant) -> u64 {
    u64::try_from(end.duration_since(start).as_nanos()).unwrap_or(u64::MAX)
}

pub fn nanoseconds_since(rt: &impl Clock, start: Instant) -> io::Result<u64> {
    Ok(u64::try_from(start.elapsed(rt)?.as_nanos()).unwrap_or(u64::MAX))
}

// Returns the resident memory of the process, in kilobytes.
fn resident<R: Files + AllocGlobal>(rt: &R) -> io::Result<u64> {
    let text = fs::read_to_string(rt, "/proc/self/statm")?;
    let pages: Option<u64> = text
        .split_whitespace()
        .nth(1)
        .and_then(|word| word.parse().ok());
    Ok(pages.unwrap_or(0).saturating_mul(4))
}
