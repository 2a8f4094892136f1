//! Measures lookups in a table of two copies, which a writer changes and publishes all the time.
ghost use Rattle.std.specs.Prelude.{◌<◌};

use crate::new_index;
use crate::ordered::OrderedMap;
use crate::random::Random;
use crate::sets::{Set, addresses};
use crate::speed::{Each, LOOKUPS, found, insert_all, nanoseconds_since};
use crate::table::{LookupTable, Value};
use anyhow::Result;
use left_right::{Absorb, ReadHandle, WriteHandle};
use ospf_types::memory::Memory;
use ospf_types::prefix::Prefix;
use std::alloc::AllocError;
use std::io;
use std::io::Print;
use std::random::RandomSource;
use std::sync::Wait;
use std::sync::atomic::{AtomicU64, Ordering};
use std::thread::{Threads, join, map_vec};
use std::time::{Clock, Instant};

// The number of addresses that a reader looks up each time that it enters the table.
const BURST: usize = 32;

const PASSES: u32 = 10;
// The greatest number of publications. The writer ends with the readers, or after this number.
const PUBLICATIONS: u64 = 1_000_000;

/// A change that gives a network a value.
#[derive(Clone, Copy)]
struct ValueChange {
    network: Prefix,
    value: Value,
}

/// A copy of the table. No contract describes its contents.
#[derive(Drop)]
struct Shown<T> {
    table: T,
}

impl<T: LookupTable + Drop> Absorb<ValueChange> for Shown<T> {
    type State = ();

    ghost state = { λ shown. tt };

    ghost applied = { λ state change. state };

    fn absorb_first(&mut self, change: &ValueChange, _other: &Shown<T>) -> Result<(), AllocError> {
        self.table
            .insert(change.network, change.value)
            .map_err(|_| AllocError)
    }
}

/// Measures readers on `threads` threads together with a writer. Prints nanoseconds of a lookup by
/// each reader, and of a publication.
///
/// # Errors
///
/// Returns an error if memory runs out, or if the clock or standard output fails.
pub fn measure_beside_writer<R: AllocGlobal + RandomSource + Clock + Print + Threads + Wait + Sync>(
    rt: &R,
    set: Set,
    threads: u32,
) -> Result<()>
    requires { 0 < threads }
{
    let alloc = rt.alloc();
    let networks = set.networks(alloc)?;
    let addresses = addresses(alloc, networks.as_slice(), LOOKUPS)?;
    let load = PublishingLoad {
        networks: networks.as_slice(),
        addresses: addresses.as_slice(),
        threads,
    };
    measure_tables(rt, &load)
}

fn measure_tables<R: AllocGlobal + RandomSource + Clock + Print + Threads + Wait + Sync>(
    rt: &R,
    load: &PublishingLoad<'_>,
) -> Result<()>
    requires { 0 < load.now.threads }
{
    let alloc = rt.alloc();
    let (first, second) = (OrderedMap::new(alloc), OrderedMap::new(alloc));
    run(rt, "ordered", first, second, load)?;
    run(rt, "index", new_index(rt)?, new_index(rt)?, load)
}

/// The networks that are changed, the addresses that are looked up, and the number of readers.
#[derive(Clone, Copy)]
struct PublishingLoad<'a> {
    networks: &'a [Prefix],
    addresses: &'a [u32],
    threads: u32,
}

fn run<R: AllocGlobal + Clock + Print + Threads + Wait + Sync, T: LookupTable + Drop + Send + Sync>(
    rt: &R,
    name: &str,
    first: T,
    second: T,
    load: &PublishingLoad<'_>,
) -> Result<()>
    requires { 0 < load.now.threads }
{
    let first = with_networks(first, load.networks)?;
    let second = with_networks(second, load.networks)?;
    let writer = WriteHandle::new(rt.alloc(), rt, first, second, load.threads as usize)?;
    let Times {
        lookup,
        publication,
        sum,
    } = read_and_publish(rt, writer, load)?;
    println!(rt; "{name} lookup={lookup} publication={publication} sum={sum}")?;
    Ok(())
}

/// The times of a lookup and of a publication, and the sum of the numbers found.
struct Times {
    lookup: Each,
    publication: Each,
    sum: u64,
}

/// The nanoseconds of a reader's fastest pass, and the sum of the numbers found in all its passes.
#[derive(Clone, Copy)]
struct Pass {
    time: u64,
    sum: u64,
}

// Returns the table with the networks.
fn with_networks<T: LookupTable + Drop>(table: T, networks: &[Prefix]) -> Result<Shown<T>, Memory> {
    let mut table = table;
    insert_all(&mut table, networks)?;
    Ok(Shown { table })
}

// Creates a reader for each thread.
fn readers_of<R: AllocGlobal + Wait, T: LookupTable + Drop + Send + Sync>(
    rt: &R,
    writer: &WriteHandle<Shown<T>, ValueChange, &R>,
    threads: u32,
) -> Result<Vec<ReadHandle<Shown<T>>>> {
    let mut readers = Vec::new(rt.alloc());
    for _ in 0..threads {
        readers.push(writer.handle()?)?;
    }
    Ok(readers)
}

fn read_and_publish<
    R: AllocGlobal + Clock + Threads + Wait + Sync,
    T: LookupTable + Drop + Send + Sync,
>(
    rt: &R,
    writer: WriteHandle<Shown<T>, ValueChange, &R>,
    load: &PublishingLoad<'_>,
) -> Result<Times>
    requires { 0 < load.now.threads }
{
    let readers = readers_of(rt, &writer, load.threads)?;
    let left = AtomicU64::new(u64::from(load.threads));
    let (passes, publication) = join(
        rt,
        || map_vec(
            rt,
            readers,
            &|reader| read(rt, reader, load.addresses, &left),
        ),
        || publish(rt, writer, load.networks, &left),
    );
    let (lookup, sum) = added(passes?.as_slice(), load.addresses.len());
    Ok(Times {
        lookup,
        publication: publication?,
        sum,
    })
}

// Returns the time of a lookup by one reader, and the sum of the numbers that all readers found.
fn added(passes: &[Pass], lookups: usize) -> (Each, u64) {
    let (mut time, mut sum): (u64, u64) = (0, 0);
    for pass in passes {
        time = time.saturating_add(pass.time);
        sum = sum.wrapping_add(pass.sum);
    }
    (Each(time, lookups.saturating_mul(passes.len())), sum)
}

// Looks the addresses up, and returns the fastest pass.
fn read<R: Clock, T: LookupTable + Drop>(
    rt: &R,
    reader: ReadHandle<Shown<T>>,
    addresses: &[u32],
    left: &AtomicU64,
) -> Pass {
    let mut reader = reader;
    let pass = fastest_pass(rt, &mut reader, addresses);
    left.fetch_sub(1, Ordering::SeqCst);
    pass.unwrap_or(Pass { time: 0, sum: 0 })
}

fn fastest_pass<R: Clock, T: LookupTable + Drop>(
    rt: &R,
    reader: &mut ReadHandle<Shown<T>>,
    addresses: &[u32],
) -> io::Result<Pass> {
    let (mut fastest, mut sum) = (u64::MAX, 0);
    for _ in 0..PASSES {
        let start = Instant::now(rt)?;
        sum = read_once(reader, addresses, sum);
        fastest = fastest.min(nanoseconds_since(rt, start)?);
    }
    Ok(Pass { time: fastest, sum })
}

// Enters the table for each burst of addresses.
fn read_once<T: LookupTable + Drop>(
    reader: &mut ReadHandle<Shown<T>>,
    addresses: &[u32],
    sum: u64,
) -> u64 {
    let mut sum = sum;
    for burst in addresses.chunks(BURST) {
        if let Some(shown) = reader.enter() {
            sum = found(&shown.table, burst, sum);
        }
    }
    sum
}

// Replaces values and publishes until no reader is left. Returns the nanoseconds of a publication.
fn publish<R: Clock + Wait, T: LookupTable + Drop>(
    rt: &R,
    writer: WriteHandle<Shown<T>, ValueChange, &R>,
    networks: &[Prefix],
    left: &AtomicU64,
) -> Result<Each> {
    let mut writer = writer;
    let start = Instant::now(rt)?;
    let made = publish_all(&mut writer, networks, left)?;
    Ok(Each(nanoseconds_since(rt, start)?, made))
}

// Replaces values and publishes until no reader is left. Returns the number of publications.
fn publish_all<R: Wait, T: LookupTable + Drop>(
    writer: &mut WriteHandle<Shown<T>, ValueChange, &R>,
    networks: &[Prefix],
    left: &AtomicU64,
) -> Result<usize> {
    let mut random = Random::new(4);
    let mut made: usize = 0;
    for _ in 0..PUBLICATIONS {
        let Some(network) = random.pick(networks) else {
            break;
        };
        if left.load(Ordering::SeqCst) == 0 {
            break;
        }
        let value = Value::of(network);
        writer
            .append(ValueChange { network, value })
            .map_err(|_| AllocError)?;
        writer.publish()?;
        made = made.saturating_add(1);
    }
    Ok(made)
}
