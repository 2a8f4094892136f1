//! The command `one`.
ghost use Rattle.std.specs.Prelude.{◌≡◌, ◌⊎◌, ◌↔◌, ◌<◌, ◌++◌, [], ◌∷◌, length, None, IfOk, IfErr};
ghost use Rattle.std.specs.Prelude.{IsTrue, string_bytes};
ghost use Rattle.event_state.specs.Bases.{bare};
ghost use Rattle.event_state.specs.Steps.{refusal_of};
ghost use Rattle.event_state.specs.declared.refusal.Refusal.TheVariants.{JournalFull};
ghost use Rattle.ospf_types.specs.Configs.{config_fault_of};
ghost use Rattle.engine.specs.Answers.{after};
ghost use Rattle.cli_queries.specs.Answers.{PrintsAnswer, value_of};
ghost use Rattle.cli_args.specs.Command.{texts_of};
ghost use Rattle.cli_queries.specs.One.{HasAnswerLine as HasLine, HasLearned, IsFault, IsEngineFault};
ghost use Rattle.cli_queries.specs.One.{IsOpenFault, IsStepFault, IsOneAnswer, PrintsMatch};
ghost use Rattle.cli_queries.specs.One.{PrintsSeen, Say, both_events, config_of, given_by};
ghost use Rattle.cli_queries.specs.One.{one_area};

use crate::answer::{CommandAnswer, answer_fault};
use crate::argument_values::{OneInput, read_one};
use crate::command_fault::CommandFault;
use crate::printing::print_answer;
use cli_args::OneWords;
use engine::{Answer as Taken, Engine, Event, Forwarder, OpenFault, Refusal, Refused, Seen, Told};
use lsa_codec::Checked;
use ospf_types::address::Address;
use ospf_types::config::{AreaConfig, Areas, Config, Ranges};
use ospf_types::key::Scope;
use ospf_types::memory::Memory;
use std::alloc::Global;
use std::hash::RandomState;
use std::io;
use std::sync::Wait;

/// Returns the answer of `one`: the line `lookup ADDR SERIAL MATCH`, or a fault.
pub fn answer_one<S: Wait>(
    rt: &S,
    alloc: Global,
    hashing: RandomState,
    words: &OneWords<'_>,
) -> CommandAnswer
    ensures { IsOneAnswer (texts_of words.now) (value_of result) }
{
    match lookup_line(rt, alloc, hashing, words) {
        Ok(line) => CommandAnswer::Printed(line),
        Err(fault) => answer_fault(alloc, fault),
    }
}

/// Looks an address up in the table that one LSA gives. Writes the answer to `out`, or its fault to
/// `faults`.
///
/// Returns the status: 0 with the line, 2 for a word that cannot be read, and else 1, also if a
/// writer fails.
pub fn one<S: Wait, W: io::Write, F: io::Write>(
    rt: &S,
    alloc: Global,
    hashing: RandomState,
    words: &OneWords<'_>,
    out: &mut W,
    faults: &mut F,
) -> u8
    ensures { PrintsAnswer (IsOneAnswer (texts_of words.now)) result (W.contents out.old)
        (W.contents out.new) (F.contents faults.old) (F.contents faults.new) }
{
    print_answer(&answer_one(rt, alloc, hashing, words), out, faults)
}

// Returns the line, with its line feed.
fn lookup_line<S: Wait>(
    rt: &S,
    alloc: Global,
    hashing: RandomState,
    words: &OneWords<'_>,
) -> Result<String, CommandFault<'static>>
    ensures line { IfOk result (λ line. HasLine (texts_of words.now) (string_bytes line)) }
    ensures fault { IfErr result (IsFault (texts_of words.now)) }
{
    let (input, lsa) = read_given(alloc, words)?;
    look(rt, alloc, hashing, &input, lsa)
}

// Parses all words, and then the LSA.
fn read_given(
    alloc: Global,
    words: &OneWords<'_>,
) -> Result<(OneInput, Checked), CommandFault<'static>>
    ensures say { IfOk result (λ given. Say (texts_of words.now) (given_by given.0 given.1)) }
    ensures fault { IfErr result (IsFault (texts_of words.now)) }
{
    let input = read_one(alloc, words)?;
    let bytes = input.lsa.as_slice();
    let lsa = lsa_codec::read(alloc, bytes)?;
    Ok((input, lsa))
}

// Opens an engine for a router with one area, looks the address up, and closes the engine.
fn look<S: Wait>(
    rt: &S,
    alloc: Global,
    hashing: RandomState,
    input: &OneInput,
    lsa: Checked,
) -> Result<String, CommandFault<'static>>
    ensures line { IfOk result (λ line. PrintsMatch (given_by input.now lsa) (string_bytes line)) }
    ensures fault { IfErr result (IsEngineFault (given_by input.now lsa)) }
{
    let config = one_area(alloc, input.router, input.area)?;
    let (engine, forwarder) = open_engine(rt, alloc, hashing, config)?;
    let line = look_in(rt, alloc, &engine, forwarder, input, lsa);
    drop(engine.close(rt));
    line
}

// Opens an engine with one forwarder.
fn open_engine<S: Wait>(
    rt: &S,
    alloc: Global,
    hashing: RandomState,
    config: Config,
) -> Result<(Engine, Forwarder), CommandFault<'static>>
    ensures base { IfOk result (λ opened. (opened.0.base ≡ bare config)
        × (config_fault_of config ≡ None)) }
    ensures forwarder { IfOk result (λ opened. (opened.1.name ≡ opened.0) × (opened.1.known ≡ [])) }
    ensures fault { IfErr result (IsOpenFault config) }
{
    match Engine::open(rt, alloc, config, 1, hashing) {
        Ok((engine, mut forwarders)) => {
            let Some(forwarder) = forwarders.pop() else {
                unreachable!()
            };
            Ok((engine, forwarder))
        }
        Err(OpenFault::Config(fault)) => Err(CommandFault::Config(fault)),
        Err(OpenFault::Place) => Err(CommandFault::Place),
        Err(OpenFault::Doubled | OpenFault::EntryFault(_) | OpenFault::Readers) => unreachable!(),
    }
}

// Submits the interface and the LSA, and looks the address up.
fn look_in<S: Wait>(
    rt: &S,
    alloc: Global,
    engine: &Engine,
    forwarder: Forwarder,
    input: &OneInput,
    lsa: Checked,
) -> Result<String, CommandFault<'static>>
    requires base { engine.now.base ≡ bare (config_of (given_by input.now lsa)) }
    requires sound { config_fault_of (config_of (given_by input.now lsa)) ≡ None }
    requires name { forwarder.name ≡ engine.now }
    requires known { forwarder.known ≡ [] }
    ensures line { IfOk result (λ line. PrintsMatch (given_by input.now lsa) (string_bytes line)) }
    ensures fault { IfErr result (IsEngineFault (given_by input.now lsa)) }
{
    let forwarder = take_both(rt, engine, forwarder, input, lsa)?;
    match forwarder.lookup(input.lookup) {
        Ok(seen) => {
            let line = line_of(alloc, &seen, input.lookup);
            drop(seen.leave());
            line
        }
        Err(_) => Err(CommandFault::NoEntry),
    }
}

// Submits both events. Returns the forwarder, which knows both.
fn take_both<S: Wait>(
    rt: &S,
    engine: &Engine,
    forwarder: Forwarder,
    input: &OneInput,
    lsa: Checked,
) -> Result<Forwarder, CommandFault<'static>>
    requires base { engine.now.base ≡ bare (config_of (given_by input.now lsa)) }
    requires sound { config_fault_of (config_of (given_by input.now lsa)) ≡ None }
    requires name { forwarder.name ≡ engine.now }
    requires known { forwarder.known ≡ [] }
    ensures known { IfOk result (λ f. (f.name ≡ engine.now)
        × (f.known ≡ both_events (given_by input.now lsa))) }
    ensures fault { IfErr result (IsEngineFault (given_by input.now lsa)) }
{
    let (area, address) = (input.area, input.address);
    let event = Event::Interface {
        id: 1,
        area,
        address,
        peer: 0,
        up: true,
    };
    let forwarder = submit(rt, engine, forwarder, event, 0)?;
    let scope = Scope::Area(area);
    submit(rt, engine, forwarder, Event::Install { scope, lsa }, 1)
}

// Submits an event to an engine of whose events the forwarder knows `count`. Returns the forwarder,
// which then knows this event too.
//
// An answer counts only if its token is for no other events.
fn submit<S: Wait>(
    rt: &S,
    engine: &Engine,
    forwarder: Forwarder,
    event: Event,
    count: u64,
) -> Result<Forwarder, CommandFault<'static>>
    requires name { forwarder.name ≡ engine.now }
    requires first { engine.now.base.serial ≡ 0 }
    requires count { length forwarder.known ≡ count }
    requires few { count < 2 }
    ensures known { IfOk result (λ f. (f.name ≡ engine.now)
        × (f.known ≡ forwarder.known ++ event ∷ [])) }
    ensures accepted { IfOk result (λ _. refusal_of (after engine.now.base forwarder.known) event
        ≡ None) }
    ensures fault { IfErr result (IsStepFault (after engine.now.base forwarder.known) event) }
{
    match engine.submit(rt, event) {
        Ok(Taken { reply: _, told }) => match told {
            Some(told) => learn(forwarder, told, count + 1),
            None => Err(CommandFault::Memory),
        },
        Err(Refused { refusal, told }) => match told {
            Some(told) => {
                drop(learn(forwarder, told, count)?);
                if is_full(refusal) {
                    return Err(CommandFault::NoEntry);
                }
                Err(CommandFault::Refused(refusal))
            }
            None => Err(CommandFault::NoEntry),
        },
    }
}

// Returns true if the refusal is 28 JournalFull, which two events cannot cause.
fn is_full(refusal: Refusal) -> bool
    ensures { IsTrue result ↔ (refusal ≡ JournalFull) }
{
    matches!(refusal, Refusal::JournalFull)
}

// Learns the token, if it is for `count` events.
fn learn(forwarder: Forwarder, told: Told, count: u64) -> Result<Forwarder, CommandFault<'static>>
    requires name { told.name ≡ forwarder.name }
    requires first { forwarder.name.base.serial ≡ 0 }
    ensures name { IfOk result (λ f. f.name ≡ forwarder.name) }
    ensures learned { IfOk result (λ f. HasLearned forwarder.known told.list f.known) }
    ensures count { IfOk result (λ _. length told.list ≡ count) }
    ensures fault { IfErr result (λ f. f ≡ CommandFault.NoEntry) }
{
    if told.serial() != count {
        return Err(CommandFault::NoEntry);
    }
    Ok(forwarder.learn(told))
}

// Returns the line with the match of the address, if the table reflects two events.
fn line_of(alloc: Global, seen: &Seen, address: u32) -> Result<String, CommandFault<'static>>
    requires address { seen.now.address ≡ address }
    requires first { seen.now.name.base.serial ≡ 0 }
    ensures line { IfOk result (λ line. PrintsSeen seen.now (string_bytes line)) }
    ensures fault { IfErr result (λ f. (f ≡ CommandFault.NoEntry) ⊎ (f ≡ CommandFault.Memory)) }
{
    let serial = seen.serial();
    if serial != 2 {
        return Err(CommandFault::NoEntry);
    }
    let (address, found) = (Address(address), seen.found());
    Ok(format!(in alloc; "lookup {address} {serial} {found}\n")?)
}

fn one_area(alloc: Global, router: u32, area: u32) -> Result<Config, Memory>
    ensures { IfOk result (λ config. config ≡ one_area router area) }
{
    let mut areas = Areas::new(alloc);
    areas.push(AreaConfig {
        id: area,
        stub: None,
        ranges: Ranges::new(alloc),
    })?;
    Ok(Config {
        router,
        compat: false,
        areas,
    })
}
