// The top call.
ghost use Rattle.std.specs.Prelude.{◌≡◌, ◌≢◌, ℕ, ◌≤◌, ◌<◌, List, [], length, None, Some, IfSome};
ghost use Rattle.std.specs.declared.option.Option.{Option};
ghost use Rattle.std.specs.Io.KnownBytes.{Consumes, IsAtEnd};
ghost use Rattle.eac_base.specs.Causes.{Rose};
ghost use Rattle.eac_cli.specs.Objects.{Objects, objects, run_objects, ReadFailed, WriteFailed};
ghost use Rattle.eac_cli.specs.PlanCall.{Plans, IsPlanned, TellsNeedFault, PlanCall};
ghost use Rattle.eac_cli.specs.Top.{command_named, command_of, most_input, Claim, Shows, IsShown, IsComplete};
ghost use Rattle.eac_cli.specs.Top.{TellsFault, TellsLength, RunCall, ShowCall, WereRead, RoseFor, RunsNothing};
ghost use Rattle.eac_cli.specs.Top.{IsRunStatus, status_of, number_of_status};

use crate::plan::plan_text;
use crate::running::{RunEnd, Stop, run_lines};
use crate::script::{ScriptRefusal, read_script};
use crate::show::show_text;
use chip_slots::ChipDisk;
use eac_base::{Acks, Failed, ReadRefusal, Sink, Source, Words, is_same, read_all, write_all};
use keeper::Keeper;
use renewal_plan::NeedRefusal;
use signature_provider::SignatureProvider;
use std::alloc::Global;
use std::fmt;

/// How a call ended.
#[derive(Clone, Copy, Debug, PartialEq, Eq)]
pub enum Status {
    /// The command ended, and the source was read to its end.
    Done,
    /// The words are none of a command. Nothing was read, run or written.
    Usage,
    /// This line is the first that breaks a rule of scripts, or of needs under `plan`, and this is the least rule that
    /// it breaks. Nothing was run or written.
    ScriptFault { line: u64, rule: u8 },
    /// The source gave more than 4,194,304 bytes. Nothing was run or written.
    TooLong,
    /// A read failed. Nothing was run or written.
    ReadFault,
    /// A write failed. A front of the text went out, and the event whose line broke off took place.
    WriteFault,
    /// Memory is wanting. The events that are `done` stand, each with its whole line.
    NoMemory,
}

impl Status {
    /// The number that the program ends with.
    pub fn number(&self) -> u8
        ensures { result ≡ number_of_status self.now }
    {
        match self {
            Status::Done => 0,
            Status::Usage => 1,
            Status::ScriptFault { .. } => 2,
            Status::TooLong => 3,
            Status::ReadFault => 4,
            Status::WriteFault => 5,
            Status::NoMemory => 9,
        }
    }
}

impl fmt::Display for Status {
    fn fmt<W: fmt::Write>(&self, f: &mut fmt::Formatter<W>) -> fmt::Result {
        match self {
            Status::Done => f.write_str("done"),
            Status::Usage => f.write_str("usage: run | show | plan"),
            Status::ScriptFault { line, rule } => write!(f, "script line {line} rule {rule}"),
            Status::TooLong => f.write_str("input too long"),
            Status::ReadFault => f.write_str("read fault"),
            Status::WriteFault => f.write_str("write fault"),
            Status::NoMemory => f.write_str("no memory"),
        }
    }
}

/// What a call did: how it ended, how many event lines were run with their whole journal line, and the imports that
/// chips acknowledged.
#[derive(Debug, Drop)]
pub struct Report {
    pub status: Status,
    pub done: u64,
    pub acks: Acks,
}

// The most bytes that a source may give.
const MOST_INPUT: u64 = 4_194_304;

/// What the tool can do.
#[derive(Clone, Copy, Debug, PartialEq, Eq)]
pub enum Command {
    /// `run`: the script of the source is run, and its journal goes to the sink.
    Run,
    /// `show`: the certificate that the source has is printed.
    Show,
    /// `plan`: the renewals that the need of the source asks for are printed.
    Plan,
}

fn command_named(word: &[u8]) -> Option<Command>
    ensures { result ≡ command_named word.now }
{
    if is_same(word, b"run") {
        Some(Command::Run)
    } else if is_same(word, b"show") {
        Some(Command::Show)
    } else if is_same(word, b"plan") {
        Some(Command::Plan)
    } else {
        None
    }
}

fn command_of(words: &Words) -> Option<Command>
    ensures { result ≡ command_of words.now }
{
    if words.len() != 1 {
        return None;
    }
    match words.get(0) {
        Some(word) => command_named(word),
        None => None,
    }
}

// What is reported where no event was run.
fn unrun(alloc: Global, status: Status) -> Report
    ensures { (result.status ≡ status) × (result.done ≡ 0) × (result.acks.acks ≡ []) }
{
    Report {
        status,
        done: 0,
        acks: Acks::new(alloc),
    }
}

// The status of a run that ended so.
fn status_of(stop: Option<Stop>) -> Status
    ensures { result ≡ status_of stop }
{
    match stop {
        None => Status::Done,
        Some(Stop::WriteFault) => Status::WriteFault,
        Some(Stop::NoMemory) => Status::NoMemory,
    }
}

// Runs the script of these bytes.
fn run_bytes<K: Sink, D: ChipDisk, B: Keeper, P: SignatureProvider>(
    alloc: Global,
    bytes: &[u8],
    sink: &mut K,
    chips: &mut [D],
    keeper: &mut B,
    provider: &mut P,
) -> Report
    requires bytes { length bytes.now ≤ most_input }
    requires chips { length chips.old < 4294967296 }
    ensures chips { length chips.new ≡ length chips.old }
    ensures claim { (left : Option (List ℕ)) → IsAtEnd left
        → Claim D.ChipDisk
        (run_objects K.Stream D.ChipDisk B.Keeper P.SignatureProvider sink.old chips.old keeper.old provider.old)
        (run_objects K.Stream D.ChipDisk B.Keeper P.SignatureProvider sink.new chips.new keeper.new provider.new)
        left result.status result.done result.acks.acks bytes.now }
    ensures cause { IsRunStatus result.status (K.lost sink.old) (K.lost sink.new) }
    ensures nothing { RunsNothing result.status → (sink.new ≡ sink.old) × (chips.new ≡ chips.old)
        × (keeper.new ≡ keeper.old) × (provider.new ≡ provider.old) × (result.acks.acks ≡ []) }
{
    let script = match read_script(alloc, bytes, chips.len() as u32) {
        Ok(script) => script,
        Err(ScriptRefusal::Fault { line, rule }) => {
            return unrun(alloc, Status::ScriptFault { line, rule });
        }
        Err(ScriptRefusal::NoMemory) => return unrun(alloc, Status::NoMemory),
    };
    let RunEnd { done, stop, acks } = run_lines(
        alloc,
        &script.setup,
        script.events.as_slice(),
        sink,
        chips,
        keeper,
        provider,
    );
    Report {
        status: status_of(stop),
        done,
        acks,
    }
}

// Reads the source, and runs the script that it has.
fn read_and_run<S: Source, K: Sink, D: ChipDisk, B: Keeper, P: SignatureProvider>(
    alloc: Global,
    source: &mut S,
    sink: &mut K,
    chips: &mut [D],
    keeper: &mut B,
    provider: &mut P,
) -> Report
    requires { length chips.old < 4294967296 }
    ensures chips { length chips.new ≡ length chips.old }
    ensures claim { (bytes : List ℕ)
        × WereRead (S.left source.old) (S.left source.new) (S.reads source.old) (S.reads source.new) bytes
        × Claim D.ChipDisk
        (run_objects K.Stream D.ChipDisk B.Keeper P.SignatureProvider sink.old chips.old keeper.old provider.old)
        (run_objects K.Stream D.ChipDisk B.Keeper P.SignatureProvider sink.new chips.new keeper.new provider.new)
        (S.left source.new) result.status result.done result.acks.acks bytes }
    ensures nothing { RunsNothing result.status → (sink.new ≡ sink.old) × (chips.new ≡ chips.old)
        × (keeper.new ≡ keeper.old) × (provider.new ≡ provider.old) × (result.acks.acks ≡ []) }
    ensures read { RoseFor Status.ReadFault result.status (S.faults source.old) (S.faults source.new) }
    ensures write { RoseFor Status.WriteFault result.status (K.lost sink.old) (K.lost sink.new) }
    ensures not_usage { result.status ≢ Status.Usage }
{
    match read_all(alloc, source, MOST_INPUT) {
        Ok(bytes) => run_bytes(alloc, bytes.as_slice(), sink, chips, keeper, provider),
        Err(ReadRefusal::ReadFault) => unrun(alloc, Status::ReadFault),
        Err(ReadRefusal::TooLong) => unrun(alloc, Status::TooLong),
        Err(ReadRefusal::NoMemory) => unrun(alloc, Status::NoMemory),
    }
}

// The same, and what it owes to a source that tells its bytes.
fn run_source<S: Source, K: Sink, D: ChipDisk, B: Keeper, P: SignatureProvider>(
    alloc: Global,
    source: &mut S,
    sink: &mut K,
    chips: &mut [D],
    keeper: &mut B,
    provider: &mut P,
) -> Report
    requires { length chips.old < 4294967296 }
    ensures chips { length chips.new ≡ length chips.old }
    ensures call { RunCall D.ChipDisk
        (objects S.Stream K.Stream D.ChipDisk B.Keeper P.SignatureProvider
        source.old sink.old chips.old keeper.old provider.old)
        (objects S.Stream K.Stream D.ChipDisk B.Keeper P.SignatureProvider
        source.new sink.new chips.new keeper.new provider.new)
        result.status result.done result.acks.acks }
    ensures nothing { RunsNothing result.status → (sink.new ≡ sink.old) × (chips.new ≡ chips.old)
        × (keeper.new ≡ keeper.old) × (provider.new ≡ provider.old) × (result.acks.acks ≡ []) }
    ensures read { RoseFor Status.ReadFault result.status (S.faults source.old) (S.faults source.new) }
    ensures write { RoseFor Status.WriteFault result.status (K.lost sink.old) (K.lost sink.new) }
    ensures not_usage { result.status ≢ Status.Usage }
{
    read_and_run(alloc, source, sink, chips, keeper, provider)
}

// Prints what these bytes are.
fn show_bytes<K: Sink>(alloc: Global, bytes: &[u8], sink: &mut K) -> Status
    requires { length bytes.now ≤ most_input }
    ensures shows { (left : Option (List ℕ)) → IsAtEnd left
        → Shows (K.taken sink.old) (K.taken sink.new) left result bytes.now }
    ensures cause { IsRunStatus result (K.lost sink.old) (K.lost sink.new) }
{
    let Ok(text) = show_text(alloc, bytes) else {
        return Status::NoMemory;
    };
    match write_all(sink, text.as_slice()) {
        Ok(()) => Status::Done,
        Err(Failed) => Status::WriteFault,
    }
}

// Reads the source, and prints what it has.
fn read_and_show<S: Source, K: Sink>(alloc: Global, source: &mut S, sink: &mut K) -> Status
    ensures shows { (bytes : List ℕ)
        × WereRead (S.left source.old) (S.left source.new) (S.reads source.old) (S.reads source.new) bytes
        × Shows (K.taken sink.old) (K.taken sink.new) (S.left source.new) result bytes }
    ensures nothing { RunsNothing result → sink.new ≡ sink.old }
    ensures read { RoseFor Status.ReadFault result (S.faults source.old) (S.faults source.new) }
    ensures write { RoseFor Status.WriteFault result (K.lost sink.old) (K.lost sink.new) }
    ensures not_usage { result ≢ Status.Usage }
{
    match read_all(alloc, source, MOST_INPUT) {
        Ok(bytes) => show_bytes(alloc, bytes.as_slice(), sink),
        Err(ReadRefusal::ReadFault) => Status::ReadFault,
        Err(ReadRefusal::TooLong) => Status::TooLong,
        Err(ReadRefusal::NoMemory) => Status::NoMemory,
    }
}

// The same, and what it owes to a source that tells its bytes.
fn show_source<S: Source, K: Sink>(alloc: Global, source: &mut S, sink: &mut K) -> Status
    ensures shows { (bytes : List ℕ)
        × WereRead (S.left source.old) (S.left source.new) (S.reads source.old) (S.reads source.new) bytes
        × Shows (K.taken sink.old) (K.taken sink.new) (S.left source.new) result bytes }
    ensures shown { IfSome (S.left source.old) (λ bytes. IsShown bytes
        (Rose (S.faults source.old) (S.faults source.new)) (Rose (K.lost sink.old) (K.lost sink.new)) result) }
    ensures too_long { IfSome (S.left source.old) (λ bytes. TellsLength bytes
        (Rose (S.faults source.old) (S.faults source.new)) result) }
    ensures nothing { RunsNothing result → sink.new ≡ sink.old }
    ensures read { RoseFor Status.ReadFault result (S.faults source.old) (S.faults source.new) }
    ensures write { RoseFor Status.WriteFault result (K.lost sink.old) (K.lost sink.new) }
    ensures not_usage { result ≢ Status.Usage }
{
    read_and_show(alloc, source, sink)
}

// Prints the plan of these bytes.
fn plan_bytes<K: Sink>(alloc: Global, bytes: &[u8], sink: &mut K) -> Status
    requires { length bytes.now ≤ most_input }
    ensures plans { (left : Option (List ℕ)) → IsAtEnd left
        → Plans (K.taken sink.old) (K.taken sink.new) left result bytes.now }
    ensures cause { IsRunStatus result (K.lost sink.old) (K.lost sink.new) }
    ensures nothing { RunsNothing result → sink.new ≡ sink.old }
{
    let text = match plan_text(alloc, bytes) {
        Ok(text) => text,
        Err(NeedRefusal::Fault { line, rule }) => return Status::ScriptFault { line, rule },
        Err(NeedRefusal::NoMemory) => return Status::NoMemory,
    };
    match write_all(sink, text.as_slice()) {
        Ok(()) => Status::Done,
        Err(Failed) => Status::WriteFault,
    }
}

// Reads the source, and prints the plan of the need that it has.
fn read_and_plan<S: Source, K: Sink>(alloc: Global, source: &mut S, sink: &mut K) -> Status
    ensures plans { (bytes : List ℕ)
        × WereRead (S.left source.old) (S.left source.new) (S.reads source.old) (S.reads source.new) bytes
        × Plans (K.taken sink.old) (K.taken sink.new) (S.left source.new) result bytes }
    ensures nothing { RunsNothing result → sink.new ≡ sink.old }
    ensures read { RoseFor Status.ReadFault result (S.faults source.old) (S.faults source.new) }
    ensures write { RoseFor Status.WriteFault result (K.lost sink.old) (K.lost sink.new) }
    ensures not_usage { result ≢ Status.Usage }
{
    match read_all(alloc, source, MOST_INPUT) {
        Ok(bytes) => plan_bytes(alloc, bytes.as_slice(), sink),
        Err(ReadRefusal::ReadFault) => Status::ReadFault,
        Err(ReadRefusal::TooLong) => Status::TooLong,
        Err(ReadRefusal::NoMemory) => Status::NoMemory,
    }
}

// The same, and what it owes to a source that tells its bytes.
fn plan_source<S: Source, K: Sink>(alloc: Global, source: &mut S, sink: &mut K) -> Status
    ensures plans { (bytes : List ℕ)
        × WereRead (S.left source.old) (S.left source.new) (S.reads source.old) (S.reads source.new) bytes
        × Plans (K.taken sink.old) (K.taken sink.new) (S.left source.new) result bytes }
    ensures planned { IfSome (S.left source.old) (λ bytes. IsPlanned bytes
        (Rose (S.faults source.old) (S.faults source.new)) (Rose (K.lost sink.old) (K.lost sink.new)) result) }
    ensures faulty { IfSome (S.left source.old) (λ bytes. TellsNeedFault bytes
        (Rose (S.faults source.old) (S.faults source.new)) result) }
    ensures too_long { IfSome (S.left source.old) (λ bytes. TellsLength bytes
        (Rose (S.faults source.old) (S.faults source.new)) result) }
    ensures nothing { RunsNothing result → sink.new ≡ sink.old }
    ensures read { RoseFor Status.ReadFault result (S.faults source.old) (S.faults source.new) }
    ensures write { RoseFor Status.WriteFault result (K.lost sink.old) (K.lost sink.new) }
    ensures not_usage { result ≢ Status.Usage }
{
    read_and_plan(alloc, source, sink)
}

/// Does what the words ask.
///
/// `run` reads a script from the source, runs it over the chips and the keeper's rows with the provider's keys, and
/// writes the journal to the sink, each event's line before the next event. A script names a chip by its place among
/// these from 0. A fault of keeper, provider or a chip's disk is a journal line, and the run goes on. `show` reads a
/// card-verifiable certificate and prints its fields, or why the input is none. `plan` reads a need and prints the
/// fewest renewals that leave none of its days without a certificate, or the first day that no plan covers.
///
/// There are fewer than 2^32 chips.
///
/// [`Status`] says when each status comes.
pub fn run_tool<S: Source, K: Sink, D: ChipDisk, B: Keeper, P: SignatureProvider>(
    alloc: Global,
    words: &Words,
    source: &mut S,
    sink: &mut K,
    chips: &mut [D],
    keeper: &mut B,
    provider: &mut P,
) -> Report
    requires { length chips.old < 4294967296 }
    // `Usage` exactly where the words are none of a command; then nothing was asked of the outside.
    ensures usage { result.status ≡ Status.Usage → command_of words.now ≡ None }
    ensures other_words { command_of words.now ≡ None
        → (result.status ≡ Status.Usage) × (result.done ≡ 0) × (source.new ≡ source.old) × (chips.new ≡ chips.old) }
    // What a command did, from the objects before the call to those after it.
    ensures run { command_of words.now ≡ Some Command.Run
        → RunCall D.ChipDisk
        (objects S.Stream K.Stream D.ChipDisk B.Keeper P.SignatureProvider
        source.old sink.old chips.old keeper.old provider.old)
        (objects S.Stream K.Stream D.ChipDisk B.Keeper P.SignatureProvider
        source.new sink.new chips.new keeper.new provider.new)
        result.status result.done result.acks.acks }
    ensures show { command_of words.now ≡ Some Command.Show
        → ShowCall
        (objects S.Stream K.Stream D.ChipDisk B.Keeper P.SignatureProvider
        source.old sink.old chips.old keeper.old provider.old)
        (objects S.Stream K.Stream D.ChipDisk B.Keeper P.SignatureProvider
        source.new sink.new chips.new keeper.new provider.new)
        result.status }
    ensures plan { command_of words.now ≡ Some Command.Plan
        → PlanCall
        (objects S.Stream K.Stream D.ChipDisk B.Keeper P.SignatureProvider
        source.old sink.old chips.old keeper.old provider.old)
        (objects S.Stream K.Stream D.ChipDisk B.Keeper P.SignatureProvider
        source.new sink.new chips.new keeper.new provider.new)
        result.status }
    // `show` and `plan` ask for no chip, no row and no key, and an input that isn't run leaves all but the source alone.
    ensures show_keeps { command_of words.now ≡ Some Command.Show → (result.done ≡ 0) × (chips.new ≡ chips.old)
        × (keeper.new ≡ keeper.old) × (provider.new ≡ provider.old) × (result.acks.acks ≡ []) }
    ensures plan_keeps { command_of words.now ≡ Some Command.Plan → (result.done ≡ 0) × (chips.new ≡ chips.old)
        × (keeper.new ≡ keeper.old) × (provider.new ≡ provider.old) × (result.acks.acks ≡ []) }
    ensures nothing { RunsNothing result.status → (sink.new ≡ sink.old) × (chips.new ≡ chips.old)
        × (keeper.new ≡ keeper.old) × (provider.new ≡ provider.old) × (result.acks.acks ≡ []) }
    ensures chips { length chips.new ≡ length chips.old }
    // A failure of the outside is told just where that object counted one.
    ensures read { RoseFor Status.ReadFault result.status (S.faults source.old) (S.faults source.new) }
    ensures write { RoseFor Status.WriteFault result.status (K.lost sink.old) (K.lost sink.new) }
{
    match command_of(words) {
        None => unrun(alloc, Status::Usage),
        Some(Command::Run) => run_source(alloc, source, sink, chips, keeper, provider),
        Some(Command::Show) => {
            let status = show_source(alloc, source, sink);
            unrun(alloc, status)
        }
        Some(Command::Plan) => {
            let status = plan_source(alloc, source, sink);
            unrun(alloc, status)
        }
    }
}
