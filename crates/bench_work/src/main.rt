//! The work that `bench/run` times: certificates, calls, chips, and rows in memory and in databases.
//!
//! Its words are one of these, where N is a number up to 4,294,967,295:
//!
//!     certs view N    certs read N    certs write N
//!     messages read N    messages write N
//!     chips open N    chips import N
//!     rows N
//!     database list N    database memory N    database file N
//!
//! `certs` has one certificate of at most 4,096 bytes on standard input, `messages` one call of at most 65,536. It does
//! the work N times and prints the sum of what it saw, so that no work can be left out; `rows` adds, finds and reads N
//! rows and prints how many, and the answers to one row more and to the first one again. `database` adds and finds N
//! rows in a list, in a database in memory or in the new file `rows.db`, and prints how many calls did. Anything else,
//! an input that can't be read among it, ends it with status 1 and prints nothing.
#![tactic(auto)]

mod certs;
mod chips;
mod database;
mod links;
mod messages;
mod rows;

use self::certs::CertWork;
use self::chips::ChipWork;
use self::database::Medium;
use self::messages::MessageWork;
use eac_base::{StdSource, read_all};
use std::env;
use std::process::ExitCode;

/// What is done over and over.
#[derive(Clone, Copy, Debug, PartialEq, Eq)]
enum Work {
    Certs(CertWork),
    Messages(MessageWork),
    Chips(ChipWork),
    Database(Medium),
    Rows,
}

fn work_of(area: &str, word: &str) -> Option<Work> {
    match area {
        "certs" => Some(Work::Certs(CertWork::named(word)?)),
        "messages" => Some(Work::Messages(MessageWork::named(word)?)),
        "chips" => Some(Work::Chips(ChipWork::named(word)?)),
        "database" => Some(Work::Database(Medium::named(word)?)),
        _ => None,
    }
}

fn asked<R: std::rt::Env + AllocGlobal>(rt: &R) -> Option<(Work, u32)> {
    let mut args = env::args(rt).ok()?.skip(1);
    let area = args.next()?;
    let work = if area.as_str() == "rows" {
        Work::Rows
    } else {
        work_of(&area, &args.next()?)?
    };
    let times = args.next()?.parse::<u32>().ok()?;
    Some((work, times))
}

// The sum of a work whose sum is all that is told of it.
fn sum_of(rt: &HostRuntime, work: Work, bytes: &[u8], times: u32) -> Option<u64> {
    let alloc = rt.alloc();
    match work {
        Work::Certs(work) => certs::work_on(alloc, work, bytes, times),
        Work::Messages(work) => messages::work_on(alloc, work, bytes, times),
        Work::Chips(work) => chips::work_on(alloc, work, times),
        Work::Database(medium) => database::work_on(rt, medium, times),
        Work::Rows => None,
    }
}

// The most bytes that are read from standard input for a work.
fn input_limit(work: Work) -> u64 {
    match work {
        Work::Certs(_) => 4096,
        Work::Messages(_) => 65_536,
        Work::Chips(_) | Work::Database(_) | Work::Rows => 0,
    }
}

fn status(done: bool) -> ExitCode {
    ExitCode::from(if done { 0 } else { 1 })
}

fn main(rt: HostRuntime) -> ExitCode {
    let alloc = rt.alloc();
    let Some((work, times)) = asked(&rt) else {
        return status(false);
    };
    if work == Work::Rows {
        let Some(report) = rows::work_on(alloc, times) else {
            return status(false);
        };
        return status(println!(rt; "{report}").is_ok());
    }
    let mut source = StdSource::new(rt.reader());
    let Ok(bytes) = read_all(alloc, &mut source, input_limit(work)) else {
        return status(false);
    };
    let Some(sum) = sum_of(&rt, work, bytes.as_slice(), times) else {
        return status(false);
    };
    status(println!(rt; "{sum}").is_ok())
}
