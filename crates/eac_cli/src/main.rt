//! The program `eac`: the parties of a script that found, link, ask for certificates and send each other packets, and
//! the showing of card-verifiable certificates.
//!
//! `main` makes the real outside (standard input and output, chips that aren't made yet, an empty keeper, a provider
//! that has signed nothing), calls [`tool::run_tool`] and ends with the number of its status. All that the program promises stands on that call.
#![tactic(auto)]

mod chips;
mod event;
mod event_kind;
mod journal;
mod line_grammar;
mod line_rule;
mod named_event;
mod naming;
mod parts;
mod plan;
mod running;
mod script;
mod script_laws;
mod show;
#[cfg(test)]
mod tests;
mod tool;

use chips::blank_chips;
use eac_base::{FailPlan, NoMemory, StdSink, StdSource, Words};
use keeper::{KeeperPlan, MemoryKeeper};
use signature_provider::TableProvider;
use std::process::ExitCode;
use std::rt::Env;
use std::{env, io};
use tool::{Status, run_tool};

// How many chips there are.
const CHIPS: u32 = 64;

// The words of the call. No command has a word that isn't text, so such a word is answered as any other one that is
// none of a command.
fn words_of<R: Env + AllocGlobal>(rt: &R) -> Result<Words, Status> {
    let alloc = rt.alloc();
    let mut words = Words::new(alloc);
    let args = match env::args(rt) {
        Ok(args) => args,
        Err(error) if error.kind() == io::ErrorKind::InvalidData => return Err(Status::Usage),
        Err(_) => return Err(Status::NoMemory),
    };
    for word in args.skip(1) {
        if words.push(word.as_bytes()).is_err() {
            return Err(Status::NoMemory);
        }
    }
    Ok(words)
}

fn main(rt: HostRuntime) -> ExitCode {
    let alloc = rt.alloc();
    let status = match (words_of(&rt), blank_chips(alloc, CHIPS)) {
        (Ok(words), Ok(mut chips)) => {
            let mut source = StdSource::new(rt.reader());
            let mut sink = StdSink::new(io::writer(&rt));
            let mut keeper = MemoryKeeper::new(alloc, KeeperPlan::new(alloc));
            let mut provider = TableProvider::new(alloc, FailPlan::new(alloc));
            run_tool(
                alloc,
                &words,
                &mut source,
                &mut sink,
                chips.as_mut_slice(),
                &mut keeper,
                &mut provider,
            )
            .status
        }
        (Err(status), _) => status,
        (Ok(_), Err(NoMemory)) => Status::NoMemory,
    };
    if status != Status::Done {
        let _ = eprintln!(rt; "{status}");
    }
    ExitCode::from(status.number())
}
