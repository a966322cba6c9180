//! The program: it checks a specification, judges an exchange by one, replays a world that is to explain one, or makes a script by a
//! specification, as its words say.
#![tactic(auto)]

mod answer;
mod check;
mod command;
mod due;
mod judge;
mod number;
mod reading;
mod recipe;
mod replay;
mod replay_fault;
mod report;
mod script;
mod status;
mod std_files;
mod std_sink;
mod stop;
#[cfg(test)]
mod tests;
mod top;

use crate::std_files::StdFiles;
use crate::std_sink::StdSink;
use crate::top::dualtest;
use dt_ports::mem_dialer::MemDialer;
use std::alloc::AllocError;
use std::net::Net;
use std::process::ExitCode;
use std::rt::{Env, Runtime};
use std::sync::Wait;
use std::thread::Threads;
use std::{env, io};

/// The status of a program that had no memory to begin.
const NO_MEMORY: u8 = 10;

fn main(rt: HostRuntime) -> ExitCode {
    match run(&rt) {
        Ok(number) => ExitCode::from(number),
        Err(AllocError) => ExitCode::from(NO_MEMORY),
    }
}

/// Does what the words behind the program's name ask for, and gives the number of the status.
fn run(rt: &(impl Runtime + AllocGlobal + Threads + Wait + Net + Sync)) -> Result<u8, AllocError> {
    let alloc = rt.alloc();
    let words = words(rt)?;
    let mut files = StdFiles::new(rt);
    let mut sink = StdSink::new(rt);
    let mut dialer = MemDialer::without_links(alloc, 0)?;
    let finish = dualtest(rt, alloc, &words, &mut files, &mut sink, &mut dialer);
    Ok(finish.status.number())
}

/// The words behind the program's name. Where one is no UTF-8 there are none, so that the usage is printed.
fn words(rt: &(impl Env + AllocGlobal)) -> Result<Vec<String>, AllocError> {
    let mut words = Vec::new(rt.alloc());
    match env::args(rt) {
        Ok(all) => {
            for word in all.skip(1) {
                words.push(word)?;
            }
            Ok(words)
        }
        Err(error) if error.kind() == io::ErrorKind::OutOfMemory => Err(AllocError),
        Err(_) => Ok(words),
    }
}
