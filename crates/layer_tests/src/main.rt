//! Tests that cross crates, as rows of text in files. Of each file that the words behind the program's name give, it prints how many
//! rows are answered by the crates below as they stand there, and each other row with its answer.
//!
//! Where rows begin, and behind an empty line, a line says what the rows below it ask. A row is a step, a bar, and the answer. Lines
//! that begin with `#` are comments.
#![tactic(auto)]

mod rows;
mod subject;

use crate::subject::Subject;
use anyhow::Result;
use std::net::Net;
use std::rt::{Clock, Files};
use std::sync::Wait;
use std::thread::Threads;
use std::{env, fs};
use test_rows::around_bar;

fn main(rt: HostRuntime) -> Result<()> {
    for name in env::args(&rt)?.skip(1) {
        let text = fs::read_to_string(&rt, name.as_str())?;
        let count = answered_as_written(&rt, text.as_str())?;
        println!(rt; "{name}: {count} rows")?;
    }
    Ok(())
}

/// The number of rows of a text that are answered as they stand there. The others are printed with their answers.
fn answered_as_written<R: AllocGlobal + Files + Print + Threads + Wait + Net + Clock + Sync>(
    rt: &R,
    text: &str,
) -> Result<usize> {
    let mut subject = None;
    let mut count = 0usize;
    for line in text.lines().filter(|line| !line.starts_with('#')) {
        match &mut subject {
            _ if line.is_empty() => subject = None,
            None => subject = Some(Subject::begin(rt, line)?),
            Some(subject) => {
                let (step, written) = around_bar(line)?;
                let answer = subject.answer(rt, step)?;
                if answer.as_str() == written {
                    count = count.saturating_add(1);
                } else {
                    println!(rt; "{step} | {answer}, and not {written}")?;
                }
            }
        }
    }
    Ok(count)
}
