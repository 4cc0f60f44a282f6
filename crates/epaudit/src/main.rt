//! Tells of a history whether the machine allows it. `--help` tells the options.
#![tactic(auto)]

use ep_audit_program::{Files, no_words, run_with};
use std::env::{self, Env};
use std::fs::{self, File};
use std::io;
use std::process::ExitCode;

fn words_of(rt: &(impl Env + AllocGlobal)) -> io::Result<Vec<String>> {
    Ok(env::args(rt)?.collect(rt.alloc())?)
}

/// The files on the disk.
#[derive(Drop)]
struct Disk<'a> {
    rt: &'a HostRuntime,
}

impl Files for Disk<'_> {
    type History = File;

    fn open(&self, path: &str) -> io::Result<File> {
        fs::open(self.rt, path)
    }
}

fn main(rt: HostRuntime) -> ExitCode {
    let mut errors = rt.stderr();
    let status = match words_of(&rt) {
        Ok(words) => run_with(
            rt.alloc(),
            words,
            rt.stdin(),
            &mut rt.stdout(),
            &mut errors,
            &Disk { rt: &rt },
        ),
        Err(error) => no_words(&error, &mut errors),
    };
    ExitCode::from(status)
}
