// The gateway: carries out the commands of a day file in order, and prints what it did.
#![tactic(auto)]

mod answer;
mod before;
mod command;
mod day;
mod gather;
mod line;
mod minute;
mod mistake;
mod parse;
mod pile;
mod refusal;
mod show;
mod sitting;
mod view;

use day::Stopped;
use std::process::ExitCode;
use std::rt::{Env, Files};
use std::{env, fs};

fn main(rt: HostRuntime) -> ExitCode {
    match run(&rt) {
        Ok(()) => ExitCode::SUCCESS,
        Err(Stopped) => ExitCode::FAILURE,
    }
}

fn run(rt: &(impl Env + Files + Print + Eprint + AllocGlobal)) -> Result<(), Stopped> {
    let mut args = env::args(rt)?;
    let _program = args.next();
    let (Some(name), None) = (args.next(), args.next()) else {
        eprintln!(rt; "usage: gateway DAYFILE")?;
        eprintln!(rt;
            "Carries out the commands of DAYFILE, one on a line, and prints what it did."
        )?;
        return Err(Stopped);
    };
    match fs::read_to_string(rt, name.as_str()) {
        Ok(text) => day::carry_out(rt, text.as_str()),
        Err(_) => {
            println!(rt;
                "error: the day file {name} cannot be read: give the name of a text file"
            )?;
            Err(Stopped)
        }
    }
}
