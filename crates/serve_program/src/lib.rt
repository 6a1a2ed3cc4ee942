//! A process of the service, from its words to its exit status, over the real devices.
//!
//! It reads the words of the command line and does what they ask: it serves an actor, checks a FILE, asks a door, or
//! reads the folders of a ring that begins again. It stands on the runs of served actors and on the real devices. The
//! crate promises that it is safe and that each call gets what it requires; what it does is tested.
#![tactic(auto)]

mod actor_start;
mod again;
mod ask;
mod check;
mod counted_door;
mod counted_log;
mod events;
mod finish;
mod heard_parent;
mod opening;
mod recalling;
mod running;
mod serve;
mod serving;
mod start;
mod started;

use crate::again::tell_again;
use crate::ask::ask_process;
use crate::check::check_file;
use crate::finish::tell_end;
use crate::serve::run_actor;
use crate::serving::Serving;
use fabric_status::Status;
use ring_points::ARBITRATORS;
use serve_top::{End, HELP, VERSION_LINE};
use serve_words::{ServeForm, read_form};
use std::cell::Cell;
use std::{env, io};

/// The words of the program, without its name. A word that is no UTF-8 is in none of the program's forms, and neither
/// are no words at all.
fn words_of(rt: &HostRuntime) -> io::Result<Vec<String>> {
    let mut words = Vec::new(rt.alloc());
    match env::args(rt) {
        Ok(args) => {
            for word in args.skip(1) {
                words.push(word)?;
            }
        }
        Err(error) if error.kind() == io::ErrorKind::InvalidData => {}
        Err(error) => return Err(error),
    }
    Ok(words)
}

/// Writes a text, and says how the program ends.
fn tell(rt: &HostRuntime, text: &str) -> End {
    match rt.print(text) {
        Ok(()) => End::As(Status::Ok),
        Err(_) => End::As(Status::WriteFault),
    }
}

/// Does what the words ask.
fn run_form<'a>(rt: &'a HostRuntime, form: ServeForm<'a>, greeted: &'a Cell<bool>) -> End {
    match form {
        ServeForm::Node {
            node,
            file,
            options,
            parent,
        } => run_actor(
            rt,
            Serving {
                actor: node,
                arbiter: 0,
                file,
                options,
                parent,
                greeted,
            },
        ),
        ServeForm::Arbiter {
            arbiter,
            file,
            options,
        } => {
            let actor = ARBITRATORS + u16::from(arbiter);
            run_actor(
                rt,
                Serving {
                    actor,
                    arbiter,
                    file,
                    options,
                    parent: None,
                    greeted,
                },
            )
        }
        ServeForm::Check { file } => check_file(rt, file),
        ServeForm::Ask { folder, lines } => ask_process(rt, folder, lines),
        ServeForm::Again { file, folders } => tell_again(rt, file, folders),
        ServeForm::Help => tell(rt, HELP),
        ServeForm::Version => tell(rt, VERSION_LINE),
    }
}

/// Does what the words of the process ask, and gives its exit status. It is an error where the words cannot be read.
pub fn run_program(rt: &HostRuntime) -> io::Result<u8> {
    let words = words_of(rt)?;
    let greeted = Cell::new(false);
    let end = match read_form(rt.alloc(), &words) {
        Ok(Some(form)) => run_form(rt, form, &greeted),
        Ok(None) => End::As(Status::Usage),
        Err(_) => End::As(Status::OutOfMemory),
    };
    Ok(tell_end(rt, &end, greeted.get()))
}
