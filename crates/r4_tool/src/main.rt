//! `r4_tool`: the storage core's program (docs/program.md).
#![tactic(auto)]

mod complaints;
mod streams;
#[cfg(test)]
mod tests;

use complaints::{of_device, of_image, of_memory, of_size};
use r4_base::Memory;
use r4_devices::FileDevice;
use r4_outside::{Device, OpenGate, Unnamed};
use r4_top::{Status, r4_main};
use std::fs::File;
use std::io::Stdout;
use std::process::ExitCode;
use std::{env, io};
use streams::{InputText, OutputText};

fn main(rt: HostRuntime) -> ExitCode {
    let Ok(mut out) = OutputText::new(rt.alloc(), rt.stdout()) else {
        return no_memory(&rt);
    };
    let words = match command_words(&rt) {
        Ok(words) => words,
        Err(fault) if fault.kind() == io::ErrorKind::OutOfMemory => return no_memory(&rt),
        // Words that are not text are no command.
        Err(_) => Vec::new(rt.alloc()),
    };
    let name = match words.get(1) {
        Some(word) => word.as_str(),
        None => "",
    };
    let mut dev = FileDevice::open(&rt, name);
    let Status { code } = r4_main(
        &rt,
        rt.alloc(),
        &words,
        &mut dev,
        &mut InputText::new(rt.reader()),
        &mut out,
        &OpenGate,
        Unnamed::new(),
    );
    let is_printed = out.flush().is_ok();
    complain(&rt, name, code, &mut dev, &mut out);
    ExitCode::from(if code <= 1 && !is_printed { 5 } else { code })
}

// The words of the command line, without the program's own name.
fn command_words(rt: &HostRuntime) -> io::Result<Vec<String>> {
    let mut words = Vec::new(rt.alloc());
    for word in env::args(rt)?.skip(1) {
        words.push(word)?;
    }
    Ok(words)
}

// Where there is no memory for the words or for what is printed.
fn no_memory(rt: &HostRuntime) -> ExitCode {
    let _ = println!(rt; "memory");
    let _ = eprintln!(rt; "r4: {}", of_memory());
    ExitCode::from(9)
}

// Says on standard error why a command failed. Where that is not possible, the status is as it is.
fn complain(
    rt: &HostRuntime,
    name: &str,
    code: u8,
    dev: &mut FileDevice<File>,
    out: &mut OutputText<Stdout>,
) {
    let alloc = rt.alloc();
    let text = match code {
        6 => of_device(alloc, dev.trouble()),
        7 => of_image(alloc, out.last()),
        8 => of_size(alloc, dev.blocks().unwrap_or(0)),
        9 => Err(Memory),
        _ => return,
    };
    let _ = match &text {
        Ok(text) => eprintln!(rt; "r4: {name}: {text}"),
        Err(_) => eprintln!(rt; "r4: {name}: {}", of_memory()),
    };
}
