//! The command of `cpx`, as `clap` knows it.
ghost use Rattle.std.specs.Prelude.{◌≡◌, IfOk, codes, false};
ghost use Rattle.clap.specs.Words.{app_of, new_app, rule_of};
ghost use Rattle.cp_tool.specs.Command as spec;
ghost use Rattle.cp_tool.specs.Command.{cpx, valued, flag};

use clap::{Arg, ArgAction, Command};
use std::alloc::{AllocError, Global};

const ABOUT: &str =
    "Reads a program in Concurrent Pascal from standard input, runs it under every schedule\nof at most K choices, and reports which outcomes are possible.";

const USAGE: &str = "cpx [OPTIONS] < PROGRAM";

const NOTES: &str =
    "Example: cpx --choices 5 < program.cp\nVersion: cpx --version\n\nStatus: 0 reported, 1 source refused, 2 options refused, 3 no memory, 4 read or write fault,\n5 too many rows, states or outcomes";

/// Thirteen options, each with a long name alone; `clap` adds `--help` and `-h`.
pub fn command<'a>(alloc: Global) -> Result<Command<'a>, AllocError>
    ensures { IfOk result (λ c. app_of c ≡ cpx) }
{
    let command = with_limits(alloc, describe_command(alloc))?;
    let command = with_reports(alloc, command)?;
    with_rules(alloc, command)
}

// How long schedules are, and who explores them.
fn with_limits<'a>(alloc: Global, command: Command<'a>) -> Result<Command<'a>, AllocError>
    ensures { IfOk result (λ c. app_of c ≡ spec.with_limits (app_of command.entry)) }
{
    let command = command.arg(option(
        alloc,
        "choices",
        "K",
        "Choices of a schedule, 0 to 20, with --merge to 100 [default: 8]",
    ))?;
    let command = command.arg(option(
        alloc,
        "steps",
        "L",
        "Steps of a stretch between choices, 1 to 100000 [default: 1000]",
    ))?;
    let command = command.arg(option(
        alloc,
        "workers",
        "N",
        "Threads that explore, 1 to 16 [default: 1]",
    ))?;
    let command = command.arg(option(
        alloc,
        "cut",
        "D",
        "Choices that are dealt out to the threads, 0 to 20 [default: by their number]",
    ))?;
    Ok(command)
}

// What is told of all schedules.
fn with_reports<'a>(alloc: Global, command: Command<'a>) -> Result<Command<'a>, AllocError>
    ensures { IfOk result (λ c. app_of c ≡ spec.with_reports (app_of command.entry)) }
{
    let command = command.arg(switch(
        alloc,
        "rows",
        "Write a line for each schedule, before the report",
    ))?;
    let command = command.arg(switch(
        alloc,
        "merge",
        "Count schedules that come to one state together, without rows",
    ))?;
    let command = command.arg(switch(
        alloc,
        "ends",
        "Which ends are possible, in schedules of any length",
    ))?;
    let command = command.arg(switch(
        alloc,
        "waits",
        "With --ends, who may wait for ever while others go on",
    ))?;
    let command = command.arg(switch(
        alloc,
        "at-once",
        "With --ends, kernel calls but enter at once: fewer states",
    ))?;
    Ok(command)
}

// How many states there may be, which schedule is traced alone, and who goes on in a monitor.
fn with_rules<'a>(alloc: Global, command: Command<'a>) -> Result<Command<'a>, AllocError>
    ensures { IfOk result (λ c. app_of c ≡ spec.with_rules (app_of command.entry)) }
{
    let command = command.arg(option(
        alloc,
        "states",
        "N",
        "States of a layer with --merge, in all with --ends, 1 to 10000000 [default: 200000, with --at-once 2000000]",
    ))?;
    let command = command.arg(option(
        alloc,
        "schedule",
        "WORD",
        "Trace this one schedule: `none`, or up to 20 numbers 0 to 15 joined by periods, with --merge up to 100",
    ))?;
    let command = command.arg(option(
        alloc,
        "gates",
        "WHO",
        "Who enters a monitor that becomes free: `first` in line, or `any` [default: first]",
    ))?;
    let command = command.arg(option(
        alloc,
        "signals",
        "RULE",
        "Who goes on after a continue: `return`, `continue` or `wait` [default: return]",
    ))?;
    Ok(command)
}

fn describe_command<'a>(alloc: Global) -> Command<'a>
    ensures { app_of result ≡ new_app (codes "cpx") }
{
    Command::new(alloc, "cpx")
        .about(ABOUT)
        .override_usage(USAGE)
        .after_help(NOTES)
}

fn option<'a>(alloc: Global, name: &'a str, value: &'a str, help: &'a str) -> Arg<'a>
    ensures rule { rule_of result ≡ valued name.entry.now }
    ensures local { result.global ≡ false }
{
    Arg::new(alloc, name)
        .long(name)
        .value_name(value)
        .help(help)
}

fn switch<'a>(alloc: Global, name: &'a str, help: &'a str) -> Arg<'a>
    ensures rule { rule_of result ≡ flag name.entry.now }
    ensures local { result.global ≡ false }
{
    Arg::new(alloc, name)
        .long(name)
        .action(ArgAction::SetTrue)
        .help(help)
}
