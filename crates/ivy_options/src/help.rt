//! What a program and its commands are for.

use crate::table::{Command, CommandOption, CommandTable, Operand, Value};
use std::io::{self, Write};

fn print_program<W: Write>(program: &CommandTable, out: &mut W) -> io::Result<()> {
    let (name, about, usage) = (program.name, program.about, program.usage);
    write!(out, "{about}\n\nUsage: {name} {usage}\n\nCommands:\n")?;
    for command in program.commands {
        writeln!(out, "  {:<9} {}", command.name, command.about)?;
    }
    writeln!(
        out,
        "\n`{name} COMMAND --help` tells of the options of a command."
    )
}

/// What stands behind an option.
fn behind(option: &CommandOption) -> &'static str {
    match option.value {
        Value::Nothing => "",
        Value::Number { .. } | Value::Power { .. } => "N",
        Value::Manager => "fixed|dynamic|steady",
        Value::Word(name) => name,
    }
}

/// Prints an option, what stands behind it, what it is, and what stands for a missing one.
fn print_option<W: Write>(option: &CommandOption, out: &mut W) -> io::Result<()> {
    let behind = behind(option);
    write!(out, "  {:<11} {behind:<20} {}", option.name, option.about)?;
    match option.value {
        Value::Number {
            missing: Some(number),
            ..
        }
        | Value::Power {
            missing: Some(number),
            ..
        } => writeln!(out, " ({number})"),
        Value::Manager => out.write_all(b" (dynamic)\n"),
        _ => out.write_all(b"\n"),
    }
}

fn print_options<W: Write>(options: &[CommandOption], out: &mut W) -> io::Result<()> {
    if options.is_empty() {
        return Ok(());
    }
    out.write_all(b"\nOptions:\n")?;
    for option in options {
        print_option(option, out)?;
    }
    Ok(())
}

fn print_operands<W: Write>(operands: &[Operand], out: &mut W) -> io::Result<()> {
    for operand in operands {
        write!(out, " {}", operand.usage)?;
    }
    Ok(())
}

fn print_command<W: Write>(
    program: &CommandTable,
    command: &Command,
    out: &mut W,
) -> io::Result<()> {
    let (name, about, note) = (command.name, command.about, command.note);
    let program = program.name;
    write!(out, "{program} {name}: {about}.\n\nUsage: {program} {name}")?;
    print_operands(command.operands, out)?;
    write!(out, " [OPTIONS]\n{note}")?;
    print_options(command.options, out)
}

/// Prints what a program is for, or one of its commands.
pub fn print_help<W: Write>(
    program: &CommandTable,
    command: Option<&Command>,
    out: &mut W,
) -> io::Result<()> {
    match command {
        None => print_program(program, out),
        Some(command) => print_command(program, command, out),
    }
}
