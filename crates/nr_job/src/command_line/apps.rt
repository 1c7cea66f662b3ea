//! The description of the program and of each command, for clap.

ghost use Rattle.std.specs.Prelude.{◌≡◌, false, IfOk};
ghost use Rattle.clap.specs.Words.{App, app_of, new_app, rule_of, with_rule};
ghost use Rattle.nr_job.specs.{Commands.file_rule, Commands.rate_rule, Commands.with_files, inside.Jobs.named_app};

use super::texts::{
    BLOCKS, BLOCKS_LONG, SCHEDULE, SCHEDULE_LONG, SETTINGS, SETTINGS_LONG, TABLE, TABLE_LONG,
};
use clap::{Arg, Command, value_parser};
use std::alloc::{AllocError, Global};

const VERSION: &str = "0.3.0-dev";

const ABOUT: &str =
    "The data coding chain of 5G NR (3GPP TS 38.212): CRC, segmentation, LDPC, rate matching, HARQ
With no arguments, linksim reads transport blocks from standard input.";

// The ends of a command's help and of its long help: errors that are not those of its files, an example, and the exit statuses.
macro_rules! closings {
    ($example:literal) => {
        (
            concat!(
                "Example:\n  ",
                $example,
                "\n\nExit status: 0 on success, 1 on an error, 2 on wrong usage"
            ),
            concat!(
                "Fails with status 1 and 'linksim: refused:' followed by\n  output Write  standard output failed; check whether the disk is full or the reader of the pipe has ended\n  memory        memory could not be allocated; give the program more (docs/performance.md says how much it needs)\n\nExample:\n  ",
                $example,
                "\n\nExit status: 0 on success, 1 on an error, 2 on wrong usage"
            ),
        )
    };
}

// The whole program, for its help and for the errors of arguments that do not begin with a command.
pub(super) fn program<'a>(alloc: Global) -> Result<Command<'a>, AllocError> {
    let program = with_command(bare_program(alloc), Name::Cut.command(alloc));
    let program = with_command(program, Name::Check.command(alloc));
    let program = with_command(program, Name::Send.command(alloc));
    let program = with_command(program, Name::Run.command(alloc));
    with_command(program, Name::Audit.command(alloc))
}

// The program without its commands.
fn bare_program<'a>(alloc: Global) -> Result<Command<'a>, AllocError> {
    Command::new(alloc, "linksim")
        .about(ABOUT)
        .after_help(
            "With no arguments, linksim does what 'linksim cut --rate 2048 --blocks -' does.

Exit status: 0 on success, 1 on an error, 2 on wrong usage",
        )
        .version(VERSION)
        .no_binary_name(true)
        .subcommand_required(true)
        .bin_name("linksim")
}

// Adds a command to the program, if there was memory for both.
fn with_command<'a>(
    program: Result<Command<'a>, AllocError>,
    command: Result<Command<'a>, AllocError>,
) -> Result<Command<'a>, AllocError> {
    let (Ok(program), Ok(command)) = (program, command) else {
        return Err(AllocError);
    };
    program.subcommand(command)
}

// The name of a command.
#[derive(Clone, Copy)]
pub(super) enum Name {
    Cut,
    Check,
    Send,
    Run,
    Audit,
}

impl Name {
    // What clap is told of the command.
    pub(super) fn command<'a>(self, alloc: Global) -> Result<Command<'a>, AllocError>
        ensures { IfOk result (λ c. app_of c ≡ named_app self) }
    {
        let command = self.bare(alloc)?;
        match self {
            Name::Cut => {
                let command = with_file(alloc, command, "blocks", (BLOCKS, BLOCKS_LONG))?;
                with_rate(alloc, command)
            }
            Name::Check => with_file(alloc, command, "table", (TABLE, TABLE_LONG)),
            _ => with_files(alloc, command),
        }
    }

    // The command without options.
    fn bare<'a>(self, alloc: Global) -> Result<Command<'a>, AllocError>
        ensures { IfOk result (λ c. app_of c ≡ new_app (named_app self).top.name) }
    {
        let ends = self.ends();
        Command::new(alloc, self.word())
            .about(self.about())
            .after_help(ends.0)
            .after_long_help(ends.1)
            .bin_name(self.call())
    }

    // Its word.
    fn word<'a>(self) -> &'a str
        ensures { result.now ≡ (named_app self).top.name }
    {
        match self {
            Name::Cut => "cut",
            Name::Check => "check",
            Name::Send => "send",
            Name::Run => "run",
            Name::Audit => "audit",
        }
    }

    // The words that call it.
    fn call<'a>(self) -> &'a str {
        match self {
            Name::Cut => "linksim cut",
            Name::Check => "linksim check",
            Name::Send => "linksim send",
            Name::Run => "linksim run",
            Name::Audit => "linksim audit",
        }
    }

    // What it does.
    fn about<'a>(self) -> &'a str {
        match self {
            Name::Cut => "Attach the CRC to each transport block and segment it into code blocks",
            Name::Check => "Check a table of shift values",
            Name::Send => {
                "Encode each transport block and write the bits of each transmission of a schedule"
            }
            Name::Run => {
                "Send and receive the transmissions of a schedule over a link that loses bits, and show what is delivered"
            }
            Name::Audit => {
                "Show, for each code block, how many decoding steps recovered it or which stopping set blocks it"
            }
        }
    }

    // The ends of its help and of its long help.
    fn ends<'a>(self) -> (&'a str, &'a str) {
        match self {
            Name::Cut => closings!("echo 01 | linksim cut --rate 1024 --blocks -"),
            Name::Check => closings!("linksim check --table examples/practice.csv"),
            Name::Send => {
                closings!(
                    "linksim send --table examples/practice.csv --settings examples/settings.toml --blocks examples/blocks.txt --schedule examples/schedule.csv"
                )
            }
            Name::Run => {
                closings!(
                    "linksim run --table examples/practice.csv --settings examples/settings.toml --blocks examples/blocks.txt --schedule examples/losses.csv"
                )
            }
            Name::Audit => {
                closings!(
                    "linksim audit --table examples/practice.csv --settings examples/settings.toml --blocks examples/blocks.txt --schedule examples/losses.csv"
                )
            }
        }
    }
}

// Adds the options of a command over four files.
fn with_files<'a>(alloc: Global, command: Command<'a>) -> Result<Command<'a>, AllocError>
    ensures { IfOk result (λ c. app_of c ≡ with_files (app_of command.entry)) }
{
    let command = with_file(alloc, command, "table", (TABLE, TABLE_LONG));
    let command = and_file(alloc, command, "settings", (SETTINGS, SETTINGS_LONG));
    let command = and_file(alloc, command, "blocks", (BLOCKS, BLOCKS_LONG));
    and_file(alloc, command, "schedule", (SCHEDULE, SCHEDULE_LONG))
}

// Adds a required option to a command that there was memory for.
fn and_file<'a>(
    alloc: Global,
    command: Result<Command<'a>, AllocError>,
    name: &'a str,
    helps: (&'a str, &'a str),
) -> Result<Command<'a>, AllocError>
    ensures { (app : App) → IfOk command.entry (λ c. app_of c ≡ app)
        → IfOk result (λ c. app_of c ≡ with_rule app (file_rule name.entry.now)) }
{
    match command {
        Ok(command) => with_file(alloc, command, name, helps),
        Err(AllocError) => Err(AllocError),
    }
}

// Adds a required option, whose value is the path of a file.
fn with_file<'a>(
    alloc: Global,
    command: Command<'a>,
    name: &'a str,
    helps: (&'a str, &'a str),
) -> Result<Command<'a>, AllocError>
    ensures { IfOk result (λ c.
        app_of c ≡ with_rule (app_of command.entry) (file_rule name.entry.now)) }
{
    let file = Arg::new(alloc, name)
        .long(name)
        .required(true)
        .value_name("FILE")
        .help(helps.0)
        .long_help(helps.1);
    command.arg(file)
}

fn with_rate<'a>(alloc: Global, command: Command<'a>) -> Result<Command<'a>, AllocError>
    ensures { IfOk result (λ c. app_of c ≡ with_rule (app_of command.entry) rate_rule) }
{
    command.arg(rate_option(alloc))
}

// The option of the target code rate times 2048.
fn rate_option<'a>(alloc: Global) -> Arg<'a>
    ensures rule { rule_of result ≡ rate_rule }
    ensures local { result.global ≡ false }
{
    Arg::new(alloc, "rate")
        .long("rate")
        .value_name("N")
        .value_parser(value_parser!(u32).range(1..=2048))
        .default_value("2048")
        .help("The target code rate in 2048ths, twice that of the MCS tables; 0.5 is 1024")
}
