//! The help of each subcommand, from its texts, and the command of the whole program, for its usage.
ghost use Rattle.std.specs.Prelude.{◌≡◌, IfOk};
ghost use Rattle.clap.specs.Words.{app_of};
ghost use Rattle.command_line.specs.Help.{first_line, help_of, file_help, program_app, HasHelp, HasProgramHelp, ReadsAs};

use crate::subcommand_words::{EXPLAIN, with_words};
use crate::subcommands::{Subcommand, with_subcommands};
use crate::version::program_version;
use clap::Command;
use help_texts::{
    HISTORY, HISTORY_NOTES, HOLDERS, HOLDERS_NOTES, INDEX, INDEX_NOTES, JOURNEYS, JOURNEYS_NOTES,
    LOAD, LOAD_NOTES, MIGRATE, MIGRATE_NOTES, PROGRAM, RECOVER, RECOVER_NOTES, RUN, RUN_NOTES,
    SERVE, SERVE_NOTES, STOCK, STOCK_NOTES, SUMMARY, SUMMARY_NOTES, UNFINISHED, UNFINISHED_NOTES,
    WHY, WHY_NOTES,
};
use std::alloc::{AllocError, Global};

impl Subcommand {
    /// What the subcommand reads and prints, and the notes after that: forms, exit statuses, and an example.
    fn help<'a>(self) -> (&'a str, &'a str)
        ensures help { (result.0.now, result.1.now) ≡ help_of self }
    {
        match self {
            Subcommand::Run => (RUN, RUN_NOTES),
            Subcommand::Serve => (SERVE, SERVE_NOTES),
            Subcommand::Recover => (RECOVER, RECOVER_NOTES),
            Subcommand::Load => (LOAD, LOAD_NOTES),
            Subcommand::Stock => (STOCK, STOCK_NOTES),
            Subcommand::Summary => (SUMMARY, SUMMARY_NOTES),
            Subcommand::Holders => (HOLDERS, HOLDERS_NOTES),
            Subcommand::Unfinished => (UNFINISHED, UNFINISHED_NOTES),
            Subcommand::Journeys => (JOURNEYS, JOURNEYS_NOTES),
            Subcommand::History => (HISTORY, HISTORY_NOTES),
            Subcommand::Why => (WHY, WHY_NOTES),
            Subcommand::Migrate => (MIGRATE, MIGRATE_NOTES),
            Subcommand::Index => (INDEX, INDEX_NOTES),
        }
    }

    /// A line on the subcommand's file.
    pub(crate) fn file<'a>(self) -> &'a str
        ensures file { result.now ≡ file_help self }
    {
        match self {
            Subcommand::Run | Subcommand::Serve | Subcommand::Recover | Subcommand::Load => {
                "The database file, created if absent"
            }
            _ => "The database file, which must exist",
        }
    }

    /// The command with the help of the subcommand.
    pub(crate) fn with_help<'a>(self, command: Command<'a>) -> Result<Command<'a>, AllocError>
        ensures help { IfOk result (HasHelp self) }
        ensures reads { IfOk result (ReadsAs command.entry) }
    {
        let (about, notes) = self.help();
        command
            .about(line_of(about))
            .long_about(about)
            .after_long_help(notes)
            .bin_name(self.called())
    }
}

/// The first line of a text.
fn line_of(text: &str) -> &str
    ensures line { result.now ≡ first_line text.now }
{
    match text.split_once('\n') {
        Some((line, _)) => line,
        None => text,
    }
}

/// The command of the program, with those of all subcommands.
pub(crate) fn program_command<'a>(alloc: Global) -> Result<Command<'a>, AllocError>
    ensures app { IfOk result (λ command. app_of command ≡ program_app) }
    ensures help { IfOk result HasProgramHelp }
{
    let bare = Command::new(alloc, "desk")
        .no_binary_name(true)
        .subcommand_required(true)
        .arg_required_else_help(true);
    let explains = with_words(alloc, bare, &[EXPLAIN])?;
    let whole = with_subcommands(alloc, explains, &Subcommand::ALL)?;
    Ok(
        whole
            .about("A booking desk for travel agencies")
            .version(program_version())
            .after_long_help(PROGRAM),
    )
}
