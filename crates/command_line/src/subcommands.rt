//! The subcommands of the program: their words, and the values that each of them reads.
ghost use Rattle.std.specs.Prelude.{◌≡◌, ◌∷◌, ◌++◌, map, codes, IfOk, IfSome};
ghost use Rattle.clap.specs.Words.{app_of};
ghost use Rattle.command_line.specs.Help.{HasHelp};
ghost use Rattle.command_line.specs.Subcommands.{app_for, is_report, name_of, needed, rule_said, rules_for, subcommand_in, with_subcommands, IsBare, ReadsWords};

use crate::subcommand_words::{
    HOLDERS, JOURNEY, JOURNEYS, LOAD, SERVE, STOCK, SUMMARY, UNFINISHED, Word, value, with_words,
};
use clap::Command;
use std::alloc::{AllocError, Global};

/// The subcommands of the program.
#[derive(Clone, Copy)]
pub(crate) enum Subcommand {
    Run,
    Serve,
    Recover,
    Load,
    Stock,
    Summary,
    Holders,
    Unfinished,
    Journeys,
    History,
    Why,
    Migrate,
    Index,
}

impl Subcommand {
    /// All subcommands, in the order of the usage.
    pub(crate) const ALL: [Subcommand; 13] = [
        Subcommand::Run,
        Subcommand::Serve,
        Subcommand::Recover,
        Subcommand::Load,
        Subcommand::Stock,
        Subcommand::Summary,
        Subcommand::Holders,
        Subcommand::Unfinished,
        Subcommand::Journeys,
        Subcommand::History,
        Subcommand::Why,
        Subcommand::Migrate,
        Subcommand::Index,
    ];

    /// The subcommand that a word names. Returns `None` if the word names none.
    pub(crate) fn named(word: &str) -> Option<Subcommand>
        ensures named { result ≡ subcommand_in word.now }
        ensures name { IfSome result (λ s. word.now ≡ name_of s) }
    {
        match word {
            "run" => Some(Subcommand::Run),
            "serve" => Some(Subcommand::Serve),
            "recover" => Some(Subcommand::Recover),
            "load" => Some(Subcommand::Load),
            "stock" => Some(Subcommand::Stock),
            "summary" => Some(Subcommand::Summary),
            "holders" => Some(Subcommand::Holders),
            "unfinished" => Some(Subcommand::Unfinished),
            "journeys" => Some(Subcommand::Journeys),
            "history" => Some(Subcommand::History),
            "why" => Some(Subcommand::Why),
            "migrate" => Some(Subcommand::Migrate),
            "index" => Some(Subcommand::Index),
            _ => None,
        }
    }

    /// The word that names the subcommand.
    pub(crate) fn name<'a>(self) -> &'a str
        ensures name { result.now ≡ name_of self }
    {
        match self {
            Subcommand::Run => "run",
            Subcommand::Serve => "serve",
            Subcommand::Recover => "recover",
            Subcommand::Load => "load",
            Subcommand::Stock => "stock",
            Subcommand::Summary => "summary",
            Subcommand::Holders => "holders",
            Subcommand::Unfinished => "unfinished",
            Subcommand::Journeys => "journeys",
            Subcommand::History => "history",
            Subcommand::Why => "why",
            Subcommand::Migrate => "migrate",
            Subcommand::Index => "index",
        }
    }

    /// The words that call the subcommand, as the usage shows them.
    pub(crate) fn called<'a>(self) -> &'a str
        ensures called { result.now ≡ codes "desk " ++ name_of self }
    {
        match self {
            Subcommand::Run => "desk run",
            Subcommand::Serve => "desk serve",
            Subcommand::Recover => "desk recover",
            Subcommand::Load => "desk load",
            Subcommand::Stock => "desk stock",
            Subcommand::Summary => "desk summary",
            Subcommand::Holders => "desk holders",
            Subcommand::Unfinished => "desk unfinished",
            Subcommand::Journeys => "desk journeys",
            Subcommand::History => "desk history",
            Subcommand::Why => "desk why",
            Subcommand::Migrate => "desk migrate",
            Subcommand::Index => "desk index",
        }
    }

    /// Whether the subcommand prints a report.
    pub(crate) fn is_report(self) -> bool
        ensures report { result ≡ is_report self }
    {
        match self {
            Subcommand::Stock
            | Subcommand::Summary
            | Subcommand::Holders
            | Subcommand::Unfinished
            | Subcommand::Journeys
            | Subcommand::History
            | Subcommand::Why => true,
            Subcommand::Run
            | Subcommand::Serve
            | Subcommand::Recover
            | Subcommand::Load
            | Subcommand::Migrate
            | Subcommand::Index => false,
        }
    }

    /// The `clap` command of the subcommand, without its values and its help.
    fn bare<'a>(self, alloc: Global) -> Command<'a>
        ensures bare { IsBare (name_of self) result }
    {
        Command::new(alloc, self.name()).no_binary_name(true)
    }

    /// The values that the subcommand reads after its file.
    fn words<'a>(self) -> &'a [Word<'static>]
        ensures rules { needed (codes "FILE") ∷ map rule_said result.now ≡ rules_for self }
    {
        match self {
            Subcommand::Serve => &SERVE,
            Subcommand::Load => &LOAD,
            Subcommand::Stock => &STOCK,
            Subcommand::Summary => &SUMMARY,
            Subcommand::Holders => &HOLDERS,
            Subcommand::Unfinished => &UNFINISHED,
            Subcommand::Journeys => &JOURNEYS,
            Subcommand::History | Subcommand::Why => &JOURNEY,
            Subcommand::Run | Subcommand::Recover | Subcommand::Migrate | Subcommand::Index => &[],
        }
    }

    /// The `clap` command that reads the words after the subcommand, with its help.
    pub(crate) fn command<'a>(self, alloc: Global) -> Result<Command<'a>, AllocError>
        ensures reads { IfOk result (ReadsWords self) }
        ensures help { IfOk result (HasHelp self) }
    {
        let over_file = self.bare(alloc).arg(value(alloc, "FILE", self.file()))?;
        let whole = with_words(alloc, over_file, self.words())?;
        self.with_help(whole)
    }
}

/// The command with those of these subcommands, one after another.
pub(crate) fn with_subcommands<'a>(
    alloc: Global,
    command: Command<'a>,
    subcommands: &[Subcommand],
) -> Result<Command<'a>, AllocError>
    ensures app { IfOk result (λ all.
        app_of all ≡ with_subcommands (app_of command.entry) (map app_for subcommands.now)) }
{
    let mut command = command;
    for subcommand in subcommands {
        let one = subcommand.command(alloc)?;
        command = command.subcommand(one)?;
    }
    Ok(command)
}
