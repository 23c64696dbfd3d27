//! The word that asks for a log whose lines have their times. `clap` reads it as the one that asks for a log.
ghost use Rattle.std.specs.Prelude.{◌≡◌, ◌≤◌, bytes_eq, length, map, position};
ghost use Rattle.std.specs.String.{string_bytes};
ghost use Rattle.command_line.specs.Timing.{asks_for_times, is_timed, no_more_options, options_end, plain_word, plain_words, timed};

use crate::jobs::{Job, LogForm};

/// The word itself.
const TIMED: &str = "--log=time";

/// How many bytes of it are the word that asks for a log.
const PLAIN: usize = 5;

/// The word after which no option stands.
pub(crate) const NO_MORE_OPTIONS: &str = "--";

/// Makes each option that asks for a log with times the one that asks for a log, and reports whether there was one.
pub(crate) fn plain_words(words: &mut [String]) -> bool
    ensures words { map string_bytes words.new ≡ plain_words (map string_bytes words.old) }
    ensures times { result ≡ asks_for_times (map string_bytes words.old) }
{
    let mut times = false;
    for at in 0..options_end(words) {
        let is_timed = make_plain(&mut words[at]);
        times = times || is_timed;
    }
    times
}

/// How many words stand before the one after which no option stands, or all.
fn options_end(words: &[String]) -> usize
    ensures count { result ≡ options_end (map string_bytes words.now) }
    ensures within { result ≤ length words.now }
{
    match first_end(words) {
        Some(place) => place,
        None => words.len(),
    }
}

/// Where the word stands after which no option does.
fn first_end(words: &[String]) -> Option<usize>
    ensures place { result ≡ position (λ word. bytes_eq (string_bytes word) no_more_options) words.now }
{
    words
        .iter()
        .position(|word| word.as_str() == NO_MORE_OPTIONS)
}

/// Makes a word that asks for a log with times the one that asks for a log, and reports whether it was one.
fn make_plain(word: &mut String) -> bool
    ensures word { string_bytes word.new ≡ plain_word (string_bytes word.old) }
    ensures timed { result ≡ is_timed (string_bytes word.old) }
{
    let is_timed = word.as_str() == TIMED;
    if is_timed {
        word.truncate(PLAIN);
    }
    is_timed
}

impl Job {
    /// The job, where the lines of its log have their times if that is asked for. One without a log stays without.
    pub(crate) fn timed(self, times: bool) -> Job
        ensures job { result ≡ timed times self }
    {
        match self {
            Job::Serve {
                file,
                port,
                connections,
                house,
                page,
                log: Some(_),
                wide,
            } if times => Job::Serve {
                file,
                port,
                connections,
                house,
                page,
                log: Some(LogForm::Timed),
                wide,
            },
            job => job,
        }
    }
}
