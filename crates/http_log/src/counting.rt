//! What is counted.
ghost use Rattle.std.specs.Prelude.{◌≡◌, map};
ghost use Rattle.http_log.specs.Counted.{with_command, with_connection, with_end, with_request};
ghost use Rattle.http_log.specs.Counting.{bucket_said, bucketed, count_said, counted, no_commands, no_ends, no_requests};

use crate::Why;

/// How often something of a word came.
#[derive(Clone, Copy, Debug, PartialEq, Eq)]
pub struct Count {
    /// What came.
    pub word: &'static str,
    /// How often.
    pub times: u64,
}

/// How many commands took no longer than a bound.
#[derive(Clone, Copy, Debug, PartialEq, Eq)]
pub struct Bucket {
    /// The bound in seconds.
    pub word: &'static str,
    /// The bound in microseconds.
    pub micros: u64,
    /// How many.
    pub times: u64,
}

impl Count {
    /// The count, once something of this word came.
    fn counted(&self, word: &[u8]) -> Count
        ensures count { result ≡ counted word.now self.now }
    {
        if self.word.as_bytes() != word {
            return *self;
        }
        Count {
            word: self.word,
            times: self.times.saturating_add(1),
        }
    }
}

impl Bucket {
    /// The bucket, once a command took so many microseconds.
    fn bucketed(&self, micros: u64) -> Bucket
        ensures bucket { result ≡ bucketed micros self.now }
    {
        if micros > self.micros {
            return *self;
        }
        Bucket {
            word: self.word,
            micros: self.micros,
            times: self.times.saturating_add(1),
        }
    }
}

/// What a desk that serves has counted. A count that has come to 2^64 - 1 stays there.
#[derive(Clone, Copy, Debug, PartialEq, Eq)]
pub struct Metrics {
    /// How many connections are open.
    pub connections: u64,
    /// How many have ended, by why.
    pub ended: [Count; 9],
    /// How many requests were answered, or lost their pages, by the status that the log has for them.
    pub requests: [Count; 13],
    /// How many commands took no longer than each bound, in turns of the desk.
    pub within: [Bucket; 10],
    /// How many commands there were, and how many microseconds they took together.
    pub commands: u64,
    pub micros: u64,
}

/// No time of this word.
fn none(word: &'static str) -> Count
    ensures none { count_said result ≡ (word.now, 0) }
{
    Count { word, times: 0 }
}

/// No command within a bound.
fn no_command(word: &'static str, micros: u64) -> Bucket
    ensures none { bucket_said result ≡ (word.now, micros, 0) }
{
    Bucket {
        word,
        micros,
        times: 0,
    }
}

impl Metrics {
    /// Nothing was counted.
    pub fn new() -> Metrics
        ensures connections { result.connections ≡ 0 }
        ensures ended { map count_said result.ended ≡ no_ends }
        ensures requests { map count_said result.requests ≡ no_requests }
        ensures within { map bucket_said result.within ≡ no_commands }
        ensures commands { result.commands ≡ 0 }
        ensures micros { result.micros ≡ 0 }
    {
        Metrics {
            connections: 0,
            ended: [
                none("left"),
                none("cut-off"),
                none("not-taken"),
                none("closed"),
                none("late-request"),
                none("late-page"),
                none("displaced"),
                none("memory"),
                none("stopped"),
            ],
            requests: [
                none("200"),
                none("204"),
                none("400"),
                none("404"),
                none("405"),
                none("409"),
                none("411"),
                none("413"),
                none("431"),
                none("501"),
                none("505"),
                none("lost"),
                none("?"),
            ],
            within: [
                no_command("0.0005", 500),
                no_command("0.001", 1_000),
                no_command("0.0025", 2_500),
                no_command("0.005", 5_000),
                no_command("0.01", 10_000),
                no_command("0.025", 25_000),
                no_command("0.05", 50_000),
                no_command("0.1", 100_000),
                no_command("0.25", 250_000),
                no_command("1", 1_000_000),
            ],
            commands: 0,
            micros: 0,
        }
    }

    /// A connection came.
    pub fn comes(&mut self)
        ensures counted { self.new ≡ with_connection self.old }
    {
        self.connections = self.connections.saturating_add(1);
    }

    /// A connection ended so.
    pub fn ends(&mut self, why: Why)
        ensures counted { self.new ≡ with_end why self.old }
    {
        self.connections = self.connections.saturating_sub(1);
        count_one(&mut self.ended, why.word().as_bytes());
    }

    /// A request was answered with this status, or lost its page.
    pub fn answers(&mut self, status: &[u8])
        ensures counted { self.new ≡ with_request status.now self.old }
    {
        count_one(&mut self.requests, status);
    }

    /// A command took so many microseconds.
    pub fn carries(&mut self, micros: u64)
        ensures counted { self.new ≡ with_command micros self.old }
    {
        put(&mut self.within, micros);
        self.commands = self.commands.saturating_add(1);
        self.micros = self.micros.saturating_add(micros);
    }
}

/// Something of this word came.
fn count_one(counts: &mut [Count], word: &[u8])
    ensures counted { counts.new ≡ map (counted word.now) counts.old }
{
    for at in 0..counts.len() {
        counts[at] = counts[at].counted(word);
    }
}

/// A command took so many microseconds.
fn put(buckets: &mut [Bucket], micros: u64)
    ensures bucketed { buckets.new ≡ map (bucketed micros) buckets.old }
{
    for at in 0..buckets.len() {
        buckets[at] = buckets[at].bucketed(micros);
    }
}
