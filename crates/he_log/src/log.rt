//! The log: a line for each session.
ghost use Rattle.std.specs.Prelude.{◌≡◌, ◌++◌, OnOk};
ghost use Rattle.std.specs.List.{list_all};
ghost use Rattle.he_log.specs.Log.{is_bare_byte, value_text};

use crate::facts::Facts;
use crate::level::Level;
use crate::output::Output;
use he_access::reach::Place;
use he_addr::{Ip, Memory, write_ip, write_number};
use he_front::Ended;
use he_history::{Cause, stamp_now};
use he_live::{Endpoint, socket_of};
use he_print::write_string;
use he_sessions::{Ending, RaceAsked, SessionEnd, Winner};
use std::alloc::Global;
use std::io::Write;
use std::net::SocketAddr;
use std::time::Clock;

/// The form of the log.
#[derive(Clone, Copy, Debug, PartialEq, Eq)]
pub enum LogForm {
    Silent,
    /// A line of text for each session.
    Text,
    /// A line with a JSON object for each session.
    Json,
}

/// Which lines a log has, and their form.
#[derive(Clone, Copy, Debug, PartialEq, Eq)]
pub struct LogOptions {
    pub form: LogForm,
    /// Whether a race that begins has a line too.
    pub has_begins: bool,
    /// Whether each line begins with its priority, as `<6>` (sd-daemon(3)).
    pub has_priorities: bool,
}

/// The log and its output.
#[derive(Drop)]
pub struct Log<F: Drop> {
    alloc: Global,
    form: LogForm,
    has_begins: bool,
    out: Output<F>,
}

impl<F: Write + Drop> Log<F> {
    pub fn new(alloc: Global, options: LogOptions, out: F) -> Log<F> {
        Log {
            alloc,
            form: options.form,
            has_begins: options.has_begins,
            out: Output::new(alloc, options.has_priorities, out),
        }
    }

    /// The number of lines that standard error did not take.
    pub fn lines_lost(&self) -> u64 {
        self.out.lost()
    }

    /// Writes the line of an ended session: `time=2026-11-26T16:34:40.123Z client=127.0.0.1:53422 host=example.org
    /// port=443 start=2026-11-26T16:34:39.871Z names=21 winner=2001:db8::1 ms=23 lost=0 sent=517 received=4096
    /// end=closed`, or an object with these members.
    pub fn tell<R: Clock>(&self, rt: &R, end: &SessionEnd<'_>, facts: &Facts) {
        if let Some(line) = self.begin_line(rt)
            && let Ok(line) = line_of(self.alloc, end, facts, line)
        {
            self.out
                .write(Level::of_session(end.result), line.as_slice());
        }
    }

    /// Writes the line of a race that begins, if the log has such lines: `time=2026-11-26T16:34:39.872Z
    /// client=127.0.0.1:53422 host=example.org port=443 begin=2026-11-26T16:34:39.871Z`, or an object with these
    /// members. It has no `end`, and its `begin` is the `start` of the session's line. `began`: when the race began,
    /// as from `stamp_now`.
    pub fn tell_begun<R: Clock>(&self, rt: &R, asked: &RaceAsked<'_>, began: &str) {
        if self.has_begins
            && let Some(line) = self.begin_line(rt)
            && let Ok(line) = line_of_begun(self.alloc, asked, began, line)
        {
            self.out.write(Level::Info, line.as_slice());
        }
    }

    /// Writes the line of a client that is not served.
    pub fn tell_turned_away<R: Clock>(&self, rt: &R, client: SocketAddr) {
        self.tell_refused(rt, client, b"turned-away");
    }

    /// Writes the line of a client that is not served since its address has the most sessions already.
    pub fn tell_too_many<R: Clock>(&self, rt: &R, client: SocketAddr) {
        self.tell_refused(rt, client, b"too-many");
    }

    fn tell_refused<R: Clock>(&self, rt: &R, client: SocketAddr, end: &[u8]) {
        if let Some(line) = self.begin_line(rt)
            && let Ok(line) = line_of_refused(self.alloc, client, end, line)
        {
            self.out.write(Level::Warning, line.as_slice());
        }
    }

    // A line with the current time, if the clock gives one. None in a silent log.
    fn begin_line<R: Clock>(&self, rt: &R) -> Option<Line> {
        let is_json = match self.form {
            LogForm::Silent => return None,
            LogForm::Text => false,
            LogForm::Json => true,
        };
        let mut line = Line {
            is_json,
            text: Vec::new(self.alloc),
        };
        if let Some(now) = stamp_now(rt, self.alloc) {
            line.put_text("time", now.as_bytes()).ok()?;
        }
        Some(line)
    }

    /// Writes a warning of the proxy: `he: no descriptor is left`.
    pub fn say(&self, what: &str) {
        self.say_at(Level::Warning, what);
    }

    fn say_at(&self, level: Level, what: &str) {
        if let Ok(line) = format!(in self.alloc; "he: {what}\n") {
            self.out.write(level, line.as_bytes());
        }
    }

    /// Reports that something can't be kept, and why.
    pub fn tell_unkept(&self, what: &str, why: Cause) {
        if let Ok(what) = format!(in self.alloc; "cannot keep {what}: {why}") {
            self.say_at(Level::Error, &what);
        }
    }

    /// Reports that the history file was not a history, and where its copy is.
    pub fn tell_moved(&self, to: &str) {
        if let Ok(what) = format!(in self.alloc;
            "the history file had no line ADDRESS SOURCE MILLISECONDS SECOND: it is kept as {to}"
        ) {
            self.say(&what);
        }
    }

    /// Reports the wrong lines of the history file.
    pub fn tell_passed_over(&self, lines: &[u64]) {
        for line in lines {
            if let Ok(what) = format!(in self.alloc;
                "line {line} of the history is skipped: it is not ADDRESS SOURCE MILLISECONDS SECOND"
            ) {
                self.say(&what);
            }
        }
    }

    /// Reports that others than its owner can read the file of users.
    pub fn tell_readable(&self, path: &str) {
        if let Ok(what) = format!(in self.alloc;
            "other users of this machine can read the passwords in {path}: chmod 600 {path}"
        ) {
            self.say(&what);
        }
    }

    /// Reports that the limit of sessions is reached.
    pub fn tell_most(&self, most: u32) {
        if let Ok(what) = format!(in self.alloc;
            "{most} sessions run, as many as --max-clients allows: other clients wait until one ends"
        ) {
            self.say(&what);
        }
    }

    /// Reports that there is room for sessions again.
    pub fn tell_room(&self, most: u32) {
        if let Ok(what) = format!(in self.alloc; "fewer than {most} sessions run again") {
            self.say_at(Level::Info, &what);
        }
    }

    /// Reports the places that the proxy listens at, in a text log.
    pub fn tell_places(&self, places: &[Place]) {
        if self.form != LogForm::Text {
            return;
        }
        for place in places {
            self.tell_place(*place);
        }
    }

    fn tell_place(&self, place: Place) {
        let Place { ip, port } = place;
        let address = socket_of(ip, Endpoint { port, scope: 0 });
        if let Ok(what) = format!(in self.alloc; "listening at {address}") {
            self.say_at(Level::Info, &what);
        }
    }
}

// The line of an ended session.
fn line_of(
    alloc: Global,
    end: &SessionEnd<'_>,
    facts: &Facts,
    mut line: Line,
) -> Result<Vec<u8>, Memory> {
    line.put_client(alloc, end.client)?;
    line.put_some(alloc, "user", end.user)?;
    line.put_text("host", end.host.as_bytes())?;
    line.put_number("port", u64::from(end.port))?;
    if let Some(request) = end.request {
        line.put_octets(alloc, "method", request.method)?;
        // The log has no paths of other servers, which may be private.
        if end.host.is_empty() {
            line.put_octets(alloc, "target", request.target)?;
        }
    }
    line.put_facts(facts)?;
    match end.result {
        Some(Ok(winner)) => line.put_winner(alloc, winner)?,
        Some(Err(ended)) => line.put_text("fault", fault_of(ended, facts).as_bytes())?,
        None => {}
    }
    line.put_tried(alloc, facts)?;
    line.put_ips(alloc, "ipv4", &facts.hosts)?;
    line.put_number("sent", end.sent)?;
    line.put_number("received", end.received)?;
    line.put_end(alloc, end.how)?;
    line.finish()
}

fn line_of_begun(
    alloc: Global,
    asked: &RaceAsked<'_>,
    began: &str,
    mut line: Line,
) -> Result<Vec<u8>, Memory> {
    line.put_client(alloc, asked.client)?;
    line.put_some(alloc, "user", asked.user)?;
    line.put_text("host", asked.host.as_bytes())?;
    line.put_number("port", u64::from(asked.port))?;
    line.put_some(alloc, "method", asked.method)?;
    line.put_text("begin", began.as_bytes())?;
    line.finish()
}

fn line_of_refused(
    alloc: Global,
    client: SocketAddr,
    end: &[u8],
    mut line: Line,
) -> Result<Vec<u8>, Memory> {
    line.put_client(alloc, client)?;
    line.put_text("end", end)?;
    line.finish()
}

// A line being written: `name=value name=value` or an object.
#[derive(Drop)]
struct Line {
    is_json: bool,
    text: Vec<u8>,
}

impl Line {
    fn put_client(&mut self, alloc: Global, client: SocketAddr) -> Result<(), Memory> {
        // An IPv4 client of an IPv6 socket is shown with its IPv4 address.
        let client = SocketAddr::new(client.ip().to_canonical(), client.port());
        self.put_text("client", format!(in alloc; "{client}")?.as_bytes())
    }

    // The octets, if there are any.
    fn put_some(&mut self, alloc: Global, name: &str, octets: Option<&[u8]>) -> Result<(), Memory> {
        match octets {
            Some(octets) => self.put_octets(alloc, name, octets),
            None => Ok(()),
        }
    }

    // Octets of a request as UTF-8 text, whatever they are.
    fn put_octets(&mut self, alloc: Global, name: &str, octets: &[u8]) -> Result<(), Memory> {
        let text = String::from_utf8_lossy(alloc, octets)?;
        self.put_text(name, text.as_bytes())
    }

    // When the race began, its record, and how long it had no address to try.
    fn put_facts(&mut self, facts: &Facts) -> Result<(), Memory> {
        if let Some(began) = &facts.began {
            self.put_text("start", began.as_bytes())?;
        }
        if let Some(record) = &facts.record {
            self.put_text("record", record.as_bytes())?;
        }
        if let Some(names) = facts.names {
            self.put_number("names", names)?;
        }
        Ok(())
    }

    fn put_winner(&mut self, alloc: Global, winner: Winner) -> Result<(), Memory> {
        let mut ip = Vec::new(alloc);
        write_ip(winner.ip, &mut ip)?;
        self.put_text("winner", ip.as_slice())?;
        self.put_number("ms", winner.ticks)?;
        self.put_number("lost", winner.lost)
    }

    // When a race was given up, and the addresses that were tried without a winner.
    fn put_tried(&mut self, alloc: Global, facts: &Facts) -> Result<(), Memory> {
        if let Some(tick) = facts.given_up {
            self.put_number("ms", tick)?;
        }
        self.put_ips(alloc, "tried", &facts.tried)
    }

    // The addresses, if there are any.
    fn put_ips(&mut self, alloc: Global, name: &str, ips: &[Ip]) -> Result<(), Memory> {
        if ips.is_empty() {
            return Ok(());
        }
        let mut text = Vec::new(alloc);
        for ip in ips {
            if !text.is_empty() {
                text.push(b',')?;
            }
            write_ip(*ip, &mut text)?;
        }
        self.put_text(name, text.as_slice())
    }

    fn put_end(&mut self, alloc: Global, how: Ending) -> Result<(), Memory> {
        self.put_text("end", format!(in alloc; "{how}")?.as_bytes())
    }

    fn put_text(&mut self, name: &str, value: &[u8]) -> Result<(), Memory> {
        self.put_name(name)?;
        write_value(self.is_json, value, &mut self.text)
    }

    fn put_number(&mut self, name: &str, value: u64) -> Result<(), Memory> {
        self.put_name(name)?;
        write_number(value, &mut self.text)
    }

    fn put_name(&mut self, name: &str) -> Result<(), Memory> {
        let is_first = self.text.is_empty();
        if self.is_json {
            self.text.push(if is_first { b'{' } else { b',' })?;
            write_string(name.as_bytes(), &mut self.text)?;
            self.text.push(b':')?;
            return Ok(());
        }
        if !is_first {
            self.text.push(b' ')?;
        }
        self.text.extend_from_slice(name.as_bytes())?;
        self.text.push(b'=')?;
        Ok(())
    }

    fn finish(self) -> Result<Vec<u8>, Memory> {
        let Line { is_json, mut text } = self;
        if is_json {
            text.push(b'}')?;
        }
        text.push(b'\n')?;
        Ok(text)
    }
}

// Appends a value: as a JSON string, or as it is if a text line allows.
fn write_value(is_json: bool, value: &[u8], text: &mut Vec<u8>) -> Result<(), Memory>
    ensures { OnOk result (text.new.items ≡ text.old.items ++ value_text is_json value.now) }
{
    if is_json || !is_bare(value) {
        return write_string(value, text);
    }
    text.extend_from_slice(value)?;
    Ok(())
}

// Whether a value needs no quotation marks: it has no space, quotation mark, backslash or control character.
fn is_bare(value: &[u8]) -> bool
    ensures { result ≡ list_all is_bare_byte value.now }
{
    value.iter().all(|byte| is_bare_byte(*byte))
}

fn is_bare_byte(byte: u8) -> bool
    ensures { result ≡ is_bare_byte byte }
{
    byte > b' ' && byte != b'"' && byte != b'\\' && byte != 127
}

// The word for the end of a session without a connection: that of its race, or of the refusal.
fn fault_of(ended: Ended, facts: &Facts) -> &'static str {
    if let Some(lost) = facts.lost {
        return lost.word();
    }
    match ended {
        Ended::Forbidden => "forbidden",
        Ended::NoUser => "no-user",
        Ended::NoNetwork => "no-network",
        Ended::NoHost => "no-address",
        Ended::Refused => "all-failed",
        Ended::TimedOut => "timed-out",
        Ended::Command => "command",
        Ended::Kind => "address-kind",
        Ended::Coding => "coding",
        Ended::Connected | Ended::Failed => "proxy-failed",
    }
}
