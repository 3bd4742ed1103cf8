// A race's record: for whom, where and when it was recorded, and what its client did.

ghost use Rattle.std.specs.Prelude.{◌≡◌, ◌++◌, length, map, OnOk};
ghost use Rattle.std.specs.List.{flat_map};
ghost use Rattle.he_record.specs.Left.{said_of, target_shown};
ghost use Rattle.he_record.specs.declared.moment.TheConstants.{MOMENT_LEN};
ghost use Rattle.he_story.specs.Lines.{told};
ghost use Rattle.he_story.specs.Recorded.{because_facts, byte_facts, client_address_facts, client_facts, course_said, moment_facts, named_facts, note_facts, reason_at, target_facts, time_facts, unseen_reason, why_facts};

use crate::story::Story;
use he_addr::{Family, Ip, Memory};
use he_course::Seen;
use he_plan::Line;
use he_print::{Part, push_parts};
use he_record::{AttemptReason, ClientEnd, LookupReason, Moment, Record, RecordLine};
use he_statements::Said;
use std::alloc::Allocator;

// Words that separate a statement from those before it, if there are any.
fn after(is_first: bool, words: &'static [u8]) -> &'static [u8] {
    if is_first { b"" } else { words }
}

// An address with colons is in brackets, so that the port is told from it.
fn brackets(host: &[u8]) -> (&'static [u8], &'static [u8]) {
    if host.contains(&b':') {
        (b"[", b"]:")
    } else {
        (b"", b":")
    }
}

// The title of the events: after a client's own result, these are the race's by the rules.
pub(crate) fn course_said(end: Option<ClientEnd>) -> Said
    ensures { result ≡ course_said end }
{
    match end {
        None => Said::Course,
        Some(_) => Said::CourseByRules,
    }
}

// The reason that the attempt of this place failed.
pub(crate) fn reason_at<A: Allocator>(
    recorded: &Record<'_, A>,
    lines: &[Line],
    place: usize,
) -> Option<AttemptReason>
    ensures { result ≡ reason_at recorded.now lines.now place }
{
    match lines.get(place) {
        Some(line) => recorded.attempt(line.ip),
        None => None,
    }
}

// The reason of a family whose answer a race that ended at `end` did not see.
pub(crate) fn unseen_reason<A: Allocator>(
    recorded: &Record<'_, A>,
    end: u64,
    family: Family,
    seen: Option<Seen>,
) -> Option<LookupReason>
    ensures { result ≡ unseen_reason recorded.now end family seen }
{
    match seen {
        None => recorded.lookup(family),
        Some(seen) if end < seen.tick => recorded.lookup(family),
        Some(_) => None,
    }
}

impl<A: Allocator> Story<A> {
    pub(crate) fn tell_bytes(&mut self, bytes: &[u8]) -> Result<(), Memory>
        ensures { OnOk result (told self.new ≡ told self.old ++ byte_facts bytes.now) }
    {
        for byte in bytes {
            push_parts(&[Part::Byte(*byte)], &mut self.parts)?;
        }
        Ok(())
    }

    fn tell_target(&mut self, target: Option<(&[u8], u16)>) -> Result<(), Memory>
        ensures { OnOk result (told self.new ≡ told self.old ++ target_facts (target_shown target.entry)) }
    {
        let Some(target) = target else {
            return Ok(());
        };
        let (opening, closing) = brackets(target.0);
        push_parts(&[Part::Says(Said::Target, opening)], &mut self.parts)?;
        self.tell_bytes(target.0)?;
        push_parts(
            &[Part::Words(closing), Part::Number(target.1 as u64)],
            &mut self.parts,
        )
    }

    fn tell_client_address(&mut self, before: &'static [u8], from: Option<Ip>) -> Result<(), Memory>
        ensures { OnOk result (told self.new ≡ told self.old ++ client_address_facts from) }
    {
        match from {
            Some(ip) => self.tell(Said::For, &[Part::Words(before), Part::Ip(ip)]),
            None => Ok(()),
        }
    }

    // The date and the time of day of the text of a moment.
    fn tell_time(&mut self, before: &'static [u8], text: &[u8]) -> Result<(), Memory>
        requires { length text.now ≡ MOMENT_LEN }
        ensures { OnOk result (told self.new ≡ told self.old ++ time_facts text.now) }
    {
        push_parts(&[Part::Says(Said::Moment, before)], &mut self.parts)?;
        self.tell_bytes(&text[..10])?;
        push_parts(&[Part::Words(b" ")], &mut self.parts)?;
        self.tell_bytes(&text[11..19])?;
        push_parts(&[Part::Words(b"Z")], &mut self.parts)
    }

    fn tell_moment(&mut self, before: &'static [u8], at: Option<Moment>) -> Result<(), Memory>
        ensures { OnOk result (told self.new ≡ told self.old ++ moment_facts at) }
    {
        match at {
            Some(moment) => self.tell_time(before, moment.text().as_slice()),
            None => Ok(()),
        }
    }

    // The host, the client and the time.
    pub(crate) fn tell_named<B: Allocator>(
        &mut self,
        recorded: &Record<'_, B>,
    ) -> Result<(), Memory>
        ensures { OnOk result (told self.new ≡ told self.old ++ named_facts recorded.now) }
    {
        let first = self.parts.len();
        self.tell_target(recorded.to())?;
        let before = after(self.parts.len() == first, b" ");
        self.tell_client_address(before, recorded.from())?;
        let before = after(self.parts.len() == first, b", ");
        self.tell_moment(before, recorded.at())
    }

    // The recorded client's own result.
    pub(crate) fn tell_client(&mut self, end: Option<ClientEnd>) -> Result<(), Memory>
        ensures { OnOk result (told self.new ≡ told self.old ++ client_facts end) }
    {
        let Some(end) = end else {
            return Ok(());
        };
        let said = match end {
            ClientEnd::Connected(_) => Said::ClientConnected,
            ClientEnd::GaveUp(_) => Said::ClientGaveUp,
            ClientEnd::Failed(_) => Said::ClientFailed,
        };
        self.tell(said, &[Part::Number(end.ticks())])?;
        self.tell(Said::ByRules, &[])
    }

    // The reason that a family has no address.
    pub(crate) fn tell_why(&mut self, reason: Option<LookupReason>) -> Result<(), Memory>
        ensures { OnOk result (told self.new ≡ told self.old ++ why_facts reason) }
    {
        match reason {
            Some(reason) => self.tell(Said::Why(reason), &[]),
            None => Ok(()),
        }
    }

    // The reason that an attempt failed.
    pub(crate) fn tell_because(&mut self, reason: Option<AttemptReason>) -> Result<(), Memory>
        ensures { OnOk result (told self.new ≡ told self.old ++ because_facts reason) }
    {
        match reason {
            Some(reason) => self.tell(Said::Because(reason), &[]),
            None => Ok(()),
        }
    }

    // A NAT64 prefix of the network, a name server that was given up, or an address that no client tried.
    fn tell_note(&mut self, line: RecordLine<'_>) -> Result<(), Memory>
        ensures { OnOk result (told self.new ≡ told self.old ++ note_facts (said_of line.entry)) }
    {
        match line {
            RecordLine::Server(ip, reason, ticks) => {
                self.tell(Said::Server(reason), &[Part::Ip(ip), Part::Number(ticks)])
            }
            RecordLine::Nat64(prefix) => {
                let parts = [
                    Part::Ip(Ip::V6(prefix.bits)),
                    Part::Number(u64::from(prefix.len)),
                ];
                self.tell(Said::Nat64Prefix, &parts)
            }
            RecordLine::Untried(ip) => self.tell(Said::NobodyTried, &[Part::Ip(ip)]),
            _ => Ok(()),
        }
    }

    pub(crate) fn tell_notes(&mut self, lines: &[RecordLine<'_>]) -> Result<(), Memory>
        ensures { OnOk result (told self.new ≡ told self.old ++ flat_map note_facts (map said_of lines.now)) }
    {
        for line in lines {
            self.tell_note(*line)?;
        }
        Ok(())
    }
}
