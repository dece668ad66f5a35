//! The texts of replies, without a line end.

ghost use Rattle.std.specs.Prelude.{◌≡◌, Some};
ghost use Rattle.vac_model.specs.ReplyText.{why_name, done_text, pick_text};
ghost use Rattle.vac_model.specs.ReplyText.{entries_text, booked_text, sums_text, report_text};
ghost use Rattle.vac_model.specs.ReplyText.{joined_text, trip_text, update_text, reply_text};

use crate::commands::Refusal;
use crate::replies::{CustomerOutcome, Pick, Reply, Report, TripReply, UpdateReply};
use std::fmt;
use std::fmt::{Display, Formatter};

impl Refusal {
    /// Returns the name of the refusal.
    pub fn name(self) -> &'static str
        ensures { result.now ≡ why_name self }
    {
        match self {
            Refusal::NeedsCountAndPrice => "needs-count-and-price",
            Refusal::TotalLimit => "total-limit",
            Refusal::Full => "full",
            Refusal::NoItem => "no-item",
            Refusal::NotFree => "not-free",
            Refusal::InUse => "in-use",
            Refusal::Exists => "exists",
            Refusal::NoCustomer => "no-customer",
            Refusal::SoldOut => "sold-out",
            Refusal::NotBooked => "not-booked",
            Refusal::UnitLimit => "unit-limit",
        }
    }
}

/// The name of the refusal.
impl Display for Refusal {
    ghost output = { λ why. Some (why_name why) };

    fn fmt<W: fmt::Write>(&self, f: &mut Formatter<W>) -> fmt::Result {
        write!(f, "{}", self.name())
    }
}

/// The outcome of a change: `true`, or the name of its refusal.
#[derive(Clone, Copy)]
struct ChangeOutcome {
    refused: Option<Refusal>,
}

impl Display for ChangeOutcome {
    ghost output = { λ change. Some (done_text change.refused) };

    fn fmt<W: fmt::Write>(&self, f: &mut Formatter<W>) -> fmt::Result {
        match self.refused {
            None => write!(f, "true"),
            Some(why) => write!(f, "{why}"),
        }
    }
}

/// A trip's pick of one kind, with its result, or `-` for none.
#[derive(Clone, Copy)]
struct PickText {
    pick: Option<Pick>,
}

impl Display for PickText {
    ghost output = { λ kind. Some (pick_text kind.pick) };

    fn fmt<W: fmt::Write>(&self, f: &mut Formatter<W>) -> fmt::Result {
        match self.pick {
            None => write!(f, "-"),
            Some(Pick { id, refused, .. }) => write!(f, "{id}:{}", ChangeOutcome { refused }),
        }
    }
}

/// `-` if no customer was asked for, `true` if one was added, or the name of a refusal.
impl Display for CustomerOutcome {
    ghost output = { λ joined. Some (joined_text joined) };

    fn fmt<W: fmt::Write>(&self, f: &mut Formatter<W>) -> fmt::Result {
        match self {
            CustomerOutcome::NotAsked => write!(f, "-"),
            CustomerOutcome::Added => write!(f, "true"),
            CustomerOutcome::Refused(why) => write!(f, "{why}"),
        }
    }
}

/// The outcome for the customer, then the pick of each kind, in one line without its end.
impl Display for TripReply {
    ghost output = { λ trip. Some (trip_text trip) };

    fn fmt<W: fmt::Write>(&self, f: &mut Formatter<W>) -> fmt::Result {
        let [car, flight, room] = self.picks;
        write!(
            f,
            "trip cust={} car={} flight={} room={}",
            self.joined,
            PickText { pick: car },
            PickText { pick: flight },
            PickText { pick: room },
        )
    }
}

/// The outcome of each change, in one line without its end.
impl Display for UpdateReply {
    ghost output = { λ update. Some (update_text update) };

    fn fmt<W: fmt::Write>(&self, f: &mut Formatter<W>) -> fmt::Result {
        write!(f, "update")?;
        let refused = self.refused.as_slice();
        for refused in &refused[..usize::from(self.len).min(refused.len())] {
            write!(f, " {}", ChangeOutcome { refused: *refused })?;
        }
        Ok(())
    }
}

/// The numbers of entries of the tables of items, as a report has them.
#[derive(Clone, Copy)]
struct Entries<'a> {
    report: &'a Report,
}

impl Display for Entries<'_> {
    ghost output = { λ entries. Some (entries_text entries.report.now) };

    fn fmt<W: fmt::Write>(&self, f: &mut Formatter<W>) -> fmt::Result {
        let (cars, flights, rooms) = (self.report.cars, self.report.flights, self.report.rooms);
        write!(f, "cars={cars} flights={flights} rooms={rooms}")
    }
}

/// The numbers of customers, of booked units and of used units, as a report has them.
#[derive(Clone, Copy)]
struct Booked<'a> {
    report: &'a Report,
}

impl Display for Booked<'_> {
    ghost output = { λ booked. Some (booked_text booked.report.now) };

    fn fmt<W: fmt::Write>(&self, f: &mut Formatter<W>) -> fmt::Result {
        let (customers, bookings) = (self.report.customers, self.report.bookings);
        let used = self.report.used;
        write!(f, " customers={customers} bookings={bookings} used={used}")
    }
}

/// The free units, the total units and the bills, as a report has them.
#[derive(Clone, Copy)]
struct Sums<'a> {
    report: &'a Report,
}

impl Display for Sums<'_> {
    ghost output = { λ sums. Some (sums_text sums.report.now) };

    fn fmt<W: fmt::Write>(&self, f: &mut Formatter<W>) -> fmt::Result {
        let (free, total, billed) = (self.report.free, self.report.total, self.report.billed);
        write!(f, " free={free} total={total} billed={billed}")
    }
}

/// Each number behind its name, in one line without its end.
impl Display for Report {
    ghost output = { λ report. Some (report_text report) };

    fn fmt<W: fmt::Write>(&self, f: &mut Formatter<W>) -> fmt::Result {
        let report = self;
        write!(
            f,
            "{}{}{}",
            Entries { report },
            Booked { report },
            Sums { report }
        )
    }
}

/// The reply as a script writes it, without a line end.
impl Display for Reply {
    ghost output = { λ reply. Some (reply_text reply) };

    fn fmt<W: fmt::Write>(&self, f: &mut Formatter<W>) -> fmt::Result {
        match self {
            Reply::Done => write!(f, "true"),
            Reply::Number(None) => write!(f, "-1"),
            Reply::Number(Some(number)) => write!(f, "{number}"),
            Reply::Report(report) => write!(f, "{report}"),
            Reply::No(why) => write!(f, "false {why}"),
            Reply::Trip(trip) => write!(f, "{trip}"),
            Reply::Update(update) => write!(f, "{update}"),
        }
    }
}
