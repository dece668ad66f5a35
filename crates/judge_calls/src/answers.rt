//! The numbers of a reply fit the widths of their types. The prover knows the range of a value
//! once the code has read the value: these functions read, and do nothing else.

ghost use Rattle.std.specs.Prelude.{◌≤◌, All, length};
ghost use Rattle.judge_calls.specs.CallText.{IsPick, IsReply};

use vac_model::limits::MOST_PARTS;
use vac_model::{Pick, Refusal, Reply, Report, TripReply, UpdateReply};

/// Reads the id of a pick, so that the prover knows its range.
fn read_pick(pick: Option<Pick>)
    ensures { IsPick pick }
{
    if let Some(pick) = pick {
        let _id = pick.id;
    }
}

/// Reads the ids of all picks of a trip.
fn read_trip(trip: &TripReply)
    ensures { All IsPick trip.now.picks }
{
    read_pick(trip.picks[0]);
    read_pick(trip.picks[1]);
    read_pick(trip.picks[2]);
}

/// Reads the numbers of a report, so that the prover knows their ranges.
fn read_report(report: Report)
    ensures { IsReply (Reply.Report report) }
{
    let _entries = (report.cars, report.flights, report.rooms);
    let _booked = (report.customers, report.bookings, report.used);
    let _sums = (report.free, report.total, report.billed);
}

/// Reads the number of changes for which an update has room.
fn read_room(refused: [Option<Refusal>; MOST_PARTS])
    ensures { length refused ≤ MOST_PARTS }
{
    let _room = refused.as_slice().len();
}

/// Reads the number of changes for which the reply of an update has room.
fn read_update(update: &UpdateReply)
    ensures { IsReply (Reply.Update update.now) }
{
    read_room(update.refused);
}

/// States that the numbers of a reply fit the widths of their types, as the laws on written lines
/// require. The function only reads.
pub fn numbers_of_a_reply(reply: &Reply)
    ensures { IsReply reply.now }
{
    match reply {
        Reply::Number(Some(number)) => {
            let _number = *number;
        }
        Reply::Report(report) => read_report(*report),
        Reply::Trip(trip) => read_trip(trip),
        Reply::Update(update) => read_update(update),
        _ => {}
    }
}
