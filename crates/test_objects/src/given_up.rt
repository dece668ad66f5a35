//! A desk that gives its trips up, because another client holds the locks of all items.
ghost use Rattle.std.specs.Prelude.{◌≡◌, true};
ghost use Rattle.ex_desk.specs.Desks.{MayServe};
ghost use Rattle.ex_desk.specs.Setting.{is_desk_settings};

use ex_desk::{Desk, DeskFault, DeskSettings, Served, serve};
use std::alloc::{AllocError, Global};
use std::process::Abort;
use std::test::Fail;
use stm_attempt::{Gate, Point};
use vac_manager::{CallStatistics, Caller, Manager, PlacedReply, Untraced, call, trace_call};
use vac_model::Kind::{Car, Flight, Room};
use vac_model::{Command, Kind, Reply, Report, Task};

/// Settings in which each trip has sixteen attempts.
const SETTINGS: DeskSettings = DeskSettings {
    blocks: 100,
    last: (1 << 62) - 1,
    units: 10,
    trips: 3,
    tries: 16,
    rounds: 1,
};

/// A desk that has issued no trip yet, with its client.
#[derive(Drop)]
struct Waiting<'a> {
    settings: DeskSettings,
    caller: Caller<'a>,
    desk: Desk,
    ghost in_range: { is_desk_settings settings ≡ true },
    ghost may: { MayServe settings desk },
}

/// A gate that serves a desk, once, when the locks are held.
#[derive(Drop)]
struct ServesAtLocked<'a> {
    alloc: Global,
    waiting: Option<Waiting<'a>>,
    served: Option<Result<Served, DeskFault>>,
}

impl<'a> Gate for ServesAtLocked<'a> {
    fn at(&mut self, point: Point) {
        if point == Point::Locked
            && let Some(
                Waiting {
                    settings,
                    caller,
                    desk,
                },
            ) = self.waiting.take()
        {
            self.served = Some(serve(self.alloc, settings, caller, desk));
        }
    }
}

/// Returns a task that adds units of each item that a desk books.
fn units_of_all(alloc: Global, num: u32) -> Result<Task, AllocError> {
    let changes = [
        add(Car, 1, num),
        add(Car, 2, num),
        add(Flight, 1, num),
        add(Flight, 2, num),
        add(Room, 1, num),
        add(Room, 2, num),
    ];
    Task::update(alloc, &changes)
}

fn add(kind: Kind, id: u32, num: u32) -> Command {
    Command::Add {
        kind,
        id,
        num,
        price: Some(50),
    }
}

fn new_desk(number: u32) -> Desk
    ensures { result ≡ record { number = number; booked = 0; given_up = 0 } }
{
    Desk {
        number,
        booked: 0,
        given_up: 0,
    }
}

/// Serves a desk while the call of this task holds its locks, and another desk afterwards.
fn serve_two(
    rt: &impl Abort,
    alloc: Global,
    mut caller: Caller<'_>,
    stock: &Task,
    more: &Task,
) -> (Desk, Desk, Option<Reply>) {
    let first = caller.split().expect(rt, "there are grants");
    let second = caller.split().expect(rt, "there are grants");
    call(&mut caller, stock, 1).expect(rt, "there is memory");
    let mut gate = ServesAtLocked {
        alloc,
        waiting: Some(Waiting {
            settings: SETTINGS,
            caller: first,
            desk: new_desk(1),
        }),
        served: None,
    };
    let mut statistics = CallStatistics::new();
    let placed = trace_call(
        &mut caller,
        more,
        1,
        &mut gate,
        &mut Untraced,
        &mut statistics,
    );
    let PlacedReply { reply: _, place: _ } = placed.expect(rt, "it commits");
    let served = gate.served.expect(rt, "the locks were held");
    let given_up = served.expect(rt, "there is memory").desk;
    let served = serve(alloc, SETTINGS, second, new_desk(2));
    let booked = served.expect(rt, "there is memory").desk;
    let report = call(&mut caller, &Task::One(Command::Audit), 1).ok();
    (given_up, booked, report)
}

/// Lets all attempts of the call for each trip find the locks held. Once the locks are
/// released, another desk books all of its trips.
#[test]
fn a_desk_gives_up_what_others_hold(rt: HostRuntime) -> Result<(), Fail> {
    let alloc = rt.alloc();
    let (stock, more) = (units_of_all(alloc, 10)?, units_of_all(alloc, 1)?);
    let opened = Manager::new(alloc, SETTINGS.blocks, SETTINGS.last);
    let (given_up, booked, report) = {
        let (manager, client) = opened.expect(&rt, "it opens");
        serve_two(&rt, alloc, manager.caller(client), &stock, &more)
    };
    assert_eq!(rt;
        given_up,
        Desk {
            number: 1,
            booked: 0,
            given_up: 3
        }
    );
    assert_eq!(rt;
        booked,
        Desk {
            number: 2,
            booked: 3,
            given_up: 0
        }
    );
    let wanted = Report {
        cars: 2,
        flights: 2,
        rooms: 2,
        customers: 3,
        bookings: 9,
        used: 9,
        free: 57,
        total: 66,
        billed: 450,
    };
    assert_eq!(rt; report, Some(Reply::Report(wanted)));
    Ok(())
}
