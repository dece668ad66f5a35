//! Commands that are not valid.

use crate::same::holds;
use crate::scripts::{add_command, delete_command, reserve_command};
use std::alloc::Global;
use vac_model::Kind::{Car, Flight};
use vac_model::{Command, Task};
use vac_sequential::Sequential;

const OUT_OF_RANGE: [Command; 6] = [
    delete_command!(Flight, 2, 1),
    Command::Free { kind: Car, id: 0 },
    add_command!(Car, 1, 1_000_001, Some(1)),
    add_command!(Car, 1, 1, Some(1_000_001)),
    reserve_command!(3, Car, 7, 0),
    reserve_command!(3, Car, 7, 101),
];

#[test]
fn arguments(rt: HostRuntime) {
    holds(&rt, Sequential::new(rt.alloc(), 0).is_err());
    holds(&rt, Sequential::new(rt.alloc(), 262_145).is_err());
    let mut manager = Sequential::new(rt.alloc(), 262_144).expect(&rt, "the blocks are in range");
    for command in OUT_OF_RANGE {
        let is_refused = manager.run(&Task::One(command)).is_err();
        assert!(rt; is_refused, "at {command:?}");
    }
    let none = Task::trip(rt.alloc(), 3, &[]).expect(&rt, "there is memory");
    let many = Task::trip(rt.alloc(), 3, &[(Car, 1); 33]).expect(&rt, "there is memory");
    let change = Command::Free { kind: Car, id: 1 };
    let other = Task::update(rt.alloc(), &[change]).expect(&rt, "there is memory");
    for task in [none, many, other] {
        holds(&rt, manager.run(&task).is_err());
    }
}
