use crate::samples::*;
use instruction::tables::*;
use model::models::{Model, check};

// A new place holds a single stop; a pass fills it, and a refusal leaves what was there.
#[test]
fn fills_and_keeps(rt: HostRuntime) {
    let three = [stop(at(0, 0)), stop(at(0, 1)), stop(at(1, 0))];
    let none: [Instruction; 0] = [];
    let mut place = Model::new();
    assert_eq!(rt; place.tables().instructions.len(), 1);
    assert!(rt; check(&mut place, tables(&[8], &[], &three)).is_ok());
    assert_eq!(rt; place.tables().instructions.len(), 3);
    assert!(rt; check(&mut place, tables(&[], &[], &none)).is_err());
    assert_eq!(rt; place.tables().instructions.len(), 3);
    assert_eq!(rt; place.tables().widths.len(), 1);
}

#[test]
fn lookups(rt: HostRuntime) {
    let five = [
        stop(at(0, 0)),
        stop(at(0, 3)),
        stop(at(4, 0)),
        stop(at(4, 255)),
        stop(at(9, 7)),
    ];
    let mut place = Model::new();
    assert!(rt; check(&mut place, tables(&[], &[], &five)).is_ok());
    assert_eq!(rt; place.find(at(0, 0)), Some(0));
    assert_eq!(rt; place.find(at(4, 255)), Some(3));
    assert_eq!(rt; place.find(at(9, 7)), Some(4));
    assert_eq!(rt; place.find(at(4, 1)), None);
    assert!(rt; place.has(at(0, 3)));
    assert!(rt; !place.has(at(10, 0)));
    assert!(rt; place.instruction_at(at(4, 0)).is_some());
    assert!(rt; place.instruction_at(at(3, 0)).is_none());
}
