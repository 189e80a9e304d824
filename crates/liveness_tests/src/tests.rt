use crate::{build, is_live};
use code::Row;
use liveness::{Liveness, find_undefined, first_undefined};
use std::test::Fail;

fn constant(to: u16) -> Row {
    Row::Constant { to, value: [0; 8] }
}

fn negate(to: u16, first: u16) -> Row {
    Row::Operator {
        kind: 16,
        to,
        first,
        second: None,
        constant: None,
    }
}

// What a loop reads stays live around it.
#[test]
fn around_a_loop(rt: HostRuntime) -> Result<(), Fail> {
    let back = Row::Branch { on: 33, target: 1 };
    let rows = [
        constant(32),
        negate(33, 32),
        back,
        Row::Give { from: 33 },
        Row::End,
    ];
    let code = build(&rows)?;
    assert!(rt; is_live(&Liveness::of(&code), &[(1, 32), (2, 32), (2, 33), (3, 33)]));
    assert_eq!(rt; first_undefined(&code), None);
    Ok(())
}

// The value 33 is set and never read, so it is live nowhere.
#[test]
fn dead_value(rt: HostRuntime) -> Result<(), Fail> {
    let on = Row::Branch { on: 32, target: 4 };
    let rows = [
        constant(32),
        constant(33),
        on,
        Row::Give { from: 32 },
        Row::End,
    ];
    let code = build(&rows)?;
    let found = Liveness::of(&code);
    assert!(rt; is_live(&found, &[(1, 32), (2, 32), (3, 32)]));
    assert!(rt; found.after(2).contains(32) & !found.after(1).contains(33));
    Ok(())
}

// A row that cannot be reached is a row like any other, and does not matter for the first row.
#[test]
fn unreachable_row(rt: HostRuntime) -> Result<(), Fail> {
    let rows = [Row::Jump { target: 2 }, Row::Give { from: 40 }, Row::End];
    let code = build(&rows)?;
    assert!(rt; is_live(&Liveness::of(&code), &[(1, 40)]));
    assert_eq!(rt; first_undefined(&code), None);
    Ok(())
}

// A load sets, a store reads, and a row reads before it sets; registers may be live at the start.
#[test]
fn slots_and_registers(rt: HostRuntime) -> Result<(), Fail> {
    let rows = [
        Row::Load { to: 32, slot: 0 },
        negate(32, 32),
        Row::Store { from: 32, slot: 1 },
        Row::Move { to: 33, from: 5 },
        Row::End,
    ];
    let code = build(&rows)?;
    assert!(rt;
        is_live(
            &Liveness::of(&code),
            &[(0, 5), (1, 5), (2, 5), (3, 5), (1, 32), (2, 32)],
        )
    );
    assert_eq!(rt; first_undefined(&code), None);
    Ok(())
}

// The value 33 is set on one way only; the other is the shortest to its reader.
#[test]
fn set_on_one_way(rt: HostRuntime) -> Result<(), Fail> {
    let over = Row::Branch { on: 32, target: 3 };
    let rows = [
        constant(32),
        over,
        constant(33),
        Row::Give { from: 33 },
        Row::End,
    ];
    let code = build(&rows)?;
    let mut way = [0; 512];
    let found = find_undefined(&code, &mut way).ok_or("all is defined")?;
    assert!(rt; (found.value == 33) & (found.rows == 3));
    assert!(rt; (way[0] == 0) & (way[1] == 1) & (way[2] == 3));
    Ok(())
}
