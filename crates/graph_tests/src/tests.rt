use super::{differences, fill, piled_answers};
use edges::edge_table::EdgeTable;
use graph::Graph;
use graph::class::Class;
use graph::store::Store;
use matrix::bit_matrix::BitMatrix;
use piles::looks::Looks;
use std::array;
use std::test::Fail;
use views::merge_table::MergeTable;

#[test]
fn matrix_agrees_with_a_list(rt: HostRuntime) -> Result<(), Fail> {
    let mut memory = [255u8; 100];
    let mut matrix = BitMatrix::try_open(40, &mut memory).map_err(|_| Fail::new("no room"))?;
    assert_eq!(rt; fill(&mut matrix), 0);
    assert_eq!(rt; differences(&matrix, 42), 0);
    assert_eq!(rt; matrix.next(39, 6), Some(38));
    assert_eq!(rt; matrix.next(7, 2), Some(2));
    assert_eq!(rt; matrix.next(1, 3), Some(7));
    assert!(rt; matrix.join(3, 40).is_err());
    let matrix = matrix.reopen(32);
    assert_eq!(rt; matrix.size(), 32);
    assert_eq!(rt; matrix.degree(7), 0);
    Ok(())
}

#[test]
fn table_agrees_with_a_list(rt: HostRuntime) -> Result<(), Fail> {
    let mut memory = [9u32; 16];
    let mut table = EdgeTable::try_open(40, &mut memory).map_err(|_| Fail::new("no room"))?;
    assert_eq!(rt; fill(&mut table), 0);
    assert_eq!(rt; differences(&table, 42), 0);
    assert_eq!(rt; table.next(39, 6), Some(38));
    assert!(rt; table.join(3, 4).is_err());
    assert!(rt; table.join(39, 0).is_ok());
    let table = table.reopen(32);
    assert_eq!(rt; table.size(), 32);
    assert_eq!(rt; table.degree(7), 0);
    Ok(())
}

#[test]
fn memory_behind_stays(rt: HostRuntime) -> Result<(), Fail> {
    let mut memory = [255u8; 100];
    {
        let mut matrix = BitMatrix::try_open(40, &mut memory).map_err(|_| Fail::new("no room"))?;
        assert!(rt; matrix.join(39, 38).is_ok());
    }
    assert_eq!(rt; memory[97], 8);
    assert_eq!(rt; memory[98], 255);
    assert_eq!(rt; memory[0], 0);
    Ok(())
}

// Numbers from 32 on and 0 to 7 are of one class, 0 to 2 are fixed, 34 is in the group of 33, 38 is taken away.
fn looks() -> Looks {
    Looks {
        classes: array::from_fn(|v| ((v < 8) | (v >= 32)).then_some(Class::Zero)),
        chosen: Class::Zero,
        fixed: array::from_fn(|v| v < 3),
        table: MergeTable::new().merge(33, 34),
        gone: array::from_fn(|v| v == 38),
    }
}

fn asked(u: usize, v: usize) -> Result<(bool, usize), Fail> {
    let mut memory = [255u8; 100];
    let matrix = BitMatrix::try_open(40, &mut memory).map_err(|_| Fail::new("no room"))?;
    Ok(piled_answers(matrix, looks(), u, v))
}

#[test]
fn pile_agrees_with_a_list(rt: HostRuntime) -> Result<(), Fail> {
    assert_eq!(rt; asked(0, 39)?, (true, 3));
    assert_eq!(rt; asked(0, 2)?, (true, 3));
    assert_eq!(rt; asked(39, 38)?, (false, 2));
    assert_eq!(rt; asked(16, 33)?, (false, 0));
    assert_eq!(rt; asked(33, 34)?, (false, 0));
    assert_eq!(rt; asked(7, 1)?, (true, 2));
    Ok(())
}
