//! What is tested of `cell_stock`.
use cell_stock::{Purse, Spare, Stock, laws};
use std::test::Fail;

#[test]
fn takes_and_gives(rt: HostRuntime) -> Result<(), Fail> {
    laws();
    let mut stock = Stock::new(rt.alloc(), 64)?;
    let mut purse = Purse::new(rt.alloc());
    purse.reserve(4)?;
    assert_eq!(rt; stock.free(), 64);

    let Some(()) = stock.take(4, &mut purse) else {
        return Err("four cells".into());
    };
    assert_eq!(rt; (stock.free(), stock.stamps(), purse.len()), (60, 4, 4));
    stock.give(&mut purse);
    assert_eq!(rt; (stock.free(), stock.stamps(), purse.len()), (64, 4, 0));

    stock.take(2, &mut purse).ok_or("two cells")?;
    assert_eq!(rt; purse.next(), Spare { cell: 63, stamp: 5 });
    assert_eq!(rt; purse.next(), Spare { cell: 62, stamp: 4 });
    Ok(())
}

#[test]
fn refuses_more_than_are_free(rt: HostRuntime) -> Result<(), Fail> {
    let mut stock = Stock::new(rt.alloc(), 3)?;
    let mut purse = Purse::new(rt.alloc());
    purse.reserve(4)?;
    assert!(rt; stock.take(4, &mut purse).is_none());
    assert_eq!(rt; (stock.free(), stock.stamps(), purse.len()), (3, 0, 0));
    assert!(rt; stock.take(3, &mut purse).is_some());
    assert!(rt; stock.take(1, &mut purse).is_none());
    Ok(())
}

#[test]
fn numbers_shards(rt: HostRuntime) -> Result<(), Fail> {
    let mut stock = Stock::new(rt.alloc(), 1)?;
    assert_eq!(rt; stock.shard_ids(2), 0);
    assert_eq!(rt; stock.shard_ids(1), 2);
    assert_eq!(rt; stock.shard_ids(0), 3);
    Ok(())
}

#[test]
fn cells_before_the_first_one_are_never_free(rt: HostRuntime) -> Result<(), Fail> {
    let mut stock = Stock::over(rt.alloc(), 5, 8)?;
    let mut purse = Purse::new(rt.alloc());
    purse.reserve(4)?;
    assert!(rt; stock.take(4, &mut purse).is_none());
    assert!(rt; stock.take(3, &mut purse).is_some());
    assert_eq!(rt; purse.next(), Spare { cell: 7, stamp: 2 });
    assert_eq!(rt; purse.next(), Spare { cell: 6, stamp: 1 });
    assert_eq!(rt; purse.next(), Spare { cell: 5, stamp: 0 });
    Ok(())
}
