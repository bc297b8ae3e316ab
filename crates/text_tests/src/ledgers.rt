//! What is tested of `row_ledger`.
use row_ledger::{Event, History, Ledger};
use std::test::Fail;

#[test]
fn a_ledger_keeps_events_in_order(rt: HostRuntime) -> Result<(), Fail> {
    let mut ledger = Ledger::new(rt.alloc());
    ledger.reserve(2)?;
    ledger.reserve(1)?;
    ledger.push(Event::Failed { of: 7 });
    ledger.push(Event::Failed { of: 8 });
    ledger.cancel(1);
    assert_eq!(rt; ledger.len(), 2);
    assert!(rt; matches!(ledger.events()[0], Event::Failed { of: 7 }));

    let history = ledger.history();
    assert_eq!(rt; history.len(), 2);
    assert!(rt; matches!(history.get(1), Event::Failed { of: 8 }));
    Ok(())
}

#[test]
fn a_history_keeps_events_in_order(rt: HostRuntime) -> Result<(), Fail> {
    let mut history = History::new(rt.alloc());
    assert!(rt; history.is_empty());
    history.push(Event::Failed { of: 7 })?;
    history.push(Event::Failed { of: 8 })?;
    assert!(rt; matches!(history.get(0), Event::Failed { of: 7 }));
    assert!(rt; matches!(history.events()[1], Event::Failed { of: 8 }));
    Ok(())
}
