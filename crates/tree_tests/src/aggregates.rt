//! What is tested of `measure_agg`.
use dim_hierarchy::{Coord, Row};
use measure_agg::Agg;

/// A row with this measure.
fn row(no: u64, measures: i64) -> Row {
    let at = Coord::default();
    Row { no, at, measures }
}

#[test]
fn aggregates_rows(rt: HostRuntime) {
    let ends = [row(0, i64::MIN), row(1, i64::MAX)];
    let three = [row(0, 5), row(1, -7), row(2, 5)];
    let cases: [(&[Row], u64, i128, Option<i64>, Option<i64>); 3] = [
        (&[], 0, 0, None, None),
        (&ends, 2, -1, Some(i64::MIN), Some(i64::MAX)),
        (&three, 3, 3, Some(-7), Some(5)),
    ];
    for (rows, count, sum, least, greatest) in &cases {
        let agg = Agg::of_rows(*rows);
        assert_eq!(rt; agg.count(), *count);
        assert_eq!(rt; agg.sum(), *sum);
        assert_eq!(rt; agg.least(), *least);
        assert_eq!(rt; agg.greatest(), *greatest);
    }
}

#[test]
fn joins_nothing(rt: HostRuntime) {
    let agg = Agg::one(-7);
    assert_eq!(rt; agg.join(&Agg::EMPTY), agg);
    assert_eq!(rt; Agg::EMPTY.join(&agg), agg);
    assert_ne!(rt; agg, Agg::EMPTY);
    assert_ne!(rt; agg.join(&agg), agg);
}
