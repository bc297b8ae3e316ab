//! What is tested of `volap_gen`.
use script_form::read_script;
use std::test::Fail;
use volap_gen::{generate, generated_is_a_script};

#[test]
fn begins_and_ends_as_said(rt: HostRuntime) -> Result<(), Fail> {
    const PARTS: [&str; 6] = [
        "volap,1\nuse,4,4,2,16384\ndim,date,3\ndim,store,3\ndim,product,3\nconcept,date,y0,*\nconcept,date,y0m0,y0\nconcept,date,y0m0d0,y0m0\n",
        "concept,date,y0m0d27,y0m0\nconcept,date,y0m1,y0\nconcept,date,y0m1d0,y0m1\n",
        "concept,date,y2m11d27,y2m11\nconcept,store,c0,*\nconcept,store,c0t0,c0\n",
        "concept,store,c3t4s4,c3t4\nconcept,product,g0,*\n",
        "concept,product,g4l3i9,g4l3\ninsert,0,-99,y0m0d1,c0t0s0,g0l0i0\n",
        "\ninsert,1,-98,y0m0d7,c0t0s1,g0l3i5\nsync,0\nsync,1\nsync,2\nsync,3\nbalance,4\nbarrier\nsettle\nquery,0,*,*,*\nquery,1,y0,*,*\nquery,2,*,c1|c3,*\nquery,3,*,*,g2\naudit\n",
    ];
    let text = generate(rt.alloc(), 102, 1)?;
    let text = str::from_utf8(text.as_slice()).ok().ok_or("text")?;
    for part in &PARTS {
        assert!(rt; text.contains(*part));
    }
    assert!(rt; text.starts_with(PARTS[0]));
    assert!(rt; text.ends_with(PARTS[5]));
    Ok(())
}

/// How many lines a text has.
fn lines_of(text: &[u8]) -> usize {
    text.iter().filter(|b| **b == b'\n').count()
}

#[test]
fn pulls_come_after_each_thousand_rows(rt: HostRuntime) -> Result<(), Fail> {
    const CASES: [(u64, usize); 6] = [
        (1, 1),
        (999, 1),
        (1000, 1),
        (1001, 2),
        (2000, 2),
        (200_000, 200),
    ];
    for (rows, pulls) in &CASES {
        let (rows, pulls) = (*rows, *pulls);
        assert!(rt; rows <= 200_000 && pulls <= 200);
        let text = generate(rt.alloc(), rows, 7)?;
        let concepts = 3 + 36 + 1008 + 4 + 20 + 100 + 5 + 20 + 200;
        let lines = 5 + concepts + rows as usize + 6 * pulls + 6;
        assert_eq!(rt; lines_of(text.as_slice()), lines);
    }
    Ok(())
}

#[test]
fn is_read_as_a_script(rt: HostRuntime) -> Result<(), Fail> {
    const CASES: [(u64, usize); 3] = [(1, 13), (102, 114), (1001, 1019)];
    generated_is_a_script();
    for (rows, commands) in &CASES {
        let rows = *rows;
        assert!(rt; rows <= 200_000);
        let text = generate(rt.alloc(), rows, 7)?;
        let script = read_script(rt.alloc(), text.as_slice())?;
        assert_eq!(rt; script.hierarchy.concepts(), 1396);
        assert_eq!(rt; script.commands.len(), *commands);
    }
    Ok(())
}
