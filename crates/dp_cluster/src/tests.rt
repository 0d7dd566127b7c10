use super::*;
use dp_session::{Entries, Trace};
use key_elements::{ElementList, read_list};
use std::alloc::Global;
use std::test::Fail;

// The list of the revocations of every key that was made before each of the dates.
fn list(alloc: Global, dates: &[u8]) -> Result<ElementList, Fail> {
    let mut bytes = Vec::new(alloc);
    for date in dates {
        bytes.extend_from_slice(&[3, 0, 0, 0, 0, 0, 0, 0, *date, 0])?;
    }
    Ok(read_list(alloc, bytes.as_slice())?)
}

// The traces of these lists, without entries.
fn traces(alloc: Global, lists: &[&[u8]]) -> Result<Vec<Trace>, Fail> {
    let mut traces = Vec::new(alloc);
    for dates in lists {
        traces.push(Trace {
            list: list(alloc, *dates)?,
            entries: Entries::of(Vec::new(alloc)),
        })?;
    }
    Ok(traces)
}

// A history, the lists of traces, and what their audit says.
#[test]
fn audits(rt: HostRuntime) -> Result<(), Fail> {
    let alloc = rt.alloc();
    let history: &[u8] = &[1, 2, 3];
    let cases: [(&str, &[&[u8]], Result<(), AuditFork>); 9] = [
        ("no trace", &[], Ok(())),
        ("empty traces", &[&[], &[]], Ok(())),
        ("fronts", &[&[1], &[1, 2, 3], &[1, 2]], Ok(())),
        (
            "a trace that goes on",
            &[&[1, 2], &[1, 2, 3, 4]],
            Err(AuditFork { trace: 1, at: 3 }),
        ),
        (
            "another element at place 1",
            &[&[1, 2, 3], &[1, 9, 3]],
            Err(AuditFork { trace: 1, at: 1 }),
        ),
        (
            "the first element",
            &[&[9]],
            Err(AuditFork { trace: 0, at: 0 }),
        ),
        (
            "another last element",
            &[&[1, 2, 9]],
            Err(AuditFork { trace: 0, at: 2 }),
        ),
        (
            "longer, and other before",
            &[&[1, 9, 3, 4]],
            Err(AuditFork { trace: 0, at: 1 }),
        ),
        (
            "two traces that differ",
            &[&[1], &[1, 2, 9], &[9], &[1, 2]],
            Err(AuditFork { trace: 1, at: 2 }),
        ),
    ];
    let history = list(alloc, history)?;
    for (case, lists, told) in cases {
        let traces = traces(alloc, lists)?;
        assert_eq!(rt; audit(&history, traces.as_slice()), told, "{case}");
    }
    Ok(())
}

#[test]
fn says_where(rt: HostRuntime) -> Result<(), Fail> {
    let fork = AuditFork { trace: 1, at: 3 };
    let text = format!(in rt.alloc(); "{fork}")?;
    assert_eq!(rt;
        text.as_str(),
        "trace 1 differs from the history at place 3"
    );
    Ok(())
}
