//! Texts by example.

use crate::support::{name, one};
use std::alloc::{AllocError, Global};
use vd_base::{Name, Text};
use vd_store::{Linkset, Report, Store, Verdict, Work, WorkKind, WorkName};

/// Whether the store has this version and text under a name.
fn has(store: &Store, name: &Name, version: u32, text: &[u8]) -> bool {
    match store.get(name) {
        Some((found, bytes)) => found == version && bytes.as_bytes() == text,
        None => false,
    }
}

#[test]
fn texts_are_kept(rt: HostRuntime) -> Result<(), AllocError> {
    let alloc = rt.alloc();
    let unit = name(alloc, b"u")?;
    let mut store = Store::new(alloc);
    store.put(name(alloc, b"u")?, Text::new(alloc, b"one")?)?;
    store.put(name(alloc, b"l")?, Text::new(alloc, b"two")?)?;
    let third = store.put(name(alloc, b"u")?, Text::new(alloc, b"three")?)?;
    assert!(rt; third == 3 && has(&store, &unit, 3, b"three"));
    let snapshot = store.snapshot()?;
    let first = snapshot.texts.get(0);
    assert!(rt; first.is_some_and(|text| text.0.as_bytes() == b"l".as_slice() && text.1 == 2));
    assert!(rt; snapshot.texts.len() == 2);
    assert!(rt; store.remove(&unit) && !store.remove(&unit) && store.get(&unit).is_none());
    Ok(())
}

#[test]
fn works_are_copied(rt: HostRuntime) -> Result<(), AllocError> {
    let alloc = rt.alloc();
    let inputs = one(alloc, Text::new(alloc, b"unit u\n")?)?;
    let work = Work {
        name: WorkName {
            kind: WorkKind::Body,
            owner: name(alloc, b"u")?,
            function: Some(name(alloc, b"main")?),
        },
        inputs,
    };
    let copy = work.copy(alloc)?;
    assert!(rt; copy.name.kind == WorkKind::Body && copy.name.owner.is_same(&work.name.owner));
    assert!(rt; copy.inputs.len() == 1);
    assert!(rt; Verdict::Accepted.is_accepted() && !Verdict::Refused(1, 3, 4).is_accepted());
    Ok(())
}

fn is_report_copied(alloc: Global) -> Result<bool, AllocError> {
    let report = Report {
        lines: one(alloc, Text::new(alloc, b"link l ok")?)?,
    };
    let copy = report.copy(alloc)?;
    let line = copy.line(0);
    Ok(copy.lines.len() == 1 && line.is_some_and(|line| line.as_bytes() == b"link l ok".as_slice()))
}

fn is_linkset_copied(alloc: Global) -> Result<bool, AllocError> {
    let linkset = Linkset {
        parts: one(alloc, (name(alloc, b"u")?, 7))?,
    };
    let copy = linkset.copy(alloc)?;
    let part = copy.parts.get(0);
    Ok(
        copy.parts.len() == 1
            && part.is_some_and(|part| part.0.as_bytes() == b"u".as_slice() && part.1 == 7),
    )
}

#[test]
fn reports_and_linksets_are_copied(rt: HostRuntime) -> Result<(), AllocError> {
    assert!(rt; is_report_copied(rt.alloc())?);
    assert!(rt; is_linkset_copied(rt.alloc())?);
    Ok(())
}
