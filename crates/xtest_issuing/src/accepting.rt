//! When certificates are accepted.

use crate::authority::{child, day, grant, with_leaf, with_root};
use ca_register::Register;
use names_core::UtcDate;
use sig_core::DemoScheme;
use std::alloc::Global;
use std::test::Fail;

/// Whether the certificate at an index is accepted at a date. It must be exactly if the register
/// calls it usable then.
fn accepts(
    alloc: Global,
    register: &Register<DemoScheme>,
    place: usize,
    date: &UtcDate,
) -> Result<bool, Fail> {
    let Some((from, to)) = register.usable(place) else {
        return Err(Fail::from("there is no such place"));
    };
    let usable = from <= *date && *date <= to;
    if place >= register.len() {
        return Err(Fail::from("there is no such place"));
    }
    let accepted = register.verify(alloc, place, date).is_ok();
    if accepted != usable {
        return Err(Fail::from("the register and the validator differ"));
    }
    Ok(accepted)
}

/// How many certificates are accepted at a date.
fn accepted(
    alloc: Global,
    register: &Register<DemoScheme>,
    date: (u16, u8, u8),
) -> Result<usize, Fail> {
    let date = day(date)?;
    let mut count = 0usize;
    for place in 0..register.len() {
        if accepts(alloc, register, place, &date)? {
            count = count.wrapping_add(1);
        }
    }
    Ok(count)
}

#[test]
fn accepts_while_all_validities_last(rt: HostRuntime) -> Result<(), Fail> {
    let register = with_leaf(rt.alloc())?;
    assert_eq!(rt; register.len(), 3);
    let rows = [
        ((2019, 12, 31), 0),
        ((2020, 1, 1), 1),
        ((2020, 6, 1), 1),
        ((2021, 1, 1), 3),
        ((2024, 6, 1), 3),
        ((2025, 1, 1), 3),
        ((2025, 1, 2), 2),
        ((2026, 1, 1), 2),
        ((2029, 1, 1), 2),
        ((2029, 1, 2), 1),
        ((2030, 1, 1), 1),
        ((2030, 1, 2), 0),
    ];
    for (date, count) in rows {
        assert_eq!(rt; accepted(rt.alloc(), &register, date)?, count);
    }
    Ok(())
}

#[test]
fn is_usable_between_the_nearest_ends(rt: HostRuntime) -> Result<(), Fail> {
    let register = with_leaf(rt.alloc())?;
    assert_eq!(rt;
        register.usable(0),
        Some((day((2020, 1, 1))?, day((2030, 1, 1))?))
    );
    assert_eq!(rt;
        register.usable(1),
        Some((day((2021, 1, 1))?, day((2029, 1, 1))?))
    );
    assert_eq!(rt;
        register.usable(2),
        Some((day((2021, 1, 1))?, day((2025, 1, 1))?))
    );
    assert_eq!(rt; register.usable(3), None);
    Ok(())
}

/// Validities that don't overlap: the certificate is issued, and never accepted.
#[test]
fn accepts_none_after_its_issuer(rt: HostRuntime) -> Result<(), Fail> {
    let mut register = with_root(rt.alloc())?;
    let late = grant(false, None, (2031, 2032))?;
    assert_eq!(rt;
        child(rt.alloc(), &mut register, (0, 17), ("X", 18), late)??,
        1
    );
    assert_eq!(rt; accepted(rt.alloc(), &register, (2030, 1, 1))?, 1);
    assert_eq!(rt; accepted(rt.alloc(), &register, (2031, 6, 1))?, 0);
    Ok(())
}

#[test]
fn returns_entries_and_certificates(rt: HostRuntime) -> Result<(), Fail> {
    let register = with_leaf(rt.alloc())?;
    let Some(entry) = register.entry(1) else {
        return Err(Fail::from("there is no entry"));
    };
    assert_eq!(rt; entry.issuer, Some(0));
    assert_eq!(rt; entry.grant, grant(true, Some(0), (2021, 2029))?);
    let Some(cert) = register.certificate(2) else {
        return Err(Fail::from("there is no certificate"));
    };
    assert_eq!(rt; cert.valid_not_before(), day((2020, 1, 1))?);
    assert!(rt; register.entry(3).is_none());
    assert!(rt; register.certificate(3).is_none());
    Ok(())
}
