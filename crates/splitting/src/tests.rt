use crate::either::Either;
use crate::fault::Fault;
use crate::largest::Largest;
use crate::rule::Apportion;
use crate::running::Running;
use std::process::Abort;
use std::test::Fail;

// Splits the two worked charges into a list with one place too many, whose last place stays.
fn figures<R: Apportion>(rt: &impl Abort, rule: &R, charge: [u64; 3], cent: [u64; 3]) {
    let mut shares = [7, 7, 7];
    assert_eq!(rt; rule.split(45_000, &[110_000, 50_000], &mut shares), Ok(()));
    assert_eq!(rt; shares, charge);
    assert_eq!(rt; rule.split(1, &[2, 1], &mut shares), Ok(()));
    assert_eq!(rt; shares, cent);
}

#[test]
fn worked_figures(rt: HostRuntime) {
    figures(&rt, &Largest, [30_938, 14_062, 7], [1, 0, 7]);
    figures(&rt, &Running, [30_937, 14_063, 7], [0, 1, 7]);
    let mut rule: Either<Largest, Running> = Either::First(Largest);
    figures(&rt, &rule, [30_938, 14_062, 7], [1, 0, 7]);
    rule = Either::Second(Running);
    figures(&rt, &rule, [30_937, 14_063, 7], [0, 1, 7]);
}

// A refused split names its row and subject, and leaves the list.
fn refused(
    rt: &impl Abort,
    total: u64,
    weights: &[u32],
    row: u32,
    subject: u64,
) -> Result<(), Fail> {
    let mut shares = [7; 33];
    let places = if row == 14 { 1 } else { 33 };
    match Running.split(total, weights, &mut shares[0..places]) {
        Ok(()) => return Err(Fail::new("accepted")),
        Err(fault) => {
            assert_eq!(rt; fault.layer(), 'S');
            assert_eq!(rt; fault.row(), row);
            assert_eq!(rt; fault.subject(), subject);
        }
    }
    assert_eq!(rt; shares, [7; 33]);
    Ok(())
}

#[test]
fn refusals(rt: HostRuntime) -> Result<(), Fail> {
    refused(&rt, 1, &[0, 0], 14, 2)?;
    refused(&rt, 10_000_000_001, &[0; 33], 14, 33)?;
    refused(&rt, 1, &[], 16, 0)?;
    refused(&rt, 10_000_000_001, &[0; 33], 16, 0)?;
    refused(&rt, 0, &[0; 33], 17, 0)?;
    refused(&rt, 1, &[64_000_000, 1], 17, 0)?;
    refused(&rt, 10_000_000_001, &[1], 17, 0)
}

#[test]
fn limits(rt: HostRuntime) {
    let mut shares = [7; 33];
    assert_eq!(rt;
        Largest.split(10_000_000_000, &[2_000_000; 32], &mut shares),
        Ok(())
    );
    assert_eq!(rt; shares[0], 312_500_000);
    assert_eq!(rt; shares[31], 312_500_000);
    assert_eq!(rt; shares[32], 7);
}

#[test]
fn nothing_to_split(rt: HostRuntime) {
    let mut shares = [7, 7];
    assert_eq!(rt; Largest.split(0, &[], &mut shares), Ok(()));
    assert_eq!(rt; shares, [7, 7]);
    assert_eq!(rt; Largest.split(0, &[0, 0], &mut shares), Ok(()));
    assert_eq!(rt; shares, [0, 0]);
    assert_eq!(rt;
        Running.split(0, &[0, 3], &mut shares[0..1]),
        Err(Fault::ListTooShort(2))
    );
}
