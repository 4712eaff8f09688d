// Small published arrays, and the first refusal where several rows hold. Tables are written in digits.
use crate::checking::check;
use crate::claim::{Claim, Failure, Verdict};
use refusal::{Fault, Layer, Slip};
use std::alloc::{AllocError, Global};
use std::test::Fail;

// What the checker tells, with these levels, strength, factors and runs.
fn told(
    heap: Global,
    numbers: [u32; 4],
    digits: &[u8],
    counters: &mut [u32],
) -> Result<Result<Verdict, Slip>, AllocError> {
    let [levels, strength, factors, runs] = numbers;
    let claim = Claim {
        levels,
        strength,
        factors,
        runs,
    };
    let cells: Vec<u8> = digits
        .iter()
        .map(|digit| digit.wrapping_sub(b'0'))
        .collect(heap)?;
    Ok(check(claim, &cells, counters).map_err(|fault| fault.slip()))
}

fn yes(index: u32) -> Result<Verdict, Slip> {
    Ok(Verdict::Yes { index })
}

fn no(columns: u32, combination: u32, count: u32) -> Result<Verdict, Slip> {
    Ok(Verdict::No(Failure {
        columns,
        combination,
        count,
    }))
}

fn refused(number: u8, place: usize) -> Result<Verdict, Slip> {
    Err(Slip {
        number,
        layer: Layer::Checker,
        place,
    })
}

#[test]
fn arrays(rt: HostRuntime) -> Result<(), Fail> {
    let heap = rt.alloc();
    let halves = b"000011101110";
    let mut four = [9; 4];
    assert_eq!(rt; told(heap, [2, 2, 3, 4], halves, &mut four)?, yes(1));
    assert_eq!(rt; four, [0; 4]);
    assert_eq!(rt; told(heap, [2, 1, 3, 4], halves, &mut [9; 2])?, yes(2));
    assert_eq!(rt; told(heap, [2, 3, 3, 4], halves, &mut [9; 8])?, no(7, 0, 1));
    let thirds = b"000001120221101111201202202221012210";
    assert_eq!(rt; told(heap, [3, 2, 4, 9], thirds, &mut [0; 9])?, yes(1));
    let twice = b"000011101110000011101110";
    assert_eq!(rt; told(heap, [2, 2, 3, 8], twice, &mut [0; 4])?, yes(2));
    Ok(())
}

#[test]
fn failures(rt: HostRuntime) -> Result<(), Fail> {
    let heap = rt.alloc();
    let corrupted = b"000011101111";
    let mut four = [7; 4];
    assert_eq!(rt;
        told(heap, [2, 2, 3, 4], corrupted, &mut four)?,
        no(5, 2, 0)
    );
    assert_eq!(rt; four, [0; 4]);
    // levels a, a + b and a + 2b by the clock of four
    let clock = b"000012020032111123131103222230202210333301313321";
    assert_eq!(rt;
        told(heap, [4, 2, 3, 16], clock, &mut [0; 16])?,
        no(5, 0, 2)
    );
    Ok(())
}

#[test]
fn refusals(rt: HostRuntime) -> Result<(), Fail> {
    let heap = rt.alloc();
    let mut four = [7; 4];
    assert_eq!(rt; told(heap, [17, 0, 0, 0], b"", &mut four)?, refused(1, 0));
    assert_eq!(rt; told(heap, [16, 0, 18, 0], b"", &mut four)?, refused(2, 0));
    assert_eq!(rt; told(heap, [16, 18, 17, 0], b"", &mut four)?, refused(3, 0));
    assert_eq!(rt; told(heap, [16, 5, 17, 1], b"", &mut four)?, refused(5, 0));
    assert_eq!(rt;
        told(heap, [2, 2, 2, 65537], b"", &mut four)?,
        refused(5, 0)
    );
    assert_eq!(rt; told(heap, [2, 2, 2, 2], b"002", &mut four)?, refused(6, 0));
    assert_eq!(rt;
        told(heap, [2, 2, 2, 2], b"0023", &mut four)?,
        refused(9, 2)
    );
    assert_eq!(rt; four, [7; 4]);
    Ok(())
}
