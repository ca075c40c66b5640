//! Two passes of one number see each other's offers, which no clause of one call can say.
use super::*;
use std::test::*;

/// A task whose floor is 10.
struct AtLeastTen;

impl Floor for AtLeastTen {
    ghost floor = { λ _. 10 };
}

#[test]
fn each_pass_sees_the_other_s_offers(rt: HostRuntime) -> Result<(), Fail> {
    let Ok((best, mut passes)) = BestWord::begin(rt.alloc(), &AtLeastTen, 50, 2) else {
        return Err(Fail::new("no memory for a number with two passes"));
    };
    let (Some(mut second), Some(mut first)) = (passes.pop(), passes.pop()) else {
        return Err(Fail::new("fewer passes than callers"));
    };
    let opening = best.read(&mut first);
    let lowered = best.offer(&mut first, 30);
    let seen = best.read(&mut second);
    let too_high = best.offer(&mut second, 40);
    let still = best.read(&mut first);
    assert_eq!(rt;
        (opening, lowered, seen, too_high, still),
        (50, 50, 30, 30, 30),
        "reads and offers from 50"
    );
    passes.push(first)?;
    passes.push(second)?;
    assert_eq!(rt; best.close(passes), 30, "the least of 50, 30 and 40");
    Ok(())
}
