//! Breakpoints of both tables at marked places.
use crate::claims::assert_same;
use breakpoints::Table;
use std::test::Fail;

#[test]
fn breakpoints_at_marked_places(rt: HostRuntime) -> Result<(), Fail> {
    let rows = [
        (1, -32512, -24257),
        (127, -256, -65),
        (128, 0, 0),
        (129, 256, 65),
        (192, 16384, 8192),
        (254, 32256, 23940),
        (255, 32512, 24257),
    ];
    for (place, flat, bent) in rows {
        assert!(rt;
            1 <= place && place <= 255,
            "place {place} is none of a table"
        );
        assert_same!(rt; Table::Flat.at(place), flat, "flat at {place}");
        assert_same!(rt; Table::Bent.at(place), bent, "bent at {place}");
    }
    Ok(())
}
